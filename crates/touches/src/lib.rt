//! The touches that a cache has taken, set by set, and one turn of a set by its gaps with the oldest first.
//!
//! The definitions and the statements stand in specs/. Each function here ensures one theorem, so that the check asks for its proof.
#![tactic(auto)]

ghost use Rattle.touches.specs.Taken.{Spread};
ghost use Rattle.touches.specs.Turns.{TurnsGo, TurnsFound, Peaks};

/// A turn by the gaps, the oldest first, gives the verdict and the gaps of the rule.
pub fn turns_go()
    ensures { TurnsGo }
{}

/// The latest turn of a line is the turn of its last touch, and there is none exactly where it was never touched.
#[tactic(auto, using(crate::proofs::Last::found_turn))]
pub fn turns_found()
    ensures { TurnsFound }
{}

/// The peak of some gaps is the highest of them.
#[tactic(auto, using(crate::proofs::Peaks::peaks))]
pub fn peaks_are_highest()
    ensures { Peaks }
{}

/// While no set has more touches than slots and one has fewer, fewer touches are taken than there are slots.
#[tactic(auto, using(crate::proofs::Sets::spread))]
pub fn slots_suffice()
    ensures { Spread }
{}
