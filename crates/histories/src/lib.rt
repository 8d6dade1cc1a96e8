//! One set of a cache: OPTgen's rule, legal histories, and why no history has more hits than the rule counts.
//!
//! The definitions and the statements stand in specs/. Each function here ensures one theorem, so that the check asks for its proof.
#![tactic(auto)]

ghost use Rattle.histories.specs.Rule.{RuleByIndex};
ghost use Rattle.histories.specs.Histories.{Bounded, Rises};
ghost use Rattle.histories.specs.Schedule.{KeptForHits, Attained, WaysFit, HeldByRows};

/// The rule as it is defined agrees with the rule as published, by turns and gaps.
pub fn rule_by_index()
    ensures { RuleByIndex }
{}

/// No legal history has more hits than the rule counts.
#[tactic(auto, using(crate::proofs::Upper::upper))]
pub fn bounded()
    ensures { Bounded }
{}

/// The schedule holds a line exactly from a touch to its next where that next touch is a hit.
#[tactic(auto, using(crate::proofs::Keeping::kept_for_hits))]
pub fn kept_for_hits()
    ensures { KeptForHits }
{}

/// The schedule is a legal history with exactly the rule's hits, and its sizes are the occupancies.
pub fn attained()
    ensures { Attained }
{}

/// A touch is a hit exactly when the best count rises with it, and a miss exactly when it stays.
pub fn rises()
    ensures { Rises }
{}

/// After each turn, the lines that the rows hold sit in ways of the set, one line to a way, and a line keeps its way while it is held.
#[tactic(auto, using(crate::proofs::Seats::ways_fit))]
pub fn ways_fit()
    ensures { WaysFit }
{}

/// The rows, read forward as a loader does, hold after each turn what the schedule holds.
pub fn held_by_rows()
    ensures { HeldByRows }
{}
