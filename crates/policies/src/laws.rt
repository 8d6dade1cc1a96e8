ghost use Rattle.policies.specs.Memory.{HoldsNothing};
ghost use Rattle.policies.specs.Recent.{LruReady, HoldsRecent, lru_state};

use crate::sets::Lru;
use rows::rule::RowRule;

// Opened where the check refuses, a policy holds nothing for ever.
#[tactic(auto, using(crate::proofs::Memory::holds_nothing))]
pub fn holds_nothing_without_room<R: RowRule>()
    ensures { HoldsNothing R.lines R.step R.none }
{}

// Whatever an LRU policy is told from its empty state on, each of its sets holds exactly the W lines of that set touched most recently.
pub fn lru_holds_recent(policy: &Lru<'_>)
    requires { LruReady policy.now }
    ensures { HoldsRecent (lru_state policy.now) }
{}
