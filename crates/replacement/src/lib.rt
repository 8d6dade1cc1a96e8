// What replacement policies mean: models of a row of ways, the rules of LRU and SRRIP, the laws of a policy. Each function here ensures theorems, so that the check asks for their proofs.
#![tactic(auto)]

ghost use Rattle.replacement.specs.Lru.{KeepsRecent, TouchedLater, LeavesOldest, AgesTell};
ghost use Rattle.replacement.specs.Srrip.{AgesLow, Ripens, EvictsOldest};
ghost use Rattle.replacement.specs.Ways.{empty_row};
ghost use Rattle.replacement.specs.Lru as lru;
ghost use Rattle.replacement.specs.Srrip as srrip;
ghost use Rattle.replacement.specs.Sets.{ByRows, LruRecent, OneSetIsOneRow};

use geometry::numbers::LineNumber;

// One way of a set: empty, or with a line and its age. A flag, since an Option of both takes 24 bytes, and a row of 16 ways is promised in 32 words.
#[derive(Clone, Copy, PartialEq, Eq, Debug)]
pub struct Way {
    pub line: LineNumber,
    pub age: u8,
    pub held: bool,
}

// A row under LRU holds exactly the lines touched most recently, as many as it has ways; a held line was touched later than any that is not held; the line that leaves is the one whose latest touch is oldest; a line's age is the number of held lines touched since.
#[tactic(auto, using(crate::proofs::Lru::keeps_recent, crate::proofs::Lru::touched_later, crate::proofs::Lru::leaves_oldest, crate::proofs::Lru::ages_tell))]
pub fn lru_keeps_recent()
    ensures holds { KeepsRecent }
    ensures later { TouchedLater }
    ensures leaves { LeavesOldest }
    ensures ages { AgesTell }
{}

// In each set, from empty on, a policy is its rule run over what it was told of that set. So LRU holds in each set the lines of it touched most recently.
pub fn sets_go_by_rows()
    ensures lru { ByRows (λ _ x m. lru.touched x m) empty_row }
    ensures srrip { ByRows (λ _ x m. srrip.touched x m) empty_row }
    ensures recent { LruRecent }
{}

// Under SRRIP no age passes 3; the rises always lead to a victim; and it is the lowest-numbered way of the greatest age.
#[tactic(auto, using(crate::proofs::Srrip::ages_low, crate::proofs::Srrip::ripens, crate::proofs::Srrip::evicts_oldest))]
pub fn srrip_evicts_oldest()
    ensures ages { AgesLow }
    ensures ripens { Ripens }
    ensures victim { EvictsOldest }
{}

// The hits of a policy with one set are those of its row, by which examples are computed.
pub fn one_set_is_one_row()
    ensures { OneSetIsOneRow }
{}
