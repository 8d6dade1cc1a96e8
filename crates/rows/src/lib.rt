// Rows of ways in memory, and the rules LRU and SRRIP on them.
#![tactic(auto)]

ghost use Rattle.std.specs.Prelude.{◌≡◌};

use crate::lru::LruRow;
use crate::srrip::SrripRow;

pub mod aged;
pub mod lru;
mod row;
pub mod rule;
pub mod srrip;

// The words of 64 bits in a row, which is the memory for one set, of LRU and of SRRIP.
pub fn row_words() -> (usize, usize)
    ensures { (result.0 ≡ 32) × (result.1 ≡ 32) }
{
    (size_of::<LruRow>() / 8, size_of::<SrripRow>() / 8)
}
