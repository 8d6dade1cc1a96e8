//! The last turn of each line of a set. Each line has one entry, in the order in which the lines came, and the entries of lines that share a chain lead
//! to one another, from the newest to the oldest. All of it is lent memory, so it is no map of the library's.
#![tactic(auto)]

ghost use Rattle.std.specs.Prelude.{◌≡◌, ℕ, ◌<◌, length, take, MatchOption};
ghost use Rattle.std.proofs.Props.{props};
ghost use Rattle.lastuse.specs.Chains.{chain_of, Chained, Latest, Absent, look};

use geometry::numbers::LineNumber;

// A line, its last turn, and the place of the entry before it in its chain.
#[derive(Clone, Copy)]
pub struct Entry {
    pub line: LineNumber,
    pub last: u32,
    pub next: Option<u32>,
}

// The entries of a set, and the place of the newest in each of its chains.
#[derive(Clone, Copy)]
pub struct LastUse<'a> {
    pub heads: &'a [Option<u32>],
    pub entries: &'a [Entry],
    ghost chained: { Chained heads.now entries.now (length entries.now) } by { Prim.hlevel props },
}

// The chain of a line, of `count` chains; where `count` is a power of two the mask reaches each of them. The lines of one set agree in their low bits, so
// they are first multiplied by 2^64 over the golden ratio, which spreads lines of any stride that is a power of two, up to 2^32, over the chains.
#[tactic(auto, unfolding(crate::specs::Chains::chain_of))]
pub fn chain_of(line: LineNumber, count: usize) -> usize
    ensures value { result ≡ chain_of line.0 count }
    ensures within { 0 < count → result < count }
{
    (line.0.wrapping_mul(0x9E37_79B9_7F4A_7C15) >> 32) as usize & count.saturating_sub(1)
}

impl<'a> LastUse<'a> {
    // The chains of the first `used` entries.
    #[tactic(auto, using(crate::proofs::Walks::look_front))]
    pub fn new(heads: &'a [Option<u32>], entries: &'a [Entry], used: usize) -> LastUse<'a>
        requires { Chained heads.now entries.now used }
        ensures heads { result.heads.now ≡ heads.now }
        ensures entries { result.entries.now ≡ take used entries.now }
        ensures same { let es = result.entries.now in (line : ℕ) → look es (length es) line ≡ look entries.now used line }
    {
        LastUse {
            heads,
            entries: &entries[..used],
        }
    }

    // The place of a line's entry.
    pub fn seek(&self, line: LineNumber) -> Option<usize>
        ensures { let es = self.now.entries.now in MatchOption result (Absent es (length es) line.0) (λ i. Latest es (length es) line.0 i) }
    {
        let mut at = self.heads[chain_of(line, self.heads.len())];
        while let Some(place) = at {
            let entry = self.entries[place as usize];
            if entry.line == line {
                return Some(place as usize);
            }
            at = entry.next;
        }
        None
    }

    // The last turn of a line.
    #[tactic(auto, using(crate::proofs::Walks::look_latest, crate::proofs::Walks::look_absent))]
    pub fn find(&self, line: LineNumber) -> Option<u32>
        ensures { let es = self.now.entries.now in result ≡ look es (length es) line.0 }
    {
        self.seek(line).map(|place| self.entries[place].last)
    }
}

#[cfg(test)]
mod tests;
