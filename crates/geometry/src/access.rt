ghost use Rattle.geometry.specs.Lines.{Spans, Covers};

use crate::numbers::{Address, LineNumber};
use crate::refusal::Refusal;
use crate::shape::Geometry;

// The lines of an access, by their ends: `for n in span.first.0..span.last.0 + 1` goes over them.
#[derive(Clone, Copy, PartialEq, Eq, Debug)]
pub struct LineSpan {
    pub first: LineNumber,
    pub last: LineNumber,
}

impl Geometry {
    // The lines of the `size` bytes from `address` on.
    pub fn span(self, address: Address, size: u64) -> Result<LineSpan, Refusal>
        ensures { Spans self.b address.0 size result }
    {
        if !(1..=256).contains(&size) {
            return Err(Refusal::Size);
        }
        let end = address.0.checked_add(size - 1).ok_or(Refusal::PastMemory)?;
        Ok(LineSpan {
            first: self.line_of(address),
            last: self.line_of(Address(end)),
        })
    }
}

// The ends name the lines rightly: they are those in which a byte of the access lies, ascending, once each.
pub fn lines_are_covered()
    ensures { Covers }
{}
