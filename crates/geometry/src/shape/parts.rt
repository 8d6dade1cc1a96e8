ghost use Rattle.std.specs.Prelude.{◌≡◌, ◌/◌, ◌%◌, ◌^◌};
ghost use Rattle.geometry.specs.Opened.{Opened};

use crate::numbers::{Address, LineNumber, SetNumber};
use crate::refusal::Refusal;
use crate::shape::Geometry;

impl Geometry {
    // The geometry of b, s and W, if they are within the limits.
    pub fn new(b: u32, s: u32, ways: u32) -> Result<Geometry, Refusal>
        ensures { Opened b s ways result }
    {
        if !(2..=12).contains(&b) || s > 10 || !(1..=16).contains(&ways) {
            return Err(Refusal::Limits);
        }
        Ok(Geometry { b, s, ways })
    }

    // The logarithm of a line's size in bytes.
    pub fn b(self) -> u32
        ensures { result ≡ self.b }
    {
        self.b
    }

    // The logarithm of the number of sets.
    pub fn s(self) -> u32
        ensures { result ≡ self.s }
    {
        self.s
    }

    pub fn ways(self) -> u32
        ensures { result ≡ self.ways }
    {
        self.ways
    }

    pub fn sets(self) -> u32
        ensures { result ≡ 2 ^ self.s }
    {
        1 << self.s
    }

    // The line in which a byte lies.
    pub fn line_of(self, address: Address) -> LineNumber
        ensures { result.0 ≡ address.0 / 2 ^ self.b }
    {
        LineNumber(address.0 >> self.b)
    }

    // The set to which a line belongs.
    pub fn set_of(self, line: LineNumber) -> SetNumber
        ensures { result.0 ≡ line.0 % 2 ^ self.s }
    {
        let last = (1u64 << self.s) - 1;
        SetNumber((line.0 & last) as u32)
    }
}
