ghost use Rattle.std.specs.Prelude.{◌+◌, ◌≤◌, length};

use geometry::shape::Geometry;
use notations::format::Format;

pub mod parsing;

// The policy that is to be set beside the oracle.
#[derive(Clone, Copy, PartialEq, Eq, Debug)]
pub enum PolicyName {
    Lru,
    Srrip,
}

// What the first line of the input chooses: each set has 2^k slots for its touches.
#[derive(Clone, Copy, Drop)]
pub struct Settings {
    pub geometry: Geometry,
    pub k: u32,
    pub format: Format,
    pub policy: PolicyName,
    ghost few: { (1 ≤ k) × (geometry.s + k ≤ 8) },
}

// The fields of a line: each space ends one, and the line's end the last. Past the line there are none. A fault is told by its column alone, since its
// cause is the same for every field; so the place in the line is kept, and not what is left of it.
#[derive(Drop)]
pub struct Fields<'t> {
    line: &'t [u8],
    at: usize,
    ghost within: { at ≤ length line.now + 1 },
}
