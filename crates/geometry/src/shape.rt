ghost use Rattle.geometry.specs.Shape.{Shape};

pub mod parts;

// The shape of a cache: lines of 2^b bytes, 2^s sets, W ways. The limits of the three stand in its type, so nothing that receives a geometry tests it.
#[derive(Clone, Copy, Drop)]
pub struct Geometry {
    b: u32,
    s: u32,
    ways: u32,
    ghost limits: { Shape b s ways },
}
