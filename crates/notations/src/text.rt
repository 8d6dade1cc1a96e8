ghost use Rattle.std.specs.Prelude.{◌+◌, ◌^◌, ◌<◌, length};

pub mod reading;

// The lines of a text that is lent, one after another, from the first that is not given yet. `number` is that of the line given last, from 1.
#[derive(Drop)]
pub struct Lines<'t> {
    rest: &'t [u8],
    number: usize,
    ghost counted: { number + length rest.now < 2 ^ 63 },
}
