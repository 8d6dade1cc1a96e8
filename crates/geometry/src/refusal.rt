ghost use Rattle.std.specs.Prelude.{◌≡◌};
ghost use Rattle.geometry.specs.Refusals.{number as numbered};

// Why a call turns its input away. Every case has a number, by which listings and documents name it.
#[derive(Clone, Copy, PartialEq, Eq, Debug)]
pub enum Refusal {
    // b, s, W or k beyond its limits, or s + k too large
    Limits,
    // less memory than is needed
    Memory,
    // an access past the last address
    PastMemory,
    // a size outside 1 to 256
    Size,
    // a range whose start is after its end
    Reversed,
    // a set number that the geometry lacks
    NoSuchSet,
    // output shorter than what is to be written
    Output,
    // a first line that the program cannot take
    FirstLine,
    // a line of a kind that the notation lacks
    UnknownKind,
    // a byte that does not fit, or a line that ends early
    Misfit,
    // input longer than the program takes
    Input,
    // the line's set has no free slot
    SetFull,
    // a touch that was not taken
    NotTaken,
    // a policy of another shape than the grade's
    OtherShape,
}

impl Refusal {
    // A method and no `From`: `cause.number()` says what it gives, and `u8::from(cause)` does not.
    pub fn number(self) -> u8
        ensures { result ≡ numbered self }
    {
        match self {
            Refusal::Limits => 1,
            Refusal::Memory => 2,
            Refusal::PastMemory => 3,
            Refusal::Size => 4,
            Refusal::Reversed => 5,
            Refusal::NoSuchSet => 6,
            Refusal::Output => 8,
            Refusal::FirstLine => 9,
            Refusal::UnknownKind => 12,
            Refusal::Misfit => 13,
            Refusal::Input => 18,
            Refusal::SetFull => 21,
            Refusal::NotTaken => 22,
            Refusal::OtherShape => 23,
        }
    }
}
