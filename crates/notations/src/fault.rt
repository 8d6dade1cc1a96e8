ghost use Rattle.std.specs.Prelude.{◌≡◌, Result};
ghost use Rattle.notations.specs.Layers.{paired};

use geometry::refusal::Refusal;

// A line was refused: why, and at which column, from 1.
#[derive(Clone, Copy, PartialEq, Eq, Debug)]
pub struct LineFault {
    pub cause: Refusal,
    pub column: usize,
}

// A text was refused: the fault of one of its lines, kept whole, and that line's number, from 1 (0 and column 0 for the whole text).
#[derive(Clone, Copy, PartialEq, Eq, Debug)]
pub struct TextFault {
    pub fault: LineFault,
    pub line: usize,
}

impl LineFault {
    pub(crate) fn new(cause: Refusal, column: usize) -> LineFault
        ensures { result ≡ record { cause = cause; column = column } }
    {
        LineFault { cause, column }
    }
}

impl From<(LineFault, usize)> for TextFault {
    ghost from_gives = { λ e r. r ≡ record { fault = e.0; line = e.1 } };

    fn from(e: (LineFault, usize)) -> TextFault {
        let (fault, line) = e;
        TextFault { fault, line }
    }
}

// What a layer knows is put beside the error of the layer below, so that `?` can make its own fault of the two.
pub trait Beside<T, E, K> {
    ghost besides: { Self → K → Result T (E × K) → Type 0 };

    fn beside(self, known: K) -> Result<T, (E, K)>
        ensures { besides self known result };
}

impl<T: Drop, E: Drop, K: Drop> Beside<T, E, K> for Result<T, E> {
    ghost besides = { λ s k r. r ≡ paired s k };

    fn beside(self, known: K) -> Result<T, (E, K)> {
        self.map_err(|e| (e, known))
    }
}
