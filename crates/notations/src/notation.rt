ghost use Rattle.std.specs.Prelude.{◌≡◌, ℕ, List};
ghost use Rattle.notations.specs.Grammar.{Grammar, Said, Means, said};

use crate::fault::LineFault;
use crate::line::Record;

// A notation for traces: each line has one meaning, from its bytes alone.
pub trait Notation {
    ghost grammar: { Self → Grammar };

    // The access that the line records, or `None` where the line is skipped.
    fn read<'t>(&self, line: &'t [u8]) -> Result<Option<Record<'t>>, LineFault>
        ensures { Means (grammar self.now) line.now (said result) };

    ghost one: { (x : Self) (line : List ℕ) (m n : Said) → Means (grammar x) line m → Means (grammar x) line n → m ≡ n };
}
