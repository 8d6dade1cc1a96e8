ghost use Rattle.notations.specs.Formats.{grammar_of};
ghost use Rattle.notations.specs.declared.format.Format.TheVariants.{Din, Lackey};
ghost use Rattle.notations.specs.DinMeans.{din_one};
ghost use Rattle.notations.specs.LackeyMeans.{lackey_one};

use crate::din::Din;
use crate::fault::LineFault;
use crate::lackey::Lackey;
use crate::line::Record;
use crate::notation::Notation;

// One of the notations, chosen at run time.
#[derive(Clone, Copy, PartialEq, Eq, Debug)]
pub enum Format {
    Din,
    Lackey,
}

impl Notation for Format {
    ghost grammar = { grammar_of };

    ghost one = { elim [ Din ↦ din_one | Lackey ↦ lackey_one ] };

    fn read<'t>(&self, line: &'t [u8]) -> Result<Option<Record<'t>>, LineFault> {
        match self {
            Format::Din => Din.read(line),
            Format::Lackey => Lackey.read(line),
        }
    }
}
