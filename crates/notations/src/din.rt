ghost use Rattle.std.specs.Prelude.{◌≡◌, Some as Known, MatchOption, ◌≢◌};
ghost use Rattle.notations.specs.Din.{din, label};
ghost use Rattle.notations.specs.DinMeans.{din_one};

use crate::fault::LineFault;
use crate::line::{Kind, Record};
use crate::notation::Notation;
use crate::scan::{Numeral, figures, indent, stops};
use geometry::numbers::Address;
use geometry::refusal::Refusal;

// Dinero's din: a label, an address, and what else the line may hold.
#[derive(Clone, Copy, PartialEq, Eq, Debug)]
pub struct Din;

// The kind that a label names. Each notation names kinds in its own way, so `Kind` has no `TryFrom`.
fn kind_of(byte: u8) -> Option<Kind>
    ensures { MatchOption result ((k : Kind) → label k ≢ Known byte) (λ k. label k ≡ Known byte) }
{
    match byte {
        b'0' => Some(Kind::Load),
        b'1' => Some(Kind::Store),
        b'2' => Some(Kind::Fetch),
        _ => None,
    }
}

impl Notation for Din {
    ghost grammar = { λ _. din };

    ghost one = { λ x. din_one };

    fn read<'t>(&self, line: &'t [u8]) -> Result<Option<Record<'t>>, LineFault> {
        let before = indent(line);
        let [label, after @ ..] = &line[before..] else {
            return Ok(None);
        };
        let Some(kind) = kind_of(*label) else {
            return Err(LineFault::new(Refusal::UnknownKind, before + 1));
        };
        let gap = indent(after);
        let rest = &after[gap..];
        let Numeral { count, value } = figures(rest, 16, 16);
        let column = before + gap + 2;
        if gap == 0 || count == 0 {
            return Err(LineFault::new(Refusal::Misfit, column));
        }
        let (digits, end) = rest.split_at(count);
        if !stops(end) {
            return Err(LineFault::new(Refusal::Misfit, column + count));
        }
        Ok(Some(Record {
            kind,
            address: Address(value),
            size: 1,
            digits,
            column,
        }))
    }
}
