ghost use Rattle.std.specs.Prelude.{◌≡◌, ℕ, List, ◌++◌, IsTrue, ◌↔◌, MatchOption, ◌≢◌};
ghost use Rattle.notations.specs.Bytes.{Blank};
ghost use Rattle.notations.specs.Grammar.{Means, Refuses, said};
ghost use Rattle.notations.specs.Lackey.{lackey, prefix, Unopened, Commented};
ghost use Rattle.std.specs.List.{AllByRecursion};
ghost use Rattle.notations.specs.LackeyMeans.{lackey_one};

use crate::fault::LineFault;
use crate::line::{Kind, Record};
use crate::notation::Notation;
use crate::scan::{Numeral, figures, indent};
use geometry::numbers::Address;
use geometry::refusal::Refusal;

// The trace that Valgrind's tool Lackey prints under `--trace-mem=yes`.
#[derive(Clone, Copy, PartialEq, Eq, Debug)]
pub struct Lackey;

// The column at which a record's address begins, past its kind.
const ADDRESS: usize = 4;

impl Notation for Lackey {
    ghost grammar = { λ _. lackey };

    ghost one = { λ x. lackey_one };

    fn read<'t>(&self, line: &'t [u8]) -> Result<Option<Record<'t>>, LineFault> {
        match opening(line) {
            Some((kind, rest)) => access(kind, rest),
            None => unopened(line),
        }
    }
}

// The kind of a line that its first three bytes tell, and the bytes after them.
fn opening(line: &[u8]) -> Option<(Kind, &[u8])>
    ensures { MatchOption result (Unopened line.now) (λ opened. line.now ≡ prefix opened.0 ++ opened.1.now) }
{
    match line {
        [b'I', b' ', b' ', rest @ ..] => Some((Kind::Fetch, rest)),
        [b' ', b'L', b' ', rest @ ..] => Some((Kind::Load, rest)),
        [b' ', b'S', b' ', rest @ ..] => Some((Kind::Store, rest)),
        [b' ', b'M', b' ', rest @ ..] => Some((Kind::Modify, rest)),
        _ => None,
    }
}

// The rest of a line after its kind: the address, a comma, the size, the end.
fn access(kind: Kind, rest: &[u8]) -> Result<Option<Record<'_>>, LineFault>
    ensures { Means lackey (prefix kind ++ rest.now) (said result) }
{
    let Numeral { count, value } = figures(rest, 16, 16);
    if count == 0 {
        return Err(LineFault::new(Refusal::Misfit, ADDRESS));
    }
    let (digits, end) = rest.split_at(count);
    let [b',', sized @ ..] = end else {
        return Err(LineFault::new(Refusal::Misfit, ADDRESS + count));
    };
    let size = figures(sized, 10, 3);
    let column = ADDRESS + count + 1;
    if size.count == 0 || size.count < sized.len() {
        return Err(LineFault::new(Refusal::Misfit, column + size.count));
    }
    if !(1..=256).contains(&size.value) {
        return Err(LineFault::new(Refusal::Size, column));
    }
    if value.checked_add(size.value - 1).is_none() {
        return Err(LineFault::new(Refusal::PastMemory, ADDRESS));
    }
    Ok(Some(Record {
        kind,
        address: Address(value),
        size: size.value,
        digits,
        column: ADDRESS,
    }))
}

// A line that no kind opens is skipped, or refused for the first byte that could not open one.
#[tactic(auto, using(crate::specs::LackeyMeans::blank_skips, crate::specs::LackeyMeans::comment_skips, crate::specs::LackeyMeans::solid_line))]
fn unopened(line: &[u8]) -> Result<Option<Record<'_>>, LineFault>
    requires { Unopened line.now }
    ensures { Means lackey line.now (said result) }
{
    if indent(line) == line.len() || is_comment(line) {
        return Ok(None);
    }
    Err(opening_fault(line))
}

fn is_comment(line: &[u8]) -> bool
    ensures { IsTrue result ↔ Commented line.now }
{
    line.starts_with(b"==")
}

fn opening_fault(line: &[u8]) -> LineFault
    requires unopened { Unopened line.now }
    requires solid { AllByRecursion Blank line.now → ⊥ }
    ensures { Refuses lackey line.now result.cause result.column }
{
    match line {
        [b'I', b' ', ..] => LineFault::new(Refusal::Misfit, 3),
        [b'I', ..] => LineFault::new(Refusal::Misfit, 2),
        [b' ', b'L' | b'S' | b'M', ..] => LineFault::new(Refusal::Misfit, 3),
        [b' ', _, ..] => LineFault::new(Refusal::UnknownKind, 2),
        _ => LineFault::new(Refusal::UnknownKind, 1),
    }
}
