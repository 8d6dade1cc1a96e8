ghost use Rattle.std.specs.Prelude.{◌≡◌, ℕ, ◌+◌, ◌<◌, ◌≤◌, List, [], ◌∷◌, length, MatchOption};
ghost use Rattle.std.specs.Char.{digit_value};
ghost use Rattle.listing.specs.Fields.{awaited, fields, Number, Between, Got, Ended, FormatWord, PolicyWord, FirstLine};

use crate::first::{Fields, PolicyName, Settings};
use geometry::shape::Geometry;
use notations::format::Format;
use notations::text::reading::unbroken;

impl<'t> Fields<'t> {
    fn new(line: &'t [u8]) -> Fields<'t>
        ensures fields { awaited result ≡ fields line.now }
        ensures at { result.at ≡ 0 }
        ensures line { result.line.now ≡ line.now }
    {
        Fields { line, at: 0 }
    }

    // The next field, if the line has one.
    fn next_field(&mut self) -> Option<&'t [u8]>
        ensures line { self.new.line.now ≡ self.old.line.now }
        ensures field { MatchOption result ((awaited self.old ≡ []) × (self.new.at ≡ self.old.at)) (λ f. (awaited self.old ≡ f.now ∷ awaited self.new) × (self.new.at ≡ self.old.at + length f.now + 1)) }
    {
        let rest = self.line.get(self.at..)?;
        let length = unbroken(rest, b' ');
        self.at += length + 1;
        Some(&rest[..length])
    }

    // The next field, which is to be a word for some value; else the column of the fault.
    fn field<T: Word>(&mut self) -> Result<T, usize>
        ensures { Got T.Says self.old self.new result }
    {
        let column = self.at + 1;
        let word = self.next_field().ok_or(self.line.len() + 1)?;
        T::read(word).ok_or(column)
    }

    // The number in the next field, which is to be from `low` to `high`; else the column of the fault.
    fn number(&mut self, low: u32, high: u32) -> Result<u32, usize>
        ensures { Got (Between low high) self.old self.new result }
    {
        let column = self.at + 1;
        let n = self.field::<u32>()?;
        if !(low..=high).contains(&n) {
            return Err(column);
        }
        Ok(n)
    }

    // The line ends here; else the column of a field too many.
    fn end(&self) -> Result<(), usize>
        ensures { Ended self.now result }
    {
        if self.at <= self.line.len() {
            return Err(self.at + 1);
        }
        Ok(())
    }
}

// A value that a field of the first line can be a word for.
trait Word: Sized {
    ghost Says: { List ℕ → Self → Type 0 };

    fn read(word: &[u8]) -> Option<Self>
        ensures { MatchOption result ((x : Self) → Says word.now x → ⊥) (λ x. Says word.now x) };
}

// A number of one or two decimal digits. It is read here, since `parse` takes a sign and any number of zeros too.
impl Word for u32 {
    ghost Says = { Number };

    fn read(word: &[u8]) -> Option<u32> {
        match word {
            [ones] => digit(*ones),
            [tens, ones] => Some(digit(*tens)? * 10 + digit(*ones)?),
            _ => None,
        }
    }
}

fn digit(byte: u8) -> Option<u32>
    ensures { MatchOption result (10 ≤ digit_value byte) (λ d. (d ≡ digit_value byte) × (d < 10)) }
{
    char::from(byte).to_digit(10)
}

impl Word for Format {
    ghost Says = { FormatWord };

    fn read(word: &[u8]) -> Option<Format> {
        match word {
            b"din" => Some(Format::Din),
            b"lackey" => Some(Format::Lackey),
            _ => None,
        }
    }
}

impl Word for PolicyName {
    ghost Says = { PolicyWord };

    fn read(word: &[u8]) -> Option<PolicyName> {
        match word {
            b"lru" => Some(PolicyName::Lru),
            b"srrip" => Some(PolicyName::Srrip),
            _ => None,
        }
    }
}

// What the first line chooses, or the column of its fault.
pub fn settings(line: &[u8]) -> Result<Settings, usize>
    ensures { FirstLine line.now result }
{
    let mut fields = Fields::new(line);
    let b = fields.number(2, 12)?;
    let s = fields.number(0, 10)?;
    let ways = fields.number(1, 16)?;
    // s + k is at most 8, and so k at most 16
    let k = fields.number(1, 8u32.saturating_sub(s))?;
    let format = fields.field()?;
    let policy = fields.field()?;
    fields.end()?;
    let Ok(geometry) = Geometry::new(b, s, ways) else {
        unreachable()
    };
    Ok(Settings {
        geometry,
        k,
        format,
        policy,
    })
}
