ghost use Rattle.std.specs.Prelude.{◌≡◌, ◌+◌, ◌<◌, ◌≤◌, [], ◌∷◌, length, IfSome, MatchOption};
ghost use Rattle.std.specs.Iterator.{item_count};
ghost use Rattle.notations.specs.Left.{left, GivesLine};
ghost use Rattle.notations.specs.Text.{lines, Rejoins, LongestWithout};

use crate::text::Lines;

impl<'t> Lines<'t> {
    pub fn new(text: &'t [u8]) -> Lines<'t>
        ensures lines { left result ≡ lines text.now }
        ensures number { result.number ≡ 0 }
    {
        Lines {
            rest: text,
            number: 0,
        }
    }

    // The number of the line given last.
    pub fn number(&self) -> usize
        ensures { result ≡ self.now.number }
    {
        self.number
    }
}

// Each line comes without its LF.
impl<'t> Iterator for Lines<'t> {
    type Item = &'t [u8];

    ghost next_gives = { GivesLine };

    ghost remaining = { item_count left };

    fn next(&mut self) -> Option<&'t [u8]> {
        let (line, rest) = split_line(self.rest)?;
        self.rest = rest;
        self.number += 1;
        Some(line)
    }
}

// The first line of a text, without its LF, and what follows it.
fn split_line(text: &[u8]) -> Option<(&[u8], &[u8])>
    ensures line { MatchOption result (lines text.now ≡ []) (λ cut. lines text.now ≡ cut.0.now ∷ lines cut.1.now) }
    ensures shorter { IfSome result (λ cut. length cut.1.now < length text.now) }
{
    if text.is_empty() {
        return None;
    }
    let (line, end) = text.split_at(unbroken(text, b'\n'));
    match end {
        [_, rest @ ..] => Some((line, rest)),
        [] => Some((line, end)),
    }
}

// How many bytes come before the first `stop`, or before the end.
pub fn unbroken(bytes: &[u8], stop: u8) -> usize
    ensures { LongestWithout stop bytes.now result }
{
    bytes
        .iter()
        .position(|byte| *byte == stop)
        .unwrap_or(bytes.len())
}

// Lines are cut rightly: no line holds an LF, and with their LFs they are the text again.
#[tactic(auto, using(crate::proofs::Texts::rejoins))]
pub fn lines_rejoin()
    ensures { Rejoins }
{}
