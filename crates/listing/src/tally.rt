ghost use Rattle.std.specs.Prelude.{◌≡◌, ℕ, ◌+◌, ◌-◌, ◌^◌, ◌<◌, ◌≤◌, List, length};
ghost use Rattle.geometry.specs.Lines.{upward, Sized, Within};
ghost use Rattle.notations.specs.Left.{left};
ghost use Rattle.listing.specs.Touches.{CountedOn};
ghost use Rattle.listing.specs.Counting.{RecordCounted, LineCounted, TraceCounted};

use crate::first::Settings;
use geometry::access::LineSpan;
use geometry::numbers::LineNumber;
use geometry::refusal::Refusal;
use notations::fault::{Beside, LineFault, TextFault};
use notations::line::Record;
use notations::notation::Notation;
use notations::text::Lines;

// How often each set was touched. Touches beyond a set's slots are refused.
#[derive(Drop)]
pub(crate) struct Tally<'a> {
    settings: Settings,
    counts: &'a mut [u32],
    ghost long: { length counts.now ≡ 2 ^ settings.geometry.s },
}

impl<'a> Tally<'a> {
    ghost use Rattle.listing.specs.Tallied.{Tallied};

    pub(crate) fn new(settings: Settings, counts: &'a mut [u32]) -> Tally<'a>
        requires { length counts.old ≡ 2 ^ settings.geometry.s }
        ensures settings { result.settings ≡ settings }
        ensures counts { result.counts.now ≡ counts.old }
    {
        Tally { settings, counts }
    }

    pub(crate) fn counts(&self) -> &[u32]
        ensures { result.now ≡ self.now.counts.now }
    {
        self.counts
    }

    // Counts the touches of some lines, each in its set, up to the first whose set is full.
    fn count_lines(&mut self, span: LineSpan) -> Result<(), Refusal>
        requires { (span.first.0 ≤ span.last.0) × (span.last.0 + 1 < 2 ^ 64) }
        ensures { Tallied self.old self.new (λ x taken counts. CountedOn x.geometry.s x.k taken (upward span.first.0 (span.last.0 + 1 - span.first.0)) result counts) }
    {
        let slots = 1 << self.settings.k;
        for line in span.first.0..span.last.0 + 1 {
            let set = self.settings.geometry.set_of(LineNumber(line)).0 as usize;
            if self.counts[set] >= slots {
                return Err(Refusal::SetFull);
            }
            self.counts[set] += 1;
        }
        Ok(())
    }

    // Counts the touches of a record; a refusal stands at its address's column.
    fn count_record(&mut self, access: &Record) -> Result<(), LineFault>
        requires { Sized access.now.size × Within access.now.address.0 access.now.size }
        ensures { Tallied self.old self.new (λ x taken counts. RecordCounted x.geometry.b x.geometry.s x.k taken access.now result counts) }
    {
        let at_address = |cause| LineFault {
            cause,
            column: access.column,
        };
        let span = self
            .settings
            .geometry
            .span(access.address, access.size)
            .map_err(at_address)?;
        self.count_lines(span).map_err(at_address)
    }

    // Counts the touches of one line of text, if it records any.
    fn count_line(&mut self, line: &[u8]) -> Result<(), LineFault>
        ensures { Tallied self.old self.new (λ x taken counts. LineCounted x x.k taken line.now result counts) }
    {
        match self.settings.format.read(line)? {
            None => Ok(()),
            Some(access) => self.count_record(&access),
        }
    }

    // Counts the touches of the lines that a reader has still to give.
    pub(crate) fn count_trace(&mut self, lines: &mut Lines) -> Result<(), TextFault>
        ensures { Tallied self.old self.new (λ x taken counts. TraceCounted x x.k taken (left lines.old) (lines.old.number + 1) result counts) }
    {
        while let Some(line) = lines.next() {
            self.count_line(line).beside(lines.number())?;
        }
        Ok(())
    }
}
