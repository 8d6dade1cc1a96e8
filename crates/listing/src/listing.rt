ghost use Rattle.std.specs.Prelude.{◌≡◌, ℕ, ◌+◌, ◌≤◌, List, [], ◌++◌, length};
ghost use Rattle.arrayvec.specs.ArrayString.{array_string_len};
ghost use Rattle.notations.specs.Left.{left};
ghost use Rattle.listing.specs.Copies.{Copied};
ghost use Rattle.listing.specs.Listing.{row_of, stop, table, closing, Listed, Printed, Given};
ghost use Rattle.listing.specs.Touches.{Counted};
ghost use Rattle.listing.specs.Trace.{ending};

use crate::first::Settings;
use crate::first::parsing::settings;
use crate::page::{Page, push_number};
use crate::tally::Tally;
use arrayvec::ArrayString;
use geometry::refusal::Refusal;
use notations::fault::{LineFault, TextFault};
use notations::text::Lines;

// So many bytes have room for any listing.
pub const ROOM: usize = 8192;

// The longest input that is taken, in bytes.
const LONGEST: usize = 16384;

// The most sets that a first line can choose: s + k is at most 8, and k at least 1. Their counts stand in an array, as no heap is used.
const SETS: usize = 128;

// A line that tells a refusal, and where it stood. Pieces are pushed, since of a `write!` a proof does not know that it finds room.
#[tactic(auto, unfolding(crate::specs::Listing::stop))]
fn write_stop(page: &mut Page, fault: &TextFault)
    requires { array_string_len page.old + 100 ≤ 8192 }
    ensures { page.new.bytes ≡ page.old.bytes ++ stop fault.now.fault.cause fault.now.line fault.now.fault.column }
{
    // the words have 23 bytes, and each number at most 20
    page.push_str("stopped ");
    push_number(page, u64::from(fault.fault.cause.number()));
    page.push_str(" line ");
    push_number(page, fault.line as u64);
    page.push_str(" column ");
    push_number(page, fault.fault.column as u64);
    page.push_str("\n");
}

// The line of a set: its number and its touches.
#[tactic(auto, unfolding(crate::specs::Listing::row_of))]
fn write_set(page: &mut Page, set: usize, touches: u32)
    requires { array_string_len page.old + 42 ≤ 8192 }
    ensures long { array_string_len page.new ≤ array_string_len page.old + 42 }
    ensures bytes { page.new.bytes ≡ page.old.bytes ++ row_of set touches }
{
    push_number(page, set as u64);
    page.push_str(" ");
    push_number(page, u64::from(touches));
    page.push_str("\n");
}

// A line for each set, and one for all touches.
fn write_table(page: &mut Page, counts: &[u32])
    requires { (page.old.bytes ≡ []) × (length counts.now ≤ 128) }
    ensures long { array_string_len page.new ≤ 8000 }
    ensures bytes { (s : ℕ) (taken : List ℕ) → Counted s counts.now taken → page.new.bytes ≡ page.old.bytes ++ table s taken }
{
    page.push_str("set touches\n");
    let mut all: u64 = 0;
    for (set, touches) in counts.iter().enumerate() {
        write_set(page, set, *touches);
        all += u64::from(*touches);
    }
    page.push_str("all ");
    push_number(page, all);
    page.push_str("\n");
}

// The listing of the lines that a reader has still to give, but for the line that tells a refusal. The page comes empty, so that a fault can be carried
// up past it to the one place that prints it.
fn list_trace(settings: &Settings, lines: &mut Lines, page: &mut Page) -> Result<(), TextFault>
    requires { (page.old.bytes ≡ []) × (lines.old.number ≡ 1) }
    ensures long { array_string_len page.new ≤ 8000 }
    ensures bytes { Listed settings.now (left lines.old) (page.new.bytes ++ closing (ending result)) }
{
    let sets = settings.geometry.sets() as usize;
    let mut counts = [0u32; SETS];
    let mut tally = Tally::new(*settings, &mut counts[..sets]);
    let end = tally.count_trace(lines);
    write_table(page, tally.counts());
    end
}

// A refusal of the whole input, which has no line and prints 0 and 0, or of its first line.
fn refused(cause: Refusal, line: usize, column: usize) -> TextFault
    ensures { result ≡ record { fault = record { cause = cause; column = column }; line = line } }
{
    TextFault {
        fault: LineFault { cause, column },
        line,
    }
}

// What is printed of an input, but for the line that tells a refusal.
fn list_input(input: &[u8], page: &mut Page) -> Result<(), TextFault>
    requires { page.old.bytes ≡ [] }
    ensures long { array_string_len page.new ≤ 8000 }
    ensures bytes { Printed input.now (page.new.bytes ++ closing (ending result)) }
{
    if input.len() > LONGEST {
        return Err(refused(Refusal::Input, 0, 0));
    }
    let mut lines = Lines::new(input);
    let Some(first) = lines.next() else {
        return Err(refused(Refusal::FirstLine, 1, 1));
    };
    match settings(first) {
        Ok(settings) => list_trace(&settings, &mut lines, page),
        Err(column) => Err(refused(Refusal::FirstLine, 1, column)),
    }
}

// Puts the whole text that the program prints of its input on a lent page, in place of what stood there. The page is lent from call to call, since it has
// 8,192 bytes, which each call that handed one back would clear and copy.
pub fn put_text(input: &[u8], page: &mut ArrayString<ROOM>)
    ensures { Printed input.now page.new.bytes }
{
    page.clear();
    if let Err(fault) = list_input(input, page) {
        write_stop(page, &fault);
    }
}

// The whole text that the program prints of its input.
pub fn text_of(input: &[u8]) -> ArrayString<ROOM>
    ensures { Printed input.now result.bytes }
{
    let mut text = Page::new();
    put_text(input, &mut text);
    text
}

// Makes the whole text that the program prints of its input, at the front of the output, and answers its length; or refuses an output that is too short for it.
pub fn listing(input: &[u8], out: &mut [u8]) -> Result<usize, Refusal>
    ensures { Given input.now out.old result out.new }
{
    let mut page = Page::new();
    put_text(input, &mut page);
    copy(page.as_str().as_bytes(), out)
}

// Copies a text to the front of the output, if it fits there.
fn copy(text: &[u8], out: &mut [u8]) -> Result<usize, Refusal>
    ensures { Copied text.now out.old result out.new }
{
    let length = text.len();
    if length > out.len() {
        return Err(Refusal::Output);
    }
    out[..length].copy_from_slice(text);
    Ok(length)
}
