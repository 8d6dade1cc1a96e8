//! Tries every legal history of every trace of up to 6 touches over 3 lines, with 1 to 3 ways.
//!
//! Each line of the output has a digit for each trace: the most hits that a legal history of it has. Traces stand in the order of the
//! words AAA, AAB, AAC, ABA and so on, the first touch first. The line ends with whether OPTgen's rule counts the same for each.
#![tactic(auto)]

ghost use Rattle.std.specs.Prelude.{◌≡◌, ◌≤◌, true, length};
ghost use Rattle.histories.specs.Rule.{fits, raise, occupancies, hits};

use std::alloc::{AllocError, Global};
use std::io;

/// No trace is longer.
const LONGEST: usize = 6;

/// For each of the lines 0, 1 and 2, whether it is held.
type Contents = [bool; 3];

const EVERY: [Contents; 8] = [
    [false, false, false],
    [false, false, true],
    [false, true, false],
    [false, true, true],
    [true, false, false],
    [true, false, true],
    [true, true, false],
    [true, true, true],
];

fn holds(held: Contents, line: u8) -> bool {
    held.get(usize::from(line)).copied().unwrap_or(false)
}

/// Whether `after` may be held after a touch of `line`, where `before` was held before it.
fn may_follow(before: Contents, line: u8, after: Contents, ways: u8) -> bool {
    // by name, since the whole search takes 2.7 times as long where the held lines are counted as items
    let [first, second, third] = after.map(usize::from);
    let mut lines = before.iter().zip(&after).enumerate();
    lines.all(|(i, (was, is))| !is || *was || i == usize::from(line))
        && first + second + third <= usize::from(ways)
}

/// The most hits that the touches still to come can have, where `held` is held before them. The touches have the newest first, so the next is the last.
fn best(touches: &[u8], held: Contents, ways: u8) -> usize
    ensures { result ≤ length touches.now }
{
    let [later @ .., line] = touches else {
        return 0;
    };
    let mut most = 0;
    // a loop, since a closure that calls `best` again gets no proof
    for after in EVERY {
        if may_follow(held, *line, after, ways) {
            most = most.max(best(later, after, ways));
        }
    }
    if holds(held, *line) { most + 1 } else { most }
}

/// The rule's test: every gap since the last touch of `line` has room, and there is such a touch.
#[tactic(auto, unfolding(histories::specs::Rule::fits))]
fn has_room(ways: u8, line: u8, touches: &[u8], gaps: &[u8]) -> bool
    ensures { result ≡ fits ways line touches.now gaps.now }
{
    let [touch, earlier @ ..] = touches else {
        return false;
    };
    let [gap, older @ ..] = gaps else {
        return false;
    };
    *gap < ways && (line == *touch || has_room(ways, line, earlier, older))
}

/// The rule's raise, where the test has found room.
#[tactic(auto, unfolding(histories::specs::Rule::fits, histories::specs::Rule::raise))]
fn fill(ways: u8, line: u8, touches: &[u8], gaps: &mut [u8])
    requires { fits ways line touches.now gaps.old ≡ true }
    ensures { gaps.new ≡ raise line touches.now gaps.old }
{
    let [touch, earlier @ ..] = touches else {
        return;
    };
    let (gap, older) = gaps.split_first_mut().unwrap();
    *gap += 1;
    if line != *touch {
        fill(ways, line, earlier, older);
    }
}

/// The hits that the rule counts. The gaps are left with its occupancies.
#[tactic(auto, unfolding(histories::specs::Rule::hits, histories::specs::Rule::verdicts, histories::specs::Rule::occupancies))]
fn rule(ways: u8, touches: &[u8], gaps: &mut [u8]) -> usize
    requires { length gaps.old ≡ length touches.now }
    ensures count { result ≡ hits ways touches.now }
    ensures small { result ≤ length touches.now }
    ensures gaps { gaps.new ≡ occupancies ways touches.now }
{
    let [line, earlier @ ..] = touches else {
        return 0;
    };
    let (gap, older) = gaps.split_first_mut().unwrap();
    *gap = 0;
    let count = rule(ways, earlier, older);
    if has_room(ways, *line, earlier, older) {
        fill(ways, *line, earlier, older);
        count + 1
    } else {
        count
    }
}

/// The trace of a number in base 3, the newest touch first.
fn trace(number: u16) -> [u8; LONGEST] {
    let mut touches = [0; LONGEST];
    let mut left = number;
    for touch in &mut touches {
        *touch = (left % 3) as u8;
        left /= 3;
    }
    touches
}

/// The best counts of the traces of a length, a digit each, and whether the rule counts the same.
#[derive(Drop)]
struct Counts {
    digits: String,
    agree: bool,
}

fn tabulate(heap: Global, ways: u8, len: usize) -> Result<Counts, AllocError>
    requires { len ≤ LONGEST }
{
    let mut digits = String::new(heap);
    let mut agree = true;
    for number in 0..3u16.pow(len as u32) {
        let touches = trace(number);
        let mut gaps = [0; LONGEST];
        let most = best(&touches[..len], [false; 3], ways);
        let counted = rule(ways, &touches[..len], &mut gaps[..len]);
        agree = agree && counted == most;
        write!(digits, "{most}")?;
    }
    Ok(Counts { digits, agree })
}

fn main(rt: HostRuntime) -> io::Result<()> {
    for ways in 1..=3 {
        for len in 1..=LONGEST {
            let Counts { digits, agree } = tabulate(rt.alloc(), ways, len)?;
            let said = if agree {
                "as the rule"
            } else {
                "not as the rule"
            };
            println!(rt; "W {ways}, touches {len}: {digits}, {said}")?;
        }
    }
    Ok(())
}
