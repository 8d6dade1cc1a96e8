ghost use Rattle.std.specs.Prelude.{◌+◌, ◌^◌, ◌<◌, length};
ghost use Rattle.lastuse.specs.Chains.{Chained};

use crate::{Entry, LastUse, chain_of};
use geometry::numbers::LineNumber;

const FREE: Entry = Entry {
    line: LineNumber(0),
    last: 0,
    next: None,
};

// Notes the first turn of a line.
fn push(heads: &mut [Option<u32>], entries: &mut [Entry], used: usize, line: LineNumber, turn: u32)
    requires chained { Chained heads.old entries.old used }
    requires room { used < length entries.old }
    requires small { used < 2 ^ 32 }
    ensures { Chained heads.new entries.new (used + 1) }
{
    let chain = chain_of(line, heads.len());
    entries[used] = Entry {
        line,
        last: turn,
        next: heads[chain],
    };
    heads[chain] = Some(used as u32);
}

#[test]
fn lines_of_one_chain_are_told_apart(rt: HostRuntime) {
    let mut heads = [None; 1];
    let mut entries = [FREE; 3];
    push(&mut heads, &mut entries, 0, LineNumber(5), 2);
    push(&mut heads, &mut entries, 1, LineNumber(7), 4);
    let last_use = LastUse::new(&heads, &entries, 2);
    assert_eq!(rt; last_use.seek(LineNumber(5)), Some(0));
    assert_eq!(rt; last_use.seek(LineNumber(7)), Some(1));
    assert_eq!(rt; last_use.find(LineNumber(5)), Some(2));
    assert_eq!(rt; last_use.find(LineNumber(7)), Some(4));
    // the line of the free entry
    assert_eq!(rt; last_use.find(LineNumber(0)), None);
}

#[test]
fn each_chain_is_followed_to_its_end(rt: HostRuntime) {
    let mut heads = [None; 4];
    let mut entries = [FREE; 8];
    // lines 0, 3 and 6 have chain 0, line 1 has chain 1, and line 2 has chain 2
    push(&mut heads, &mut entries, 0, LineNumber(0), 10);
    push(&mut heads, &mut entries, 1, LineNumber(1), 11);
    push(&mut heads, &mut entries, 2, LineNumber(3), 13);
    let last_use = LastUse::new(&heads, &entries, 3);
    assert_eq!(rt; last_use.find(LineNumber(0)), Some(10));
    assert_eq!(rt; last_use.find(LineNumber(1)), Some(11));
    assert_eq!(rt; last_use.find(LineNumber(3)), Some(13));
    assert_eq!(rt; last_use.seek(LineNumber(3)), Some(2));
    assert_eq!(rt; last_use.seek(LineNumber(6)), None);
    assert_eq!(rt; last_use.find(LineNumber(2)), None);
}

#[test]
fn nothing_is_found_before_the_first_turn(rt: HostRuntime) {
    let heads = [None; 2];
    let entries = [FREE; 2];
    let last_use = LastUse::new(&heads, &entries, 0);
    assert_eq!(rt; last_use.find(LineNumber(0)), None);
    assert_eq!(rt; last_use.seek(LineNumber(1)), None);
}

#[test]
fn lines_are_spread_over_chains(rt: HostRuntime) {
    assert_eq!(rt; chain_of(LineNumber(5), 4), 3);
    assert_eq!(rt; chain_of(LineNumber(7), 4), 2);
    assert_eq!(rt; chain_of(LineNumber(0x8000_0000_0000_000B), 1024), 760);
    assert_eq!(rt; chain_of(LineNumber(5), 1), 0);
}
