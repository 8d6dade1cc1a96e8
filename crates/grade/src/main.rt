// Reads a first line and a trace from standard input, and prints the listing of the trace.
#![tactic(auto)]

use arrayvec::ArrayString;
use listing::listing::put_text;
use std::io;
use std::io::{Read, Write};

// One byte more than the listing takes, so that a longer input is told from one that just fits.
const INPUT: u64 = 16385;

fn main(rt: HostRuntime) -> io::Result<()> {
    let mut input = Vec::new(rt.alloc());
    let _ = rt.stdin().take(INPUT).read_to_end(&mut input)?;
    let mut page = ArrayString::new();
    put_text(&input, &mut page);
    rt.stdout().write_all(page.as_str().as_bytes())
}
