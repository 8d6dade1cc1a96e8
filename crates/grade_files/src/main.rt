// Prints the listing of each file that an argument names: each holds a first line and a trace, as the standard input of `grade` does.
#![tactic(auto)]

use arrayvec::ArrayString;
use listing::listing::{ROOM, put_text};
use std::io::Write;
use std::{env, fs, io};

fn print_listing(rt: &HostRuntime, name: &str, page: &mut ArrayString<ROOM>) -> io::Result<()> {
    let input = fs::read(rt, name)?;
    println!(rt; "{name}")?;
    put_text(&input, page);
    rt.stdout().write_all(page.as_str().as_bytes())
}

fn main(rt: HostRuntime) -> io::Result<()> {
    let mut page = ArrayString::new();
    for name in env::args(&rt)?.skip(1) {
        print_listing(&rt, &name, &mut page)?;
    }
    Ok(())
}
