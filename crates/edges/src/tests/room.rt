use geometry::refusal::Refusal;
use listing::listing::{listing, put_text, text_of};

const INPUT: &[u8] = b"4 0 2 3 din lru\n0 10\n0 20\n0 30\n0 10\n0 20\n0 30\n";

const TEXT: &[u8; 22] = b"set touches\n0 6\nall 6\n";

// An output that is just long enough is filled.
#[test]
fn output_that_just_fits(rt: HostRuntime) {
    let mut out = [7u8; 22];
    assert_eq!(rt; listing(INPUT, &mut out), Ok(22));
    assert!(rt; out == *TEXT);
}

// One byte less is refused, and no byte is altered.
#[test]
fn output_one_byte_short(rt: HostRuntime) {
    let mut out = [7u8; 21];
    assert_eq!(rt; listing(INPUT, &mut out), Err(Refusal::Output));
    assert!(rt; out == [7u8; 21]);
}

// Past the text the output is as it was.
#[test]
fn output_past_the_text(rt: HostRuntime) {
    let mut out = [7u8; 24];
    assert!(rt; listing(INPUT, &mut out).is_ok());
    assert!(rt; out[21] == b'\n' && out[22] == 7 && out[23] == 7);
}

// The text as it is made, with the line that tells a refusal of the trace, and alone for one of the input.
#[test]
fn texts_are_made(rt: HostRuntime) {
    assert_eq!(rt; text_of(INPUT).as_str().as_bytes(), TEXT.as_slice());
    assert_eq!(rt;
        text_of(b"4 0 2 3 din lru\n0 10\n4 10\n").as_str(),
        "set touches\n0 1\nall 1\nstopped 12 line 3 column 1\n"
    );
    assert_eq!(rt; text_of(b"").as_str(), "stopped 9 line 1 column 1\n");
}

// A page that holds a text already is written anew.
#[test]
fn pages_are_written_anew(rt: HostRuntime) {
    let mut page = text_of(b"4 0 2 3 din lru\n0 10\n4 10\n");
    put_text(INPUT, &mut page);
    assert_eq!(rt; page.as_str().as_bytes(), TEXT.as_slice());
    put_text(b"", &mut page);
    assert_eq!(rt; page.as_str(), "stopped 9 line 1 column 1\n");
}
