use geometry::refusal::Refusal;
use geometry::refusal::Refusal::{Misfit, PastMemory, UnknownKind};
use notations::fault::{Beside, LineFault, TextFault};
use notations::format::Format;
use notations::notation::Notation;
use notations::text::Lines;
use notations::text::reading::unbroken;

// A text, its lines in turn, and how many they are.
const CUTS: [(&[u8], [Option<&[u8]>; 3], usize); 8] = [
    (b"", [None, None, None], 0),
    (b"\n", [Some(b""), None, None], 1),
    (b"a", [Some(b"a"), None, None], 1),
    (b"a\n", [Some(b"a"), None, None], 1),
    (b"a\r\n", [Some(b"a\r"), None, None], 1),
    (b"a\nbc", [Some(b"a"), Some(b"bc"), None], 2),
    (b"a\n\nbc\n", [Some(b"a"), Some(b""), Some(b"bc")], 3),
    (b"\n\na", [Some(b""), Some(b""), Some(b"a")], 3),
];

#[test]
fn texts_are_cut(rt: HostRuntime) {
    for (text, expected, count) in CUTS {
        let mut lines = Lines::new(text);
        assert_eq!(rt; lines.number(), 0);
        for (i, line) in expected.iter().enumerate() {
            assert_eq!(rt; lines.next(), *line);
            assert_eq!(rt; lines.number(), count.min(i + 1));
        }
        assert_eq!(rt; lines.next(), None);
        assert_eq!(rt; lines.number(), count);
    }
}

// The number of the line that comes next. Of any reader it fits, by what the type keeps: the lines given and the bytes left are together below 2^63.
fn upcoming(lines: &Lines) -> usize {
    lines.number() + 1
}

#[test]
fn the_next_line_has_a_number(rt: HostRuntime) {
    let mut lines = Lines::new(b"a\n\nb");
    for number in 1..=3 {
        assert_eq!(rt; upcoming(&lines), number);
        assert!(rt; lines.next().is_some());
    }
    // that of a line after the last, too
    assert!(rt; lines.next().is_none());
    assert_eq!(rt; upcoming(&lines), 4);
}

#[test]
fn bytes_before_a_stop(rt: HostRuntime) {
    assert_eq!(rt; unbroken(b"", b'x'), 0);
    assert_eq!(rt; unbroken(b"xx", b'x'), 0);
    assert_eq!(rt; unbroken(b"abxcx", b'x'), 2);
    assert_eq!(rt; unbroken(b"abc", b'x'), 3);
}

// How many lines record an access.
fn records(format: Format, text: &[u8]) -> Result<usize, TextFault> {
    let mut lines = Lines::new(text);
    let mut count = 0;
    while let Some(line) = lines.next() {
        if format.read(line).beside(lines.number())?.is_some() {
            count += 1;
        }
    }
    Ok(count)
}

fn refused(cause: Refusal, line: usize, column: usize) -> Result<usize, TextFault> {
    let fault = LineFault { cause, column };
    Err(TextFault { fault, line })
}

#[test]
fn faults_tell_their_line(rt: HostRuntime) {
    assert_eq!(rt; records(Format::Din, b""), Ok(0));
    assert_eq!(rt; records(Format::Din, b"0 10\n \n1 20"), Ok(2));
    assert_eq!(rt;
        records(Format::Din, b"0 10\n\n4 10\n0 g\n"),
        refused(UnknownKind, 3, 1)
    );
    assert_eq!(rt; records(Format::Din, b"0 10\r\n"), refused(Misfit, 1, 5));
    assert_eq!(rt;
        records(Format::Lackey, b"==1== x\nI  04,3\n L 1e,4\n"),
        Ok(2)
    );
    assert_eq!(rt;
        records(Format::Lackey, b"==1== x\nI  04,3\n L 1e;4"),
        refused(Misfit, 3, 6)
    );
    assert_eq!(rt;
        records(Format::Lackey, b" L 1e,4\n\t\n S ffffffffffffffff,2\n"),
        refused(PastMemory, 3, 4)
    );
}

// A fault is kept whole, with the line beside it, and an answer is left as it is.
#[test]
fn faults_are_kept_whole(rt: HostRuntime) {
    let fault = LineFault {
        cause: Misfit,
        column: 5,
    };
    let refused: Result<u8, LineFault> = Err(fault);
    assert_eq!(rt; refused.beside(7), Err((fault, 7)));
    assert_eq!(rt; TextFault::from((fault, 7)), TextFault { fault, line: 7 });
    let taken: Result<u8, LineFault> = Ok(2);
    assert_eq!(rt; taken.beside(7), Ok(2));
}
