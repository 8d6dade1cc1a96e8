use geometry::access::LineSpan;
use geometry::numbers::{Address, LineNumber, SetNumber};
use geometry::refusal::Refusal;
use geometry::refusal::Refusal::{PastMemory, Size};
use geometry::shape::Geometry;
use std::test::Fail;

// b, s and W, and whether they are within the limits
const SHAPES: [(u32, u32, u32, bool); 14] = [
    (0, 0, 1, false),
    (1, 0, 1, false),
    (2, 0, 1, true),
    (12, 0, 1, true),
    (13, 0, 1, false),
    (u32::MAX, 0, 1, false),
    (4, 10, 1, true),
    (4, 11, 1, false),
    (4, 0, 0, false),
    (4, 0, 16, true),
    (4, 0, 17, false),
    (2, 10, 16, true),
    (12, 10, 16, true),
    (13, 11, 17, false),
];

#[test]
fn limits_of_shapes(rt: HostRuntime) -> Result<(), Fail> {
    for (b, s, ways, is_taken) in SHAPES {
        let made = Geometry::new(b, s, ways).map(|shape| (shape.b(), shape.s(), shape.ways()));
        let expected = if is_taken {
            Ok((b, s, ways))
        } else {
            Err(Refusal::Limits)
        };
        assert_eq!(rt; made, expected);
    }
    assert_eq!(rt; Geometry::new(4, 0, 1)?.sets(), 1);
    assert_eq!(rt; Geometry::new(4, 10, 1)?.sets(), 1024);
    Ok(())
}

// b, s and an address, with its line and that line's set
const PLACES: [(u32, u32, u64, u64, u32); 6] = [
    (4, 0, 0, 0, 0),
    (4, 0, 0x1f, 1, 0),
    (4, 2, 0x7f, 7, 3),
    (2, 1, 4, 1, 1),
    (2, 10, u64::MAX, u64::MAX / 4, 1023),
    (12, 10, u64::MAX, u64::MAX / 4096, 1023),
];

#[test]
fn places_of_addresses(rt: HostRuntime) -> Result<(), Fail> {
    for (b, s, address, line, set) in PLACES {
        let shape = Geometry::new(b, s, 1)?;
        assert_eq!(rt; shape.line_of(Address(address)), LineNumber(line));
        assert_eq!(rt; shape.set_of(LineNumber(line)), SetNumber(set));
    }
    Ok(())
}

// b, the address and the size of an access, with its first and its last line, or its refusal
const SPANS: [(u32, u64, u64, Result<(u64, u64), Refusal>); 18] = [
    (4, 0x1e, 4, Ok((1, 2))),
    (4, 0x1e, 2, Ok((1, 1))),
    (4, 0, 0, Err(Size)),
    (4, 0, 1, Ok((0, 0))),
    (4, 0, 256, Ok((0, 15))),
    (4, 1, 256, Ok((0, 16))),
    (4, 0, 257, Err(Size)),
    (4, 0, u64::MAX, Err(Size)),
    (2, 3, 2, Ok((0, 1))),
    (12, 0xfff, 1, Ok((0, 0))),
    (12, 0xfff, 2, Ok((0, 1))),
    (12, 0x1000, 1, Ok((1, 1))),
    (4, u64::MAX, 0, Err(Size)),
    (4, u64::MAX, 1, Ok((u64::MAX / 16, u64::MAX / 16))),
    (4, u64::MAX, 2, Err(PastMemory)),
    (4, u64::MAX, 257, Err(Size)),
    (
        2,
        u64::MAX - 255,
        256,
        Ok((u64::MAX / 4 - 63, u64::MAX / 4)),
    ),
    (2, u64::MAX - 254, 256, Err(PastMemory)),
];

#[test]
fn lines_of_accesses(rt: HostRuntime) -> Result<(), Fail> {
    for (b, address, size, expected) in SPANS {
        let span = Geometry::new(b, 0, 1)?.span(Address(address), size);
        let expected = expected.map(|(first, last)| LineSpan {
            first: LineNumber(first),
            last: LineNumber(last),
        });
        assert_eq!(rt; span, expected);
    }
    Ok(())
}

const NUMBERS: [(Refusal, u8); 14] = [
    (Refusal::Limits, 1),
    (Refusal::Memory, 2),
    (Refusal::PastMemory, 3),
    (Refusal::Size, 4),
    (Refusal::Reversed, 5),
    (Refusal::NoSuchSet, 6),
    (Refusal::Output, 8),
    (Refusal::FirstLine, 9),
    (Refusal::UnknownKind, 12),
    (Refusal::Misfit, 13),
    (Refusal::Input, 18),
    (Refusal::SetFull, 21),
    (Refusal::NotTaken, 22),
    (Refusal::OtherShape, 23),
];

#[test]
fn numbers_of_refusals(rt: HostRuntime) {
    for (cause, number) in NUMBERS {
        assert_eq!(rt; cause.number(), number);
    }
}
