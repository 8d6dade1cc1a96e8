use crate::tests::seen::{access, agree, refused, skipped};
use geometry::refusal::Refusal::{Misfit, UnknownKind};
use notations::din::Din;
use notations::format::Format;
use notations::line::Kind::{Fetch, Load, Store};

#[test]
fn din_lines(rt: HostRuntime) {
    let cases = [
        // lines of blanks only
        skipped(b""),
        skipped(b"   "),
        skipped(b"\t \t"),
        // labels
        access(b"0 10", Load, 0x10, 1, b"10", 3),
        access(b"1 10", Store, 0x10, 1, b"10", 3),
        access(b"2 10", Fetch, 0x10, 1, b"10", 3),
        refused(b"3 10", UnknownKind, 1),
        refused(b"4 10", UnknownKind, 1),
        refused(b"  4 10", UnknownKind, 3),
        refused(b"L 10", UnknownKind, 1),
        refused(b"==1== x", UnknownKind, 1),
        refused(b"\r", UnknownKind, 1),
        // blanks before and after the label
        access(b"\t0 10", Load, 0x10, 1, b"10", 4),
        access(b"0\t \t10", Load, 0x10, 1, b"10", 5),
        access(b"  0  10", Load, 0x10, 1, b"10", 6),
        refused(b"010", Misfit, 2),
        refused(b"0\r", Misfit, 2),
        // lines that end early
        refused(b"0", Misfit, 2),
        refused(b"0 ", Misfit, 3),
        refused(b" 0", Misfit, 3),
        refused(b" 0\t", Misfit, 4),
        // what follows the address
        access(b"0 10 ", Load, 0x10, 1, b"10", 3),
        access(b"0 10 and more", Load, 0x10, 1, b"10", 3),
        access(b"0 10\tg", Load, 0x10, 1, b"10", 3),
        refused(b"0 10,4", Misfit, 5),
        refused(b"0 10\r", Misfit, 5),
        access(b"0 10 \r", Load, 0x10, 1, b"10", 3),
        // digits
        refused(b"0 g", Misfit, 3),
        refused(b"0 1g", Misfit, 4),
        refused(b"0 0x10", Misfit, 4),
        access(b"0 aBcDeF09", Load, 0xabcdef09, 1, b"aBcDeF09", 3),
        access(b"0 0000000000000001", Load, 1, 1, b"0000000000000001", 3),
        access(
            b"0 ffffffffffffffff",
            Load,
            u64::MAX,
            1,
            b"ffffffffffffffff",
            3,
        ),
        access(
            b"0 FFFFFFFFFFFFFFFF",
            Load,
            u64::MAX,
            1,
            b"FFFFFFFFFFFFFFFF",
            3,
        ),
        refused(b"0 00000000000000001", Misfit, 19),
        refused(b"0 fffffffffffffffff", Misfit, 19),
    ];
    agree(&rt, &Din, &cases);
    agree(&rt, &Format::Din, &cases);
}
