use crate::tests::seen::{access, agree, refused, skipped};
use geometry::refusal::Refusal::{Misfit, PastMemory, Size, UnknownKind};
use notations::format::Format;
use notations::lackey::Lackey;
use notations::line::Kind::{Fetch, Load, Modify, Store};

#[test]
fn lackey_lines(rt: HostRuntime) {
    let cases = [
        // lines of blanks only, and comments
        skipped(b""),
        skipped(b" "),
        skipped(b"   "),
        skipped(b"\t"),
        skipped(b" \t "),
        skipped(b"==123== x"),
        skipped(b"=="),
        refused(b"=", UnknownKind, 1),
        refused(b"=1=", UnknownKind, 1),
        refused(b" ==", UnknownKind, 2),
        // kinds
        access(b"I  04,3", Fetch, 4, 3, b"04", 4),
        access(b" L 1e,4", Load, 0x1e, 4, b"1e", 4),
        access(b" S 1E,4", Store, 0x1e, 4, b"1E", 4),
        access(b" M 1e,4", Modify, 0x1e, 4, b"1e", 4),
        refused(b"L 1e,4", UnknownKind, 1),
        refused(b" I 1e,4", UnknownKind, 2),
        refused(b" l 1e,4", UnknownKind, 2),
        refused(b"  L 1e,4", UnknownKind, 2),
        refused(b"\tL 1e,4", UnknownKind, 1),
        refused(b"0 10", UnknownKind, 1),
        refused(b"\r", UnknownKind, 1),
        // what parts the kind from the address
        refused(b"I 04,3", Misfit, 3),
        refused(b"I04,3", Misfit, 2),
        refused(b"I\t 04,3", Misfit, 2),
        refused(b"I   04,3", Misfit, 4),
        refused(b" L1e,4", Misfit, 3),
        refused(b" L\t1e,4", Misfit, 3),
        // lines that end early
        refused(b"I", Misfit, 2),
        refused(b"I ", Misfit, 3),
        refused(b"I  ", Misfit, 4),
        refused(b" L", Misfit, 3),
        refused(b" L ", Misfit, 4),
        refused(b" L 1e", Misfit, 6),
        refused(b" L 1e,", Misfit, 7),
        // bytes that do not fit
        refused(b" L ,4", Misfit, 4),
        refused(b" L g,4", Misfit, 4),
        refused(b" L 1e;4", Misfit, 6),
        refused(b" L 1e ,4", Misfit, 6),
        refused(b" L 1e\r", Misfit, 6),
        refused(b" L 1e,a", Misfit, 7),
        refused(b" L 1e, 4", Misfit, 7),
        refused(b" L 1e,4 ", Misfit, 8),
        refused(b" L 1e,4\r", Misfit, 8),
        refused(b" L 1e,1a", Misfit, 8),
        // sizes
        refused(b" L 1e,0", Size, 7),
        refused(b" L 1e,000", Size, 7),
        access(b" L 1e,1", Load, 0x1e, 1, b"1e", 4),
        access(b" L 1e,004", Load, 0x1e, 4, b"1e", 4),
        access(b" L 1e,256", Load, 0x1e, 256, b"1e", 4),
        refused(b" L 1e,257", Size, 7),
        refused(b" L 1e,999", Size, 7),
        refused(b" L 1e,0004", Misfit, 10),
        refused(b" L 1e,1000", Misfit, 10),
        // 16 and 17 digits
        access(b" L 0000000000000001,4", Load, 1, 4, b"0000000000000001", 4),
        access(
            b" L FFFFFFFFFFFFFFFF,1",
            Load,
            u64::MAX,
            1,
            b"FFFFFFFFFFFFFFFF",
            4,
        ),
        refused(b" L 00000000000000001,4", Misfit, 20),
        refused(b" L fffffffffffffffff,999", Misfit, 20),
        // accesses past the last address; the size is looked at first
        access(
            b" L ffffffffffffffff,1",
            Load,
            u64::MAX,
            1,
            b"ffffffffffffffff",
            4,
        ),
        refused(b" L ffffffffffffffff,2", PastMemory, 4),
        access(
            b" L ffffffffffffff00,256",
            Load,
            u64::MAX - 255,
            256,
            b"ffffffffffffff00",
            4,
        ),
        refused(b" L ffffffffffffff01,256", PastMemory, 4),
        refused(b" L ffffffffffffffff,0", Size, 21),
        refused(b" L ffffffffffffffff,257", Size, 21),
    ];
    agree(&rt, &Lackey, &cases);
    agree(&rt, &Format::Lackey, &cases);
}
