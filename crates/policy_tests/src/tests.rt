use geometry::numbers::LineNumber;
use geometry::refusal::Refusal;
use policies::sets::{Lru, Srrip, hits_over};
use policies::shape::Shape;
use policy::Policy;
use rows::lru::LruRow;
use rows::rule::RowRule;
use rows::srrip::SrripRow;

// Lines that look random, below some number.
fn mixed(below: u64) -> [LineNumber; 64] {
    let mut lines = [LineNumber(0); 64];
    let mut x: u64 = 1;
    for line in &mut lines {
        x = x.wrapping_mul(5).wrapping_add(3) % 64;
        *line = LineNumber(x / 2 % below.max(1));
    }
    lines
}

// A policy's shape, and the lines that are touched, with the hits of LRU and of SRRIP as a plain simulator counts them.
#[derive(Clone, Copy)]
struct Case {
    shape: Shape,
    below: u64,
    lru: usize,
    srrip: usize,
}

// The hits of LRU and of SRRIP, each in memory of its own.
fn hits_of(case: Case) -> (usize, usize) {
    let lines = mixed(case.below);
    let mut lru_rows = [LruRow::EMPTY; 1024];
    let mut srrip_rows = [SrripRow::EMPTY; 1024];
    (
        hits_over(&mut lru_rows, case.shape, &lines),
        hits_over(&mut srrip_rows, case.shape, &lines),
    )
}

#[test]
fn hits_are_counted(rt: HostRuntime) {
    let cases = [
        Case {
            shape: Shape { s: 0, ways: 1 },
            below: 5,
            lru: 13,
            srrip: 13,
        },
        Case {
            shape: Shape { s: 0, ways: 3 },
            below: 5,
            lru: 34,
            srrip: 42,
        },
        Case {
            shape: Shape { s: 0, ways: 16 },
            below: 20,
            lru: 40,
            srrip: 36,
        },
        Case {
            shape: Shape { s: 2, ways: 4 },
            below: 31,
            lru: 17,
            srrip: 14,
        },
        Case {
            shape: Shape { s: 10, ways: 16 },
            below: 31,
            lru: 33,
            srrip: 33,
        },
        // no policy has this shape
        Case {
            shape: Shape { s: 11, ways: 4 },
            below: 5,
            lru: 0,
            srrip: 0,
        },
        Case {
            shape: Shape { s: 0, ways: 17 },
            below: 5,
            lru: 0,
            srrip: 0,
        },
    ];
    for case in cases {
        let (lru, srrip) = hits_of(case);
        assert_eq!(rt; lru, case.lru);
        assert_eq!(rt; srrip, case.srrip);
    }
}

#[test]
fn worked_example(rt: HostRuntime) {
    let lines = [
        LineNumber(1),
        LineNumber(2),
        LineNumber(3),
        LineNumber(4),
        LineNumber(1),
        LineNumber(5),
        LineNumber(2),
    ];
    let shape = Shape { s: 0, ways: 4 };
    let mut lru_rows = [LruRow::EMPTY; 1];
    assert_eq!(rt; hits_over(&mut lru_rows, shape, &lines), 1);
    let mut srrip_rows = [SrripRow::EMPTY; 1];
    assert_eq!(rt; hits_over(&mut srrip_rows, shape, &lines), 1);
    // one row short
    let mut short = [LruRow::EMPTY; 3];
    assert_eq!(rt; hits_over(&mut short, Shape { s: 2, ways: 4 }, &lines), 0);
}

#[test]
fn memory_is_answered(rt: HostRuntime) {
    assert_eq!(rt; Shape { s: 0, ways: 1 }.rows_needed(), Ok(1));
    assert_eq!(rt; Shape { s: 10, ways: 16 }.rows_needed(), Ok(1024));
    assert_eq!(rt;
        Shape { s: 11, ways: 1 }.rows_needed(),
        Err(Refusal::Limits)
    );
    assert_eq!(rt; Shape { s: 0, ways: 0 }.rows_needed(), Err(Refusal::Limits));
    assert_eq!(rt;
        Shape { s: 0, ways: 17 }.rows_needed(),
        Err(Refusal::Limits)
    );
    assert_eq!(rt; Shape { s: 10, ways: 4 }.check(1024), Ok(()));
    assert_eq!(rt; Shape { s: 10, ways: 4 }.check(1023), Err(Refusal::Memory));
    assert_eq!(rt; Shape { s: 11, ways: 4 }.check(0), Err(Refusal::Limits));
}

#[test]
fn emptied_and_without_room(rt: HostRuntime) {
    let shape = Shape { s: 1, ways: 4 };
    let mut rows = [LruRow::EMPTY; 2];
    let mut lru = Lru::open(&mut rows, shape);
    assert!(rt; !lru.touch(LineNumber(6)));
    assert!(rt; lru.touch(LineNumber(6)));
    lru.empty();
    assert!(rt; !lru.touch(LineNumber(6)));
    let mut none = [SrripRow::EMPTY; 0];
    let mut srrip = Srrip::open(&mut none, shape);
    assert!(rt; !srrip.touch(LineNumber(6)));
    assert!(rt; !srrip.touch(LineNumber(6)));
    assert_eq!(rt; srrip.s(), 1);
    assert_eq!(rt; srrip.ways(), 4);
}
