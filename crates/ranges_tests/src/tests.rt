use lcg::Lcg;
use ranges::gaps::{Gaps, clear};
use ranges::operations::Answer::{Done, Refused, Summary};
use ranges::operations::Operation::{Ask, Push, Raise};
use ranges::operations::{Answer, Operation, carry_out};
use std::alloc::AllocError;
use summaries::kind::{Both, Load, Peak};
use trees::tree::Node;

// An answer as the tables write it: a load, which cannot be made outside its crate, by its number of gaps and their sum.
type Told = Answer<(u32, u32)>;

fn told(answer: &Answer<Load>) -> Told {
    match answer {
        Done => Done,
        Summary(load) => Summary((load.gaps(), load.sum())),
        Refused => Refused,
    }
}

#[derive(Clone, Copy)]
struct Case {
    height: u32,
    operations: [Operation; 12],
    expected: [Told; 12],
}

#[test]
fn small_sets(rt: HostRuntime) {
    let cases = [
        // one slot: a stretch of nothing, a raise past the end, a full tree
        Case {
            height: 0,
            operations: [
                Ask { from: 0, to: 1 },
                Raise { from: 0, to: 1 },
                Raise { from: 0, to: 0 },
                Push,
                Push,
                Ask { from: 0, to: 1 },
                Raise { from: 0, to: 1 },
                Ask { from: 0, to: 9 },
                Ask { from: 1, to: 1 },
                Ask { from: 1, to: 0 },
                Raise { from: 0, to: 2 },
                Ask { from: 0, to: 1 },
            ],
            expected: [
                Summary((0, 0)),
                Refused,
                Done,
                Done,
                Refused,
                Summary((1, 0)),
                Done,
                Summary((1, 1)),
                Summary((0, 0)),
                Summary((0, 0)),
                Refused,
                Summary((1, 1)),
            ],
        },
        // two slots, a push after a raise after a push
        Case {
            height: 1,
            operations: [
                Push,
                Raise { from: 0, to: 1 },
                Push,
                Ask { from: 0, to: 2 },
                Raise { from: 0, to: 2 },
                Ask { from: 0, to: 1 },
                Ask { from: 1, to: 2 },
                Push,
                Raise { from: 1, to: 2 },
                Ask { from: 0, to: 2 },
                Raise { from: 1, to: 0 },
                Ask { from: 0, to: 2 },
            ],
            expected: [
                Done,
                Done,
                Done,
                Summary((2, 1)),
                Done,
                Summary((1, 2)),
                Summary((1, 1)),
                Refused,
                Done,
                Summary((2, 4)),
                Done,
                Summary((2, 4)),
            ],
        },
        // stretches at both ends and in the middle
        Case {
            height: 4,
            operations: [
                Push,
                Push,
                Push,
                Push,
                Push,
                Raise { from: 0, to: 2 },
                Raise { from: 3, to: 5 },
                Raise { from: 1, to: 4 },
                Ask { from: 0, to: 5 },
                Ask { from: 1, to: 2 },
                Ask { from: 4, to: 5 },
                Ask { from: 2, to: 2 },
            ],
            expected: [
                Done,
                Done,
                Done,
                Done,
                Done,
                Done,
                Done,
                Done,
                Summary((5, 7)),
                Summary((1, 2)),
                Summary((1, 1)),
                Summary((0, 0)),
            ],
        },
        // no set is so high
        Case {
            height: 17,
            operations: [Push; 12],
            expected: [Refused; 12],
        },
    ];
    for case in cases.iter() {
        let mut nodes = [Node::<Both<Peak, Load>>::blank(); 31];
        let mut recent = [0; 16];
        let mut answers = [Answer::<Load>::Refused; 12];
        let carried = carry_out(
            &mut nodes,
            &mut recent,
            case.height,
            &case.operations,
            &mut answers,
        );
        assert_eq!(rt; carried.is_some(), case.height <= 16);
        for (answer, expected) in answers.iter().zip(&case.expected) {
            assert_eq!(rt; told(answer), *expected);
        }
    }
}

// What an operation says and does on a plain list of at most 256 numbers.
fn on_plain_list(plain: &mut Vec<u8>, operation: Operation) -> Result<Told, AllocError> {
    match operation {
        Push => {
            if plain.len() >= 256 {
                return Ok(Refused);
            }
            plain.push(0)?;
            Ok(Done)
        }
        Raise { from, to } => {
            if to > plain.len() {
                return Ok(Refused);
            }
            let stretch = &mut plain[from.min(to)..to];
            if stretch.iter().any(|occupancy| *occupancy >= 16) {
                return Ok(Refused);
            }
            for occupancy in stretch.iter_mut() {
                *occupancy = occupancy.wrapping_add(1);
            }
            Ok(Done)
        }
        Ask { from, to } => {
            let end = to.min(plain.len());
            let (mut gaps, mut sum) = (0u32, 0u32);
            for occupancy in &plain[from.min(end)..end] {
                gaps = gaps.wrapping_add(1);
                sum = sum.wrapping_add(u32::from(*occupancy));
            }
            Ok(Summary((gaps, sum)))
        }
    }
}

// Operations in mixed order, some of them past the end.
fn mixed() -> [Operation; 1200] {
    let mut operations = [Push; 1200];
    let mut lcg = Lcg::new(7);
    for (i, operation) in operations.iter_mut().enumerate() {
        let from = lcg.below(270);
        let to = lcg.below(270);
        *operation = match lcg.below(4) {
            0 => Push,
            1 => Raise {
                from,
                to: to % (i / 4 + 1),
            },
            2 => Raise {
                from: to.saturating_sub(5),
                to,
            },
            _ => Ask { from, to },
        };
    }
    operations
}

// Blocks move into the tree at 128, 192 and 256 gaps, and the set is full at the end.
#[test]
fn mixed_against_a_plain_list(rt: HostRuntime) -> Result<(), AllocError> {
    let operations = mixed();
    let mut nodes = [Node::<Both<Peak, Load>>::blank(); 511];
    let mut recent = [0; 128];
    let mut answers = [Answer::<Load>::Refused; 1200];
    let carried = carry_out(&mut nodes, &mut recent, 8, &operations, &mut answers);
    let mut plain = Vec::new(rt.alloc());
    for (answer, operation) in answers.iter().zip(&operations) {
        assert_eq!(rt; told(answer), on_plain_list(&mut plain, *operation)?);
    }
    assert_eq!(rt; plain.len(), 256);
    assert_eq!(rt; carried, Some(256));
    Ok(())
}

// A set of two, in hand.
#[test]
fn a_set_in_hand(rt: HostRuntime) {
    let mut nodes = [Node::<Load>::blank(); 3];
    let mut recent = [0; 2];
    let mut gaps = Gaps::open(&mut nodes, &mut recent, 1);
    assert!(rt; !gaps.is_full());
    gaps.push();
    gaps.raise(0, 1);
    gaps.push();
    assert!(rt; gaps.is_full());
    assert_eq!(rt; gaps.count(), 2);
    let load = gaps.ask(0, 2);
    assert_eq!(rt; (load.gaps(), load.sum()), (2, 1));
}

// Memory in which no gaps stand yet.
#[test]
fn memory_taken_up(rt: HostRuntime) {
    let mut nodes = [Node::<Load>::blank(); 3];
    let mut recent = [0; 2];
    clear(&mut nodes, 1);
    let gaps = Gaps::over(&mut nodes, &mut recent, 1, 0);
    assert_eq!(rt; gaps.count(), 0);
    assert_eq!(rt; gaps.ask(0, 2).gaps(), 0);
}
