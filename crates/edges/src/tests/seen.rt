use geometry::numbers::Address;
use geometry::refusal::Refusal;
use notations::fault::LineFault;
use notations::line::{Kind, Record};
use notations::notation::Notation;
use std::process::Abort;

// A line, and what a notation is to read in it.
#[derive(Clone, Copy)]
pub struct Case {
    line: &'static [u8],
    read: Result<Option<Record<'static>>, LineFault>,
}

pub fn skipped(line: &'static [u8]) -> Case {
    Case {
        line,
        read: Ok(None),
    }
}

pub fn access(
    line: &'static [u8],
    kind: Kind,
    address: u64,
    size: u64,
    digits: &'static [u8],
    column: usize,
) -> Case {
    let record = Record {
        kind,
        address: Address(address),
        size,
        digits,
        column,
    };
    Case {
        line,
        read: Ok(Some(record)),
    }
}

pub fn refused(line: &'static [u8], cause: Refusal, column: usize) -> Case {
    Case {
        line,
        read: Err(LineFault { cause, column }),
    }
}

pub fn agree<N: Notation>(rt: &impl Abort, notation: &N, cases: &[Case]) {
    for case in cases {
        assert_eq!(rt; notation.read(case.line), case.read);
    }
}
