// Measures the gaps of one set: n pushes, each after a question and a raise over a stretch that ends at the newest gap. Arguments: the height of the set
// (at most 16), how many rounds from empty, and the longest stretch. It prints what was done, so that a timer outside can divide.
#![tactic(auto)]

use lcg::Lcg;
use ranges::gaps::memory_for;
use ranges::operations::{Answer, Operation, carry_out};
use std::alloc::{AllocError, Global};
use std::{env, io};
use summaries::kind::{Both, Load, Peak};
use trees::tree::Node;

// What the answers of some rounds come to.
#[derive(Clone, Copy, Default)]
struct Tally {
    done: u64,
    refused: u64,
    load: u64,
}

impl Tally {
    fn count(&mut self, answers: &[Answer<Load>]) {
        for answer in answers {
            match answer {
                Answer::Done => self.done = self.done.wrapping_add(1),
                Answer::Summary(load) => self.load = self.load.wrapping_add(u64::from(load.sum())),
                Answer::Refused => self.refused = self.refused.wrapping_add(1),
            }
        }
    }
}

// For each of `slots` gaps a question and a raise from less than `reach` gaps back up to the newest, then a push.
fn plan(heap: Global, slots: usize, reach: usize) -> Result<Vec<Operation>, AllocError> {
    let mut operations = Vec::new(heap);
    let mut lcg = Lcg::new(1);
    for count in 0..slots {
        let from = count.saturating_sub(lcg.below(reach));
        operations.push(Operation::Ask { from, to: count })?;
        operations.push(Operation::Raise { from, to: count })?;
        operations.push(Operation::Push)?;
    }
    Ok(operations)
}

// Carries the plan out `rounds` times, each from empty.
fn measure(heap: Global, height: u32, rounds: u32, reach: usize) -> Result<Tally, AllocError> {
    let mut tally = Tally::default();
    let Some(memory) = memory_for(height) else {
        return Ok(tally);
    };
    let operations = plan(heap, memory.slots, reach)?;
    let mut nodes = vec![in heap; Node::<Both<Peak, Load>>::blank(); memory.nodes]?;
    let mut recent = vec![in heap; 0u8; memory.recent]?;
    let mut answers = vec![in heap; Answer::<Load>::Refused; operations.len()]?;
    for _ in 0..rounds {
        let _ = carry_out(
            nodes.as_mut_slice(),
            recent.as_mut_slice(),
            height,
            operations.as_slice(),
            answers.as_mut_slice(),
        );
        tally.count(answers.as_slice());
    }
    Ok(tally)
}

fn number(text: Option<String>, otherwise: u32) -> u32 {
    text.and_then(|text| text.as_str().parse().ok())
        .unwrap_or(otherwise)
}

fn main(rt: HostRuntime) -> io::Result<()> {
    let mut args = env::args(&rt)?;
    let _program = args.next();
    let height = number(args.next(), 10);
    let rounds = number(args.next(), 1);
    let reach = number(args.next(), 8);
    let Tally {
        done,
        refused,
        load,
    } = measure(rt.alloc(), height, rounds, reach as usize)?;
    println!(rt;
        "height {height}, {rounds} rounds, stretches below {reach}: {done} done, {refused} refused, load {load}"
    )
}
