// Lists of operations on the gaps of one set, carried out from empty.
ghost use Rattle.std.specs.Prelude.{◌≡◌, ℕ, ◌+◌, ◌-◌, ◌*◌, ◌^◌, ◌<◌, ◌≤◌, List, [], ◌∷◌, ◌++◌, length, MatchOption};
ghost use Rattle.ranges.specs.Operations.{after, reply, ending, replies, all_below, Carried, Untouched};
ghost use Rattle.ranges.specs.Sets.{listed, SameSet};
ghost use Rattle.std.specs.List.{between};

use crate::gaps::{Gaps, memory_for};
use summaries::kind::{Both, Kind, Peak};
use trees::tree::Node;

#[derive(Clone, Copy, PartialEq, Eq, Debug)]
pub enum Operation {
    Push,
    Raise { from: usize, to: usize },
    Ask { from: usize, to: usize },
}

// Three cases with a name each: a `Result` of an `Option` would say `Ok(None)` for what was done.
#[derive(Clone, Copy, PartialEq, Eq, Debug)]
pub enum Answer<K> {
    Done,
    Summary(K),
    Refused,
}

impl<'n, 'r, K: Kind> Gaps<'n, 'r, Both<Peak, K>> {
    // Whether each gap from `from` up to `to` is below 16.
    fn is_low(&self, from: usize, to: usize) -> bool
        ensures { result ≡ all_below 16 (between from to (listed self.now)) }
    {
        self.ask(from, to)
            .first()
            .highest()
            .is_none_or(|highest| highest < 16)
    }

    // Carries out one operation, and answers it.
    fn carry(&mut self, operation: Operation) -> Answer<K>
        requires { self.old.height ≤ 16 }
        ensures gaps { listed self.new ≡ after self.old.height operation (listed self.old) }
        ensures answer { result ≡ reply K.alg self.old.height operation (listed self.old) }
        ensures set { SameSet self.old self.new }
    {
        match operation {
            Operation::Push => {
                if self.is_full() {
                    Answer::Refused
                } else {
                    self.push();
                    Answer::Done
                }
            }
            Operation::Raise { from, to } => {
                if to <= self.count() && self.is_low(from, to) {
                    self.raise(from, to);
                    Answer::Done
                } else {
                    Answer::Refused
                }
            }
            Operation::Ask { from, to } => Answer::Summary(self.ask(from, to).second()),
        }
    }

    // Carries out operations one after another.
    fn carry_all(&mut self, operations: &[Operation], answers: &mut [Answer<K>])
        requires low { self.old.height ≤ 16 }
        requires room { length answers.old ≡ length operations.now }
        ensures gaps { listed self.new ≡ ending self.old.height operations.now (listed self.old) }
        ensures replied { answers.new ≡ replies K.alg self.old.height operations.now (listed self.old) }
        ensures set { SameSet self.old self.new }
    {
        // by index, since after a `zip` with `iter_mut` a proof knows nothing of what was written
        for (i, operation) in operations.iter().enumerate() {
            answers[i] = self.carry(*operation);
        }
    }
}

// Carries out operations from empty, and answers how many gaps there are at the end; none of it is done where the memory is too little or `height` is above 16.
pub fn carry_out<K: Kind>(
    nodes: &mut [Node<Both<Peak, K>>],
    recent: &mut [u8],
    height: u32,
    operations: &[Operation],
    answers: &mut [Answer<K>],
) -> Option<usize>
    ensures { MatchOption result (Untouched height operations.now nodes.old nodes.new recent.old recent.new answers.old answers.new) (λ n. Carried K.alg height n operations.now nodes.old nodes.new recent.old recent.new answers.old answers.new) }
{
    let memory = memory_for(height)?;
    if nodes.len() < memory.nodes
        || recent.len() < memory.recent
        || answers.len() < operations.len()
    {
        return None;
    }
    let (tree, _) = nodes.split_at_mut(memory.nodes);
    let (array, _) = recent.split_at_mut(memory.recent);
    let mut gaps = Gaps::open(tree, array, height);
    gaps.carry_all(operations, &mut answers[..operations.len()]);
    Some(gaps.count())
}
