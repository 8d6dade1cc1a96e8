// The policy interface, and what is proved of every policy that keeps its meaning.
#![tactic(auto)]

ghost use Rattle.std.specs.Prelude.{◌≡◌, ℕ, List, map};
ghost use Rattle.replacement.specs.Policy.{after, hits, found, Laws};
ghost use Rattle.policy.specs.Histories.{Histories};
ghost use Rattle.policy.specs.Numbers.{line_number};

use geometry::numbers::LineNumber;

// A replacement policy, by what it means. A state is not its memory: two policies in one state answer alike for ever.
pub trait Policy {
    ghost State: { Type 0 };

    ghost state: { Self → State };

    // s, the logarithm of the number of sets, and W, the ways of each
    ghost slog: { State → ℕ };

    ghost wide: { State → ℕ };

    // the lines that a state holds in a set
    ghost holds: { State → ℕ → List ℕ };

    // the state after a touch of a line, and the empty state
    ghost next: { State → ℕ → State };

    ghost cleared: { State → State };

    // what every opened policy has, and every call keeps; no ghost field of each policy, since a ghost field has to be a proposition, and what a rule
    // keeps of its rows need not be one (that of LRU says that there is a list by which they are ranked)
    ghost ready: { Self → Type 0 };

    // what every state keeps that can be reached
    ghost Sound: { State → Type 0 };

    // distinct lines, at most W, only held before or touched, other sets as before, nothing in the empty state
    ghost laws: { Laws ready state slog wide holds next cleared Sound };

    // memory that the policy was lent and does not use: no call writes it
    ghost Spare: { Type 0 };

    ghost spare: { Self → Spare };

    fn s(&self) -> u32
        ensures { result ≡ slog (state self.now) };

    fn ways(&self) -> u32
        ensures { result ≡ wide (state self.now) };

    // Touches a line: whether it was held.
    fn touch(&mut self, line: LineNumber) -> bool
        requires { ready self.old }
        ensures keeps { ready self.new }
        ensures answer { result ≡ found slog holds (state self.old) line.0 }
        ensures moves { state self.new ≡ next (state self.old) line.0 }
        ensures spares { spare self.new ≡ spare self.old };

    fn empty(&mut self)
        requires { ready self.old }
        ensures keeps { ready self.new }
        ensures moves { state self.new ≡ cleared (state self.old) }
        ensures spares { spare self.new ≡ spare self.old };
}

// Touches a policy with each line in turn: how many were held.
pub fn touch_all<P: Policy>(policy: &mut P, lines: &[LineNumber]) -> usize
    requires { P.ready policy.old }
    ensures keeps { P.ready policy.new }
    ensures count { result ≡ hits (found P.slog P.holds) P.next (P.state policy.old) (map line_number lines.now) }
    ensures moves { P.state policy.new ≡ after P.next (P.state policy.old) (map line_number lines.now) }
    ensures spares { P.spare policy.new ≡ P.spare policy.old }
{
    // a loop, since nothing is known of a closure under `filter` that changes what it captures
    let mut hits = 0;
    for line in lines {
        if policy.touch(*line) {
            hits += 1;
        }
    }
    hits
}

// Whatever a policy is told and however it is emptied: from its empty state on, what it holds in a set, turn by turn, is a legal history of the set's touches.
pub fn holds_legally<P: Policy>(policy: &P)
    requires { P.ready policy.now }
    ensures { Histories P.slog P.wide P.holds P.next P.cleared (P.state policy.now) }
{}
