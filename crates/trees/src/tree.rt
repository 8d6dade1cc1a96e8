// A tree of summaries in one lent slice: the root, then the left half, then the right half. Its leaves are gaps, the oldest first.
//
// The slice, its height and the number of its gaps go from call to call apart: a question goes down the halves by `&`, a raise and a block by `&mut`, and
// a struct of them would have to stand twice. A stretch goes as its two ends, since each half cuts or shifts them anew, and a `Range` is no `Copy`.
ghost use Rattle.std.specs.Prelude.{◌≡◌, ℕ, ◌+◌, ◌-◌, ◌*◌, ◌/◌, ◌%◌, ◌^◌, ◌<◌, ◌≤◌, List, [], ◌∷◌, ◌++◌, length};
ghost use Rattle.summaries.specs.Algebra.{Algebra, Small, summary};
ghost use Rattle.summaries.specs.Stretches.{bump};
ghost use Rattle.trees.specs.Trees.{Tree, gaps, leaves};
ghost use Rattle.std.specs.List.{between};

use summaries::kind::Kind;

// The summary of the gaps below a node, and how often all of them were raised since they were last told.
#[derive(Clone, Copy, PartialEq, Eq, Debug)]
pub struct Node<K> {
    value: K,
    pending: u8,
}

impl<K: Kind> Node<K> {
    // What each node of a tree without gaps holds.
    pub fn blank() -> Node<K>
        ensures { result ≡ record { value = K.alg.none; pending = 0 } }
    {
        Node {
            value: K::empty(),
            pending: 0,
        }
    }
}

// The summary of the gaps from `from` up to `to`, of a tree with `count` gaps.
pub fn ask<K: Kind>(nodes: &[Node<K>], height: u32, count: usize, from: usize, to: usize) -> K
    requires tree { Tree K.alg height count nodes.now }
    requires small { Small (gaps height count nodes.now) }
    ensures { result ≡ summary K.alg (between from to (gaps height count nodes.now)) }
{
    let (root, halves) = nodes.split_first().unwrap();
    if to <= from || count <= from {
        return K::empty();
    }
    if from == 0 && count <= to {
        return root.value;
    }
    let (left, right) = halves.split_at(halves.len() / 2);
    let room = left.len() / 2 + 1;
    let left = ask(left, height - 1, count.min(room), from, to);
    let right = ask(
        right,
        height - 1,
        count.saturating_sub(room),
        from.saturating_sub(room),
        to.saturating_sub(room),
    );
    left.join(right).raise_by(root.pending)
}

// Raises the gaps from `from` up to `to` by one, and answers the summary of all.
pub fn raise<K: Kind>(nodes: &mut [Node<K>], height: u32, count: usize, from: usize, to: usize) -> K
    requires tree { Tree K.alg height count nodes.old }
    requires within { to ≤ count }
    requires small { Small (bump from to (gaps height count nodes.old)) }
    ensures tree { Tree K.alg height count nodes.new }
    ensures gaps { gaps height count nodes.new ≡ bump from to (gaps height count nodes.old) }
    ensures value { result ≡ summary K.alg (bump from to (gaps height count nodes.old)) }
{
    let (root, halves) = nodes.split_first_mut().unwrap();
    if to <= from {
        return root.value;
    }
    let half = halves.len() / 2;
    if from == 0 && half < to {
        root.value = root.value.raise_by(1);
        root.pending += 1;
        return root.value;
    }
    let (left, right) = halves.split_at_mut(half);
    let room = left.len() / 2 + 1;
    let left = raise(left, height - 1, count.min(room), from, to.min(room));
    let right = raise(
        right,
        height - 1,
        count.saturating_sub(room),
        from.saturating_sub(room),
        to.saturating_sub(room),
    );
    root.value = left.join(right).raise_by(root.pending);
    root.value
}

// Adds a block of gaps at the end, and answers the summary of all.
pub fn extend<K: Kind>(nodes: &mut [Node<K>], height: u32, count: usize, block: &[u8]) -> K
    requires tree { Tree K.alg height count nodes.old }
    requires room { count + length block.now ≤ leaves height }
    requires small { Small (gaps height count nodes.old ++ block.now) }
    ensures tree { Tree K.alg height (count + length block.now) nodes.new }
    ensures gaps { gaps height (count + length block.now) nodes.new ≡ gaps height count nodes.old ++ block.now }
    ensures value { result ≡ summary K.alg (gaps height count nodes.old ++ block.now) }
{
    let (root, halves) = nodes.split_first_mut().unwrap();
    if block.is_empty() {
        return root.value;
    }
    if height == 0 {
        root.pending = block[0];
        root.value = K::single().raise_by(root.pending);
        return root.value;
    }
    let (left, right) = halves.split_at_mut(halves.len() / 2);
    let room = left.len() / 2 + 1;
    let (first, rest) = block.split_at(block.len().min(room.saturating_sub(count)));
    let left = extend(left, height - 1, count.min(room), first);
    let right = extend(right, height - 1, count.saturating_sub(room), rest);
    root.value = left.join(right);
    root.value
}
