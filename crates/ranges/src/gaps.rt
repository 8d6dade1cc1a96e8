// The gaps of one set, in lent memory: the older ones in a tree, the newest 64 to 127 as plain occupancies in an array beside it. Most stretches are
// short and end at the newest gap, so they never reach the tree. A contract knows only one list of occupancies, the oldest first. A stretch goes as its two
// ends, as in the tree.
//
// A caller that lends one slice at a time can take the same steps as `Gaps::raise` and `Gaps::push` here.
ghost use Rattle.std.specs.Prelude.{◌≡◌, ℕ, ◌+◌, ◌-◌, ◌*◌, ◌/◌, ◌%◌, ◌^◌, ◌<◌, ◌≤◌, ◌↔◌, List, [], ◌∷◌, ◌++◌, length, take, drop, MatchOption, IsTrue};
ghost use Rattle.summaries.specs.Algebra.{Algebra, Small, Within, summary};
ghost use Rattle.summaries.specs.Stretches.{bump};
ghost use Rattle.trees.specs.Trees.{leaves, size};
ghost use Rattle.ranges.specs.Occupancies.{Amounts, Sound, occupancies, older, recents};
ghost use Rattle.ranges.specs.OneProof.{Sound-prop};
ghost use Rattle.std.specs.List.{between};

use summaries::kind::{Kind, summary_of};
use trees::tree::{Node, ask as ask_tree, extend, raise as raise_tree};

// Gaps move into the tree so many at a time.
pub const BLOCK: usize = 64;

// How many of `count` gaps stand in the tree.
pub fn in_tree(count: usize) -> usize
    ensures { result ≡ older count }
{
    (count / BLOCK).saturating_sub(1) * BLOCK
}

// Raises the recent gaps from `from` up to `to` by one.
pub fn raise_recent(recent: &mut [u8], from: usize, to: usize)
    requires within { to ≤ length recent.old }
    requires low { Within 16 (bump from to (take to recent.old)) }
    ensures { recent.new ≡ bump from to recent.old }
{
    for occupancy in recent[from.min(to)..to].iter_mut() {
        *occupancy += 1;
    }
}

// The summary of the gaps from `from` up to `to`, of `count` gaps in memory that is only read.
pub fn ask<K: Kind>(
    nodes: &[Node<K>],
    recent: &[u8],
    height: u32,
    count: usize,
    from: usize,
    to: usize,
) -> K
    requires { Sound K.alg height count nodes.now recent.now }
    ensures { result ≡ summary K.alg (between from to (occupancies height count nodes.now recent.now)) }
{
    let older = in_tree(count);
    let end = to.min(count);
    if end <= from {
        return K::empty();
    }
    let newest = summary_of(&recent[from.saturating_sub(older)..end.saturating_sub(older)]);
    if older <= from {
        return newest;
    }
    ask_tree(nodes, height, older, from, end).join(newest)
}

// The oldest block of a full array.
pub fn oldest_block(recent: &[u8]) -> [u8; BLOCK]
    requires { 64 ≤ length recent.now }
    ensures { result ≡ take 64 recent.now }
{
    let mut block = [0; BLOCK];
    block.copy_from_slice(&recent[..BLOCK]);
    block
}

// Moves the second block of a full array to the front.
pub fn shift(recent: &mut [u8])
    requires { 128 ≤ length recent.old }
    ensures { take 64 recent.new ≡ take 64 (drop 64 recent.old) }
{
    recent.copy_within(BLOCK..2 * BLOCK, 0);
}

// How much memory the gaps of one set take.
#[derive(Clone, Copy, PartialEq, Eq, Debug)]
pub struct Memory {
    pub slots: usize,
    pub nodes: usize,
    pub recent: usize,
}

// The memory of a set of up to 2^height gaps; there is none above 2^16.
pub fn memory_for(height: u32) -> Option<Memory>
    ensures { MatchOption result (16 < height) (λ m. Amounts height m.slots m.nodes m.recent) }
{
    if 16 < height {
        return None;
    }
    let slots = 1 << height;
    Some(Memory {
        slots,
        nodes: 2 * slots - 1,
        recent: slots.min(2 * BLOCK),
    })
}

// Makes a tree without gaps, for any array beside it.
pub fn clear<K: Kind>(nodes: &mut [Node<K>], height: u32)
    requires { length nodes.old ≡ size height }
    ensures { (recent : List ℕ) → length recent ≡ recents height → Sound K.alg height 0 nodes.new recent }
{
    let blank = Node::blank();
    nodes.fill_with(|| blank);
}

// The gaps of one set of up to 2^height, in memory that is lent to them. What always holds of that memory is a ghost field and no `impl Model`, since
// through a model a lender does not learn what its memory holds in the end. Each loan has a lifetime of its own for the same reason.
#[derive(Drop)]
pub struct Gaps<'n, 'r, K: Kind> {
    nodes: &'n mut [Node<K>],
    recent: &'r mut [u8],
    height: u32,
    count: usize,
    ghost sound: { Sound K.alg height count nodes.now recent.now } by { Sound-prop K.code K.alg height count nodes.now recent.now },
}

impl<'n, 'r, K: Kind> Gaps<'n, 'r, K> {
    ghost use Rattle.ranges.specs.Sets.{listed, LentBy, SameSet};

    // A set without gaps, in memory of just the lengths that it takes.
    pub fn open(nodes: &'n mut [Node<K>], recent: &'r mut [u8], height: u32) -> Gaps<'n, 'r, K>
        requires long { length nodes.old ≡ size height }
        requires wide { length recent.old ≡ recents height }
        ensures empty { listed result ≡ [] }
        ensures height { result.height ≡ height }
        ensures lends { LentBy result nodes.entry recent.entry }
    {
        clear(nodes, height);
        Gaps {
            nodes,
            recent,
            height,
            count: 0,
        }
    }

    // The gaps that stand in memory already.
    #[tactic(auto, using(crate::proofs::OneList::count_is))]
    pub fn over(
        nodes: &'n mut [Node<K>],
        recent: &'r mut [u8],
        height: u32,
        count: usize,
    ) -> Gaps<'n, 'r, K>
        requires { Sound K.alg height count nodes.old recent.old }
        ensures same { listed result ≡ occupancies height count nodes.old recent.old }
        ensures length { length (listed result) ≡ count }
        ensures height { result.height ≡ height }
        ensures count { result.count ≡ count }
        ensures lends { LentBy result nodes.entry recent.entry }
    {
        Gaps {
            nodes,
            recent,
            height,
            count,
        }
    }

    #[tactic(auto, using(crate::proofs::OneList::count_is))]
    pub fn count(&self) -> usize
        ensures count { result ≡ self.now.count }
        ensures length { result ≡ length (listed self.now) }
    {
        self.count
    }

    // Whether there is no room for a gap more.
    pub fn is_full(&self) -> bool
        ensures { IsTrue result ↔ (leaves self.now.height ≤ length (listed self.now)) }
    {
        self.nodes.len() / 2 < self.count
    }

    // The summary of the gaps from `from` up to `to`.
    pub fn ask(&self, from: usize, to: usize) -> K
        ensures { result ≡ summary K.alg (between from to (listed self.now)) }
    {
        ask(self.nodes, self.recent, self.height, self.count, from, to)
    }

    // Raises the gaps from `from` up to `to` by one.
    pub fn raise(&mut self, from: usize, to: usize)
        requires within { to ≤ length (listed self.old) }
        requires small { Small (bump from to (listed self.old)) }
        ensures gaps { listed self.new ≡ bump from to (listed self.old) }
        ensures count { self.new.count ≡ self.old.count }
        ensures set { SameSet self.old self.new }
    {
        let older = in_tree(self.count);
        // both at once, so that what always holds of the two is asked only at the end
        let (nodes, recent) = (&mut *self.nodes, &mut *self.recent);
        raise_recent(recent, from.saturating_sub(older), to.saturating_sub(older));
        if from < older {
            let _ = raise_tree(nodes, self.height, older, from, to.min(older));
        }
    }

    // Adds a gap of occupancy 0 at the end. A full array then hands its older half over to the tree.
    pub fn push(&mut self)
        requires free { length (listed self.old) < leaves self.old.height }
        requires few { length (listed self.old) < 2 ^ 20 }
        ensures gaps { listed self.new ≡ listed self.old ++ (0 ∷ []) }
        ensures count { self.new.count ≡ self.old.count + 1 }
        ensures set { SameSet self.old self.new }
    {
        let older = in_tree(self.count);
        let newer = self.count - older;
        let (nodes, recent) = (&mut *self.nodes, &mut *self.recent);
        recent[newer] = 0;
        if newer + 1 == 2 * BLOCK {
            let block = oldest_block(recent);
            let _ = extend(nodes, self.height, older, &block);
            shift(recent);
        }
        self.count += 1;
    }
}
