ghost use Rattle.std.specs.Prelude.{◌≡◌, ℕ, ◌<◌, length, position, slice_index_or};
ghost use Rattle.replacement.specs.Ways.{has_line};
ghost use Rattle.std.specs.Borrow.{sem, follows};
ghost use Rattle.rows.specs.contracts.row.Row.{the_row};
ghost use Rattle.rows.specs.Rows.{replaced, Places};

use geometry::numbers::LineNumber;
use replacement::Way;

// A table of N way entries, each of which can be lent. It is an array, since rows are lent memory of a fixed size.
#[derive(Clone, Copy)]
pub struct Row<T, const N: usize> {
    pub ways: [T; N],
}

impl<T, const N: usize> Row<T, N> {
    // Entry w. When the loan ends, it is the one entry that may have changed.
    pub fn at(&mut self, w: usize) -> &mut T
        requires { w < N }
        ensures* lends { sem 𝓛 (follows (the_row T.row N.row) T.row self.entry.ghost_name result.ghost_name (replaced self.old w)) }
        ensures value { (d : T) → result.now ≡ slice_index_or self.old.ways w d }
        ensures long { length self.old.ways ≡ N }
    {
        &mut self.ways[w]
    }
}

// The ways of one set, which has at most 16.
pub type WayRow = Row<Way, 16>;

impl WayRow {
    // A row that holds nothing.
    pub const EMPTY: WayRow = Row {
        ways: [Way {
            line: LineNumber(0),
            age: 0,
            held: false,
        }; 16],
    };
}

// The way that holds the line.
pub fn find(ways: &[Way], line: LineNumber) -> Option<usize>
    ensures { result ≡ position (has_line line.0) ways.now }
{
    // without a branch on each way
    ways.iter().position(|way| way.held & (way.line == line))
}

// The way that a missed line comes into.
#[derive(Clone, Copy, PartialEq, Eq, Debug)]
pub enum Place {
    // the lowest-numbered empty way
    Empty(usize),
    // where none is empty, the lowest-numbered way of the greatest age, and that age
    Oldest(usize, u8),
}

// The way that a missed line comes into. One pass for both cases; the library's `max_by_key` would give the last of equal ages.
pub fn choose(ways: &[Way]) -> Place
    requires { 0 < length ways.now }
    ensures { Places ways.now result }
{
    let mut oldest = 0;
    let mut age = 0;
    for (i, way) in ways.iter().enumerate() {
        if !way.held {
            return Place::Empty(i);
        }
        if age < way.age {
            oldest = i;
            age = way.age;
        }
    }
    Place::Oldest(oldest, age)
}
