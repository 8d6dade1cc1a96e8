ghost use Rattle.std.specs.Prelude.{◌≡◌, ℕ, ◌<◌, ◌≤◌, List, take};
ghost use Rattle.replacement.specs.declared.Way.{Way};
ghost use Rattle.replacement.specs.Ways.{lines as held_lines, empty_row};
ghost use Rattle.histories.specs.Rule.{held};
ghost use Rattle.replacement.specs.Sets.{RowLaws};

use crate::row::WayRow;
use crate::rule::RowRule;
use geometry::numbers::LineNumber;
use std::marker::PhantomData;

// How the ways of a row age: what a touch makes of them.
pub trait Aging: Copy {
    // the ways after a touch of a line
    ghost step: { ℕ → List Way → List Way };

    // what the ways of every row that can be reached keep
    ghost Fine: { ℕ → List Way → Type 0 };

    ghost laws: { RowLaws held_lines (λ _ x m. step x m) empty_row Fine };

    // A row that holds nothing: the constant that stands with the rule.
    fn blank() -> AgedRow<Self>
        ensures { (w : ℕ) → w ≤ 16 → take w result.row.ways ≡ empty_row w };

    // Touches a line in the first `ways` ways of a row: whether it was held.
    fn touch(row: &mut WayRow, ways: usize, line: LineNumber) -> bool
        requires few { ways ≤ 16 }
        requires some { 0 < ways }
        requires fine { Fine ways (take ways row.old.ways) }
        ensures moves { take ways row.new.ways ≡ step line.0 (take ways row.old.ways) }
        ensures answer { result ≡ held line.0 (held_lines (take ways row.old.ways)) };
}

// A row of ways with ages. `EMPTY` stands with each rule, since of a constant of a generic type a caller's proof would know no value.
#[derive(Clone, Copy)]
pub struct AgedRow<A> {
    pub(crate) row: WayRow,
    pub(crate) aging: PhantomData<A>,
}

impl<A: Aging> RowRule for AgedRow<A> {
    ghost Model = { List Way };

    ghost model = { λ w r. take w r.row.ways };

    ghost lines = { held_lines };

    ghost step = { λ _ x m. A.step x m };

    ghost none = { empty_row };

    ghost Fine = { A.Fine };

    ghost laws = { A.laws };

    fn blank() -> AgedRow<A> {
        A::blank()
    }

    fn touch(&mut self, ways: usize, line: LineNumber) -> bool {
        A::touch(&mut self.row, ways, line)
    }
}
