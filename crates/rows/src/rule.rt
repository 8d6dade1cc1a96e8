ghost use Rattle.std.specs.Prelude.{◌≡◌, ℕ, ◌<◌, ◌≤◌, List};
ghost use Rattle.histories.specs.Rule.{held};
ghost use Rattle.replacement.specs.Sets.{RowLaws};

use geometry::numbers::LineNumber;

// The rule of one set, on the row that keeps its ways. The first `ways` entries of the row are used.
pub trait RowRule: Copy {
    // what a row of some number of ways stands for
    ghost Model: { Type 0 };

    ghost model: { ℕ → Self → Model };

    // the lines that it holds, what a touch makes of it, and the empty one
    ghost lines: { Model → List ℕ };

    ghost step: { ℕ → ℕ → Model → Model };

    ghost none: { ℕ → Model };

    // what every row that can be reached keeps
    ghost Fine: { ℕ → Model → Type 0 };

    ghost laws: { RowLaws lines step none Fine };

    // A row that holds nothing.
    fn blank() -> Self
        ensures { (w : ℕ) → w ≤ 16 → model w result ≡ none w };

    // Touches a line: whether it was held.
    fn touch(&mut self, ways: usize, line: LineNumber) -> bool
        requires few { ways ≤ 16 }
        requires some { 0 < ways }
        requires fine { Fine ways (model ways self.old) }
        ensures moves { model ways self.new ≡ step ways line.0 (model ways self.old) }
        ensures answer { result ≡ held line.0 (lines (model ways self.old)) };
}
