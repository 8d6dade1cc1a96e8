ghost use Rattle.std.specs.Prelude.{◌≡◌, ℕ, ◌<◌, ◌≤◌, List, map, length, drop, slice_index_or};
ghost use Rattle.std.specs.Borrow.{GName};
ghost use Rattle.replacement.specs.Sets.{Sets as States, Kept, Ready, sets_of, held_in, next_of, cleared_of, opened, opened_hits};
ghost use Rattle.replacement.proofs.Sets.{sets_laws};
ghost use Rattle.policy.specs.Numbers.{line_number};
ghost use Rattle.policies.specs.Memory.{used};

use crate::shape::Shape;
use geometry::numbers::LineNumber;
use policy::{Policy, touch_all};
use rows::lru::LruRow;
use rows::rule::RowRule;
use rows::srrip::SrripRow;

// Empties rows.
fn clear<R: RowRule>(rows: &mut [R])
    ensures { (k : ℕ) (d : R) (w : ℕ) → k < length rows.new → w ≤ 16 → R.model w (slice_index_or rows.new k d) ≡ R.none w }
{
    // a `for`, since `fill` asks for a clone that cannot fail, and `fill_with` for a lemma more
    for row in rows.iter_mut() {
        *row = R::blank();
    }
}

// A policy with a row for each set, in lent memory. It uses the first `sets` rows: 2^s, or none.
#[derive(Drop)]
pub struct Sets<'a, R> {
    // all that was lent, since the loan of a part has a name that no contract of `open` could tie to the lender's
    rows: &'a mut [R],
    sets: usize,
    shape: Shape,
}

pub type Lru<'a> = Sets<'a, LruRow>;

pub type Srrip<'a> = Sets<'a, SrripRow>;

impl<'a, R: RowRule> Policy for Sets<'a, R> {
    ghost State = { States R.Model };

    ghost state = { λ p. sets_of R.model p.shape.s p.shape.ways p.sets p.rows.now };

    ghost slog = { λ q. q.slog };

    ghost wide = { λ q. q.wide };

    ghost holds = { held_in R.lines R.none };

    ghost next = { next_of R.step R.none };

    ghost cleared = { cleared_of R.none };

    ghost ready = { λ p. Ready R.model R.Fine p.shape.s p.shape.ways p.sets p.rows.now };

    ghost Sound = { Kept R.none R.Fine };

    ghost laws = { sets_laws R.laws R.model (λ p. p.shape.s) (λ p. p.shape.ways) (λ p. p.sets) (λ p. p.rows.now) };

    // the loan, how many of its rows are used, and the rows past them
    ghost Spare = { GName × ℕ × List R };

    ghost spare = { λ p. (p.rows.ghost_name, p.sets, drop p.sets p.rows.now) };

    fn s(&self) -> u32 {
        self.shape.s
    }

    fn ways(&self) -> u32 {
        self.shape.ways
    }

    fn touch(&mut self, line: LineNumber) -> bool {
        if self.sets == 0 {
            return false;
        }
        let k = (line.0 & (self.sets as u64 - 1)) as usize;
        let ways = self.shape.ways as usize;
        self.rows[k].touch(ways, line)
    }

    fn empty(&mut self) {
        clear(&mut self.rows[..self.sets]);
    }
}

impl<'a, R: RowRule> Sets<'a, R> {
    // An empty policy over lent rows. Where the check refuses, it has no sets, and holds nothing for ever.
    pub fn open(rows: &'a mut [R], shape: Shape) -> Sets<'a, R>
        ensures keeps { Ready R.model R.Fine result.shape.s result.shape.ways result.sets result.rows.now }
        ensures starts { sets_of R.model result.shape.s result.shape.ways result.sets result.rows.now ≡ opened R.none shape.s shape.ways (used (length rows.old) shape.s shape.ways) }
        ensures uses { result.sets ≡ used (length rows.old) shape.s shape.ways }
        ensures spares { drop result.sets result.rows.now ≡ drop result.sets rows.old }
        ensures lends { result.rows.ghost_name ≡ rows.entry.ghost_name }
    {
        let sets = shape.rows_used(rows.len());
        clear(&mut rows[..sets]);
        Sets { rows, sets, shape }
    }
}

// Opens a policy over lent rows and touches it with each line in turn: how many were held.
pub fn hits_over<R: RowRule>(rows: &mut [R], shape: Shape, lines: &[LineNumber]) -> usize
    ensures count { result ≡ opened_hits R.lines (next_of R.step R.none) R.none shape.s shape.ways (used (length rows.old) shape.s shape.ways) (map line_number lines.now) }
    ensures spares { drop (used (length rows.old) shape.s shape.ways) rows.new ≡ drop (used (length rows.old) shape.s shape.ways) rows.old }
{
    let mut policy = Sets::open(rows, shape);
    touch_all(&mut policy, lines)
}
