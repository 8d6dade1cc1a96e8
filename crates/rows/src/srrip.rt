ghost use Rattle.std.specs.Prelude.{◌≡◌, ℕ, ◌+◌, ◌<◌, ◌≤◌, List, map, take};
ghost use Rattle.replacement.specs.declared.Way.{Way};
ghost use Rattle.replacement.specs.Ways.{greatest};
ghost use Rattle.replacement.specs.Srrip.{risen, touched};
ghost use Rattle.replacement.proofs.Srrip.{Fine as Low, srrip_laws};

use crate::aged::{AgedRow, Aging};
use crate::row::{Place, WayRow, choose, find};
use geometry::numbers::LineNumber;
use replacement::Way;
use std::marker::PhantomData;

// A row of the policy SRRIP. Each way has an age from 0 to 3.
pub type SrripRow = AgedRow<SrripAging>;

// The rule SRRIP.
#[derive(Clone, Copy)]
pub struct SrripAging;

impl SrripRow {
    // A row that holds nothing.
    pub const EMPTY: SrripRow = AgedRow {
        row: WayRow::EMPTY,
        aging: PhantomData,
    };
}

// The ages rise by some number.
fn rise(ways: &mut [Way], by: u8)
    requires { greatest ways.old + by ≤ 3 }
    ensures { ways.new ≡ map (risen by) ways.old }
{
    for way in ways.iter_mut() {
        way.age += by;
    }
}

impl Aging for SrripAging {
    ghost step = { touched };

    ghost Fine = { Low };

    ghost laws = { srrip_laws };

    fn blank() -> SrripRow {
        SrripRow::EMPTY
    }

    fn touch(row: &mut WayRow, ways: usize, line: LineNumber) -> bool {
        if let Some(w) = find(&row.ways[..ways], line) {
            row.at(w).age = 0;
            return true;
        }
        let placed = Way {
            line,
            age: 2,
            held: true,
        };
        match choose(&row.ways[..ways]) {
            Place::Empty(w) => *row.at(w) = placed,
            Place::Oldest(w, age) => {
                // all ages rise until the oldest way has age 3
                rise(&mut row.ways[..ways], 3 - age);
                *row.at(w) = placed;
            }
        }
        false
    }
}
