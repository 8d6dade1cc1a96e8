ghost use Rattle.std.specs.Prelude.{◌≡◌, ℕ, ◌<◌, ◌≤◌, List, map, take};
ghost use Rattle.replacement.specs.declared.Way.{Way};
ghost use Rattle.replacement.specs.Lru.{older, touched};
ghost use Rattle.replacement.proofs.Lru.{Fine as Ordered, lru_laws};

use crate::aged::{AgedRow, Aging};
use crate::row::{Place, WayRow, choose, find};
use geometry::numbers::LineNumber;
use replacement::Way;
use std::marker::PhantomData;

// A row of the policy LRU. A way's age is the number of held lines touched since its own: 0 for the latest.
pub type LruRow = AgedRow<LruAging>;

// The rule LRU.
#[derive(Clone, Copy)]
pub struct LruAging;

impl LruRow {
    // A row that holds nothing.
    pub const EMPTY: LruRow = AgedRow {
        row: WayRow::EMPTY,
        aging: PhantomData,
    };
}

// The ways that are held and younger than the limit are one older.
fn make_older(ways: &mut [Way], limit: u8)
    ensures { ways.new ≡ map (older limit) ways.old }
{
    for way in ways.iter_mut() {
        way.age += (way.held & (way.age < limit)) as u8;
    }
}

impl Aging for LruAging {
    ghost step = { touched };

    ghost Fine = { Ordered };

    ghost laws = { lru_laws };

    fn blank() -> LruRow {
        LruRow::EMPTY
    }

    fn touch(row: &mut WayRow, ways: usize, line: LineNumber) -> bool {
        let fresh = Way {
            line,
            age: 0,
            held: true,
        };
        if let Some(w) = find(&row.ways[..ways], line) {
            let age = row.ways[w].age;
            // a line that is touched again at once leaves the row as it is
            if age > 0 {
                make_older(&mut row.ways[..ways], age);
                *row.at(w) = fresh;
            }
            return true;
        }
        let (w, limit) = match choose(&row.ways[..ways]) {
            Place::Empty(w) => (w, ways as u8),
            Place::Oldest(w, age) => (w, age),
        };
        make_older(&mut row.ways[..ways], limit);
        *row.at(w) = fresh;
        false
    }
}
