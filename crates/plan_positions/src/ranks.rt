// Normal write-out words, by the part table: its rows name the parts in the order of the state, and a search by halves finds the part of a word.
ghost use Rattle.std.specs.Prelude.{◌≡◌, ◌+◌, ◌≤◌, ◌<◌};
ghost use Rattle.sort.specs.HalfSearch.{least};
ghost use Rattle.words.specs.Tests.{some_below};
ghost use Rattle.plan_rows.specs.Rows.{cell_at};
ghost use Rattle.plan_record.specs.Record.{majors_of, parts_before};
ghost use Rattle.plan_positions.specs.Positions.{major_of};
ghost use Rattle.plan_positions.specs.Places.{ranked_part, ranked_start, holds_word, latest, RankedRowIn, Ranked};

use plan_record::numbers::{count_at, majors_of};
use plan_rows::{Column, cell_at};
use sort::partition_point;

// Word `column` of the row of the part that is k-th in the order of the state.
fn ranked_cell(room: &[u32], k: usize, column: usize) -> u32
    requires { RankedRowIn room.now k × (column < 16) }
    ensures { result ≡ cell_at room.now (ranked_part room.now k) column }
{
    cell_at(room, cell_at(room, k, Column::RANKED) as usize, column)
}

// How many of the first n parts start at word w or before it.
fn parts_up_to(room: &[u32], n: usize, w: u32) -> usize
    requires { Ranked room.now n }
    ensures { (result ≡ least (ranked_start room.now) n (w + 1)) × (result ≤ n) }
{
    partition_point(n, |k| ranked_cell(room, k, Column::STATE_START) <= w)
}

// Whether w is a normal write-out word of one of the first n parts: of the last that starts at it or before it.
pub fn is_normal(room: &[u32], n: usize, w: u32) -> bool
    requires { Ranked room.now n }
    ensures { result ≡ some_below (holds_word room.now w) n }
{
    let k = parts_up_to(room, n, w);
    if k == 0 {
        return false;
    }
    let start = ranked_cell(room, k - 1, Column::STATE_START);
    w - start < ranked_cell(room, k - 1, Column::LOCATIONS)
}

// The later of two major stages' first parts that is not after part p.
fn later_first(p: usize, first: usize, next: usize) -> usize
    ensures { result ≡ latest p first next }
{
    if next <= p {
        return next;
    }
    first
}

// The first part of part p's major stage: how many parts the earlier ones have.
pub fn parts_earlier(d: &[u8], p: usize) -> usize
    requires { majors_of d.now ≤ 64 }
    ensures { result ≡ parts_before d.now (major_of d.now p) }
{
    let mut first = 0;
    let mut next = 0;
    for s in 0..majors_of(d) as usize {
        first = later_first(p, first, next);
        next += count_at(d, s) as usize;
    }
    first
}
