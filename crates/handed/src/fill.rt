// The lanes handed in, word by word: what is wrong with them first, and their table.
ghost use Rattle.std.specs.Prelude.{◌≡◌, [], ◌+◌, ◌*◌, ◌%◌, ◌^◌, ◌≤◌, length, replicate};
ghost use Rattle.std.proofs.Math.Option.{none};
ghost use Rattle.words.specs.Found.{item_of};
ghost use Rattle.reads.specs.ReadSet.{pairs_of};
ghost use Rattle.handed_lanes.specs.Handed.{lanes_in, bad_pair, fault, told_item};
ghost use Rattle.handed.specs.Fill.{Fillable, PairsFilled, judged_of, table_handed};

use handed_pairs::{fit, is_whole, put};
use words::bits;
use words::clear::clear;

// A pair may not stand where it does: its item.
#[derive(Clone, Copy)]
struct Misplaced {
    item: usize,
}

// A place of the lanes as an item, in 64 bits.
fn item(lane: usize, place: usize) -> usize
    requires { place ≤ 32 }
    ensures { result ≡ (64 * lane + place) % 2 ^ 64 }
{
    64 * (lane % 0x0400_0000_0000_0000) + place
}

// Judges the pairs handed in, one after the other, and puts them into the table: the first that may not stand where it does, or how many lanes
// there are. After a pair that may not, what the table and the marks hold is left open.
fn judge_pairs(
    set: &[u32],
    lanes: &[u32],
    table: &mut [u32],
    seen: &mut [u32],
    n: usize,
) -> Result<usize, Misplaced>
    requires { Fillable set.now (length table.old) (length seen.old) n × (table.old ≡ replicate (32 * n) 0) × (seen.old ≡ replicate 256 0) }
    ensures value { result ≡ judged_of (bad_pair (pairs_of set.now) [] 0 (lanes_in (pairs_of set.now) lanes.now)) (length (lanes_in (pairs_of set.now) lanes.now)) }
    ensures pairs_filled { bad_pair (pairs_of set.now) [] 0 (lanes_in (pairs_of set.now) lanes.now) ≡ none → PairsFilled set.now n (lanes_in (pairs_of set.now) lanes.now) table.new seen.new }
{
    let mut lane = 0;
    let mut place = 0;
    let mut b = 0;
    for k in 0..lanes.len() / 2 {
        let m = lanes[2 * k + 1];
        if m == 0 {
            lane += 1;
            place = 0;
            b = 0;
            continue;
        }
        let Some(p) = fit(set, seen, b, lanes[2 * k], m) else {
            return Err(Misplaced {
                item: item(lane, place),
            });
        };
        put(table, seen, n, lane, place, p);
        place += 1;
        b += bits::count(m);
    }
    if lanes.len() % 2 == 1 {
        return Ok(lane + 1);
    }
    if 0 < place {
        return Ok(lane + 1);
    }
    Ok(lane)
}

// Judges lanes handed in and leaves their table; where they are not a packing of the set, what is wrong first and an empty table. What the marks
// hold afterwards is left open.
pub fn fill_lanes(
    set: &[u32],
    lanes: &[u32],
    table: &mut [u32],
    seen: &mut [u32],
    n: usize,
) -> Option<usize>
    requires { Fillable set.now (length table.old) (length seen.old) n }
    ensures value { result ≡ item_of (told_item (fault n (pairs_of set.now) (lanes_in (pairs_of set.now) lanes.now))) }
    ensures table_after { table.new ≡ table_handed n (fault n (pairs_of set.now) (lanes_in (pairs_of set.now) lanes.now)) (lanes_in (pairs_of set.now) lanes.now) }
{
    clear(table);
    clear(seen);
    match judge_pairs(set, lanes, table, seen, n) {
        Err(bad) => {
            clear(table);
            Some(bad.item)
        }
        Ok(count) => {
            if is_whole(seen, set.len() / 2, count, n) {
                return None;
            }
            clear(table);
            Some(item(count, 0))
        }
    }
}
