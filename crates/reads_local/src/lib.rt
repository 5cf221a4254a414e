// Local positions. For each pair of the set one number is kept, where its bits begin; a bit is found by its pair. The numbers are small: they
// stand in words of 64 bits since the lent list of keys is free by then.
#![tactic(auto)]

ghost use Rattle.std.specs.Prelude.{◌≡◌, ◌*◌, ◌/◌, ◌≤◌, ◌<◌, length};
ghost use Rattle.sort.specs.HalfSearch.{Monotone, least};
ghost use Rattle.reads_try.specs.TableLanes.{lane_of, row_at, lanes_at};
ghost use Rattle.reads_try.specs.Tries.{LaneRowIn};
ghost use Rattle.reads_section.specs.Readout.{TableReadable};
ghost use Rattle.reads_local.specs.Bases.{store_lane, store_lanes, pair_word_of, local_by, Locatable};

use words::units::{AskedBit, LocalPosition};

// The pairs of lane j: each begins after the bits of later rounds, so the row is walked from its end.
fn lane_bases(set: &[u32], table: &[u32], j: usize, bases: &mut [u64])
    requires { LaneRowIn set.now table.now j × (j < 256) × (length set.now / 2 ≤ length bases.old) }
    ensures { bases.new ≡ store_lane (32 * j) (lane_of set.now (row_at table.now j)) bases.old }
{
    let held = reads_try::lane_load(set, table, j);
    let first = LocalPosition::of(j as u32, 0);
    let mut sum = first.0;
    for r in (0..held.pairs).rev() {
        let e = table[32 * j + r] as usize;
        bases[e - 1] = sum as u64;
        sum += words::bits::count(set[2 * e - 1]);
    }
}

// The pairs of all lanes.
pub fn fill_bases(set: &[u32], table: &[u32], lanes: usize, bases: &mut [u64])
    requires { TableReadable set.now table.now lanes × (length set.now / 2 ≤ length bases.old) }
    ensures { bases.new ≡ store_lanes 0 (lanes_at set.now table.now lanes) bases.old }
{
    for j in 0..lanes {
        lane_bases(set, table, j, bases);
    }
}

// The first pair whose word is w or above.
pub fn find_pair(set: &[u32], w: u32) -> usize
    requires { Monotone (pair_word_of set.now) (length set.now / 2) }
    ensures { (result ≡ least (pair_word_of set.now) (length set.now / 2) w) × (result ≤ length set.now / 2) }
{
    sort::partition_point(set.len() / 2, |p| set[2 * p] < w)
}

// The local position of bit q, which the set asks for.
pub fn local_position(set: &[u32], bases: &[u64], q: AskedBit) -> LocalPosition
    requires { Locatable set.now bases.now q.0 }
    ensures { result.0 ≡ local_by set.now bases.now q.0 }
{
    let e = find_pair(set, q.word());
    let above = words::bits::count_above(set[2 * e + 1], q.bit());
    let place = bases[e] as u32 + above;
    LocalPosition(place)
}
