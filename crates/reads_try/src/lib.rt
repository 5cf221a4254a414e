// The lanes: the search for room, and one try.
#![tactic(auto)]

ghost use Rattle.std.specs.Prelude.{◌≡◌, ◌++◌, ◌+◌, ◌*◌, ◌/◌, ◌%◌, ◌≤◌, length, get_or, set, drop};
ghost use Rattle.std.proofs.Math.Seq.{slice};
ghost use Rattle.words.specs.Found.{item_of};
ghost use Rattle.reads.specs.ReadSet.{total, pairs_of};
ghost use Rattle.reads_try.specs.LaneTable.{table_of, used_of, held_of};
ghost use Rattle.reads_try.specs.Late.{any_full, late_full};
ghost use Rattle.reads_try.specs.TableLanes.{pair_at, lane_of, row_at, lanes_at, put_in_lane};
ghost use Rattle.reads_try.specs.Tries.{first_free, lane_for, next_of, lanes_after, ending_of, tried_lanes, tried_of, RowNamed, LaneRowIn, LanesSearchable, PairPuttable, PairPlaceable, TryReady};

use words::round::next_of;

// No lane had room for the pair of this word, which ends a try.
#[derive(Clone, Copy)]
pub struct Stuck {
    pub word: u32,
}

// What a lane holds: bits, and pairs.
#[derive(Clone, Copy)]
pub struct Load {
    pub bits: u32,
    pub pairs: usize,
}

// The load of a lane, summed over its row: a word is a pair's number and one, and a 0 ends the lane. The mask of pair e - 1 is word 2e - 1.
fn row_load(set: &[u32], row: &[u32]) -> Load
    requires { RowNamed set.now row.now }
    ensures { (result.bits ≡ total (lane_of set.now row.now)) × (result.pairs ≡ length (lane_of set.now row.now)) }
{
    let mut bits = 0;
    for (pairs, e) in row.iter().enumerate() {
        if *e == 0 {
            return Load { bits, pairs };
        }
        bits += words::bits::count(set[2 * (*e as usize) - 1]);
    }
    Load {
        bits,
        pairs: row.len(),
    }
}

// The load of lane j.
pub fn lane_load(set: &[u32], room: &[u32], j: usize) -> Load
    requires { LaneRowIn set.now room.now j }
    ensures { (result.bits ≡ total (lane_of set.now (row_at room.now j))) × (result.pairs ≡ length (lane_of set.now (row_at room.now j))) }
{
    let at = 32 * j;
    let end = at + 32;
    row_load(set, &room[at..end])
}

// The first lane with room for b more bits, going round from lane `from`.
fn find_lane(used: &[u32], lanes: usize, from: usize, b: u32) -> Option<usize>
    requires { LanesSearchable (length used.now) lanes from b }
    ensures { result ≡ item_of (first_free lanes lanes used.now b from) }
{
    let mut j = from;
    for passed in 0..lanes {
        if used[j] <= 32 - b {
            return Some(j);
        }
        j = next_of(j, lanes);
    }
    None
}

// Puts pair p, of b bits, behind those of lane j.
fn put(room: &mut [u32], used: &mut [u32], held: &mut [u32], j: usize, p: usize, b: u32)
    requires { PairPuttable (length room.old) used.old held.old j p b }
    ensures room_after { room.new ≡ put_in_lane room.old j (get_or held.old j 0) p }
    ensures used_after { used.new ≡ set used.old j (get_or used.old j 0 + b) }
    ensures held_after { held.new ≡ set held.old j (get_or held.old j 0 + 1) }
{
    let at = 32 * j + held[j] as usize;
    room[at] = p as u32 + 1;
    used[j] += b;
    held[j] += 1;
}

// Puts pair p into the first lane with room, going round from lane `cur`. The answer is the lane after that one, if one has room.
fn place(
    set: &[u32],
    room: &mut [u32],
    used: &mut [u32],
    held: &mut [u32],
    lanes: usize,
    cur: usize,
    p: usize,
) -> Option<usize>
    requires { PairPlaceable set.now room.old used.old held.old lanes cur p }
    ensures value { result ≡ item_of (next_of lanes (lane_for set.now room.old lanes cur p)) }
    ensures room_after { room.new ≡ table_of (lanes_after (lane_for set.now room.old lanes cur p) (lanes_at set.now room.old lanes) (pair_at set.now p)) ++ drop (32 * lanes) room.old }
    ensures used_after { used.new ≡ used_of (lanes_after (lane_for set.now room.old lanes cur p) (lanes_at set.now room.old lanes) (pair_at set.now p)) }
    ensures held_after { held.new ≡ held_of (lanes_after (lane_for set.now room.old lanes cur p) (lanes_at set.now room.old lanes) (pair_at set.now p)) }
{
    let b = words::bits::count(set[2 * p + 1]);
    let j = find_lane(used, lanes, cur, b)?;
    put(room, used, held, j, p, b);
    Some(next_of(j, lanes))
}

// One try at piece size k, the pieces in the order of the keys: a key's rest by 8192 is its piece's number. No lane with room for a pair ends it.
// The bits and the pairs of each lane are kept as running numbers.
pub fn try_size(
    set: &[u32],
    keys: &[u64],
    room: &mut [u32],
    used: &mut [u32],
    held: &mut [u32],
    lanes: usize,
    k: usize,
) -> Result<(), Stuck>
    requires { TryReady set.now room.old used.old held.old lanes k }
    ensures value { result ≡ ending_of (tried_of lanes k set.now keys.now) }
    ensures room_after { room.new ≡ table_of (tried_lanes (tried_of lanes k set.now keys.now)) ++ drop (32 * lanes) room.old }
    ensures used_after { used.new ≡ used_of (tried_lanes (tried_of lanes k set.now keys.now)) }
    ensures held_after { held.new ≡ held_of (tried_lanes (tried_of lanes k set.now keys.now)) }
{
    let n = set.len() / 2;
    let mut ending = Ok(());
    let mut cur = 0;
    'pieces: for key in keys {
        let begin = (*key % 8192) as usize * k;
        let end = (begin + k).min(n);
        'pairs: for p in begin..end {
            match place(set, room, used, held, lanes, cur, p) {
                Some(j) => cur = j,
                None => {
                    ending = Err(Stuck { word: set[2 * p] });
                    break 'pieces;
                }
            }
        }
    }
    ending
}

// Whether a pair from a to e has all 32 bits.
pub fn full_in(set: &[u32], a: usize, e: usize) -> bool
    requires { e ≤ length set.now / 2 }
    ensures { result ≡ any_full (slice a e (pairs_of set.now)) }
{
    for p in a..e {
        if set[2 * p + 1] == 0xFFFF_FFFF {
            return true;
        }
    }
    false
}

// Whether a pair of 32 bits comes after as many pairs as there are lanes, the pieces in the order of the keys: then the try of that order ends
// without room.
pub fn late_full(set: &[u32], keys: &[u64], lanes: usize, k: usize) -> bool
    requires { (length set.now % 2 ≡ 0) × (length set.now ≤ 16384) × (lanes ≤ 256) × (k ≤ 8192) }
    ensures { result ≡ late_full lanes k set.now keys.now }
{
    let n = set.len() / 2;
    let mut left = lanes;
    for key in keys {
        let i = (*key % 8192) as usize;
        let a = (i * k).min(n);
        let e = (a + k).min(n);
        if full_in(set, a + left, e) {
            return true;
        }
        left = left.saturating_sub(e - a);
    }
    false
}
