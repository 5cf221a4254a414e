// Read rounds: document 01, "Read rounds". The Rust is `map_global_read_to_rounds`.
#![tactic(auto)]

ghost use Rattle.std.specs.Prelude.{◌≡◌, ◌&&◌, ◌*◌, ◌/◌, ◌%◌, ◌≤◌, ◌<◌, ltb, length, replicate};
ghost use Rattle.reads.specs.ReadSet.{pairs_of};
ghost use Rattle.reads.specs.Search.{try, lanes_of};
ghost use Rattle.reads.specs.SetAnswer.{searched, packed, read_set, set_fitted, result_after, set_room_after};
ghost use Rattle.reads_try.specs.Late.{late_full};
ghost use Rattle.reads_pieces.specs.Keys.{keys_of};
ghost use Rattle.rounds.specs.RoundsAnswer.{edition_answer, rounds_answer};
ghost use Rattle.rounds.specs.Rounds.{rounds_of, searched_of, reason_before, word_told, told_of, won_lanes, table_after, TrySet, SetSearchable, RoundsReady};

use reads_try::Stuck;
use words::clear::clear;
use words::edition::{Edition, is_edition};
use words::refusals::{Reason, Refusal};

// The most pairs of a read set, and its words.
pub const PAIRS: usize = 8192;

pub const SET_WORDS: usize = 2 * PAIRS;

// The working room of a read set, in words: a row of 32 entries for each lane finds its place there.
pub const ROOM_WORDS: usize = 16384;

// A set of few pairs: its search has shorter keys and scratch, because to clear long ones takes longer than it does.
const FEW_PAIRS: usize = 1024;

// The number of rounds that were written, and the piece size that won.
#[derive(Clone, Copy)]
pub struct Placed {
    pub rounds: u32,
    pub size: u32,
}

// 3, 21 or 22, which need no search, where a set meets one of them. No more pairs than lanes have no more than 32 bits a lane, and no more
// than 17 bits a lane are of no more wide pairs than lanes: then nothing more is counted.
fn refused_before(set: &[u32], lanes: usize) -> Option<Reason>
    requires { (length set.now % 2 ≡ 0) × (length set.now ≤ 16384) × (lanes ≤ 256) }
    ensures { result ≡ reason_before lanes (pairs_of set.now) }
{
    let n = set.len() / 2;
    if n == 0 {
        return Some(Reason::NothingToRead);
    }
    if n <= lanes {
        return None;
    }
    let bits = reads_pieces::total_bits(set, 0, n) as usize;
    if 32 * lanes < bits {
        return Some(Reason::ManyBits);
    }
    if bits <= 17 * lanes {
        return None;
    }
    let wide = reads_pieces::wide_pairs(set);
    if lanes < wide {
        return Some(Reason::ManyWide);
    }
    None
}

// What is told of a try that ended without room, at piece size k: its word, for the last size alone.
fn told(k: usize, stuck: Stuck) -> Stuck
    ensures { result.word ≡ word_told k stuck.word }
{
    if 1 < k { Stuck { word: 0 } } else { stuck }
}

// A try at piece size k, its pieces in the order of the keys: their pairs are placed in the empty table, which is empty again if it ends
// without room.
fn try_ordered(
    set: &[u32],
    keys: &[u64],
    table: &mut [u32],
    used: &mut [u32],
    held: &mut [u32],
    lanes: usize,
    k: usize,
) -> Result<(), Stuck>
    requires { TrySet set.now lanes k × (keys.now ≡ keys_of k (pairs_of set.now)) × (table.old ≡ replicate (32 * lanes) 0) × (length used.old ≡ lanes) × (length held.old ≡ lanes) }
    ensures value { result ≡ told_of k (try lanes (pairs_of set.now) k) }
    ensures table_after { table.new ≡ table_after lanes (won_lanes (try lanes (pairs_of set.now) k)) }
{
    clear(used);
    clear(held);
    if let Err(stuck) = reads_try::try_size(set, keys, table, used, held, lanes, k) {
        clear(table);
        return Err(told(k, stuck));
    }
    Ok(())
}

// Whether a size but the last may be passed over, where it is worth a look: its try would end without room.
fn passed_over(set: &[u32], keys: &[u64], lanes: usize, k: usize, look: bool) -> bool
    requires { TrySet set.now lanes k }
    ensures { result ≡ (look && (ltb 1 k && late_full lanes k set.now keys.now)) }
{
    if !look {
        return false;
    }
    if k <= 1 {
        return false;
    }
    reads_try::late_full(set, keys, lanes, k)
}

// A try at piece size k, in the empty table: the pieces are put in order, and their pairs placed, unless that is known to end without room.
fn try_pieces(
    set: &[u32],
    table: &mut [u32],
    used: &mut [u32],
    held: &mut [u32],
    keys: &mut [u64],
    scratch: &mut [u64],
    lanes: usize,
    k: usize,
    look: bool,
) -> Result<(), Stuck>
    requires { SetSearchable set.now (length table.old) (length keys.old) (length scratch.old) lanes × (0 < k) × (k ≤ length set.now / 2) × (table.old ≡ replicate (32 * lanes) 0) × (length used.old ≡ lanes) × (length held.old ≡ lanes) }
    ensures value { result ≡ told_of k (try lanes (pairs_of set.now) k) }
    ensures table_after { table.new ≡ table_after lanes (won_lanes (try lanes (pairs_of set.now) k)) }
{
    let count = (set.len() / 2 + k - 1) / k;
    reads_pieces::order(set, &mut keys[..count], scratch, k);
    if passed_over(set, &keys[..count], lanes, k, look) {
        return Err(Stuck { word: 0 });
    }
    try_ordered(set, &keys[..count], table, used, held, lanes, k)
}

// The search over the sizes n, n/2, n/4 .. 1, up to the first that places all: then it, with its lanes in the table. Else 4, with the word
// of the last try, and an empty table. Sizes are passed over only where a pair of 32 bits is among the first. The running numbers of the lanes
// are lent; what they hold afterwards is left open.
fn sizes_over(
    set: &[u32],
    table: &mut [u32],
    used: &mut [u32],
    held: &mut [u32],
    keys: &mut [u64],
    scratch: &mut [u64],
    lanes: usize,
) -> Result<usize, Refusal>
    requires { SetSearchable set.now (length table.old) (length keys.old) (length scratch.old) lanes × (length used.old ≡ lanes) × (length held.old ≡ lanes) × (0 < length set.now / 2) }
    ensures value { result ≡ searched_of (searched lanes (pairs_of set.now)) }
    ensures table_after { table.new ≡ table_after lanes (lanes_of lanes (pairs_of set.now)) }
{
    let mut word = 0;
    let mut k = set.len() / 2;
    let look = reads_try::full_in(set, 0, k.min(FEW_PAIRS));
    clear(table);
    while 0 < k {
        match try_pieces(set, table, used, held, keys, scratch, lanes, k, look) {
            Ok(()) => return Ok(k),
            Err(stuck) => word = stuck.word,
        }
        k /= 2;
    }
    Err(Refusal::at_item(Reason::NoRoomFound, word as u64))
}

// What a set gets: 3, 21, 22, and then the search. The table holds the lanes of the size that won, or is empty.
pub fn search_sizes(
    set: &[u32],
    table: &mut [u32],
    keys: &mut [u64],
    scratch: &mut [u64],
    lanes: usize,
) -> Result<usize, Refusal>
    requires { SetSearchable set.now (length table.old) (length keys.old) (length scratch.old) lanes }
    ensures value { result ≡ searched_of (packed lanes (pairs_of set.now)) }
    ensures table_after { table.new ≡ table_after lanes (lanes_of lanes (pairs_of set.now)) }
{
    if let Some(reason) = refused_before(set, lanes) {
        clear(table);
        return Err(Refusal::nowhere(reason));
    }
    let mut used = [0u32; Edition::LANES];
    let mut held = [0u32; Edition::LANES];
    sizes_over(
        set,
        table,
        &mut used[..lanes],
        &mut held[..lanes],
        keys,
        scratch,
        lanes,
    )
}

// The rounds of a set over any number of lanes: the table has 32 words a lane. What the table, the keys and the scratch hold afterwards is
// left open.
pub fn rounds_over(
    set: &[u32],
    table: &mut [u32],
    out: &mut [u32],
    keys: &mut [u64],
    scratch: &mut [u64],
    lanes: usize,
) -> Result<Placed, Refusal>
    requires { RoundsReady (length set.now) (length table.old) (length keys.old) (length scratch.old) lanes }
    ensures value { result ≡ rounds_of (set_fitted lanes (length out.old) (read_set lanes (pairs_of set.now))) }
    ensures out_after { out.new ≡ result_after (set_fitted lanes (length out.old) (read_set lanes (pairs_of set.now))) out.old }
{
    if SET_WORDS < set.len() {
        return Err(Refusal::nowhere(Reason::ManyPairs));
    }
    if let Some(i) = reads_section::check_form(set) {
        return Err(Refusal::at_item(Reason::PairForm, i as u64));
    }
    let size = search_sizes(set, table, keys, scratch, lanes)?;
    let rounds = reads_section::longest_row(set, table, lanes);
    if out.len() < 2 * lanes * rounds {
        return Err(Refusal::nowhere(Reason::ResultShort));
    }
    reads_section::write_rounds(set, table, lanes, rounds, out);
    Ok(Placed {
        rounds: rounds as u32,
        size: size as u32,
    })
}

// The same, with keys and scratch for so many pairs.
fn rounds_within<const KEYS: usize>(
    set: &[u32],
    table: &mut [u32],
    out: &mut [u32],
    lanes: usize,
) -> Result<Placed, Refusal>
    requires { RoundsReady (length set.now) (length table.old) KEYS KEYS lanes × (KEYS ≤ 8192) }
    ensures value { result ≡ rounds_of (set_fitted lanes (length out.old) (read_set lanes (pairs_of set.now))) }
    ensures out_after { out.new ≡ result_after (set_fitted lanes (length out.old) (read_set lanes (pairs_of set.now))) out.old }
{
    let mut keys = [0u64; KEYS];
    let mut scratch = [0u64; KEYS];
    rounds_over(set, table, out, &mut keys, &mut scratch, lanes)
}

// The same for any set.
fn rounds_of_any(
    set: &[u32],
    table: &mut [u32],
    out: &mut [u32],
    lanes: usize,
) -> Result<Placed, Refusal>
    requires { (length table.old ≡ 32 * lanes) × (0 < lanes) × (lanes ≤ 256) }
    ensures value { result ≡ rounds_of (set_fitted lanes (length out.old) (read_set lanes (pairs_of set.now))) }
    ensures out_after { out.new ≡ result_after (set_fitted lanes (length out.old) (read_set lanes (pairs_of set.now))) out.old }
{
    if set.len() <= 2 * FEW_PAIRS {
        rounds_within::<FEW_PAIRS>(set, table, out, lanes)
    } else {
        rounds_within::<PAIRS>(set, table, out, lanes)
    }
}

// The same for any number in the place of an edition's. What the room holds afterwards is left open.
fn rounds_in(
    set: &[u32],
    room: &mut [u32],
    out: &mut [u32],
    edition: u32,
) -> Result<Placed, Refusal>
    requires { 16384 ≤ length room.old }
    ensures value { result ≡ rounds_of (edition_answer edition set.now (length out.old)) }
    ensures out_after { out.new ≡ result_after (edition_answer edition set.now (length out.old)) out.old }
{
    if !is_edition(edition) {
        return Err(Refusal::nowhere(Reason::NoEdition));
    }
    let lanes = edition as usize;
    let rows = 32 * lanes;
    rounds_of_any(set, &mut room[..rows], out, lanes)
}

// The rounds of a read set in an edition of n lanes: word, mask, word, mask .. in; per round 2n words out. The answer, the lent result and the
// lent room are as documents 01 and 02 say.
pub fn map_global_read_to_rounds(
    set: &[u32],
    room: &mut [u32],
    out: &mut [u32],
    edition: u32,
) -> Result<Placed, Refusal>
    ensures value { result ≡ rounds_of (rounds_answer edition set.now (length out.old) (length room.old)) }
    ensures out_after { out.new ≡ result_after (rounds_answer edition set.now (length out.old) (length room.old)) out.old }
    ensures room_after { room.new ≡ set_room_after room.old }
{
    if room.len() < ROOM_WORDS {
        return Err(Refusal::nowhere(Reason::RoomShort));
    }
    let answer = rounds_in(set, room, out, edition);
    clear(room);
    answer
}
