// The local position of one bit of a read set, as the search packs it.
#![tactic(auto)]

ghost use Rattle.std.specs.Prelude.{◌≡◌, ◌+◌, ◌*◌, ◌<◌, ◌≤◌, length};
ghost use Rattle.reads.specs.ReadSet.{pairs_of};
ghost use Rattle.reads.specs.Search.{lanes_of};
ghost use Rattle.reads.specs.SetAnswer.{packed, read_set, set_room_after};
ghost use Rattle.reads_local.specs.Bases.{local_by};
ghost use Rattle.rounds.specs.Rounds.{searched_of, table_after};
ghost use Rattle.locals.specs.LocalAnswer.{asks_for, brought_in, edition_local, local_answer};
ghost use Rattle.locals.specs.Bring.{brought_of, Formed, RowsLent, beginnings, BitFindable};

use rounds::{PAIRS, ROOM_WORDS, SET_WORDS};
use words::clear::clear;
use words::edition::is_edition;
use words::refusals::{Reason, Refusal};
use words::units::{AskedBit, LocalPosition};

// Whether the set asks for bit k of word w.
fn is_asked(set: &[u32], w: u32, k: u32) -> bool
    requires { Formed set.now }
    ensures { result ≡ asks_for (pairs_of set.now) w k }
{
    let e = reads_local::find_pair(set, w);
    if set.len() / 2 <= e {
        return false;
    }
    if set[2 * e] != w {
        return false;
    }
    if 31 < k {
        return false;
    }
    (set[2 * e + 1] >> k) & 1 == 1
}

// Bit k of word w as a bit that is asked for.
fn asked_bit(w: u32, k: u32) -> AskedBit
    requires { k < 32 }
    ensures { result.0 ≡ 32 * w + k }
{
    AskedBit(32 * w as u64 + k as u64)
}

// The search over a set. The table then has the lanes, or zeros where there are none.
fn search_lanes(set: &[u32], table: &mut [u32], lanes: usize) -> Result<usize, Refusal>
    requires { Formed set.now × RowsLent lanes (length table.old) }
    ensures value { result ≡ searched_of (packed lanes (pairs_of set.now)) }
    ensures table_after { table.new ≡ table_after lanes (lanes_of lanes (pairs_of set.now)) }
{
    let mut keys = [0u64; PAIRS];
    let mut scratch = [0u64; PAIRS];
    rounds::search_sizes(set, table, &mut keys, &mut scratch, lanes)
}

// The local position of bit q in the table's lanes.
fn position_in(set: &[u32], table: &[u32], q: AskedBit, lanes: usize) -> LocalPosition
    requires { BitFindable lanes set.now table.now q.0 }
    ensures { result.0 ≡ local_by set.now (beginnings lanes set.now table.now) q.0 }
{
    let mut bases = [0u64; PAIRS];
    reads_local::fill_bases(set, table, lanes, &mut bases);
    reads_local::local_position(set, &bases, q)
}

// The answer of a set in form: 3, 21, 22, 4, or where the bit is brought, none where the set does not ask for it. What the table holds afterwards is left open.
fn bring(
    set: &[u32],
    table: &mut [u32],
    w: u32,
    k: u32,
    lanes: usize,
) -> Result<Option<LocalPosition>, Refusal>
    requires { Formed set.now × RowsLent lanes (length table.old) }
    ensures { result ≡ brought_of (brought_in (pairs_of set.now) w k (packed lanes (pairs_of set.now))) }
{
    search_lanes(set, table, lanes)?;
    if !is_asked(set, w, k) {
        return Ok(None);
    }
    Ok(Some(position_in(set, table, asked_bit(w, k), lanes)))
}

// The answer of any set: 1 and 2 first. What the table holds afterwards is left open.
fn bring_any(
    set: &[u32],
    table: &mut [u32],
    w: u32,
    k: u32,
    lanes: usize,
) -> Result<Option<LocalPosition>, Refusal>
    requires { RowsLent lanes (length table.old) }
    ensures { result ≡ brought_of (brought_in (pairs_of set.now) w k (read_set lanes (pairs_of set.now))) }
{
    if SET_WORDS < set.len() {
        return Err(Refusal::nowhere(Reason::ManyPairs));
    }
    if let Some(i) = reads_section::check_form(set) {
        return Err(Refusal::at_item(Reason::PairForm, i as u64));
    }
    bring(set, table, w, k, lanes)
}

// The same for any number in the place of an edition's. What the room holds afterwards is left open.
fn bring_in(
    set: &[u32],
    room: &mut [u32],
    w: u32,
    k: u32,
    edition: u32,
) -> Result<Option<LocalPosition>, Refusal>
    requires { 16384 ≤ length room.old }
    ensures { result ≡ brought_of (edition_local edition set.now w k) }
{
    if !is_edition(edition) {
        return Err(Refusal::nowhere(Reason::NoEdition));
    }
    let lanes = edition as usize;
    let rows = 32 * lanes;
    bring_any(set, &mut room[..rows], w, k, lanes)
}

// The local position of bit k of word w of a read set in an edition: word, mask, word, mask .. There is none where the set does not ask for the bit.
pub fn local_position(
    set: &[u32],
    room: &mut [u32],
    w: u32,
    k: u32,
    edition: u32,
) -> Result<Option<LocalPosition>, Refusal>
    ensures value { result ≡ brought_of (local_answer edition set.now (length room.old) w k) }
    ensures room_after { room.new ≡ set_room_after room.old }
{
    if room.len() < ROOM_WORDS {
        return Err(Refusal::nowhere(Reason::RoomShort));
    }
    let answer = bring_in(set, room, w, k, edition);
    clear(room);
    answer
}
