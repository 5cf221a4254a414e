// A packing from outside: document 02, 8/13. The lanes handed in are judged, and their rounds are written as those of our own search.
#![tactic(auto)]

pub mod fill;

ghost use Rattle.std.specs.Prelude.{◌≡◌, length};
ghost use Rattle.reads.specs.ReadSet.{pairs_of};
ghost use Rattle.reads.specs.SetAnswer.{set_fitted, result_after, set_room_after};
ghost use Rattle.rounds.specs.Rounds.{rounds_of};
ghost use Rattle.handed_lanes.specs.Handed.{handed_set, handed_answer};
ghost use Rattle.handed.specs.Fill.{LanesSolvable};

use fill::fill_lanes;
use rounds::{Placed, ROOM_WORDS, SET_WORDS};
use words::clear::clear;
use words::edition::Edition;
use words::refusals::{Reason, Refusal};

// A row of 32 entries for each lane; a bit for each pair.
const LANE_ROWS: usize = 32 * Edition::LANES;

const MARKS: usize = 256;

// The rounds of a set with lanes handed in, over any number of lanes: the table has 32 words a lane. What the table and the marks hold
// afterwards is left open.
pub fn lanes_over(
    set: &[u32],
    lanes: &[u32],
    table: &mut [u32],
    seen: &mut [u32],
    out: &mut [u32],
    n: usize,
) -> Result<Placed, Refusal>
    requires { LanesSolvable (length table.old) (length seen.old) n }
    ensures value { result ≡ rounds_of (set_fitted n (length out.old) (handed_set n (pairs_of set.now) lanes.now)) }
    ensures out_after { out.new ≡ result_after (set_fitted n (length out.old) (handed_set n (pairs_of set.now) lanes.now)) out.old }
{
    if SET_WORDS < set.len() {
        return Err(Refusal::nowhere(Reason::ManyPairs));
    }
    if let Some(i) = reads_section::check_form(set) {
        return Err(Refusal::at_item(Reason::PairForm, i as u64));
    }
    if set.len() == 0 {
        return Err(Refusal::nowhere(Reason::NothingToRead));
    }
    if let Some(i) = fill_lanes(set, lanes, table, seen, n) {
        return Err(Refusal::at_item(Reason::NoPacking, i as u64));
    }
    let rounds = reads_section::longest_row(set, table, n);
    if out.len() < 2 * n * rounds {
        return Err(Refusal::nowhere(Reason::ResultShort));
    }
    reads_section::write_rounds(set, table, n, rounds, out);
    Ok(Placed {
        rounds: rounds as u32,
        size: 0,
    })
}

// The rounds of a read set with lanes handed in, at 256 lanes: word, mask, word, mask .. in, both; per round 512 words out. The answer, the
// lent result and the lent room are as those of our own search.
pub fn lane_rounds(
    set: &[u32],
    lanes: &[u32],
    room: &mut [u32],
    out: &mut [u32],
) -> Result<Placed, Refusal>
    ensures value { result ≡ rounds_of (handed_answer 256 set.now lanes.now (length out.old) (length room.old)) }
    ensures out_after { out.new ≡ result_after (handed_answer 256 set.now lanes.now (length out.old) (length room.old)) out.old }
    ensures room_after { room.new ≡ set_room_after room.old }
{
    if room.len() < ROOM_WORDS {
        return Err(Refusal::nowhere(Reason::RoomShort));
    }
    let mut seen = [0u32; MARKS];
    let answer = lanes_over(
        set,
        lanes,
        &mut room[..LANE_ROWS],
        &mut seen,
        out,
        Edition::LANES,
    );
    clear(room);
    answer
}
