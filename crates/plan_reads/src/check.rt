// Refusals 3, 21, 22 and 4 over the whole plan.
ghost use Rattle.std.specs.Prelude.{◌≡◌, ◌<◌, length, set};
ghost use Rattle.words.specs.Reasons.{number_of};
ghost use Rattle.rounds.specs.Rounds.{rounds_of};
ghost use Rattle.plan_record.specs.Record.{plan_lanes};
ghost use Rattle.plan_rows.specs.Columns as col;
ghost use Rattle.plan_rows.specs.Rows.{cell};
ghost use Rattle.plan_winners.specs.Winners.{ListsInRange};
ghost use Rattle.plan_reads.specs.PartReads.{part_reads, refused_reads};
ghost use Rattle.plan_reads.specs.ReadsReady.{AllPlanned, SetRoom, ClearRoom, ReadsSearchable};
ghost use Rattle.plan_reads.specs.PartReadAnswers.{refused_at, first_after, FirstsAfter, firsts_told, checked_of, rounds_kept, size_kept, searched_room};

use crate::asked::part_set;
use crate::searched::search_set;
use plan_positions::planned::PIN_TABLE;
use plan_record::bodies::{Part, first_body, parts_of};
use plan_rows::{Column, put_cell};
use rounds::Placed;
use words::clear::clear;
use words::found::Place;
use words::refusals::{Reason, Refusal};

// The first part with nothing to read, else with too many bits, else with too many wide words, else without room, with the word.
#[derive(Clone, Copy)]
pub enum Unread {
    Nothing(usize),
    Bits(usize),
    Wide(usize),
    NoRoom(usize, u64),
}

// The first places refused by 21, by 22 and by 4: a part, and for 4 the word.
#[derive(Clone, Copy)]
pub struct Firsts {
    pub bits: Option<Place>,
    pub wide: Option<Place>,
    pub stuck: Option<Place>,
}

// The reads of part p. A lent room has its table of pins, and then in its first words the search's table, a row of 32 for each lane. What the
// lent slices hold afterwards is left open.
fn search_part(
    part: &Part,
    room: &mut [u32],
    keys: &mut [u64],
    scratch: &mut [u64],
    set: &mut [u32],
) -> Result<Placed, Refusal>
    requires { (0 < part.now.body.stages) × ListsInRange part.now.d.now × AllPlanned part.now.d.now part.now.p × SetRoom (length keys.old) (length scratch.old) (length set.old) × (length room.old ≡ 32768) }
    ensures { result ≡ rounds_of (part_reads (plan_lanes part.now.d.now) part.now.d.now part.now.p) }
{
    let lanes = part.body.lanes;
    let rows = 32 * lanes;
    let n = part_set(part, room, keys, scratch, set);
    search_set(&set[..n], &mut room[..rows], keys, scratch, lanes)
}

// The same with the first words of a room, which are clear before and after.
fn check_part(
    part: &Part,
    room: &mut [u32],
    keys: &mut [u64],
    scratch: &mut [u64],
    set: &mut [u32],
) -> Result<Placed, Refusal>
    requires { (0 < part.now.body.stages) × ListsInRange part.now.d.now × AllPlanned part.now.d.now part.now.p × SetRoom (length keys.old) (length scratch.old) (length set.old) × ClearRoom part.now.d.now room.old }
    ensures value { result ≡ rounds_of (part_reads (plan_lanes part.now.d.now) part.now.d.now part.now.p) }
    ensures room_unchanged { room.new ≡ room.old }
{
    let reads = search_part(part, &mut room[..PIN_TABLE], keys, scratch, set);
    clear(&mut room[..PIN_TABLE]);
    reads
}

// The item that a part is refused at for a reason.
fn refused_at(reason: Reason, reads: Result<Placed, Refusal>) -> Option<usize>
    ensures { result ≡ refused_at (number_of reason) reads }
{
    match reads {
        Ok(_) => None,
        Err(q) => {
            if q.number == reason.number() {
                return Some(q.item as usize);
            }
            None
        }
    }
}

// The first place refused for a reason, after part p.
fn first_after(
    reason: Reason,
    first: Option<Place>,
    p: usize,
    reads: Result<Placed, Refusal>,
) -> Option<Place>
    ensures { result ≡ first_after (number_of reason) first p reads }
{
    match first {
        Some(x) => Some(x),
        None => match refused_at(reason, reads) {
            Some(item) => Some(Place { part: p, item }),
            None => None,
        },
    }
}

// All three, after part p.
fn firsts_after(found: Firsts, p: usize, reads: Result<Placed, Refusal>) -> Firsts
    ensures { FirstsAfter found p reads result }
{
    Firsts {
        bits: first_after(Reason::ManyBits, found.bits, p, reads),
        wide: first_after(Reason::ManyWide, found.wide, p, reads),
        stuck: first_after(Reason::NoRoomFound, found.stuck, p, reads),
    }
}

// 21, then 22, then 4.
fn tell_firsts(found: Firsts) -> Result<(), Unread>
    ensures { result ≡ firsts_told found }
{
    match (found.bits, found.wide, found.stuck) {
        (Some(x), _, _) => Err(Unread::Bits(x.part)),
        (None, Some(x), _) => Err(Unread::Wide(x.part)),
        (None, None, Some(x)) => Err(Unread::NoRoom(x.part, x.item as u64)),
        (None, None, None) => Ok(()),
    }
}

// The rounds and the piece size as they are kept: 0 where there are none.
fn kept(reads: Result<Placed, Refusal>) -> Placed
    ensures { (result.rounds ≡ rounds_kept reads) × (result.size ≡ size_kept reads) }
{
    match reads {
        Ok(placed) => placed,
        Err(_) => Placed { rounds: 0, size: 0 },
    }
}

// The rounds and the piece size of part p into its row.
fn put_reads(room: &mut [u32], p: usize, reads: Result<Placed, Refusal>)
    requires { (p < 262144) × (cell p col.piece_size < length room.old) }
    ensures { room.new ≡ set (set room.old (cell p col.rounds) (rounds_kept reads)) (cell p col.piece_size) (size_kept reads) }
{
    let placed = kept(reads);
    put_cell(room, p, Column::ROUNDS, placed.rounds);
    put_cell(room, p, Column::PIECE_SIZE, placed.size);
}

// Refusals 3, 21, 22 and 4. Each part's row then has its rounds and its piece size; the first part with nothing to read ends it. What keys,
// scratch and set hold afterwards is left open.
pub fn check_reads(
    d: &[u8],
    room: &mut [u32],
    keys: &mut [u64],
    scratch: &mut [u64],
    set: &mut [u32],
) -> Result<(), Unread>
    requires { ReadsSearchable d.now room.old × SetRoom (length keys.old) (length scratch.old) (length set.old) }
    ensures value { result ≡ checked_of (refused_reads (plan_lanes d.now) 3 d.now) (refused_reads (plan_lanes d.now) 21 d.now) (refused_reads (plan_lanes d.now) 22 d.now) (refused_reads (plan_lanes d.now) 4 d.now) }
    ensures room_after { room.new ≡ searched_room d.now room.old }
{
    let mut at = first_body(d);
    let mut found = Firsts {
        bits: None,
        wide: None,
        stuck: None,
    };
    for p in 0..parts_of(d) {
        let part = Part::at(d, p, at);
        let reads = check_part(&part, room, keys, scratch, set);
        if refused_at(Reason::NothingToRead, reads).is_some() {
            return Err(Unread::Nothing(p));
        }
        found = firsts_after(found, p, reads);
        put_reads(room, p, reads);
        at = part.body.end;
    }
    tell_firsts(found)
}
