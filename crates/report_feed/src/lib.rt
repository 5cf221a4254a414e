// A part is fed to a batch. Document 02, 9/13.
#![tactic(auto)]

ghost use Rattle.std.specs.Prelude.{◌≡◌, ◌*◌, ◌≤◌, ◌<◌, length};
ghost use Rattle.words.specs.Answer.{result_of};
ghost use Rattle.reads.specs.SetAnswer.{set_room_after};
ghost use Rattle.report.specs.Report.{part_given, part_outcome};
ghost use Rattle.report.specs.Batch.{same_edition, call_number, called, good_fed, refused_fed, fed_with, feed_answer, batch_after};
ghost use Rattle.report_feed.specs.FeedTold.{part_fed, call_told, Feedable, GainFeedable};
ghost use Rattle.report_part.specs.PartOutcome.{gained_of};

use report_batch::{BATCH_WORDS, MOST_PARTS, REFUSALS, is_batch, word};
use report_part::counts::{Gained, gain_of};
use report_part::outcome::part_outcome;
use words::clear::clear;
use words::edition::is_edition;
use words::refusals::{Reason, Refusal};

// The working room of a part, in words: a row of 32 entries for each lane finds its place there.
const ROOM_WORDS: usize = 16384;

// A part that was fed, good or not: what became of it.
#[derive(Clone, Copy)]
pub struct Fed {
    pub part: Result<(), Refusal>,
}

// Whether the parts before are of this edition.
fn is_same_edition(batch: &[u64], edition: u32) -> bool
    ensures { result ≡ same_edition edition batch.now }
{
    word(batch, 0) == 0 || word(batch, 7) == edition as u64
}

// What the call is refused with before its part is looked at, behind 32.
fn check_call(batch: &[u64], edition: u32) -> Result<(), Refusal>
    ensures { result ≡ call_told (call_number edition batch.now) }
{
    if !is_edition(edition) {
        return Err(Refusal::nowhere(Reason::NoEdition));
    }
    if !is_batch(batch) {
        return Err(Refusal::nowhere(Reason::PlanForm));
    }
    if !is_same_edition(batch, edition) {
        return Err(Refusal::nowhere(Reason::PlanForm));
    }
    if MOST_PARTS <= word(batch, 0) {
        return Err(Refusal::nowhere(Reason::BatchFull));
    }
    if batch.len() < BATCH_WORDS {
        return Err(Refusal::nowhere(Reason::ResultShort));
    }
    Ok(())
}

// Adds a good part.
fn add_good(batch: &mut [u64], gain: Gained, n: usize)
    requires { GainFeedable n batch.old gain }
    ensures { batch.new ≡ good_fed n (gained_of gain) batch.old }
{
    let totals = [
        batch[0] + 1,
        batch[1] + 1,
        batch[2] + gain.bits,
        batch[3] + gain.lanes,
        batch[4] + gain.rounds,
        batch[5] + gain.empty,
        batch[6] + gain.words,
        n as u64,
    ];
    batch[..8].copy_from_slice(&totals);
}

// Adds a part that is refused with a number.
fn add_refused(batch: &mut [u64], number: u32, n: usize)
    requires { Feedable n batch.old × (number < 40) }
    ensures { batch.new ≡ refused_fed n number batch.old }
{
    let at = REFUSALS + number as usize;
    let fed = batch[0] + 1;
    let count = batch[at] + 1;
    batch[0] = fed;
    batch[7] = n as u64;
    batch[at] = count;
}

// Feeds a part of n lanes to a batch that is not full. What the table holds afterwards is left open.
fn feed_part(
    set: &[u32],
    lanes: &[u32],
    table: &mut [u32],
    batch: &mut [u64],
    stages: u32,
    n: usize,
) -> Fed
    requires { Feedable n batch.old × (length table.old ≡ 32 * n) }
    ensures value { result ≡ part_fed (part_outcome n (part_given set.now lanes.now stages)) }
    ensures batch_after { batch.new ≡ fed_with n (part_given set.now lanes.now stages) (part_outcome n (part_given set.now lanes.now stages)) batch.old }
{
    match part_outcome(set, lanes, table, stages, n) {
        Ok(()) => {
            let gain = gain_of(set, table, stages, n);
            add_good(batch, gain, n);
            Fed { part: Ok(()) }
        }
        Err(refusal) => {
            add_refused(batch, refusal.number, n);
            Fed { part: Err(refusal) }
        }
    }
}

// The same for any batch and any number in the place of an edition's. What the room holds afterwards is left open.
fn feed_in(
    set: &[u32],
    lanes: &[u32],
    room: &mut [u32],
    batch: &mut [u64],
    stages: u32,
    edition: u32,
) -> Result<Fed, Refusal>
    requires { 16384 ≤ length room.old }
    ensures value { result ≡ result_of part_fed (called (call_number edition batch.old) (part_outcome edition (part_given set.now lanes.now stages))) }
    ensures batch_after { batch.new ≡ batch_after edition (part_given set.now lanes.now stages) (called (call_number edition batch.old) (part_outcome edition (part_given set.now lanes.now stages))) batch.old }
{
    check_call(batch, edition)?;
    let n = edition as usize;
    let rows = 32 * n;
    Ok(feed_part(set, lanes, &mut room[..rows], batch, stages, n))
}

// Feeds a part to a batch: its read set, the words of lanes handed in (none: our own search), its stages. The answer (the refusal of a call feeds
// nothing), the batch and the lent room are as document 02 says.
pub fn feed(
    set: &[u32],
    lanes: &[u32],
    room: &mut [u32],
    batch: &mut [u64],
    stages: u32,
    edition: u32,
) -> Result<Fed, Refusal>
    ensures value { result ≡ result_of part_fed (feed_answer (length room.old) edition (part_given set.now lanes.now stages) batch.old) }
    ensures batch_after { batch.new ≡ batch_after edition (part_given set.now lanes.now stages) (feed_answer (length room.old) edition (part_given set.now lanes.now stages) batch.old) batch.old }
    ensures room_after { room.new ≡ set_room_after room.old }
{
    if room.len() < ROOM_WORDS {
        return Err(Refusal::nowhere(Reason::RoomShort));
    }
    let answer = feed_in(set, lanes, room, batch, stages, edition);
    clear(room);
    answer
}
