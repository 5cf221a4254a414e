// What becomes of a part: it is good, or it is refused. Its lanes are left in the table, 32 words a lane.
ghost use Rattle.std.specs.Prelude.{◌≡◌, ◌*◌, ◌≤◌, ◌<◌, length};
ghost use Rattle.reads.specs.ReadSet.{pairs_of};
ghost use Rattle.reads.specs.SetAnswer.{read_set};
ghost use Rattle.handed_lanes.specs.Handed.{handed_set};
ghost use Rattle.rounds.specs.Rounds.{RoundsReady};
ghost use Rattle.report.specs.Report.{part_given, part_outcome};
ghost use Rattle.report_part.specs.PartOutcome.{outcome_of, LanesLie};

use handed::fill::fill_lanes;
use words::refusals::{Reason, Refusal};

// The most words of a read set, and its pairs; a set of few pairs, whose search has shorter keys and scratch; a bit for each pair.
const SET_WORDS: usize = 16384;

const PAIRS: usize = 8192;

const FEW_PAIRS: usize = 1024;

const MARKS: usize = 256;

const STAGES: u32 = 255;

// A set by our own search, with keys and scratch lent.
fn search_in(
    set: &[u32],
    table: &mut [u32],
    keys: &mut [u64],
    scratch: &mut [u64],
    n: usize,
) -> Result<(), Refusal>
    requires { RoundsReady (length set.now) (length table.old) (length keys.old) (length scratch.old) n }
    ensures value { result ≡ outcome_of (read_set n (pairs_of set.now)) }
    ensures lanes_lie { LanesLie n set.now table.new (read_set n (pairs_of set.now)) }
{
    if SET_WORDS < set.len() {
        return Err(Refusal::nowhere(Reason::ManyPairs));
    }
    if let Some(i) = reads_section::check_form(set) {
        return Err(Refusal::at_item(Reason::PairForm, i as u64));
    }
    rounds::search_sizes(set, table, keys, scratch, n)?;
    Ok(())
}

// A set of few pairs by our own search.
fn search_few(set: &[u32], table: &mut [u32], n: usize) -> Result<(), Refusal>
    requires { (length set.now ≤ 2048) × (length table.old ≡ 32 * n) × (0 < n) × (n ≤ 256) }
    ensures value { result ≡ outcome_of (read_set n (pairs_of set.now)) }
    ensures lanes_lie { LanesLie n set.now table.new (read_set n (pairs_of set.now)) }
{
    let mut keys = [0u64; FEW_PAIRS];
    let mut scratch = [0u64; FEW_PAIRS];
    search_in(set, table, &mut keys, &mut scratch, n)
}

// Any set by our own search.
fn search(set: &[u32], table: &mut [u32], n: usize) -> Result<(), Refusal>
    requires { (length table.old ≡ 32 * n) × (0 < n) × (n ≤ 256) }
    ensures value { result ≡ outcome_of (read_set n (pairs_of set.now)) }
    ensures lanes_lie { LanesLie n set.now table.new (read_set n (pairs_of set.now)) }
{
    if set.len() <= 2 * FEW_PAIRS {
        return search_few(set, table, n);
    }
    let mut keys = [0u64; PAIRS];
    let mut scratch = [0u64; PAIRS];
    search_in(set, table, &mut keys, &mut scratch, n)
}

// A set with lanes handed in.
fn judge(set: &[u32], lanes: &[u32], table: &mut [u32], n: usize) -> Result<(), Refusal>
    requires { (length table.old ≡ 32 * n) × (0 < n) × (n ≤ 256) }
    ensures value { result ≡ outcome_of (handed_set n (pairs_of set.now) lanes.now) }
    ensures lanes_lie { LanesLie n set.now table.new (handed_set n (pairs_of set.now) lanes.now) }
{
    if SET_WORDS < set.len() {
        return Err(Refusal::nowhere(Reason::ManyPairs));
    }
    if let Some(i) = reads_section::check_form(set) {
        return Err(Refusal::at_item(Reason::PairForm, i as u64));
    }
    if set.len() == 0 {
        return Err(Refusal::nowhere(Reason::NothingToRead));
    }
    let mut seen = [0u32; MARKS];
    if let Some(i) = fill_lanes(set, lanes, table, &mut seen, n) {
        return Err(Refusal::at_item(Reason::NoPacking, i as u64));
    }
    Ok(())
}

// What becomes of a part: 5 for its stages, then its set, by our own search where no lanes are handed in.
pub fn part_outcome(
    set: &[u32],
    lanes: &[u32],
    table: &mut [u32],
    stages: u32,
    n: usize,
) -> Result<(), Refusal>
    requires { (length table.old ≡ 32 * n) × (0 < n) × (n ≤ 256) }
    ensures value { result ≡ outcome_of (part_outcome n (part_given set.now lanes.now stages)) }
    ensures lanes_lie { LanesLie n set.now table.new (part_outcome n (part_given set.now lanes.now stages)) }
{
    if stages == 0 || STAGES < stages {
        return Err(Refusal::nowhere(Reason::PlanForm));
    }
    if lanes.len() == 0 {
        search(set, table, n)
    } else {
        judge(set, lanes, table, n)
    }
}
