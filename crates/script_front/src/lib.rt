// The front of a part's script: its read section and the section of its first stage. Document 01, "The script of a part".
#![tactic(auto)]

ghost use Rattle.std.specs.Prelude.{◌≡◌, ◌++◌, ℕ, ◌+◌, ◌*◌, ◌^◌, ◌≤◌, ◌<◌, length, get_or, take};
ghost use Rattle.std.proofs.lemmas.List.Edits.{sets};
ghost use Rattle.reads.specs.Search.{longest};
ghost use Rattle.reads.specs.ReadSection.{read_section};
ghost use Rattle.reads_try.specs.TableLanes.{lanes_at};
ghost use Rattle.plan_record.specs.Record.{plan_lanes, slots_of};
ghost use Rattle.plan_reads.specs.PartReads.{asked_to, read_words, part_lanes};
ghost use Rattle.plan_reads.specs.ReadsReady.{AllNarrow, AllWon, SetRoom};
ghost use Rattle.reads_local.specs.Bases.{store_lanes};
ghost use Rattle.plan_reads.specs.Entries.{AllNumbered};
ghost use Rattle.script.specs.Script.{stage_section};
ghost use Rattle.script_front.specs.Build.{Buildable, FoundRoom, ReadsRoom, FirstRoom, FrontRoom};

use plan_positions::planned::PIN_TABLE;
use plan_reads::asked::part_set;
use plan_reads::entries::first_entries;
use plan_reads::searched::search_set;
use plan_record::bodies::Part;
use reads_local::fill_bases;
use reads_section::write_rounds;
use script_sections::stages::write_stage;

// Words a lane of a round of the read section.
pub const ROUND_WORDS: usize = 2;

// The part's read set, from the start of `set`, and how many words it has. The room then has the winners of the part's pins, and behind them its
// lanes. What keys and scratch hold afterwards is left open.
fn find_reads(
    part: &Part,
    room: &mut [u32],
    keys: &mut [u64],
    scratch: &mut [u64],
    set: &mut [u32],
) -> usize
    requires { Buildable part.now.d.now part.now.p part.now.body × SetRoom (length keys.old) (length scratch.old) (length set.old) × (length room.old ≡ 32768 + 32 * part.now.body.lanes) }
    ensures value { (result ≡ length (read_words part.now.d.now part.now.p)) × (result ≤ 16384) }
    ensures found_room { FoundRoom part.now.d.now part.now.p room.new }
    ensures set_after { set.new ≡ sets set.old 0 (read_words part.now.d.now part.now.p) }
    ensures all_narrow { AllNarrow (asked_to part.now.d.now part.now.p (slots_of part.now.d.now)) }
{
    let lanes = part.body.lanes;
    let n = part_set(part, &mut room[..PIN_TABLE], keys, scratch, set);
    // Of an accepted plan the search finds room; what it answers stands in the part's row already.
    let _ = search_set(&set[..n], &mut room[PIN_TABLE..], keys, scratch, lanes);
    n
}

// Writes the read section, and keeps where each pair's bits begin.
fn write_reads(
    set: &[u32],
    table: &[u32],
    lanes: usize,
    rounds: usize,
    bases: &mut [u64],
    out: &mut [u32],
)
    requires { ReadsRoom set.now table.now lanes rounds bases.old out.old }
    ensures bases_after { bases.new ≡ store_lanes 0 (lanes_at set.now table.now lanes) bases.old }
    ensures out_after { out.new ≡ read_section (lanes_at set.now table.now lanes) }
{
    fill_bases(set, table, lanes, bases);
    write_rounds(set, table, lanes, rounds, out);
}

// Puts entries into words of 32 bits.
fn put_entries(list: &[u64], entries: &mut [u32])
    requires { (length entries.old ≡ length list.now) × ((i : ℕ) → i < length list.now → get_or list.now i 0 < 2 ^ 32) }
    ensures { entries.new ≡ list.now }
{
    for (i, entry) in entries.iter_mut().enumerate() {
        *entry = list[i] as u32;
    }
}

// Writes the section of the first stage. The entries are made beside the set, whose first n words are the part's, and then put over it. What the
// list and the set hold afterwards is left open.
fn write_first(
    part: &Part,
    pins: &[u32],
    n: usize,
    out: &mut [u32],
    bases: &[u64],
    list: &mut [u64],
    set: &mut [u32],
)
    requires { Buildable part.now.d.now part.now.p part.now.body × AllWon part.now.d.now part.now.p pins.now × AllNumbered (plan_lanes part.now.d.now) part.now.d.now part.now.p (take n set.old) bases.now × FirstRoom part.now.body.lanes n (length out.old) (length list.old) (length set.old) }
    ensures { out.new ≡ stage_section (plan_lanes part.now.d.now) part.now.d.now part.now.p 0 }
{
    let slots = 32 * part.body.lanes;
    first_entries(part, pins, &set[..n], bases, &mut list[..slots]);
    put_entries(&list[..slots], &mut set[..slots]);
    write_stage(part, 0, &set[..slots], out);
}

// Writes the read section and the section of the first stage. Where the pairs' bits begin is kept in the keys, which are free by then. What the
// other lent slices hold afterwards is left open.
pub fn write_front(
    part: &Part,
    rounds: usize,
    room: &mut [u32],
    out: &mut [u32],
    keys: &mut [u64],
    scratch: &mut [u64],
    set: &mut [u32],
)
    requires { Buildable part.now.d.now part.now.p part.now.body × (rounds ≡ longest (part_lanes (plan_lanes part.now.d.now) part.now.d.now part.now.p)) × FrontRoom part.now.body.lanes rounds (length room.old) (length out.old) (length keys.old) (length scratch.old) (length set.old) }
    ensures out_after { out.new ≡ read_section (part_lanes (plan_lanes part.now.d.now) part.now.d.now part.now.p) ++ stage_section (plan_lanes part.now.d.now) part.now.d.now part.now.p 0 }
    ensures rounds_bound { rounds ≤ 32 }
{
    let lanes = part.body.lanes;
    let n = find_reads(part, room, keys, scratch, set);
    let reads = ROUND_WORDS * (lanes * rounds);
    write_reads(
        &set[..n],
        &room[PIN_TABLE..],
        lanes,
        rounds,
        keys,
        &mut out[..reads],
    );
    write_first(
        part,
        &room[..PIN_TABLE],
        n,
        &mut out[reads..],
        keys,
        scratch,
        set,
    );
}
