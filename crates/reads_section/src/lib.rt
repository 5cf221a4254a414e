// A read set's form, and what is read out of the lanes' table: the number of rounds, and their words.
#![tactic(auto)]

ghost use Rattle.std.specs.Prelude.{◌≡◌, ◌+◌, ◌*◌, ◌/◌, ◌≤◌, ◌<◌, length};
ghost use Rattle.std.proofs.lemmas.List.Edits.{sets};
ghost use Rattle.reads.specs.ReadSet.{pairs_of, broken};
ghost use Rattle.reads.specs.Search.{longest};
ghost use Rattle.reads.specs.ReadSection.{round_words, rounds_from};
ghost use Rattle.reads_try.specs.TableLanes.{lanes_at};
ghost use Rattle.words.specs.Found.{item_of};
ghost use Rattle.reads_section.specs.Readout.{entry_word, TableReadable, Writable};

// The first pair that breaks the read-set form, if one does. A last half pair has no mask, and breaks it.
pub fn check_form(set: &[u32]) -> Option<usize>
    ensures { result ≡ item_of (broken (pairs_of set.now)) }
{
    let n = set.len() / 2;
    let mut low = 0;
    for i in 0..n {
        let w = set[2 * i];
        if w < low {
            return Some(i);
        }
        if w % 0x8000_0000 >= 0x0800_0000 {
            return Some(i);
        }
        if set[2 * i + 1] == 0 {
            return Some(i);
        }
        low = w + 1;
    }
    if set.len() % 2 == 1 {
        return Some(n);
    }
    None
}

// The number of rounds: the longest lane of the table.
pub fn longest_row(set: &[u32], room: &[u32], lanes: usize) -> usize
    requires { TableReadable set.now room.now lanes }
    ensures { result ≡ longest (lanes_at set.now room.now lanes) }
{
    let mut best = 0;
    for j in 0..lanes {
        best = reads_try::lane_load(set, room, j).pairs.max(best);
    }
    best
}

// The word (h = 0) or the mask (h = 1) of a table's word.
fn entry_word(set: &[u32], e: u32, h: usize) -> u32
    requires { (e ≤ length set.now / 2) × (h < 2) }
    ensures { result ≡ entry_word set.now e h }
{
    if e == 0 {
        0
    } else {
        set[2 * (e as usize - 1) + h]
    }
}

// Writes round r from `at` on: word and mask, lane after lane.
fn write_round(set: &[u32], room: &[u32], lanes: usize, r: usize, out: &mut [u32], at: usize)
    requires { TableReadable set.now room.now lanes × (r < 32) × (at + 2 * lanes ≤ length out.old) }
    ensures { out.new ≡ sets out.old at (round_words (lanes_at set.now room.now lanes) r) }
{
    for i in 0..lanes {
        let e = room[32 * i + r];
        out[at + 2 * i] = entry_word(set, e, 0);
        out[at + 2 * i + 1] = entry_word(set, e, 1);
    }
}

// Writes the first rounds of the table's lanes, round after round.
pub fn write_rounds(set: &[u32], room: &[u32], lanes: usize, rounds: usize, out: &mut [u32])
    requires { Writable set.now room.now lanes rounds (length out.old) }
    ensures { out.new ≡ sets out.old 0 (rounds_from (lanes_at set.now room.now lanes) rounds 0) }
{
    for r in 0..rounds {
        write_round(set, room, lanes, r, out, 2 * lanes * r);
    }
}
