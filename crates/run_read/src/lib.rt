// The read turn: document 01, "In the read turn the one-word window comes from the old state or the new, by bit 31. Unused lane bits are 0."
#![tactic(auto)]

ghost use Rattle.std.specs.Prelude.{◌≡◌, ◌+◌, ◌*◌, ◌^◌, ◌<◌, ◌≤◌, length};
ghost use Rattle.words.specs.Bit.{pop};
ghost use Rattle.reads.specs.ReadTurn.{appended, lane_word};
ghost use Rattle.run_machine.specs.Part.{rounds_at, read_word_at, read_mask_at};
ghost use Rattle.run_machine.specs.Turn.{state_word, read_row};
ghost use Rattle.run_machine.specs.Well.{Reads};
ghost use Rattle.run_read.specs.Window.{window_of, WordReadable};

use run_form::part::{Pair, Part};

// A part and the two states, which have every word that its lanes read.
#[derive(Clone, Copy)]
pub struct Reading<'a, 'b, 'c> {
    pub part: Part<'a>,
    pub old: &'b [u32],
    pub new: &'c [u32],
    ghost readable: { Reads part.script.lanes part.script.words.now part.at (length old.now) (length new.now) },
}

// The one word that a read names, of the old state or the new by bit 31.
pub fn window<'a>(old: &'a [u32], new: &'a [u32], w: u32) -> &'a [u32]
    requires { WordReadable old.now new.now w }
    ensures { (result.now ≡ window_of old.now new.now w) × (length result.now ≡ 1) }
{
    if w < 0x8000_0000 {
        let from = w as usize;
        let to = from + 1;
        &old[from..to]
    } else {
        let from = (w - 0x8000_0000) as usize;
        let to = from + 1;
        &new[from..to]
    }
}

// The bits of `word` that `mask` takes, lowest first, each at the low end of `acc`.
fn append(acc: u32, word: u32, mask: u32) -> u32
    requires { (acc + 1) * 2 ^ pop mask ≤ 2 ^ 32 }
    ensures { result ≡ appended 32 word mask acc }
{
    let mut a = acc;
    let mut w = word;
    let mut m = mask;
    while 0 < m {
        let k = u32::trailing_zeros(m);
        w = w >> k;
        m = m >> k;
        a = a * 2 + w % 2;
        w = w / 2;
        m = m / 2;
    }
    a
}

// One round.
fn read_round(acc: u32, pair: Pair, old: &[u32], new: &[u32]) -> u32
    requires { (0 < pair.mask → WordReadable old.now new.now pair.word) × ((acc + 1) * 2 ^ pop pair.mask ≤ 2 ^ 32) }
    ensures { result ≡ appended 32 (state_word old.now new.now pair.word) pair.mask acc }
{
    if 0 < pair.mask {
        let seen = window(old, new, pair.word);
        append(acc, seen[0], pair.mask)
    } else {
        acc
    }
}

// Lane i over all rounds.
pub fn read_lane(turn: &Reading, i: usize) -> u32
    requires { i < turn.now.part.script.lanes }
    ensures { let n = turn.now.part.script.lanes in let W = turn.now.part.script.words.now in let o = turn.now.part.at in
        result ≡ lane_word (λ r. state_word turn.now.old.now turn.now.new.now (read_word_at n W o r i)) (λ r. read_mask_at n W o r i) (rounds_at W o) }
{
    let mut acc = 0;
    for r in 0..turn.part.rounds() {
        acc = read_round(acc, turn.part.pair(r, i), turn.old, turn.new);
    }
    acc
}

// All lanes.
pub fn read_turn(turn: &Reading, row: &mut [u32])
    requires { length row.old ≡ turn.now.part.script.lanes }
    ensures { row.new ≡ read_row turn.now.part.script.lanes turn.now.part.script.words.now turn.now.part.at turn.now.old.now turn.now.new.now }
{
    for i in 0..turn.part.script.lanes {
        row[i] = read_lane(turn, i);
    }
}
