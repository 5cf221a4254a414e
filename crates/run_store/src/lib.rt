// The store turn: document 01, "The store turn puts normal captured words .. at state start onward", by 5/13 where they are enabled.
#![tactic(auto)]

ghost use Rattle.std.specs.Prelude.{◌≡◌, ℕ, ◌+◌, ◌*◌, ◌-◌, ◌<◌, ◌≤◌, min, length, take};
ghost use Rattle.std.proofs.lemmas.List.Edits.{sets};
ghost use Rattle.words.specs.Bit.{bit, bit_at};
ghost use Rattle.run_machine.specs.Part.{stages_at, start_at, normal_at, entry_at};
ghost use Rattle.run_machine.specs.Turn.{stored_word};
ghost use Rattle.words.specs.Section.{list_of};
ghost use Rattle.run_store.specs.Store.{chosen_word};

use run_form::part::{ENTRY_WORDS, PartEntries, PartInForm};
use run_stage::section_word;
use words::edition::Edition;

// A part whose normal words are stored, and the old state, which has each of them.
#[derive(Clone, Copy)]
pub struct Storing<'a, 'b> {
    pub part: PartInForm<'a>,
    pub old: &'b [u32],
    ghost held: { 0 < normal_at part.part.script.words.now part.part.at → start_at part.part.script.words.now part.part.at + normal_at part.part.script.words.now part.part.at ≤ length old.now },
}

// Bit by bit: the captured bit xor data inv where the gathered bit, cleared where set0 is 1 and then inverted where inv is 1, is 1; else the held bit.
fn chosen_word(cap: u32, held: u32, gathered: u32, inv: u32, set0: u32, data_inv: u32) -> u32
    ensures { result ≡ chosen_word cap held gathered inv set0 data_inv }
{
    let enable = (gathered ^ (gathered & set0)) ^ inv;
    held ^ (((cap ^ data_inv) ^ held) & enable)
}

// Word l of the bits that section k gathers from the captured words, but for those that set0 clears: they may be anything, and where it clears all, none is gathered.
fn kept_word(part: &PartInForm, k: usize, caps: &[u32; Edition::LANES], l: usize, set0: u32) -> u32
    requires { (k < stages_at part.now.part.script.words.now part.now.part.at + 2) × (l < part.now.part.script.lanes) }
    ensures { let entry = entry_at part.now.part.script.lanes part.now.part.script.words.now part.now.part.at k in
        (b : ℕ) → b < 32 → min (bit result b) (1 - bit set0 b) ≡ min (bit_at caps.now (entry (32 * l + b))) (1 - bit set0 b) }
{
    if set0 == 0xFFFFFFFF {
        return 0;
    }
    section_word(&PartEntries { part: part.part }, k, caps, l)
}

// The word that is stored for captured word l; captured words past the normal ones are 0.
fn store_word(turn: &Storing, caps: &[u32; Edition::LANES], l: usize) -> u32
    requires { let W = turn.now.part.part.script.words.now in let o = turn.now.part.part.at in
        (l < normal_at W o) × (l < turn.now.part.part.script.lanes) × (start_at W o + l < length turn.now.old.now) }
    ensures { result ≡ stored_word turn.now.part.part.script.lanes turn.now.part.part.script.words.now turn.now.part.part.at turn.now.old.now caps.now l }
{
    let part = turn.part.part;
    let words = part.script.words;
    let k = part.stages() + 1;
    let lane = part.section(k) + ENTRY_WORDS * part.script.lanes + 4 * l;
    let start = part.start();
    let set0 = words[lane + 1];
    let gathered = kept_word(&turn.part, k, caps, l, set0);
    chosen_word(
        caps[l],
        turn.old[start + l],
        gathered,
        words[lane],
        set0,
        words[lane + 2],
    )
}

// The store turn: all normal words.
pub fn store(turn: &Storing, caps: &[u32], new: &mut [u32])
    requires { let W = turn.now.part.part.script.words.now in let o = turn.now.part.part.at in
        (turn.now.part.part.script.lanes ≤ length caps.now) × (0 < normal_at W o → start_at W o + normal_at W o ≤ length new.old) }
    ensures { let W = turn.now.part.part.script.words.now in let o = turn.now.part.part.at in
        new.new ≡ sets new.old (start_at W o) (list_of (stored_word turn.now.part.part.script.lanes W o turn.now.old.now (take (normal_at W o) caps.now)) (normal_at W o)) }
{
    let normal = turn.part.normal();
    let start = turn.part.part.start();
    let mut front = [0u32; Edition::LANES];
    front[..normal].copy_from_slice(&caps[..normal]);
    for l in 0..normal {
        new[start + l] = store_word(turn, &front, l);
    }
}
