// The form of a part of a script: document 01, "Form for 15".
ghost use Rattle.std.specs.Prelude.{◌≡◌, true, false, ◌&&◌, ◌+◌, ◌*◌, ◌%◌, ◌/◌, ◌<◌, ◌≤◌, ltb, eqb, length, get_or};
ghost use Rattle.words.specs.Sum.{sum_to};
ghost use Rattle.words.specs.Bit.{pop};
ghost use Rattle.words.specs.Tests.{all_below};
ghost use Rattle.run_machine.specs.Part.{stages_at, rounds_at, location_in, read_word_at, read_mask_at, entry_at};
ghost use Rattle.run_machine.specs.Run.{entries_form, locations_form, lanes_form, reads_form, stores_form, part_form, parts_form, empty_block, block_form};
ghost use Rattle.run_machine.specs.Well.{Lanes, NormalRange};
ghost use Rattle.run_machine.proofs.KnownFactLaws.{known_props};
ghost use Rattle.run_form.specs.PartForm.{halves_form, read_form, part_numbers_form, body_form};

use crate::part::{self, Pair, Part, Script};
use words::bits;
use words::edition::Edition;
use words::found::all_below;

// The positions of the full edition, as a word is compared with them.
const SLOTS: u32 = Edition::SLOTS as u32;

// The most stages of a part.
const MOST_STAGES: usize = 255;

// How many words the old state has, and the new one.
#[derive(Clone, Copy)]
pub struct States {
    pub old: usize,
    pub new: usize,
}

// What is left of a block: words `at` to `end` of a script.
#[derive(Clone, Copy)]
struct Rest<'a> {
    script: Script<'a>,
    at: usize,
    end: usize,
    ghost edition: { Lanes script.lanes } by { Prim.hlevel known_props },
    ghost order: { at ≤ end },
    ghost within: { end ≤ length script.words.now },
}

// Both halves of a word of a permutation are positions, of which there are `slots`.
fn halves_form(x: u32, slots: u32) -> bool
    ensures { result ≡ halves_form slots x }
{
    x % 0x1_0000 < slots && x / 0x1_0000 < slots
}

// So have the m words from word `from` on.
fn words_form(words: &[u32], from: usize, m: usize, slots: u32) -> bool
    requires { from + m ≤ length words.now }
    ensures { result ≡ all_below (λ w. halves_form slots (get_or words.now (from + w) 0)) m }
{
    all_below(m, |w| halves_form(words[from + w], slots))
}

// Every entry of section k is a position. The full edition's numbers stand here as constants: a word is then tested by one mask.
fn section_form(part: &Part, k: usize) -> bool
    requires { k < stages_at part.now.script.words.now part.now.at + 2 }
    ensures { let n = part.now.script.lanes in result ≡ all_below (λ i. ltb (entry_at n part.now.script.words.now part.now.at k i) (32 * n)) (32 * n) }
{
    let n = part.script.lanes;
    let from = part.section(k);
    if n == Edition::LANES {
        return words_form(part.script.words, from, Edition::SLOTS / 2, SLOTS);
    }
    words_form(
        part.script.words,
        from,
        part::ENTRY_WORDS * n,
        (32 * n) as u32,
    )
}

// Every entry of every section.
pub fn entries_form(part: &Part) -> bool
    ensures { result ≡ entries_form part.now.script.lanes part.now.script.words.now part.now.at }
{
    all_below(part.stages() + 2, |k| section_form(part, k))
}

// Location l is one of an existing stage.
fn location_form(part: &Part, l: usize) -> bool
    requires { l < part.now.script.lanes }
    ensures { let n = part.now.script.lanes in let W = part.now.script.words.now in
        result ≡ (ltb (location_in n W part.now.at l / 256) (stages_at W part.now.at) && ltb (location_in n W part.now.at l % 256) n) }
{
    let place = part.location(l);
    (place.stage as usize) < part.stages() && (place.word as usize) < part.script.lanes
}

// Every normal location.
pub fn locations_form(part: &Part) -> bool
    requires { NormalRange part.now.script.lanes part.now.script.words.now part.now.at }
    ensures { result ≡ locations_form part.now.script.lanes part.now.script.words.now part.now.at }
{
    all_below(part.normal(), |l| location_form(part, l))
}

// The bits that lane i reads.
fn lane_bits(part: &Part, i: usize) -> usize
    requires { i < part.now.script.lanes }
    ensures { let W = part.now.script.words.now in result ≡ sum_to (λ r. pop (read_mask_at part.now.script.lanes W part.now.at r i)) (rounds_at W part.now.at) }
{
    let mut sum: usize = 0;
    for r in 0..part.rounds() {
        sum += bits::count(part.pair(r, i).mask) as usize;
    }
    sum
}

// Every lane reads at most 32.
pub fn lanes_form(part: &Part) -> bool
    ensures { result ≡ lanes_form part.now.script.lanes part.now.script.words.now part.now.at }
{
    all_below(part.script.lanes, |i| lane_bits(part, i) <= 32)
}

// A pair reads nothing, or a word inside both states.
fn pair_form(pair: Pair, states: States) -> bool
    ensures { result ≡ read_form pair.word pair.mask states.old states.new }
{
    let word = (pair.word % 0x8000_0000) as usize;
    pair.mask == 0 || (word < states.old && word < states.new)
}

// Every pair of round r.
fn round_form(part: &Part, r: usize, states: States) -> bool
    requires { r < rounds_at part.now.script.words.now part.now.at }
    ensures { let n = part.now.script.lanes in let W = part.now.script.words.now in
        result ≡ all_below (λ i. read_form (read_word_at n W part.now.at r i) (read_mask_at n W part.now.at r i) states.old states.new) n }
{
    all_below(part.script.lanes, |i| pair_form(part.pair(r, i), states))
}

// Every pair of every round.
pub fn reads_form(part: &Part, states: States) -> bool
    ensures { result ≡ reads_form part.now.script.lanes part.now.script.words.now states.old states.new part.now.at }
{
    all_below(part.rounds(), |r| round_form(part, r, states))
}

// The normal words, and where they are stored.
pub fn stores_form(part: &Part, states: States) -> bool
    ensures { result ≡ stores_form part.now.script.lanes part.now.script.words.now states.old states.new part.now.at }
{
    let words = part.script.words;
    let all = words[part.at + 2] as usize;
    let other = words[part.at + 4] as usize + words[part.at + 7] as usize;
    if all < other {
        return false;
    }
    let normal = all - other;
    let end = part.start() + normal;
    normal <= part.script.lanes && (normal == 0 || (end <= states.old && end <= states.new))
}

// Word 1 of a part that ends at word `end` of a block that ends at word e.
fn last_mark(end: usize, e: usize) -> u32
    ensures { result ≡ elim (eqb end e) [ true ↦ 1 | false ↦ 0 ] }
{
    if end == e { 1 } else { 0 }
}

// The numbers of the next part of a block.
fn head_form(rest: &Rest) -> bool
    ensures { result ≡ part_numbers_form rest.now.script.lanes rest.now.script.words.now rest.now.end rest.now.at }
{
    let script = rest.script;
    let at = rest.at;
    if rest.end - at < script.lanes {
        return false;
    }
    let stages = part::stages(script.words, at);
    let end = script.part_end(at);
    if stages < 1 {
        return false;
    }
    if MOST_STAGES < stages {
        return false;
    }
    end <= rest.end && script.words[at + 1] == last_mark(end, rest.end)
}

// What follows from the numbers.
fn body_form(part: &Part, states: States) -> bool
    ensures { result ≡ body_form part.now.script.lanes part.now.script.words.now states.old states.new part.now.at }
{
    stores_form(part, states)
        && locations_form(part)
        && lanes_form(part)
        && reads_form(part, states)
        && entries_form(part)
}

// The next part of a block.
fn part_form(rest: &Rest, states: States) -> bool
    ensures { result ≡ part_form rest.now.script.lanes rest.now.script.words.now states.old states.new rest.now.end rest.now.at }
{
    if !head_form(rest) {
        return false;
    }
    let part = Part {
        script: rest.script,
        at: rest.at,
    };
    body_form(&part, states)
}

// Parts end to end.
fn parts_form(block: &Rest, states: States) -> bool
    ensures { let W = block.now.script.words.now in result ≡ parts_form block.now.script.lanes W states.old states.new block.now.end (length W) block.now.at }
{
    let script = block.script;
    let end = block.end;
    let mut at = block.at;
    while part_form(&Rest { script, at, end }, states) {
        at = script.part_end(at);
        if at == end {
            return true;
        }
    }
    false
}

// A word of an empty block: zero but word 1.
fn empty_word(words: &[u32], at: usize, i: usize) -> bool
    requires { at + i < length words.now }
    ensures { result ≡ eqb (get_or words.now (at + i) 0) (elim (eqb i 1) [ true ↦ 1 | false ↦ 0 ]) }
{
    words[at + i] == last_mark(i, 1)
}

// An empty block: such a word for each lane.
fn empty_form(block: &Rest) -> bool
    ensures { result ≡ empty_block block.now.script.lanes block.now.script.words.now block.now.at block.now.end }
{
    let n = block.script.lanes;
    if block.end - block.at != n {
        return false;
    }
    all_below(n, |i| empty_word(block.script.words, block.at, i))
}

// A block from word `at` to word `end`.
pub fn block_form(script: &Script, at: usize, end: usize, states: States) -> bool
    requires { Lanes script.now.lanes }
    ensures { result ≡ block_form script.now.lanes script.now.words.now states.old states.new at end }
{
    if end <= at {
        return false;
    }
    if script.words.len() < end {
        return false;
    }
    let block = Rest {
        script: *script,
        at,
        end,
    };
    if empty_form(&block) {
        return true;
    }
    parts_form(&block, states)
}
