// A stage: document 01, "A stage gathers by permutation, then level by level: (a xor xora) and ((b xor xorb) or orb); position 0 holds 0."
// The bits of n lanes stand in 2n words: words 0 .. n - 1 hold the positions before and after, words n .. 2n - 1 take the gathered bits.
#![tactic(auto)]

ghost use Rattle.std.specs.Prelude.{◌≡◌, ◌++◌, ℕ, ◌+◌, ◌*◌, ◌-◌, ◌/◌, ◌%◌, ◌^◌, ◌<◌, ◌≤◌, length, take};
ghost use Rattle.words.specs.Bit.{bit, bit_at};
ghost use Rattle.words.specs.Edition.{levels_for};
ghost use Rattle.words.specs.Section.{half_at};
ghost use Rattle.run_machine.specs.Part.{stages_at, entry_at};
ghost use Rattle.run_machine.specs.Turn.{stage_row};
ghost use Rattle.run_machine.specs.Well.{Entries};
ghost use Rattle.run_stage.specs.Gather.{Gathered, GatherBits, gathered_row};
ghost use Rattle.run_stage.specs.Level.{gate_word, level_word, LevelIn, Stepped, Low, Staged};

use run_form::part::{ENTRY_WORDS, PartEntries, SECTION_WORDS};
use words::bits;

// A section's permutation: the entries of so many lanes, two to a word.
#[derive(Clone, Copy)]
struct Permutation<'a> {
    words: &'a [u32],
    lanes: usize,
    ghost few: { lanes ≤ 65536 },
    ghost whole: { 16 * lanes ≤ length words.now },
    ghost entries: { Entries lanes words.now },
}

// The two bits that a word of the permutation names.
fn picked(l: &[u32], x: u32) -> u32
    requires { (x % 2 ^ 16 / 32 < length l.now) × (x / 2 ^ 16 / 32 < length l.now) }
    ensures { result ≡ bit_at l.now (x / 2 ^ 16) * 2 + bit_at l.now (x % 2 ^ 16) }
{
    let low = (x % 0x1_0000) as usize;
    let high = (x / 0x1_0000) as usize;
    bits::bit_at(l, high) * 2 + bits::bit_at(l, low)
}

// The word of the permutation that has entries 32j + 2h and 32j + 2h + 1.
fn pair_of(p: &Permutation, j: usize, h: usize) -> u32
    requires { (j < p.now.lanes) × (h < 16) }
    ensures { (result % 2 ^ 16 ≡ half_at p.now.lanes p.now.words.now (32 * j + 2 * h)) × (result / 2 ^ 16 ≡ half_at p.now.lanes p.now.words.now (32 * j + 2 * h + 1)) }
{
    p.words[h / 4 * (4 * p.lanes) + (4 * j + h % 4)]
}

// Word j of the gathered bits.
fn gather_word(l: &[u32], p: &Permutation, j: usize) -> u32
    requires { (j < p.now.lanes) × (p.now.lanes ≤ length l.now) }
    ensures { GatherBits p.now.lanes p.now.words.now l.now j 16 result }
{
    let mut x = 0;
    for h in 0..16 {
        x |= picked(l, pair_of(p, j, h)) << (2 * h);
    }
    x
}

// Word w of the bits that section k gathers from the words l.
pub fn section_word(part: &PartEntries, k: usize, l: &[u32], w: usize) -> u32
    requires { (k < stages_at part.now.part.script.words.now part.now.part.at + 2) × (part.now.part.script.lanes ≤ length l.now) × (w < part.now.part.script.lanes) }
    ensures { (b : ℕ) → b < 32 → bit result b ≡ bit_at l.now (entry_at part.now.part.script.lanes part.now.part.script.words.now part.now.part.at k (32 * w + b)) }
{
    let lanes = part.part.script.lanes;
    let from = part.part.section(k);
    let to = from + ENTRY_WORDS * lanes;
    let p = Permutation {
        words: &part.part.script.words[from..to],
        lanes,
    };
    gather_word(l, &p, w)
}

// Gathers a word for each lane.
fn gather(l: &mut [u32], p: &Permutation)
    requires { 2 * p.now.lanes ≤ length l.old }
    ensures { Gathered p.now.lanes p.now.words.now l.old l.new p.now.lanes }
{
    let n = p.lanes;
    for j in 0..n {
        l[n + j] = gather_word(l, p, j);
    }
}

// The gate on whole words.
fn gate(a: u32, b: u32, xora: u32, xorb: u32, orb: u32) -> u32
    ensures { result ≡ gate_word a b xora xorb orb }
{
    (a ^ xora) & ((b ^ xorb) | orb)
}

// Word w of the level of m words.
fn gate_at(l: &[u32], t: &[u32], m: usize, w: usize) -> u32
    requires { (w < 2 * m) × (4 * m ≤ length l.now) × (8 * m ≤ length t.now) }
    ensures { result ≡ level_word t.now l.now m w }
{
    gate(l[w + m], l[w + 2 * m], t[4 * w], t[4 * w + 1], t[4 * w + 2])
}

// The level of m words: words m .. 2m - 1 from words 2m .. 4m - 1.
fn level(l: &mut [u32], t: &[u32], m: usize)
    requires { (4 * m ≤ length l.old) × (8 * m ≤ length t.now) }
    ensures { LevelIn t.now l.old l.new m (2 * m) }
{
    for w in m..2 * m {
        l[w] = gate_at(l, t, m, w);
    }
}

// The level of m slots inside the two lowest words, which are one number; mask has the bits m .. 2m - 1.
fn low_step(x: u64, m: u32, mask: u64, xora: u64, xorb: u64, orb: u64) -> u64
    requires { (m ≤ 16) × (mask ≡ (2 ^ m - 1) * 2 ^ m) × ((p : ℕ) → p < 2 * m → bit x p ≡ 0) }
    ensures { Stepped x result m xora xorb orb }
{
    x | ((((x >> m) ^ xora) & (((x >> (2 * m)) ^ xorb) | orb)) & mask)
}

// Word 0 from word 1 and the words of lane 0.
fn low_word(one: u32, xora: u32, xorb: u32, orb: u32) -> u32
    ensures { Low (one * 2 ^ 32 + result) 0 xora xorb orb }
{
    let a = xora as u64;
    let b = xorb as u64;
    let o = orb as u64;
    let x = (one as u64) << 32;
    let x = low_step(x, 16, 0xffff_0000, a, b, o);
    let x = low_step(x, 8, 0xff00, a, b, o);
    let x = low_step(x, 4, 0xf0, a, b, o);
    let x = low_step(x, 2, 0xc, a, b, o);
    let x = low_step(x, 1, 0x2, a, b, o);
    (x & 0xffff_ffff) as u32
}

// All levels of n lanes, n a power of two.
fn levels(l: &mut [u32], t: &[u32], n: usize)
    requires { ((k : ℕ) × (n ≡ 2 ^ k)) × (2 * n ≤ length l.old) × (4 * n ≤ length t.now) }
    ensures { (k : ℕ) → n ≡ 2 ^ k → Staged t.now l.old l.new k }
{
    let mut m = n;
    while 1 < m {
        m = m / 2;
        level(l, t, m);
    }
    l[0] = low_word(l[1], t[0], t[1], t[2]);
}

// Stage k of the part: 2n words of bits.
pub fn stage_turn(part: &PartEntries, k: usize, l: &mut [u32])
    requires { (k < stages_at part.now.part.script.words.now part.now.part.at) × (length l.old ≡ 2 * part.now.part.script.lanes) }
    ensures { let n = part.now.part.script.lanes in let W = part.now.part.script.words.now in
        l.new ≡ stage_row n (levels_for n) W part.now.part.at k (take n l.old) ++ gathered_row n W part.now.part.at k (take n l.old) }
{
    let words = part.part.script.words;
    let lanes = part.part.script.lanes;
    let from = part.part.section(k);
    let gates = from + ENTRY_WORDS * lanes;
    let to = from + SECTION_WORDS * lanes;
    let p = Permutation {
        words: &words[from..gates],
        lanes,
    };
    gather(l, &p);
    levels(l, &words[gates..to], lanes);
}
