// Sections of 20 words a lane, a permutation of 32 entries a lane and four words a lane: those of the two tables.
ghost use Rattle.std.specs.Prelude.{◌≡◌, List, ◌++◌, ℕ, ◌+◌, ◌*◌, ◌≤◌, ◌<◌, length};
ghost use Rattle.words.specs.Section.{list_of, section_of};
ghost use Rattle.plan_record.specs.Record.{plan_lanes, slots_of, table_words, table_at};
ghost use Rattle.script.specs.Script.{lane_list, sram_section, enable_section};
ghost use Rattle.script.specs.Writers.{AcceptedPart, words_in, SectionRoom, FourOf};

use plan_record::bodies::Part;
use words::halves::pack;

// Words a lane: a section's entries, two to a word, and the whole of it, with four words more.
const ENTRY_WORDS: usize = 16;

pub const SECTION_WORDS: usize = ENTRY_WORDS + 4;

// Where the lists of the two tables begin, in words a lane: entries have 32, the others one.
const SRAM_ENTRIES: usize = 0;

const SRAM_INV: usize = SRAM_ENTRIES + 32;

const SRAM_SET0: usize = SRAM_INV + 1;

const ENABLE_ENTRIES: usize = SRAM_SET0 + 1;

const ENABLE_INV: usize = ENABLE_ENTRIES + 32;

const ENABLE_SET0: usize = ENABLE_INV + 1;

const ENABLE_DATA_INV: usize = ENABLE_SET0 + 1;

// Reads words of the tables, from this one on.
fn read_table(part: &Part, from: usize, out: &mut [u32])
    requires { AcceptedPart part.now.d.now part.now.p part.now.body × (from + length out.old ≤ table_words part.now.body.lanes) }
    ensures { out.new ≡ list_of (λ i. table_at part.now.d.now part.now.p (from + i)) (length out.old) }
{
    for (i, word) in out.iter_mut().enumerate() {
        *word = part.table_word(from + i);
    }
}

// Writes four words a lane: those that `words` answers for it.
fn write_lanes<F: Fn(usize) -> [u32; 4]>(lanes: usize, words: F, out: &mut [u32])
    requires room { (lanes ≤ 256) × (length out.old ≡ 4 * lanes) }
    requires askable { (w : ℕ) → w < lanes → F.pre words w }
    ensures { (a b c : ℕ → ℕ) → ((w : ℕ) → w < lanes → (x : List ℕ) → F.post words w x → FourOf a b c w x) → out.new ≡ lane_list a b c lanes }
{
    for w in 0..lanes {
        out[4 * w..4 * w + 4].copy_from_slice(&words(w));
    }
}

// Writes a section: the entries, two to a word, then the lanes.
pub fn write_section<F: Fn(usize) -> [u32; 4]>(
    lanes: usize,
    entries: &[u32],
    words: F,
    out: &mut [u32],
)
    requires room { SectionRoom lanes entries.now out.old }
    requires askable { (w : ℕ) → w < lanes → F.pre words w }
    ensures { (a b c : ℕ → ℕ) → ((w : ℕ) → w < lanes → (x : List ℕ) → F.post words w x → FourOf a b c w x) → out.new ≡ section_of lanes (words_in entries.now) ++ lane_list a b c lanes }
{
    let packed = ENTRY_WORDS * lanes;
    pack(&mut out[..packed], entries, lanes);
    write_lanes(lanes, words, &mut out[packed..]);
}

// The words of lane w beside the entries of SRAMs and duplicates.
fn sram_words(part: &Part, w: usize) -> [u32; 4]
    requires { AcceptedPart part.now.d.now part.now.p part.now.body × (w < part.now.body.lanes) }
    ensures { FourOf (λ i. table_at part.now.d.now part.now.p (32 * plan_lanes part.now.d.now + i)) (λ i. table_at part.now.d.now part.now.p (33 * plan_lanes part.now.d.now + i)) (λ i. 0) w result }
{
    let lanes = part.body.lanes;
    [
        part.table_word(SRAM_INV * lanes + w),
        part.table_word(SRAM_SET0 * lanes + w),
        0,
        0,
    ]
}

// Writes the section of SRAMs and duplicates. What the lent entries hold afterwards is left open, here and below.
pub fn write_sram(part: &Part, out: &mut [u32], entries: &mut [u32])
    requires { AcceptedPart part.now.d.now part.now.p part.now.body × (length out.old ≡ 20 * plan_lanes part.now.d.now) × (length entries.old ≡ slots_of part.now.d.now) }
    ensures { out.new ≡ sram_section (plan_lanes part.now.d.now) part.now.d.now part.now.p }
{
    read_table(part, SRAM_ENTRIES, entries);
    write_section(
        part.body.lanes,
        entries,
        |w|
            requires { AcceptedPart part.now.d.now part.now.p part.now.body × (w < part.now.body.lanes) }
            ensures { FourOf (λ i. table_at part.entry.now.d.now part.entry.now.p (32 * plan_lanes part.entry.now.d.now + i)) (λ i. table_at part.entry.now.d.now part.entry.now.p (33 * plan_lanes part.entry.now.d.now + i)) (λ i. 0) w result }
        { sram_words(part, w) },
        out,
    );
}

// The words of lane w beside the entries of clock enables.
fn enable_words(part: &Part, w: usize) -> [u32; 4]
    requires { AcceptedPart part.now.d.now part.now.p part.now.body × (w < part.now.body.lanes) }
    ensures { FourOf (λ i. table_at part.now.d.now part.now.p (66 * plan_lanes part.now.d.now + i)) (λ i. table_at part.now.d.now part.now.p (67 * plan_lanes part.now.d.now + i)) (λ i. table_at part.now.d.now part.now.p (68 * plan_lanes part.now.d.now + i)) w result }
{
    let lanes = part.body.lanes;
    [
        part.table_word(ENABLE_INV * lanes + w),
        part.table_word(ENABLE_SET0 * lanes + w),
        part.table_word(ENABLE_DATA_INV * lanes + w),
        0,
    ]
}

// Writes the section of clock enables.
pub fn write_enables(part: &Part, out: &mut [u32], entries: &mut [u32])
    requires { AcceptedPart part.now.d.now part.now.p part.now.body × (length out.old ≡ 20 * plan_lanes part.now.d.now) × (length entries.old ≡ slots_of part.now.d.now) }
    ensures { out.new ≡ enable_section (plan_lanes part.now.d.now) part.now.d.now part.now.p }
{
    read_table(part, ENABLE_ENTRIES * part.body.lanes, entries);
    write_section(
        part.body.lanes,
        entries,
        |w|
            requires { AcceptedPart part.now.d.now part.now.p part.now.body × (w < part.now.body.lanes) }
            ensures { FourOf (λ i. table_at part.entry.now.d.now part.entry.now.p (66 * plan_lanes part.entry.now.d.now + i)) (λ i. table_at part.entry.now.d.now part.entry.now.p (67 * plan_lanes part.entry.now.d.now + i)) (λ i. table_at part.entry.now.d.now part.entry.now.p (68 * plan_lanes part.entry.now.d.now + i)) w result }
        { enable_words(part, w) },
        out,
    );
}
