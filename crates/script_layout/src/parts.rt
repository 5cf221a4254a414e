// One part's script, in its place among the words.
ghost use Rattle.std.specs.Prelude.{◌≡◌, ◌+◌, ◌<◌, length};
ghost use Rattle.std.proofs.lemmas.List.Edits.{sets};
ghost use Rattle.plan_record.specs.Record.{plan_lanes, parts_of};
ghost use Rattle.plan_rows.specs.Columns as col;
ghost use Rattle.plan_rows.specs.Rows.{cell_at};
ghost use Rattle.plan_reads.specs.ReadsReady.{SetRoom};
ghost use Rattle.script.specs.Writers.{NumbersOf};
ghost use Rattle.script_assembly.specs.WrittenSoFar.{length_of};
ghost use Rattle.script_layout.specs.Layout.{AcceptedTabled, PartRoom, row_script};

use crate::sizes::part_words;
use plan_record::bodies::Part;
use plan_rows::{Column, cell_at};
use script::head::Numbers;
use script_part::build_script;

// Part p, whose row says where its body begins.
fn part_of<'a>(d: &'a [u8], room: &[u32], p: usize) -> Part<'a>
    requires { AcceptedTabled d.now room.now × (p < parts_of d.now) }
    ensures { (result.d.now ≡ d.now) × (result.p ≡ p) }
{
    let low = cell_at(room, p, Column::BODY_LOW) as usize;
    let high = cell_at(room, p, Column::BODY_HIGH) as usize;
    Part::at(d, p, low + 4294967296 * high)
}

// The numbers of a part, from its row.
fn numbers_of(part: &Part, room: &[u32], last: u32) -> Numbers
    requires { AcceptedTabled part.now.d.now room.now × (part.now.p < parts_of part.now.d.now) }
    ensures numbers_of { NumbersOf part.now.d.now part.now.p result }
    ensures last_value { (result.last ≡ last) × (result.state ≡ cell_at room.now part.now.p col.state_start) × (result.sram ≡ cell_at room.now part.now.p col.sram_start) }
{
    Numbers {
        stages: part.body.stages as u32,
        last,
        writeouts: cell_at(room, part.p, Column::WRITE_OUTS),
        state: cell_at(room, part.p, Column::STATE_START),
        srams: cell_at(room, part.p, Column::SRAMS),
        sram: cell_at(room, part.p, Column::SRAM_START),
        rounds: cell_at(room, part.p, Column::ROUNDS),
        duplicates: cell_at(room, part.p, Column::DUPLICATES),
    }
}

// Writes the script of a part from word `at` on. Where the next words begin. What keys, scratch and set hold afterwards is left open, here and below.
fn write_placed(
    part: &Part,
    room: &mut [u32],
    last: u32,
    at: usize,
    words: &mut [u32],
    keys: &mut [u64],
    scratch: &mut [u64],
    set: &mut [u32],
) -> usize
    requires { PartRoom part.now.d.now room.old part.now.p at (length words.old) × SetRoom (length keys.old) (length scratch.old) (length set.old) }
    ensures value { result ≡ at + length_of (plan_lanes part.now.d.now) part.now.d.now part.now.p }
    ensures room_unchanged { room.new ≡ room.old }
    ensures words_after { words.new ≡ sets words.old at (row_script part.now.d.now room.old part.now.p last) }
{
    let x = numbers_of(part, room, last);
    let next = at + part_words(part.body.lanes, x.rounds, x.stages) as usize;
    build_script(part, x, room, &mut words[at..next], keys, scratch, set);
    next
}

// Writes the script of part p from word `at` on. Where the next words begin.
pub fn write_part(
    d: &[u8],
    room: &mut [u32],
    p: usize,
    last: u32,
    at: usize,
    words: &mut [u32],
    keys: &mut [u64],
    scratch: &mut [u64],
    set: &mut [u32],
) -> usize
    requires { PartRoom d.now room.old p at (length words.old) × SetRoom (length keys.old) (length scratch.old) (length set.old) }
    ensures value { result ≡ at + length_of (plan_lanes d.now) d.now p }
    ensures room_unchanged { room.new ≡ room.old }
    ensures words_after { words.new ≡ sets words.old at (row_script d.now room.old p last) }
{
    let part = part_of(d, room, p);
    write_placed(&part, room, last, at, words, keys, scratch, set)
}
