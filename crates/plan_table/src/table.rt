// The part table: the parts' counts, then their blocks, ranks and starts where the totals fit.
ghost use Rattle.std.specs.Prelude.{◌≡◌, true, ◌+◌, ◌/◌, ◌%◌, ◌^◌, ◌<◌, ◌≤◌, length, set};
ghost use Rattle.plan_record.specs.Record.{majors_of};
ghost use Rattle.plan_rows.specs.Columns as col;
ghost use Rattle.plan_rows.specs.Rows.{row_base, cell};
ghost use Rattle.plan_blocks.specs.Blocks.{totals_fit};
ghost use Rattle.plan_blocks.specs.PartTable.{Tabled};
ghost use Rattle.plan_blocks.specs.TableFill.{TableFillable, RowReady, Tallied, Allottable, count_row, counted_room, allot_rows, allotted_room};

use crate::stages::allot_stage;
use plan_blocks::firsts::Firsts;
use plan_blocks::totals::{sram_words, state_words};
use plan_counts::counts_of;
use plan_record::bodies::{Part, first_body, parts_of};
use plan_record::numbers::{blocks_of, count_at, layout_of, majors_of};
use plan_rows::{Column, put_cell};

// Where the body of part p begins, and its locations.
fn put_body(room: &mut [u32], p: usize, at: usize, locations: usize)
    requires { (p < 262144) × (row_base p + 16 ≤ length room.old) × (locations ≤ 256) }
    ensures { room.new ≡ set (set (set room.old (cell p col.body_low) (at % 2 ^ 32)) (cell p col.body_high) (at / 2 ^ 32)) (cell p col.locations) locations }
{
    put_cell(room, p, Column::BODY_LOW, (at % 4294967296) as u32);
    put_cell(room, p, Column::BODY_HIGH, (at / 4294967296) as u32);
    put_cell(room, p, Column::LOCATIONS, locations as u32);
}

// The counts of part p.
fn put_counts(room: &mut [u32], p: usize, srams: u32, duplicates: u32, words: usize)
    requires { (p < 262144) × (row_base p + 16 ≤ length room.old) × (words ≤ 256) }
    ensures { room.new ≡ set (set (set room.old (cell p col.srams) srams) (cell p col.duplicates) duplicates) (cell p col.write_outs) words }
{
    put_cell(room, p, Column::SRAMS, srams);
    put_cell(room, p, Column::DUPLICATES, duplicates);
    put_cell(room, p, Column::WRITE_OUTS, words as u32);
}

// What the record says of part p. What keys and scratch hold afterwards is left open, here and below.
fn fill_row(part: &Part, room: &mut [u32], keys: &mut [u64], scratch: &mut [u64])
    requires { RowReady part.now.d.now room.old part.now.p part.now.body × (8192 ≤ length keys.old) × (8192 ≤ length scratch.old) }
    ensures { room.new ≡ count_row part.now.d.now room.old part.now.p }
{
    let counts = counts_of(part, keys, scratch);
    put_body(room, part.p, part.body.at, part.body.locations);
    put_counts(room, part.p, counts.srams, counts.duplicates, counts.words);
}

// The same of every part.
pub fn fill_counts(d: &[u8], room: &mut [u32], keys: &mut [u64], scratch: &mut [u64])
    requires { TableFillable d.now room.old × (8192 ≤ length keys.old) × (8192 ≤ length scratch.old) }
    ensures { room.new ≡ counted_room d.now room.old }
{
    let mut at = first_body(d);
    for p in 0..parts_of(d) {
        let part = Part::at(d, p, at);
        fill_row(&part, room, keys, scratch);
        at = part.body.end;
    }
}

// Refusal 8 is given exactly when this is false. The parts are counted.
pub fn totals_fit(d: &[u8], room: &[u32]) -> bool
    requires { Tallied d.now room.now }
    ensures { result ≡ totals_fit d.now }
{
    state_words(d, room) <= 134217728 && sram_words(d, room) <= 4294967295
}

// The blocks, ranks and starts of every part.
pub fn allot_stages(d: &[u8], room: &mut [u32])
    requires { Allottable d.now room.old }
    ensures { room.new ≡ allot_rows d.now room.old (majors_of d.now) }
{
    let blocks = blocks_of(d) as usize;
    let mut at = Firsts {
        parts: 0,
        state: (layout_of(d) + 31) / 32,
        sram: 0,
    };
    for s in 0..majors_of(d) as usize {
        at = allot_stage(d, room, s, blocks, count_at(d, s) as usize, at);
    }
}

// The part table of a plan, where refusal 8 is not given; else the counts alone.
pub fn allot(d: &[u8], room: &mut [u32], keys: &mut [u64], scratch: &mut [u64]) -> bool
    requires { TableFillable d.now room.old × (8192 ≤ length keys.old) × (8192 ≤ length scratch.old) }
    ensures value { result ≡ totals_fit d.now }
    ensures room_after { room.new ≡ allotted_room d.now room.old }
    ensures tabled { result ≡ true → Tabled d.now room.new }
{
    fill_counts(d, room, keys, scratch);
    if totals_fit(d, room) {
        allot_stages(d, room);
        return true;
    }
    false
}
