// The sizes of an accepted plan's result: document 01, "Blocks and offsets".
ghost use Rattle.std.specs.Prelude.{◌≡◌, ◌*◌, ◌^◌, ◌≤◌, length};
ghost use Rattle.words.specs.Sum.{sum_to};
ghost use Rattle.plan_record.specs.Record.{plan_lanes, majors_of, parts_of};
ghost use Rattle.script_assembly.specs.Assembly.{script_words};
ghost use Rattle.script_assembly.specs.WrittenSoFar.{length_of, empty_blocks};
ghost use Rattle.script_layout.specs.Layout.{AcceptedTabled};
ghost use Rattle.flatten.specs.Flatten.{sizes_of};
ghost use Rattle.flatten.specs.FlattenedAnswer.{sizes_in};

use plan_blocks::totals::{sram_words, state_words};
use plan_record::bodies::parts_of;
use plan_record::numbers::{blocks_of, count_at, majors_of, stages_at};
use plan_record::places::{head_base, lanes_of};
use plan_rows::{Column, cell_at};
use script_layout::sizes::{CLOSING_ZEROS, part_words};

// How much a plan's result takes: starts, words of the script, words of the state, words of SRAM.
#[derive(Clone, Copy)]
pub struct Sizes {
    pub starts: u64,
    pub words: u64,
    pub state: u64,
    pub sram: u64,
}

// The empty blocks of all major stages.
fn empty_blocks(d: &[u8], room: &[u32]) -> u64
    requires { AcceptedTabled d.now room.now }
    ensures { (result ≡ empty_blocks d.now (majors_of d.now)) × (result ≤ 2 ^ 38) }
{
    let blocks = blocks_of(d);
    let majors = majors_of(d) as usize;
    let mut sum: u64 = 0;
    for s in 0..majors {
        sum += blocks.saturating_sub(count_at(d, s)) as u64;
    }
    sum
}

// The words of all parts' scripts.
fn parts_words(d: &[u8], room: &[u32]) -> u64
    requires { AcceptedTabled d.now room.now }
    ensures { (result ≡ sum_to (length_of (plan_lanes d.now) d.now) (parts_of d.now)) × (result ≤ 2 ^ 63) }
{
    let lanes = lanes_of(d);
    let parts = parts_of(d);
    let heads = head_base(d);
    let mut sum: u64 = 0;
    for p in 0..parts {
        let rounds = cell_at(room, p, Column::ROUNDS);
        sum += part_words(lanes, rounds, stages_at(d, heads, p));
    }
    sum
}

// The words of the empty blocks: a word a lane each.
fn empty_words(d: &[u8], room: &[u32]) -> u64
    requires { AcceptedTabled d.now room.now }
    ensures { (result ≡ plan_lanes d.now * empty_blocks d.now (majors_of d.now)) × (result ≤ 2 ^ 46) }
{
    lanes_of(d) as u64 * empty_blocks(d, room)
}

// The words of the whole script.
fn script_words(d: &[u8], room: &[u32]) -> u64
    requires { AcceptedTabled d.now room.now }
    ensures { result ≡ length (script_words (plan_lanes d.now) d.now) }
{
    let zeros = CLOSING_ZEROS * lanes_of(d);
    parts_words(d, room) + empty_words(d, room) + zeros as u64
}

// The sizes of an accepted plan, whose part table stands in the room.
pub fn sizes_of(d: &[u8], room: &[u32]) -> Sizes
    requires { AcceptedTabled d.now room.now }
    ensures { result ≡ sizes_in (sizes_of (plan_lanes d.now) d.now) }
{
    let blocks = blocks_of(d) as u64;
    let majors = majors_of(d) as u64;
    Sizes {
        starts: blocks * majors + 1,
        words: script_words(d, room),
        state: state_words(d, room),
        sram: sram_words(d, room),
    }
}
