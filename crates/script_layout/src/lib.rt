// The assembled script of an accepted plan, whose part table stands in the room: document 01, "Blocks and offsets", second half.
#![tactic(auto)]

pub mod parts;
pub mod placed;
pub mod sizes;

ghost use Rattle.std.specs.Prelude.{◌≡◌, ◌+◌, length};
ghost use Rattle.std.proofs.lemmas.List.Edits.{sets};
ghost use Rattle.plan_record.specs.Record.{plan_lanes, blocks_of, majors_of};
ghost use Rattle.plan_reads.specs.ReadsReady.{SetRoom};
ghost use Rattle.script_assembly.specs.Assembly.{stage_words, major_words, script_words, stage_starts, major_starts, script_starts};
ghost use Rattle.script_layout.specs.Layout.{NextOf, StageRoom, PlanRoom};

use placed::{Next, write_block};
use plan_record::numbers::{blocks_of, majors_of};
use plan_record::places::lanes_of;
use sizes::CLOSING_ZEROS;
use words::clear::clear;

// Writes major stage s, and where its blocks begin, from start number `first` on. What comes next. What keys, scratch and set
// hold afterwards is left open, here and below.
fn write_stage(
    d: &[u8],
    room: &mut [u32],
    s: usize,
    first: usize,
    at: Next,
    starts: &mut [u64],
    words: &mut [u32],
    keys: &mut [u64],
    scratch: &mut [u64],
    set: &mut [u32],
) -> Next
    requires { StageRoom d.now room.old s first at (length starts.old) (length words.old) × SetRoom (length keys.old) (length scratch.old) (length set.old) }
    ensures next_of { NextOf d.now (s + 1) result }
    ensures room_unchanged { room.new ≡ room.old }
    ensures starts_after { starts.new ≡ sets starts.old first (stage_starts (plan_lanes d.now) d.now s (blocks_of d.now)) }
    ensures words_after { words.new ≡ sets words.old at.at (stage_words (plan_lanes d.now) d.now s (blocks_of d.now)) }
{
    let blocks = blocks_of(d) as usize;
    let mut next = at;
    for b in 0..blocks {
        starts[first + b] = next.at as u64;
        next = write_block(d, room, s, b, next.rank, next.at, words, keys, scratch, set);
    }
    next
}

// Writes all major stages. Where their words end.
fn write_stages(
    d: &[u8],
    room: &mut [u32],
    starts: &mut [u64],
    words: &mut [u32],
    keys: &mut [u64],
    scratch: &mut [u64],
    set: &mut [u32],
) -> usize
    requires { PlanRoom d.now room.old (length starts.old) (length words.old) × SetRoom (length keys.old) (length scratch.old) (length set.old) }
    ensures value { result ≡ length (major_words (plan_lanes d.now) d.now (majors_of d.now)) }
    ensures room_unchanged { room.new ≡ room.old }
    ensures starts_after { starts.new ≡ sets starts.old 0 (major_starts (plan_lanes d.now) d.now (majors_of d.now)) }
    ensures words_after { words.new ≡ sets words.old 0 (major_words (plan_lanes d.now) d.now (majors_of d.now)) }
{
    let blocks = blocks_of(d) as usize;
    let majors = majors_of(d) as usize;
    let mut next = Next { rank: 0, at: 0 };
    for s in 0..majors {
        next = write_stage(
            d,
            room,
            s,
            blocks * s,
            next,
            starts,
            words,
            keys,
            scratch,
            set,
        );
    }
    next.at
}

// Writes the whole: the major stages, the final start, and the zero words that close it.
pub fn write_plan(
    d: &[u8],
    room: &mut [u32],
    starts: &mut [u64],
    words: &mut [u32],
    keys: &mut [u64],
    scratch: &mut [u64],
    set: &mut [u32],
)
    requires { PlanRoom d.now room.old (length starts.old) (length words.old) × SetRoom (length keys.old) (length scratch.old) (length set.old) }
    ensures room_unchanged { room.new ≡ room.old }
    ensures starts_after { starts.new ≡ sets starts.old 0 (script_starts (plan_lanes d.now) d.now) }
    ensures words_after { words.new ≡ sets words.old 0 (script_words (plan_lanes d.now) d.now) }
{
    let end = write_stages(d, room, starts, words, keys, scratch, set);
    let last = blocks_of(d) as usize * (majors_of(d) as usize);
    starts[last] = end as u64;
    let zeros = CLOSING_ZEROS * lanes_of(d);
    clear(&mut words[end..end + zeros]);
}
