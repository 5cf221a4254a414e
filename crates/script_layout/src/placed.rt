// The words of one block: those of its parts in the order of their ranks, or those of an empty block.
ghost use Rattle.std.specs.Prelude.{◌≡◌, ◌+◌, ◌≤◌, ◌<◌, length};
ghost use Rattle.std.proofs.lemmas.List.Edits.{sets};
ghost use Rattle.plan_record.specs.Record.{plan_lanes};
ghost use Rattle.plan_reads.specs.ReadsReady.{SetRoom};
ghost use Rattle.script_assembly.specs.Assembly.{block_words};
ghost use Rattle.script_assembly.specs.WrittenSoFar.{last_mark, parts_in, first_rank};
ghost use Rattle.script_layout.specs.Layout.{empty_words, BlockAt, BlockRoom};

use crate::parts::write_part;
use plan_record::places::{lanes_of, parts_before};
use plan_rows::{Column, cell_at};
use words::clear::clear;

// The rank of the next part, and where the next words begin.
#[derive(Clone, Copy)]
pub struct Next {
    pub rank: usize,
    pub at: usize,
}

// The rank after the parts of block b, whose ranks begin at `from`.
fn block_end(d: &[u8], room: &[u32], s: usize, b: usize, from: usize) -> usize
    requires { BlockAt d.now room.now s b from }
    ensures { result ≡ first_rank d.now s (b + 1) }
{
    let end = parts_before(d, s + 1);
    for k in from..end {
        let p = cell_at(room, k, Column::RANKED) as usize;
        if cell_at(room, p, Column::BLOCK) as usize != b {
            return k;
        }
    }
    end
}

// 1 on the last part of a block whose ranks end at `to`.
fn last_mark(k: usize, to: usize) -> u32
    requires { k < to }
    ensures { result ≡ last_mark to k }
{
    if k + 1 == to { 1 } else { 0 }
}

// Writes the parts of block b, whose ranks are `from` up to `to`, from word `at` on. Where the next words begin. What keys,
// scratch and set hold afterwards is left open, here and below.
fn write_parts(
    d: &[u8],
    room: &mut [u32],
    s: usize,
    b: usize,
    from: usize,
    to: usize,
    at: usize,
    words: &mut [u32],
    keys: &mut [u64],
    scratch: &mut [u64],
    set: &mut [u32],
) -> usize
    requires { BlockRoom d.now room.old s b from at (length words.old) × (from < to) × (to ≡ first_rank d.now s (b + 1)) × SetRoom (length keys.old) (length scratch.old) (length set.old) }
    ensures value { result ≡ at + length (block_words (plan_lanes d.now) d.now s (parts_in d.now s b)) }
    ensures room_unchanged { room.new ≡ room.old }
    ensures words_after { words.new ≡ sets words.old at (block_words (plan_lanes d.now) d.now s (parts_in d.now s b)) }
{
    let mut next = at;
    for k in from..to {
        let p = cell_at(room, k, Column::RANKED) as usize;
        next = write_part(
            d,
            room,
            p,
            last_mark(k, to),
            next,
            words,
            keys,
            scratch,
            set,
        );
    }
    next
}

// Writes an empty block: a header, of a word a lane.
fn write_empty(out: &mut [u32])
    requires { 2 ≤ length out.old }
    ensures { out.new ≡ empty_words (length out.old) }
{
    clear(out);
    out[1] = 1;
}

// Writes block b of major stage s, whose ranks begin at `from`, from word `at` on. What comes next.
pub fn write_block(
    d: &[u8],
    room: &mut [u32],
    s: usize,
    b: usize,
    from: usize,
    at: usize,
    words: &mut [u32],
    keys: &mut [u64],
    scratch: &mut [u64],
    set: &mut [u32],
) -> Next
    requires { BlockRoom d.now room.old s b from at (length words.old) × SetRoom (length keys.old) (length scratch.old) (length set.old) }
    ensures rank_value { (result.rank ≡ first_rank d.now s (b + 1)) × (result.at ≡ at + length (block_words (plan_lanes d.now) d.now s (parts_in d.now s b))) }
    ensures room_unchanged { room.new ≡ room.old }
    ensures words_after { words.new ≡ sets words.old at (block_words (plan_lanes d.now) d.now s (parts_in d.now s b)) }
{
    let to = block_end(d, room, s, b, from);
    if from < to {
        let next = write_parts(d, room, s, b, from, to, at, words, keys, scratch, set);
        return Next { rank: to, at: next };
    }
    let next = at + lanes_of(d);
    write_empty(&mut words[at..next]);
    Next { rank: to, at: next }
}
