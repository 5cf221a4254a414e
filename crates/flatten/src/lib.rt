// The whole build: refusals in order, then the sizes or the words. The Rust is `build_flattened_script_v1`.
#![tactic(auto)]

pub mod pieces;
pub mod sizes;

ghost use Rattle.std.specs.Prelude.{◌≡◌, ◌&&◌, leb, length, replicate};
ghost use Rattle.plan_record.specs.Record.{plan_lanes};
ghost use Rattle.plan_reads.specs.ReadsReady.{SetRoom};
ghost use Rattle.script_assembly.specs.Assembly.{script_words, script_starts};
ghost use Rattle.script_layout.specs.Layout.{AcceptedTabled};
ghost use Rattle.flatten.specs.Flatten.{sizes_of, sizing, piece_sizes, fitted, building, laid, starts_after, words_after, pieces_after, build_room_after};
ghost use Rattle.flatten.specs.FlattenedAnswer.{sizes_in, flattened_of};

use pieces::write_pieces;
use plan_checks::check_plan;
use plan_record::bodies::parts_of;
use script_layout::write_plan;
use sizes::{Sizes, sizes_of};
use words::clear::clear;
use words::edition::Edition;
use words::refusals::{Reason, Refusal};

// The words of a read set, a pair to each slot at most. With two lists of as many keys as slots they are all the scratch that a check and a build
// have: 192 KiB of stack.
const SET_WORDS: usize = 2 * Edition::SLOTS;

// The sizes of an accepted plan. The room is clear afterwards.
fn size_accepted(plan: &[u8], room: &mut [u32]) -> Sizes
    requires { AcceptedTabled plan.now room.old }
    ensures value { result ≡ sizes_in (sizes_of (plan_lanes plan.now) plan.now) }
    ensures room_after { room.new ≡ replicate (length room.old) 0 }
{
    let sizes = sizes_of(plan, room);
    clear(room);
    sizes
}

// How much room a plan's result takes.
pub fn plan_sizes(plan: &[u8], room: &mut [u32]) -> Result<Sizes, Refusal>
    ensures value { result ≡ flattened_of (sizing (plan_lanes plan.now) plan.now (length room.old)) }
    ensures room_after { room.new ≡ build_room_after plan.now room.old }
{
    let mut keys = [0u64; Edition::SLOTS];
    let mut scratch = [0u64; Edition::SLOTS];
    let mut set = [0u32; SET_WORDS];
    check_plan(plan, room, &mut keys, &mut scratch, &mut set)?;
    Ok(size_accepted(plan, room))
}

// Whether the result slices are long enough: there is a piece size for each part.
#[tactic(auto, using(crate::proofs::BuildAnswerLaws::test_on, crate::proofs::BuildAnswerLaws::test_off))]
fn enough(sizes: Sizes, parts: usize, starts: usize, words: usize, pieces: usize) -> bool
    ensures { result ≡ (leb parts pieces && (leb sizes.starts starts && leb sizes.words words)) }
{
    parts <= pieces && sizes.starts <= starts as u64 && sizes.words <= words as u64
}

// The result of an accepted plan, or refusal 14. The room is clear afterwards; what keys, scratch and set then hold is left open.
fn build_accepted(
    plan: &[u8],
    room: &mut [u32],
    starts: &mut [u64],
    words: &mut [u32],
    pieces: &mut [u32],
    keys: &mut [u64],
    scratch: &mut [u64],
    set: &mut [u32],
) -> Result<Sizes, Refusal>
    requires { AcceptedTabled plan.now room.old × SetRoom (length keys.old) (length scratch.old) (length set.old) }
    ensures value { result ≡ flattened_of (fitted (plan_lanes plan.now) plan.now (length starts.old) (length words.old) (length pieces.old)) }
    ensures room_after { room.new ≡ replicate (length room.old) 0 }
    ensures starts_after { starts.new ≡ laid (fitted (plan_lanes plan.now) plan.now (length starts.old) (length words.old) (length pieces.old)) (script_starts (plan_lanes plan.now) plan.now) starts.old }
    ensures words_after { words.new ≡ laid (fitted (plan_lanes plan.now) plan.now (length starts.old) (length words.old) (length pieces.old)) (script_words (plan_lanes plan.now) plan.now) words.old }
    ensures pieces_after { pieces.new ≡ laid (fitted (plan_lanes plan.now) plan.now (length starts.old) (length words.old) (length pieces.old)) (piece_sizes (plan_lanes plan.now) plan.now) pieces.old }
{
    let sizes = sizes_of(plan, room);
    let parts = parts_of(plan);
    if enough(sizes, parts, starts.len(), words.len(), pieces.len()) {
        write_pieces(plan, room, pieces);
        write_plan(plan, room, starts, words, keys, scratch, set);
        clear(room);
        return Ok(sizes);
    }
    clear(room);
    Err(Refusal::nowhere(Reason::ResultShort))
}

// The assembled script of a plan, where its blocks begin, and the piece size of each part.
pub fn build_flattened_script_v1(
    plan: &[u8],
    room: &mut [u32],
    starts: &mut [u64],
    words: &mut [u32],
    pieces: &mut [u32],
) -> Result<Sizes, Refusal>
    ensures value { result ≡ flattened_of (building (plan_lanes plan.now) plan.now (length room.old) (length starts.old) (length words.old) (length pieces.old)) }
    ensures room_after { room.new ≡ build_room_after plan.now room.old }
    ensures starts_after { starts.new ≡ starts_after (plan_lanes plan.now) plan.now (length room.old) starts.old words.old pieces.old }
    ensures words_after { words.new ≡ words_after (plan_lanes plan.now) plan.now (length room.old) starts.old words.old pieces.old }
    ensures pieces_after { pieces.new ≡ pieces_after (plan_lanes plan.now) plan.now (length room.old) starts.old words.old pieces.old }
{
    let mut keys = [0u64; Edition::SLOTS];
    let mut scratch = [0u64; Edition::SLOTS];
    let mut set = [0u32; SET_WORDS];
    check_plan(plan, room, &mut keys, &mut scratch, &mut set)?;
    build_accepted(
        plan,
        room,
        starts,
        words,
        pieces,
        &mut keys,
        &mut scratch,
        &mut set,
    )
}
