// The rows of one major stage: its parts' blocks, ranks, state starts and SRAM starts.
ghost use Rattle.std.specs.Prelude.{◌≡◌, ◌+◌, length, replicate};
ghost use Rattle.words.specs.Sum.{sum_to};
ghost use Rattle.plan_blocks.specs.TableFill.{StagePlaceable, StageSummable, StageReady, FirstsOf, takes, ranked_rows, started_rows, stage_rows};

use crate::starts::{Share, add_words, make_starts, rank_parts, take_starts};
use plan_blocks::costs::give_blocks;
use plan_blocks::firsts::Firsts;
use plan_blocks::totals::SRAM_WORDS;
use plan_rows::Column;

// The blocks and the ranks of these parts, with the blocks' part counts in lent words.
fn rank_stage(d: &[u8], room: &mut [u32], counts: &mut [u32], base: usize, count: usize)
    requires { StagePlaceable d.now room.old (length counts.old) base count }
    ensures { room.new ≡ ranked_rows d.now room.old (length counts.old) base count }
{
    give_blocks(d, room, counts, base, count);
    make_starts(counts, 0);
    rank_parts(room, counts, base, count);
}

// The same of `blocks` blocks.
fn place_stage(d: &[u8], room: &mut [u32], blocks: usize, base: usize, count: usize)
    requires { StagePlaceable d.now room.old blocks base count }
    ensures { room.new ≡ ranked_rows d.now room.old blocks base count }
{
    let mut counts = [0u32; 1024];
    rank_stage(d, room, &mut counts[..blocks], base, count);
}

// Where each part's share starts, from `first` on. What comes after the last.
fn starts_in(
    room: &mut [u32],
    sums: &mut [u32],
    base: usize,
    count: usize,
    share: Share,
    first: u32,
) -> u32
    requires { StageSummable room.old (length sums.old) base count share.from share.scale share.to first × (sums.old ≡ replicate (length sums.old) 0) }
    ensures value { result ≡ first + sum_to (takes room.old base share.from share.scale) count }
    ensures room_after { room.new ≡ started_rows room.old base count share.from share.scale share.to first }
{
    add_words(room, sums, base, count, share);
    let next = make_starts(sums, first);
    take_starts(room, sums, base, count, share);
    next
}

// The same of `blocks` blocks.
fn give_starts(
    room: &mut [u32],
    blocks: usize,
    base: usize,
    count: usize,
    share: Share,
    first: u32,
) -> u32
    requires { StageSummable room.old blocks base count share.from share.scale share.to first }
    ensures value { result ≡ first + sum_to (takes room.old base share.from share.scale) count }
    ensures room_after { room.new ≡ started_rows room.old base count share.from share.scale share.to first }
{
    let mut sums = [0u32; 1024];
    starts_in(room, &mut sums[..blocks], base, count, share, first)
}

// The rows of a major stage of `count` parts.
pub fn allot_stage(
    d: &[u8],
    room: &mut [u32],
    s: usize,
    blocks: usize,
    count: usize,
    at: Firsts,
) -> Firsts
    requires { StageReady d.now room.old s blocks count at }
    ensures firsts_of { FirstsOf d.now (s + 1) result }
    ensures room_after { room.new ≡ stage_rows d.now room.old s }
{
    place_stage(d, room, blocks, at.parts, count);
    let words = Share {
        from: Column::WRITE_OUTS,
        scale: 1,
        to: Column::STATE_START,
    };
    let state = give_starts(room, blocks, at.parts, count, words, at.state);
    let srams = Share {
        from: Column::SRAMS,
        scale: SRAM_WORDS,
        to: Column::SRAM_START,
    };
    let sram = give_starts(room, blocks, at.parts, count, srams, at.sram);
    Firsts {
        parts: at.parts + count,
        state,
        sram,
    }
}
