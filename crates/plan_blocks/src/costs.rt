// Parts to blocks: each block's record of its part count and running cost, and each part's block.
ghost use Rattle.std.specs.Prelude.{◌≡◌, ◌+◌, ◌-◌, ◌≤◌, ◌<◌, length, set, replicate};
ghost use Rattle.plan_record.specs.Record.{stages_of};
ghost use Rattle.plan_blocks.specs.Blocks.{least_to, block_for, costs_after};
ghost use Rattle.plan_rows.specs.Columns as col;
ghost use Rattle.plan_rows.specs.Rows.{cell};
ghost use Rattle.plan_blocks.specs.TableFill.{PartPuttable, StagePlaceable, blank, costs_of, block_part_counts, with_part, placed_rows, part_counts};

use plan_record::numbers::stages_at;
use plan_record::places::head_base;
use plan_rows::{Column, put_cell};

// What a block has: how many parts, and what they cost together.
#[derive(Clone, Copy)]
pub struct BlockCost {
    pub parts: u32,
    pub cost: u32,
}

// The records of 1024 blocks without parts.
pub fn no_parts() -> [BlockCost; 1024]
    ensures { result ≡ replicate 1024 blank }
{
    let none = BlockCost { parts: 0, cost: 0 };
    [none; 1024]
}

// A part more in block b: the one place where a record changes.
pub fn put_part(blocks: &mut [BlockCost], b: usize, cost: u32)
    requires { PartPuttable blocks.old b cost }
    ensures { blocks.new ≡ with_part blocks.old b cost }
{
    blocks[b].parts += 1;
    blocks[b].cost += cost;
}

// What part p costs.
fn part_cost(d: &[u8], p: usize) -> u32
    requires { (p < 262144) × (stages_of d.now p ≤ 255) }
    ensures { result ≡ stages_of d.now p + 3 }
{
    stages_at(d, head_base(d), p) + 3
}

// The block of least cost of the first n, the lowest number on a tie.
pub fn least_block(blocks: &[BlockCost; 1024], n: usize) -> usize
    requires { (0 < n) × (n ≤ 1024) }
    ensures { (result ≡ least_to (costs_of n blocks.now) (n - 1)) × (result < n) }
{
    let mut best = 0;
    for i in 1..n {
        if blocks[i].cost < blocks[best].cost {
            best = i;
        }
    }
    best
}

// The block of part i, of n blocks: the first parts go one to a block.
pub fn block_for(blocks: &[BlockCost; 1024], n: usize, i: usize) -> usize
    requires { (0 < n) × (n ≤ 1024) }
    ensures { (result ≡ block_for n (costs_of n blocks.now) i) × (result < n) }
{
    if i < n { i } else { least_block(blocks, n) }
}

// Part p is in block b.
fn put_block(room: &mut [u32], p: usize, b: usize)
    requires { (p < 262144) × (cell p col.block < length room.old) × (b < 1024) }
    ensures { room.new ≡ set room.old (cell p col.block) b }
{
    put_cell(room, p, Column::BLOCK, b as u32);
}

// The parts of one major stage, `count` of them from part `base` on, to n blocks: their rows, and the blocks' records.
pub fn place_parts(
    d: &[u8],
    room: &mut [u32],
    n: usize,
    base: usize,
    count: usize,
) -> [BlockCost; 1024]
    requires { StagePlaceable d.now room.old n base count }
    ensures room_after { room.new ≡ placed_rows d.now room.old n base count }
    ensures costs { costs_of n result ≡ costs_after n (λ i. stages_of d.now (base + i)) count }
    ensures parts { block_part_counts n result ≡ part_counts d.now n base count }
{
    let mut placed = no_parts();
    for i in 0..count {
        let b = block_for(&placed, n, i);
        put_part(&mut placed, b, part_cost(d, base + i));
        put_block(room, base + i, b);
    }
    placed
}

// The part counts of the first blocks alone.
pub fn take_counts(blocks: &[BlockCost; 1024], counts: &mut [u32])
    requires { length counts.old ≤ 1024 }
    ensures { counts.new ≡ block_part_counts (length counts.old) blocks.now }
{
    for b in 0..counts.len() {
        counts[b] = blocks[b].parts;
    }
}

// The blocks of `count` parts from part `base` on, and how many parts each of these blocks has: there are as many blocks as counts.
pub fn give_blocks(d: &[u8], room: &mut [u32], counts: &mut [u32], base: usize, count: usize)
    requires { StagePlaceable d.now room.old (length counts.old) base count }
    ensures room_after { room.new ≡ placed_rows d.now room.old (length counts.old) base count }
    ensures counts_after { counts.new ≡ part_counts d.now (length counts.old) base count }
{
    let placed = place_parts(d, room, counts.len(), base, count);
    take_counts(&placed, counts);
}
