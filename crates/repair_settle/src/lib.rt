// Spots placed or cleared, from the counting on: 34 and 14 before anything is written. Document 02, 7/13.
#![tactic(auto)]

ghost use Rattle.std.specs.Prelude.{◌≡◌, ◌+◌, ◌-◌, ◌^◌, ◌≤◌, length};
ghost use Rattle.repair_nodes.specs.Stage.{spots_of};
ghost use Rattle.repair_settle.specs.Settle.{Ended, placed_spots, cleared_spots, Entered, Spotted};

use repair_list::{clear_spots, left_count, store_spots, write_left, write_new, write_old};
use repair_tally::{level_slots, tally_down, tally_up};
use words::edition::Edition;
use words::refusals::{Reason, Refusal};

// Room for as many nodes as a stage of the full edition has slots.
const NODES: usize = 2 * Edition::SLOTS;

// The slots of a stage, from index 1 on, with so many levels above level 0.
fn stage_slots(height: u32) -> usize
    requires { height ≤ 13 }
    ensures { result ≡ 2 ^ (height + 1) - 1 }
{
    2 * level_slots(height) - 1
}

// stays: the lent slices apart, here and in crate `repair`: behind one reference a call that lends two fields of a struct gets no proof (tried).
// Counts spots that are to be placed and, if nothing refuses that, writes the new list and stores them. Tells the entries of the new list.
pub fn place_spots(
    counts: &[u32],
    slots: &mut [u32],
    after: &mut [u32],
    map: &mut [u32],
    spots: &[u32],
    height: u32,
) -> Result<usize, Refusal>
    requires { Entered counts.now map.old × Spotted height spots.now slots.old }
    ensures { Ended (placed_spots height counts.now slots.old (length after.old) (spots_of spots.now)) result slots.old slots.new after.old after.new }
{
    let mut fresh = [0u32; NODES];
    let Some(n) = tally_up(spots, map, &mut fresh, height) else {
        return Err(Refusal::nowhere(Reason::ResultShort));
    };
    let old = counts.len() / 2;
    if slots.len() < stage_slots(height) {
        return Err(Refusal::nowhere(Reason::ResultShort));
    }
    if after.len() / 2 < old + n {
        return Err(Refusal::nowhere(Reason::ResultShort));
    }
    write_old(counts, map, after);
    write_new(&fresh[..n], map, after, old);
    store_spots(spots, slots);
    Ok(old + n)
}

// Counts spots that are to be cleared and, if nothing refuses that, writes the new list and empties them. Tells the entries of the new list.
pub fn purge_spots(
    counts: &[u32],
    slots: &mut [u32],
    after: &mut [u32],
    map: &mut [u32],
    spots: &[u32],
    height: u32,
) -> Result<usize, Refusal>
    requires { Entered counts.now map.old × Spotted height spots.now slots.old }
    ensures { Ended (cleared_spots height counts.now slots.old (length after.old) (spots_of spots.now)) result slots.old slots.new after.old after.new }
{
    if !tally_down(spots, map, height) {
        return Err(Refusal::nowhere(Reason::CountShort));
    }
    let left = left_count(counts, map);
    if slots.len() < stage_slots(height) {
        return Err(Refusal::nowhere(Reason::ResultShort));
    }
    if after.len() / 2 < left {
        return Err(Refusal::nowhere(Reason::ResultShort));
    }
    write_left(counts, map, after);
    clear_spots(spots, slots);
    Ok(left)
}
