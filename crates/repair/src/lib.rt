// Placing and clearing one node of a stage: document 02, 7/13. The Rust is `place_bit` and `purge_bit` of src/pe.rs.
#![tactic(auto)]

ghost use Rattle.std.specs.Prelude.{◌≡◌, ◌^◌, ◌≤◌, ◌<◌, leb, length, replicate};
ghost use Rattle.std.proofs.Math.Option.{none};
ghost use Rattle.gatelist.specs.ListWords.{bad_list};
ghost use Rattle.repair_nodes.specs.Stage.{width};
ghost use Rattle.repair_nodes.specs.Placing.{placing, Judged};
ghost use Rattle.repair_nodes.specs.RepairAnswer.{repair_room_words, place_right, placed_at, placed_form, placed, cleared_at, cleared_form, cleared, slots_after, count_list_after, repair_room_after};
ghost use Rattle.repair_settle.specs.Settle.{repaired_of, Ended, placed_spots, Entered};
ghost use Rattle.repair.specs.Repair.{Placed, NodePlaceable};

use gatelist::check_list;
use repair_settle::{place_spots, purge_spots};
use repair_subtree::places::Place;
use repair_subtree::{judge, list_placed, list_reached, subtree_empty};
use repair_tally::{check_counts, level_slots};
use words::edition::{is_edition, levels_for};
use words::refusals::{Reason, Refusal};
use words::units::Pin;

// How many slots a level has: the height of a stage is its levels above level 0.
fn width_of(height: u32, level: u32) -> usize
    requires { (height ≤ 13) × (level ≤ height) }
    ensures { (result ≡ width height level) × (result ≤ 8192) }
{
    level_slots(height - level)
}

// Whether there is such a place.
fn place_form(height: u32, level: u32, slot: u32) -> bool
    requires { height ≤ 13 }
    ensures { result ≡ place_right height level slot }
{
    if height < level {
        return false;
    }
    (slot as usize) < width_of(height, level)
}

// The place of a slot.
fn place_of(height: u32, level: u32, slot: u32) -> Place
    requires { (height ≤ 13) × (level ≤ height) × (slot < width height level) }
    ensures { Placed height level slot result }
{
    let width = width_of(height, level);
    Place {
        level,
        width,
        index: width + slot as usize,
    }
}

// Places a judged node.
fn place_node(
    gates: &[u32],
    levels: &[u32],
    counts: &[u32],
    slots: &mut [u32],
    after: &mut [u32],
    map: &mut [u32],
    height: u32,
    at: Place,
    node: Pin,
) -> Result<usize, Refusal>
    requires { Judged gates.now levels.now at.level node.0 × NodePlaceable height at node.0 × Entered counts.now map.old }
    ensures { Ended (placed_spots height counts.now slots.old (length after.old) (placing gates.now levels.now at.level at.width at.index node.0)) result slots.old slots.new after.old after.new }
{
    let mut list = [0u32; 32768];
    let n = list_placed(gates, levels, &mut list, 0, at, node);
    place_spots(counts, slots, after, map, &list[..2 * n], height)
}

// Places a node at a place of the stage: 24, 25, 26, then 14.
fn place_at(
    gates: &[u32],
    levels: &[u32],
    counts: &[u32],
    slots: &mut [u32],
    after: &mut [u32],
    map: &mut [u32],
    height: u32,
    level: u32,
    slot: u32,
    node: Pin,
) -> Result<usize, Refusal>
    requires { (bad_list gates.now ≡ none) × (height ≤ 13) × (level ≤ height) × (slot < width height level) × (node.0 ≤ 2 ^ 30) × Entered counts.now map.old }
    ensures { Ended (placed_at height gates.now levels.now counts.now slots.old (length after.old) level slot node.0) result slots.old slots.new after.old after.new }
{
    let at = place_of(height, level, slot);
    if !subtree_empty(slots, at) {
        return Err(Refusal::nowhere(Reason::NotEmpty));
    }
    judge(gates, levels, level, node)?;
    place_node(gates, levels, counts, slots, after, map, height, at, node)
}

// Clears a place of the stage: 34, then 14.
fn purge_at(
    counts: &[u32],
    slots: &mut [u32],
    after: &mut [u32],
    map: &mut [u32],
    height: u32,
    level: u32,
    slot: u32,
) -> Result<usize, Refusal>
    requires { (height ≤ 13) × (level ≤ height) × (slot < width height level) × Entered counts.now map.old }
    ensures { Ended (cleared_at height counts.now slots.old (length after.old) level slot) result slots.old slots.new after.old after.new }
{
    let mut list = [0u32; 32768];
    let n = list_reached(slots, &mut list, 0, place_of(height, level, slot));
    purge_spots(counts, slots, after, map, &list[..2 * n], height)
}

// Whether the working room is long enough for a count list.
fn room_enough(counts: &[u32], room: &[u32]) -> bool
    ensures { result ≡ leb (repair_room_words counts.now) (length room.now) }
{
    if room.len() < 65536 {
        return false;
    }
    let entries = counts.len() / 2 + counts.len() % 2;
    entries <= (room.len() - 65536) / 4
}

// Places a node with an empty map: 5, 6, then the rest.
fn place_over(
    gates: &[u32],
    levels: &[u32],
    counts: &[u32],
    slots: &mut [u32],
    after: &mut [u32],
    map: &mut [u32],
    height: u32,
    level: u32,
    slot: u32,
    node: Pin,
) -> Result<usize, Refusal>
    requires { (map.old ≡ replicate (length map.old) 0) × (repair_room_words counts.now ≤ length map.old) × (height ≤ 13) }
    ensures { Ended (placed_form height gates.now levels.now counts.now slots.old (length after.old) level slot node.0) result slots.old slots.new after.old after.new }
{
    if 1073741824 < node.0 {
        return Err(Refusal::nowhere(Reason::PlanForm));
    }
    if !place_form(height, level, slot) {
        return Err(Refusal::nowhere(Reason::PlanForm));
    }
    if !check_counts(counts, map) {
        return Err(Refusal::nowhere(Reason::PlanForm));
    }
    if let Some(g) = check_list(gates) {
        return Err(Refusal::at_item(Reason::GateOrder, g as u64));
    }
    place_at(
        gates, levels, counts, slots, after, map, height, level, slot, node,
    )
}

// Clears a place with an empty map: 5, then the rest.
fn purge_over(
    counts: &[u32],
    slots: &mut [u32],
    after: &mut [u32],
    map: &mut [u32],
    height: u32,
    level: u32,
    slot: u32,
) -> Result<usize, Refusal>
    requires { (map.old ≡ replicate (length map.old) 0) × (repair_room_words counts.now ≤ length map.old) × (height ≤ 13) }
    ensures { Ended (cleared_form height counts.now slots.old (length after.old) level slot) result slots.old slots.new after.old after.new }
{
    if !place_form(height, level, slot) {
        return Err(Refusal::nowhere(Reason::PlanForm));
    }
    if !check_counts(counts, map) {
        return Err(Refusal::nowhere(Reason::PlanForm));
    }
    purge_at(counts, slots, after, map, height, level, slot)
}

// Places a node with an empty map and any number in the place of an edition's: 29, then the rest.
fn place_in(
    gates: &[u32],
    levels: &[u32],
    counts: &[u32],
    slots: &mut [u32],
    after: &mut [u32],
    map: &mut [u32],
    level: u32,
    slot: u32,
    node: Pin,
    edition: u32,
) -> Result<usize, Refusal>
    requires { (map.old ≡ replicate (length map.old) 0) × (repair_room_words counts.now ≤ length map.old) }
    ensures { Ended (placed edition gates.now levels.now counts.now slots.old (length after.old) (length map.old) level slot node.0) result slots.old slots.new after.old after.new }
{
    if !is_edition(edition) {
        return Err(Refusal::nowhere(Reason::NoEdition));
    }
    let height = levels_for(edition as usize);
    place_over(
        gates, levels, counts, slots, after, map, height, level, slot, node,
    )
}

// Clears a place likewise.
fn purge_in(
    counts: &[u32],
    slots: &mut [u32],
    after: &mut [u32],
    map: &mut [u32],
    level: u32,
    slot: u32,
    edition: u32,
) -> Result<usize, Refusal>
    requires { (map.old ≡ replicate (length map.old) 0) × (repair_room_words counts.now ≤ length map.old) }
    ensures { Ended (cleared edition counts.now slots.old (length after.old) (length map.old) level slot) result slots.old slots.new after.old after.new }
{
    if !is_edition(edition) {
        return Err(Refusal::nowhere(Reason::NoEdition));
    }
    let height = levels_for(edition as usize);
    purge_over(counts, slots, after, map, height, level, slot)
}

// Places a node at a slot of a level of an edition's stage, for any arguments. The answer, the lent slots, the lent list and the lent room are as
// document 02 says.
pub fn place_bit(
    gates: &[u32],
    levels: &[u32],
    counts: &[u32],
    slots: &mut [u32],
    after: &mut [u32],
    room: &mut [u32],
    level: u32,
    slot: u32,
    node: Pin,
    edition: u32,
) -> Result<usize, Refusal>
    ensures value { result ≡ repaired_of (placed edition gates.now levels.now counts.now slots.old (length after.old) (length room.old) level slot node.0) }
    ensures slots_after { slots.new ≡ slots_after (placed edition gates.now levels.now counts.now slots.old (length after.old) (length room.old) level slot node.0) slots.old }
    ensures after_after { after.new ≡ count_list_after (placed edition gates.now levels.now counts.now slots.old (length after.old) (length room.old) level slot node.0) after.old }
    ensures room_after { room.new ≡ repair_room_after counts.now room.old }
{
    if !room_enough(counts, room) {
        return Err(Refusal::nowhere(Reason::RoomShort));
    }
    room.fill(0);
    let answer = place_in(
        gates, levels, counts, slots, after, room, level, slot, node, edition,
    );
    room.fill(0);
    answer
}

// Clears a slot of a level and what stands below it, for any arguments.
pub fn purge_bit(
    counts: &[u32],
    slots: &mut [u32],
    after: &mut [u32],
    room: &mut [u32],
    level: u32,
    slot: u32,
    edition: u32,
) -> Result<usize, Refusal>
    ensures value { result ≡ repaired_of (cleared edition counts.now slots.old (length after.old) (length room.old) level slot) }
    ensures slots_after { slots.new ≡ slots_after (cleared edition counts.now slots.old (length after.old) (length room.old) level slot) slots.old }
    ensures after_after { after.new ≡ count_list_after (cleared edition counts.now slots.old (length after.old) (length room.old) level slot) after.old }
    ensures room_after { room.new ≡ repair_room_after counts.now room.old }
{
    if !room_enough(counts, room) {
        return Err(Refusal::nowhere(Reason::RoomShort));
    }
    room.fill(0);
    let answer = purge_in(counts, slots, after, room, level, slot, edition);
    room.fill(0);
    answer
}
