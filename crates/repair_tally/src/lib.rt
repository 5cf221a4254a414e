// Counts of nodes in a map: the count list's form, nodes placed, nodes cleared. Document 02, 7/13.
#![tactic(auto)]

ghost use Rattle.std.specs.Prelude.{◌≡◌, [], ◌*◌, ◌-◌, ◌^◌, ◌≤◌, ◌<◌, length, take};
ghost use Rattle.repair_nodes.specs.CountList.{counted};
ghost use Rattle.repair_tally.specs.Tally.{through, entering, entering_all, raised, raising, lowering, Told, ToldNew, nodes_in, SpotsAskable};

use pinmap::{look_up, put};
use words::units::Pin;

// How many slots level 0 has with so many levels above it.
pub fn level_slots(height: u32) -> usize
    requires { height ≤ 13 }
    ensures { (result ≡ 2 ^ height) × (result ≤ 8192) }
{
    1 << height
}

// Enters a node with its count, if both are in form and the node is not there.
fn enter(map: &mut [u32], node: Pin, count: u32) -> bool
    ensures { Told (entering map.old (counted node.0 count)) result map.new }
{
    if 1073741824 < node.0 {
        return false;
    }
    if count == 0 {
        return false;
    }
    match look_up(map, node) {
        Some(_) => false,
        None => {
            let _ = put(map, node, count);
            true
        }
    }
}

// The form of a count list, entered into an empty map.
pub fn check_counts(counts: &[u32], map: &mut [u32]) -> bool
    ensures { Told (entering_all map.old counts.now) result map.new }
{
    if counts.len() % 2 != 0 {
        return false;
    }
    for i in 0..counts.len() / 2 {
        if !enter(map, Pin(counts[2 * i]), counts[2 * i + 1]) {
            return false;
        }
    }
    true
}

// One more of a node; a new one is put behind the n that are there. Tells how many are new then, or that the count would pass 2^32−1.
fn raise(map: &mut [u32], fresh: &mut [u32], n: usize, node: Pin) -> Option<usize>
    requires { (node.0 < 2 ^ 32 - 1) × (n < length fresh.old) }
    ensures { ToldNew (raising (raised map.old (take n fresh.old)) node.0) result map.new fresh.new }
{
    match look_up(map, node) {
        Some(v) => {
            if v == u32::MAX {
                return None;
            }
            put(map, node, v + 1).unwrap();
            Some(n)
        }
        None => {
            let _ = put(map, node, 1);
            fresh[n] = node.0;
            Some(n + 1)
        }
    }
}

// One more of each node at level 1 or up. Tells how many are new, or that a count would pass 2^32−1.
pub fn tally_up(spots: &[u32], map: &mut [u32], fresh: &mut [u32], height: u32) -> Option<usize>
    requires { SpotsAskable spots.now × (length spots.now ≤ 2 * length fresh.old) × (height ≤ 13) }
    ensures { ToldNew (through raising (raised map.old []) (nodes_in height spots.now)) result map.new fresh.new }
{
    let slots = level_slots(height);
    let mut n = 0;
    for k in 0..spots.len() / 2 {
        if (spots[2 * k] as usize) < slots {
            n = raise(map, fresh, n, Pin(spots[2 * k + 1]))?;
        }
    }
    Some(n)
}

// One less of a node.
fn lower(map: &mut [u32], node: Pin) -> bool
    requires { node.0 < 2 ^ 32 - 1 }
    ensures { Told (lowering map.old node.0) result map.new }
{
    match look_up(map, node) {
        Some(v) => {
            if v == 0 {
                return false;
            }
            put(map, node, v - 1).unwrap();
            true
        }
        None => false,
    }
}

// One less of each node at level 1 or up.
pub fn tally_down(spots: &[u32], map: &mut [u32], height: u32) -> bool
    requires { SpotsAskable spots.now × (height ≤ 13) }
    ensures { Told (through lowering map.old (nodes_in height spots.now)) result map.new }
{
    let slots = level_slots(height);
    for k in 0..spots.len() / 2 {
        if (spots[2 * k] as usize) < slots {
            if !lower(map, Pin(spots[2 * k + 1])) {
                return false;
            }
        }
    }
    true
}
