// The count list after a placing or a clearing, out of a map; the slots after either. Document 02, 7/13.
#![tactic(auto)]

ghost use Rattle.std.specs.Prelude.{◌≡◌, [], ◌∷◌, ◌+◌, ◌*◌, ◌-◌, ◌^◌, ◌≤◌, ◌<◌, length, set};
ghost use Rattle.std.proofs.lemmas.List.Edits.{sets};
ghost use Rattle.repair_nodes.specs.Stage.{spots_of, spots_stored, emptied};
ghost use Rattle.repair_nodes.specs.CountList.{count_words, nonzero};
ghost use Rattle.repair_list.specs.Relist.{count_in_map, entries_of, entries_in, EntriesPut, NodesAskable, NewAskable, AllInside};

use pinmap::look_up;
use words::units::{EMPTY_PIN, Pin};

// A node's number in a map, 0 where it has none.
fn number_of(map: &[u32], node: Pin) -> u32
    requires { node.0 < 2 ^ 32 - 1 }
    ensures { result ≡ count_in_map map.now node.0 }
{
    look_up(map, node).unwrap_or(0)
}

// Writes entry i: a node with its number.
fn write_entry(map: &[u32], after: &mut [u32], i: usize, node: Pin)
    requires { (node.0 < 2 ^ 32 - 1) × (2 * i + 1 < length after.old) }
    ensures { after.new ≡ sets after.old (2 * i) (count_words (entries_of map.now (node.0 ∷ []))) }
{
    after[2 * i] = node.0;
    after[2 * i + 1] = number_of(map, node);
}

// Writes the entries of a count list's nodes.
pub fn write_old(counts: &[u32], map: &[u32], after: &mut [u32])
    requires { NodesAskable counts.now × (length counts.now ≤ length after.old) }
    ensures { after.new ≡ sets after.old 0 (count_words (entries_in map.now counts.now)) }
{
    for i in 0..counts.len() / 2 {
        write_entry(map, after, i, Pin(counts[2 * i]));
    }
}

// Writes the entries of new nodes from entry `at` on.
pub fn write_new(news: &[u32], map: &[u32], after: &mut [u32], at: usize)
    requires { NewAskable news.now × (2 * (at + length news.now) ≤ length after.old) }
    ensures { after.new ≡ sets after.old (2 * at) (count_words (entries_of map.now news.now)) }
{
    for k in 0..news.len() {
        write_entry(map, after, at + k, Pin(news[k]));
    }
}

// How many of a count list's nodes are left.
pub fn left_count(counts: &[u32], map: &[u32]) -> usize
    requires { NodesAskable counts.now }
    ensures { result ≡ length (nonzero (entries_in map.now counts.now)) }
{
    let mut n = 0;
    for i in 0..counts.len() / 2 {
        if number_of(map, Pin(counts[2 * i])) != 0 {
            n += 1;
        }
    }
    n
}

// Writes a node behind n entries, if it is left.
fn write_left_one(map: &[u32], after: &mut [u32], n: usize, node: Pin) -> usize
    requires { (node.0 < 2 ^ 32 - 1) × (2 * (n + length (nonzero (entries_of map.now (node.0 ∷ [])))) ≤ length after.old) }
    ensures { EntriesPut after.old n (nonzero (entries_of map.now (node.0 ∷ []))) after.new result }
{
    let count = number_of(map, node);
    if count == 0 {
        return n;
    }
    after[2 * n] = node.0;
    after[2 * n + 1] = count;
    n + 1
}

// Writes the entries of the nodes that are left.
pub fn write_left(counts: &[u32], map: &[u32], after: &mut [u32])
    requires { NodesAskable counts.now × (2 * length (nonzero (entries_in map.now counts.now)) ≤ length after.old) }
    ensures { after.new ≡ sets after.old 0 (count_words (nonzero (entries_in map.now counts.now))) }
{
    let mut n = 0;
    for i in 0..counts.len() / 2 {
        n = write_left_one(map, after, n, Pin(counts[2 * i]));
    }
}

// Puts a node at an index.
fn put_slot(slots: &mut [u32], q: u32, node: Pin)
    requires { (0 < q) × (q ≤ length slots.old) }
    ensures { slots.new ≡ set slots.old (q - 1) node.0 }
{
    slots[q as usize - 1] = node.0;
}

// Puts the spots of a list.
pub fn store_spots(spots: &[u32], slots: &mut [u32])
    requires { AllInside spots.now slots.old }
    ensures { slots.new ≡ spots_stored slots.old (spots_of spots.now) }
{
    for k in 0..spots.len() / 2 {
        put_slot(slots, spots[2 * k], Pin(spots[2 * k + 1]));
    }
}

// Empties them.
pub fn clear_spots(spots: &[u32], slots: &mut [u32])
    requires { AllInside spots.now slots.old }
    ensures { slots.new ≡ spots_stored slots.old (emptied (spots_of spots.now)) }
{
    for k in 0..spots.len() / 2 {
        put_slot(slots, spots[2 * k], Pin(EMPTY_PIN));
    }
}
