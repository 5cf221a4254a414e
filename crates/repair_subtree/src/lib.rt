// The subtree of a slot: whether it is empty, the judgement of a node, and the list of slots that a placing or a clearing changes. Document 02, 7/13, and
// `place_bit` and `purge_bit` of src/pe.rs.
#![tactic(auto)]

pub mod places;

ghost use Rattle.std.specs.Prelude.{◌≡◌, [], ◌∷◌, ◌<◌, length};
ghost use Rattle.std.proofs.Math.Option.{none};
ghost use Rattle.gatelist.specs.ListWords.{bad_list};
ghost use Rattle.repair_nodes.specs.Stage.{spot, slot_in, empty_below};
ghost use Rattle.repair_nodes.specs.Placing.{node_level, placing, bad_level, no_gate};
ghost use Rattle.repair_nodes.specs.Clearing.{clearing};
ghost use Rattle.repair_subtree.specs.Subtree.{judgement_of, refusal_of, worse_of, Added, SpotPuttable, Listable, Carried, Split, Reachable};

use gatelist::{find_in, first_of, second_of};
use places::Place;
use words::refusals::{Reason, Refusal};
use words::units::{EMPTY_PIN, Pin};

// Why a node cannot be placed: a node that is reached has no level, or one above its place (25), or at its own level no gate (26).
#[derive(Clone, Copy)]
pub enum Misplaced {
    WrongLevel,
    Gateless,
}

impl From<Misplaced> for Refusal {
    ghost from_gives = { λ m r. r ≡ refusal_of m };

    fn from(m: Misplaced) -> Refusal {
        match m {
            Misplaced::WrongLevel => Refusal::nowhere(Reason::Level),
            Misplaced::Gateless => Refusal::nowhere(Reason::NoGate),
        }
    }
}

// What stands at an index; a slot that is not there is empty.
fn slot_at(slots: &[u32], q: usize) -> Pin
    requires { 0 < q }
    ensures { result.0 ≡ slot_in slots.now q }
{
    if slots.len() < q {
        return Pin(EMPTY_PIN);
    }
    Pin(slots[q - 1])
}

// Whether a slot and all below it are empty.
pub fn subtree_empty(slots: &[u32], at: Place) -> bool
    ensures { result ≡ empty_below slots.now at.level at.width at.index }
{
    if slot_at(slots, at.index).0 != EMPTY_PIN {
        return false;
    }
    if at.level == 0 {
        return true;
    }
    if subtree_empty(slots, at.first()) {
        return subtree_empty(slots, at.second());
    }
    false
}

// Of the judgements of two fan-ins: a wrong level goes before a missing gate.
fn worse(a: Result<(), Misplaced>, b: Result<(), Misplaced>) -> Result<(), Misplaced>
    ensures { result ≡ worse_of a b }
{
    match a {
        Err(Misplaced::WrongLevel) => a,
        _ => b.and(a),
    }
}

// The level of a pin that has one.
pub fn level_of(levels: &[u32], node: Pin) -> u32
    requires { node.0 < length levels.now }
    ensures { result ≡ node_level levels.now node.0 }
{
    levels[node.0 as usize]
}

// Whether a node can be placed at level h: every node that is reached has a level, none above its place, and at its own level a gate.
pub fn judge(gates: &[u32], levels: &[u32], h: u32, node: Pin) -> Result<(), Misplaced>
    requires { bad_list gates.now ≡ none }
    ensures { result ≡ judgement_of (bad_level gates.now levels.now h node.0) (no_gate gates.now levels.now h node.0) }
{
    if levels.len() <= node.0 as usize {
        return Err(Misplaced::WrongLevel);
    }
    let level = level_of(levels, node);
    if h < level {
        return Err(Misplaced::WrongLevel);
    }
    if h == 0 {
        return Ok(());
    }
    let below = h - 1;
    if level < h {
        return judge(gates, levels, below, node);
    }
    let g = find_in(gates, node).ok_or(Misplaced::Gateless)?;
    let a = judge(gates, levels, below, first_of(gates, g).pin());
    let b = judge(gates, levels, below, second_of(gates, g).pin());
    worse(a, b)
}

// stays: the list is lent words with their count beside: the project has no heap for a Vec.
// Puts an index and its node on the list of n.
fn put_spot(list: &mut [u32], n: usize, q: usize, node: Pin) -> usize
    requires { SpotPuttable list.old n q }
    ensures { Added list.old n (spot q node.0 ∷ []) list.new result }
{
    list[2 * n] = q as u32;
    list[2 * n + 1] = node.0;
    n + 1
}

// A node above its level: its slot is listed, and the node is carried down the same slot.
#[cycle(carry_down_split_gate)]
pub fn carry_down(
    gates: &[u32],
    levels: &[u32],
    list: &mut [u32],
    n: usize,
    at: Place,
    node: Pin,
) -> usize
    requires { Carried gates.now levels.now list.old n at.level at.width at.index node.0 }
    ensures { Added list.old n (placing gates.now levels.now at.level at.width at.index node.0) list.new result }
{
    let k = put_spot(list, n, at.index, node);
    let below = at.first();
    if level_of(levels, node) == below.level {
        return split_gate(gates, levels, list, k, below, node);
    }
    carry_down(gates, levels, list, k, below, node)
}

// A node at its level: its slot is listed, and its gate is split to the two slots below.
#[cycle(carry_down_split_gate)]
pub fn split_gate(
    gates: &[u32],
    levels: &[u32],
    list: &mut [u32],
    n: usize,
    at: Place,
    node: Pin,
) -> usize
    requires { Split gates.now levels.now list.old n at.level at.width at.index node.0 }
    ensures { Added list.old n (placing gates.now levels.now at.level at.width at.index node.0) list.new result }
{
    let mut k = put_spot(list, n, at.index, node);
    if at.level == 0 {
        return k;
    }
    let g = find_in(gates, node).unwrap();
    let a = first_of(gates, g).pin();
    let b = second_of(gates, g).pin();
    let first = at.first();
    let second = at.second();
    if level_of(levels, a) == first.level {
        k = split_gate(gates, levels, list, k, first, a);
    } else {
        k = carry_down(gates, levels, list, k, first, a);
    }
    if level_of(levels, b) == second.level {
        return split_gate(gates, levels, list, k, second, b);
    }
    carry_down(gates, levels, list, k, second, b)
}

// Lists what placing a judged node puts: above its level it is carried, at its level split.
pub fn list_placed(
    gates: &[u32],
    levels: &[u32],
    list: &mut [u32],
    n: usize,
    at: Place,
    node: Pin,
) -> usize
    requires { Listable gates.now levels.now list.old n at.level at.width at.index node.0 }
    ensures { Added list.old n (placing gates.now levels.now at.level at.width at.index node.0) list.new result }
{
    if level_of(levels, node) == at.level {
        return split_gate(gates, levels, list, n, at, node);
    }
    carry_down(gates, levels, list, n, at, node)
}

// Lists the slots that clearing reaches.
pub fn list_reached(slots: &[u32], list: &mut [u32], n: usize, at: Place) -> usize
    requires { Reachable slots.now list.old n at.level at.width at.index }
    ensures { Added list.old n (clearing slots.now at.level at.width at.index) list.new result }
{
    let node = slot_at(slots, at.index);
    if node.0 == EMPTY_PIN {
        return n;
    }
    let k = put_spot(list, n, at.index, node);
    if at.level == 0 {
        return k;
    }
    let first = at.first();
    let second = at.second();
    let j = list_reached(slots, list, k, first);
    list_reached(slots, list, j, second)
}
