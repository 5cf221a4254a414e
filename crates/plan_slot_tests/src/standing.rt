// Refusal 9: a slot pin out of range, or at a position neither empty, slot a's pin, nor the right gate.
ghost use Rattle.std.specs.Prelude.{◌≡◌, true, ◌&&◌, ◌+◌, ◌*◌, ◌-◌, ◌<◌};
ghost use Rattle.std.proofs.Math.Option.{none};
ghost use Rattle.plan_record.specs.Record.{plan_lanes, slots_of};
ghost use Rattle.plan_record.specs.Form.{plan_form};
ghost use Rattle.words.specs.Tests.{first_from};
ghost use Rattle.plan_gates.specs.Gates.{bad_gate, gate_of};
ghost use Rattle.plan_slots.specs.Slots.{feeds, pin_right, slot_right, nine_right, bad_item, over_items};
ghost use Rattle.plan_slot_tests.specs.EmptyRuns.{eighth_empty};
ghost use Rattle.words.specs.Found.{item_of, lowest_of};

use crate::runs::{eighth_empty, first_of_stages, first_wrong, item_at};
use plan_gates::find_gate;
use plan_record::bodies::{Part, first_body, parts_of};
use plan_record::numbers::{gate_first, gate_second};
use plan_slots::tables::top_power;
use words::found::Place;
use words::units::{EMPTY_PIN, Pin};

// The last pin of all.
const LAST_PIN: u32 = 0x4000_0000;

// Whether a pin is empty or in range.
fn pin_right(pin: Pin) -> bool
    ensures { result ≡ pin_right pin.0 }
{
    pin.0 == EMPTY_PIN || pin.0 <= LAST_PIN
}

// Whether a pin has a gate whose fan-in pins are a and b, in that order.
fn fed_by(d: &[u8], pin: Pin, a: Pin, b: Pin) -> bool
    requires { bad_gate d.now ≡ none }
    ensures { result ≡ feeds d.now (gate_of d.now pin.0) a.0 b.0 }
{
    match find_gate(d, pin) {
        Some(g) => {
            let first = gate_first(d, g).pin();
            let second = gate_second(d, g).pin();
            first.0 == a.0 && second.0 == b.0
        }
        None => false,
    }
}

// Whether position q of stage s holds what may stand there.
fn slot_right(part: &Part, s: usize, q: usize) -> bool
    requires { (s < part.now.body.stages) × (0 < q) × (q < 32 * part.now.body.lanes) × (bad_gate part.now.d.now ≡ none) }
    ensures { result ≡ slot_right part.now.d.now part.now.p s q }
{
    let pin = part.slot(s, q);
    if pin.0 == EMPTY_PIN {
        return true;
    }
    if LAST_PIN < pin.0 {
        return false;
    }
    let m = top_power(q);
    let a = part.slot(s, q + m);
    if pin.0 == a.0 {
        return true;
    }
    fed_by(part.d, pin, a, part.slot(s, q + 2 * m))
}

// Whether slot x of level 0 and position x are right.
fn nine_right(part: &Part, s: usize, x: usize) -> bool
    requires { (s < part.now.body.stages) × (0 < x) × (x < 32 * part.now.body.lanes) × (bad_gate part.now.d.now ≡ none) }
    ensures { result ≡ nine_right part.now.d.now part.now.p s x }
{
    pin_right(part.level_slot(s, x)) && slot_right(part, s, x)
}

// Whether eight slots of level 0 and eight positions, from an eighth x on, are empty.
fn nine_empty(part: &Part, s: usize, x: usize) -> bool
    requires { (s < part.now.body.stages) × (0 < x) × (x < 32 * part.now.body.lanes) }
    ensures { result ≡ (eighth_empty part.now.d.now part.now.p s x && eighth_empty part.now.d.now part.now.p s (slots_of part.now.d.now + x)) }
{
    eighth_empty(part, s, x) && eighth_empty(part, s, 32 * part.body.lanes + x)
}

// The lowest item of stage s but for item 0 that is refused.
fn nine_later(part: &Part, s: usize) -> Option<usize>
    requires { (s < part.now.body.stages) × (bad_gate part.now.d.now ≡ none) }
    ensures { result ≡ item_of (first_from (over_items (plan_lanes part.now.d.now) (nine_right part.now.d.now part.now.p)) (slots_of part.now.d.now - 1) (slots_of part.now.d.now * s + 1)) }
{
    first_wrong(
        part.body,
        s,
        1,
        |x| nine_empty(part, s, x),
        |x| nine_right(part, s, x),
    )
}

// The lowest item of stage s that is refused: item 0 has no position.
fn nine_items(part: &Part, s: usize) -> Option<usize>
    requires { (s < part.now.body.stages) × (bad_gate part.now.d.now ≡ none) }
    ensures { result ≡ item_of (first_from (over_items (plan_lanes part.now.d.now) (nine_right part.now.d.now part.now.p)) (slots_of part.now.d.now) (slots_of part.now.d.now * s)) }
{
    if pin_right(part.level_slot(s, 0)) {
        return nine_later(part, s);
    }
    Some(item_at(part.body, s, 0))
}

// The lowest item of part p that is refused.
fn nine_part(part: &Part) -> Option<usize>
    requires { (bad_gate part.now.d.now ≡ none) }
    ensures { result ≡ item_of (bad_item part.now.d.now (nine_right part.now.d.now part.now.p) part.now.p) }
{
    first_of_stages(part.body.stages, |s| nine_items(part, s))
}

// Refusal 9 over the whole plan.
pub fn refusal9(d: &[u8]) -> Option<Place>
    requires { (plan_form d.now ≡ true) × (bad_gate d.now ≡ none) }
    ensures { result ≡ lowest_of (Rattle.plan_slots.specs.Slots.refusal9 d.now) }
{
    let mut at = first_body(d);
    for p in 0..parts_of(d) {
        let part = Part::at(d, p, at);
        if let Some(item) = nine_part(&part) {
            return Some(Place { part: p, item });
        }
        at = part.body.end;
    }
    None
}
