// Refusal 10: a pin of a later stage that is absent from the stage before.
ghost use Rattle.std.specs.Prelude.{◌≡◌, true, ◌+◌, ◌*◌, ◌≤◌, ◌<◌, length, replicate};
ghost use Rattle.plan_record.specs.Record.{plan_lanes, slots_of};
ghost use Rattle.plan_record.specs.Form.{plan_form};
ghost use Rattle.words.specs.Tests.{first_from};
ghost use Rattle.plan_slots.specs.Slots.{ten_right, bad_item, over_items};
ghost use Rattle.plan_slots.specs.Puts.{position_puts, FilledWith};
ghost use Rattle.words.specs.Found.{item_of, lowest_of};

use crate::runs::{eighth_empty, first_wrong};
use plan_record::bodies::{Part, first_body, parts_of};
use plan_slots::tables::fill_positions;
use words::clear::clear;
use words::found::Place;
use words::units::EMPTY_PIN;

// Whether slot j of level 0 of stage s + 1 is empty or its pin stands in stage s, whose positions the table holds.
fn ten_right(part: &Part, s: usize, j: usize, table: &[u32]) -> bool
    requires { (s + 1 < part.now.body.stages) × (j < 32 * part.now.body.lanes) × FilledWith (position_puts part.now.d.now part.now.p s) table.now }
    ensures { result ≡ ten_right part.now.d.now part.now.p (s + 1) j }
{
    let pin = part.level_slot(s + 1, j);
    if pin.0 == EMPTY_PIN {
        return true;
    }
    pinmap::look_up(table, pin).is_some()
}

// The lowest item of stage s + 1 that is refused.
fn ten_items(part: &Part, s: usize, table: &[u32]) -> Option<usize>
    requires { (s + 1 < part.now.body.stages) × FilledWith (position_puts part.now.d.now part.now.p s) table.now }
    ensures { result ≡ item_of (first_from (over_items (plan_lanes part.now.d.now) (ten_right part.now.d.now part.now.p)) (slots_of part.now.d.now) (slots_of part.now.d.now * (s + 1))) }
{
    first_wrong(
        part.body,
        s + 1,
        0,
        |j| eighth_empty(part, s + 1, 32 * part.body.lanes + j),
        |j| ten_right(part, s, j, table),
    )
}

// The same with a lent table.
fn ten_stage(part: &Part, s: usize, table: &mut [u32]) -> Option<usize>
    requires { (s + 1 < part.now.body.stages) × (32768 ≤ length table.old) }
    ensures { result ≡ item_of (first_from (over_items (plan_lanes part.now.d.now) (ten_right part.now.d.now part.now.p)) (slots_of part.now.d.now) (slots_of part.now.d.now * (s + 1))) }
{
    fill_positions(part, s, table);
    ten_items(part, s, table)
}

// The lowest item of part p that is refused: stage 0 has none.
// stays: `first_of_stages` takes an Fn, and a closure that fills the table for each stage changes what it captures.
fn ten_part(part: &Part, table: &mut [u32]) -> Option<usize>
    requires { (0 < part.now.body.stages) × (32768 ≤ length table.old) }
    ensures { result ≡ item_of (bad_item part.now.d.now (ten_right part.now.d.now part.now.p) part.now.p) }
{
    for s in 0..part.body.stages - 1 {
        if let Some(i) = ten_stage(part, s, table) {
            return Some(i);
        }
    }
    None
}

// The lowest place of the plan that is refused. The room is left with the last stage's positions.
// stays: this pass over the parts, with its like of 9 and 11, is shorter than a trait of three tests that say what each asks of plan and room.
fn ten_parts(d: &[u8], room: &mut [u32]) -> Option<Place>
    requires { (plan_form d.now ≡ true) × (32768 ≤ length room.old) }
    ensures { result ≡ lowest_of (Rattle.plan_slots.specs.Slots.refusal10 d.now) }
{
    let mut at = first_body(d);
    for p in 0..parts_of(d) {
        let part = Part::at(d, p, at);
        if let Some(item) = ten_part(&part, room) {
            return Some(Place { part: p, item });
        }
        at = part.body.end;
    }
    None
}

// Refusal 10 over the whole plan.
pub fn refusal10(d: &[u8], room: &mut [u32]) -> Option<Place>
    requires { (plan_form d.now ≡ true) × (32768 ≤ length room.old) }
    ensures value { result ≡ lowest_of (Rattle.plan_slots.specs.Slots.refusal10 d.now) }
    ensures room_after { room.new ≡ replicate (length room.old) 0 }
{
    let fault = ten_parts(d, room);
    clear(room);
    fault
}
