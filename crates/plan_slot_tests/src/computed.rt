// Refusal 11: a part computes by gate a pin that it reads in stage 0.
ghost use Rattle.std.specs.Prelude.{◌≡◌, true, ◌*◌, ◌≤◌, ◌<◌, length, replicate};
ghost use Rattle.plan_record.specs.Record.{plan_lanes, slots_of};
ghost use Rattle.plan_record.specs.Form.{plan_form};
ghost use Rattle.words.specs.Tests.{first_from};
ghost use Rattle.plan_slots.specs.Slots.{eleven_right, bad_item, over_items};
ghost use Rattle.plan_slots.specs.Puts.{read_puts, FilledWith};
ghost use Rattle.words.specs.Found.{item_of, lowest_of};

use crate::runs::{eighth_empty, first_of_stages, first_wrong};
use plan_record::bodies::{Part, first_body, parts_of};
use plan_slots::tables::{fill_reads, top_power};
use words::clear::clear;
use words::found::Place;
use words::units::EMPTY_PIN;

// Whether position q of stage s is empty or carried, or its pin is not read: the table holds the pins that the part reads.
fn eleven_right(part: &Part, s: usize, q: usize, table: &[u32]) -> bool
    requires { (s < part.now.body.stages) × (0 < q) × (q < 32 * part.now.body.lanes) × FilledWith (read_puts part.now.d.now part.now.p) table.now }
    ensures { result ≡ eleven_right part.now.d.now part.now.p s q }
{
    let pin = part.slot(s, q);
    if pin.0 == EMPTY_PIN {
        return true;
    }
    if pin.0 == part.slot(s, q + top_power(q)).0 {
        return true;
    }
    pinmap::look_up(table, pin).is_none()
}

// The lowest item of stage s that is refused: item 0 has no position.
fn eleven_items(part: &Part, s: usize, table: &[u32]) -> Option<usize>
    requires { (s < part.now.body.stages) × FilledWith (read_puts part.now.d.now part.now.p) table.now }
    ensures { result ≡ item_of (first_from (over_items (plan_lanes part.now.d.now) (eleven_right part.now.d.now part.now.p)) (slots_of part.now.d.now) (slots_of part.now.d.now * s)) }
{
    first_wrong(
        part.body,
        s,
        1,
        |q| eighth_empty(part, s, q),
        |q| eleven_right(part, s, q, table),
    )
}

// The lowest item of part p that is refused.
fn eleven_stages(part: &Part, table: &[u32]) -> Option<usize>
    requires { FilledWith (read_puts part.now.d.now part.now.p) table.now }
    ensures { result ≡ item_of (bad_item part.now.d.now (eleven_right part.now.d.now part.now.p) part.now.p) }
{
    first_of_stages(part.body.stages, |s| eleven_items(part, s, table))
}

// The same with a lent table.
fn eleven_part(part: &Part, table: &mut [u32]) -> Option<usize>
    requires { (0 < part.now.body.stages) × (32768 ≤ length table.old) }
    ensures { result ≡ item_of (bad_item part.now.d.now (eleven_right part.now.d.now part.now.p) part.now.p) }
{
    fill_reads(part, table);
    eleven_stages(part, table)
}

// The lowest place of the plan that is refused. The room is left with the last part's pins.
fn eleven_parts(d: &[u8], room: &mut [u32]) -> Option<Place>
    requires { (plan_form d.now ≡ true) × (32768 ≤ length room.old) }
    ensures { result ≡ lowest_of (Rattle.plan_slots.specs.Slots.refusal11 d.now) }
{
    let mut at = first_body(d);
    for p in 0..parts_of(d) {
        let part = Part::at(d, p, at);
        if let Some(item) = eleven_part(&part, room) {
            return Some(Place { part: p, item });
        }
        at = part.body.end;
    }
    None
}

// Refusal 11 over the whole plan.
pub fn refusal11(d: &[u8], room: &mut [u32]) -> Option<Place>
    requires { (plan_form d.now ≡ true) × (32768 ≤ length room.old) }
    ensures value { result ≡ lowest_of (Rattle.plan_slots.specs.Slots.refusal11 d.now) }
    ensures room_after { room.new ≡ replicate (length room.old) 0 }
{
    let fault = eleven_parts(d, room);
    clear(room);
    fault
}
