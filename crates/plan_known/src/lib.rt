// The state bits of the pins that a part reads, as a table of pins in the first words of the room.
#![tactic(auto)]

ghost use Rattle.std.specs.Prelude.{◌≡◌, true, ◌++◌, ◌*◌, ◌-◌, ◌^◌, ◌<◌, take, drop};
ghost use Rattle.std.proofs.Math.Option.{some};
ghost use Rattle.words.specs.Bit.{bit_at};
ghost use Rattle.pinmap.specs.PinMap.{after_puts};
ghost use Rattle.plan_record.specs.Record.{slots_of, parts_of, level_at};
ghost use Rattle.plan_record.specs.Form.{plan_form};
ghost use Rattle.plan_slots.specs.Puts.{filled};
ghost use Rattle.plan_winners.specs.Winners.{planned_by};
ghost use Rattle.plan_positions.specs.Input.{planned_bit};
ghost use Rattle.plan_known.specs.Known.{held_bit, found_put, bit_puts, known_puts, Clear, WinnersTabled};

use pinmap::look_up;
use plan_positions::planned::{PIN_TABLE, fill_planned};
use plan_record::bodies::{Part, first_body, parts_of};
use plan_winners::planned_by;
use words::units::{EMPTY_PIN, Pin, StatePosition};

// The bit at a position of a state; 0 beyond its end.
fn state_bit(state: &[u32], at: StatePosition) -> u32
    ensures { result ≡ bit_at state.now at.0 }
{
    let word = at.word() as usize;
    if word < state.len() {
        return (state[word] >> at.bit()) & 1;
    }
    0
}

// The bit that entry w gives: a staged one is in the new state.
fn planned_bit(d: &[u8], old: &[u32], new: &[u32], w: u32) -> u32
    requires { 0 < w }
    ensures { some result ≡ planned_bit old.now new.now (planned_by d.now w) }
{
    let x = planned_by(d, w);
    let at = x.place;
    if x.staged == 0 {
        return state_bit(old, at);
    }
    state_bit(new, at)
}

// Puts the bit that entry w gives, if it is one.
fn put_planned(d: &[u8], old: &[u32], new: &[u32], table: &mut [u32], pin: Pin, w: u32)
    requires { pin.0 < 2 ^ 32 - 1 }
    ensures { table.new ≡ after_puts table.old (found_put pin.0 (planned_bit old.now new.now (planned_by d.now w))) }
{
    if w == 0 {
        return;
    }
    let _ = pinmap::put(table, pin, planned_bit(d, old, new, w));
}

// Puts the bit of the pin at slot j of level 0 of stage 0, if it has one.
fn put_slot_bit(part: &Part, old: &[u32], new: &[u32], room: &mut [u32], j: usize)
    requires { WinnersTabled part.now.d.now part.now.p part.now.body room.old × (j < 32 * part.now.body.lanes) }
    ensures { room.new ≡ after_puts (take 32768 room.old) (found_put (level_at part.now.d.now part.now.p 0 j) (held_bit part.now.d.now old.now new.now (level_at part.now.d.now part.now.p 0 j))) ++ drop 32768 room.old }
{
    let pin = part.level_slot(0, j);
    if pin.0 == EMPTY_PIN {
        return;
    }
    if let Some(w) = look_up(&room[PIN_TABLE..], pin) {
        put_planned(part.d, old, new, &mut room[..PIN_TABLE], pin, w);
    }
}

// The bits of all pins that part p reads. The words after the table are for the numbers of the entries that win.
fn fill_part(part: &Part, old: &[u32], new: &[u32], room: &mut [u32])
    requires { (plan_form part.now.d.now ≡ true) × (0 < part.now.body.stages) × Clear room.old }
    ensures { take 32768 room.new ≡ filled 32768 (bit_puts part.now.d.now part.now.p old.now new.now (slots_of part.now.d.now)) }
{
    let slots = 32 * part.body.lanes;
    fill_planned(part, &mut room[PIN_TABLE..]);
    for j in 0..slots {
        put_slot_bit(part, old, new, room, j);
    }
}

// Part p.
fn part_of<'a>(d: &'a [u8], p: usize) -> Part<'a>
    requires { (plan_form d.now ≡ true) × (p < parts_of d.now) }
    ensures { (result.d.now ≡ d.now) × (result.p ≡ p) }
{
    let mut at = first_body(d);
    for k in 0..p {
        at = Part::at(d, k, at).body.end;
    }
    Part::at(d, p, at)
}

// The same of any part: one past the plan reads nothing.
pub fn fill_known(d: &[u8], p: usize, old: &[u32], new: &[u32], room: &mut [u32])
    requires { (plan_form d.now ≡ true) × Clear room.old }
    ensures { take 32768 room.new ≡ filled 32768 (known_puts d.now p old.now new.now) }
{
    if p < parts_of(d) {
        fill_part(&part_of(d, p), old, new, room);
    }
}
