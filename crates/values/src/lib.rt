// The value of a pin by the gates, for any arguments: document 01, "The run".
#![tactic(auto)]

ghost use Rattle.std.specs.Prelude.{◌≡◌, length, replicate};
ghost use Rattle.values.specs.Values.{ValueAsked, bit_words, pin_value, gate_values, lent_bits, value_answer, valued_of, bits_after, value_room_after};

use plan_form::plan_form;
use plan_gates::check_gates;
use plan_known::fill_known;
use plan_positions::planned::PIN_TABLE;
use plan_record::numbers::{edition_of, gates_of};
use plan_record::places::room_words;
use words::clear::clear;
use words::edition::is_edition;
use words::refusals::{Reason, Refusal};
use words::units::{EMPTY_PIN, Pin};

// How many words have one bit a gate.
fn bit_words(d: &[u8]) -> usize
    ensures { result ≡ bit_words d.now }
{
    (gates_of(d) as usize + 31) / 32
}

// The values of all gates into `bits`, and the value of a pin. The empty pin is no pin. The room is clear before and after.
fn fill_bits(
    plan: &[u8],
    part: usize,
    old: &[u32],
    new: &[u32],
    room: &mut [u32],
    bits: &mut [u32],
    pin: Pin,
) -> u32
    requires { ValueAsked plan.now room.old × (length bits.old ≡ bit_words plan.now) }
    ensures value { result ≡ pin_value plan.now part old.now new.now pin.0 }
    ensures room_after { room.new ≡ replicate (length room.old) 0 }
    ensures bits_after { bits.new ≡ gate_values plan.now part old.now new.now }
{
    fill_known(plan, part, old, new, room);
    plan_gates::all_values(plan, &room[..PIN_TABLE], bits);
    let mut bit = 0;
    if pin.0 != EMPTY_PIN {
        bit = plan_gates::value(plan, &room[..PIN_TABLE], bits, gates_of(plan), pin);
    }
    clear(room);
    bit
}

// The answer of a plan that 32, 29, 5 and 6 let pass.
fn value_lent(
    plan: &[u8],
    part: usize,
    old: &[u32],
    new: &[u32],
    room: &mut [u32],
    bits: &mut [u32],
    pin: Pin,
) -> Result<u32, Refusal>
    requires { ValueAsked plan.now room.old }
    ensures value { result ≡ valued_of (lent_bits plan.now part old.now new.now (length bits.old) pin.0) }
    ensures room_after { room.new ≡ replicate (length room.old) 0 }
    ensures bits_after { bits.new ≡ bits_after (lent_bits plan.now part old.now new.now (length bits.old) pin.0) bits.old }
{
    let words = bit_words(plan);
    if bits.len() < words {
        return Err(Refusal::nowhere(Reason::ResultShort));
    }
    Ok(fill_bits(plan, part, old, new, room, &mut bits[..words], pin))
}

// The value of a pin in a part, between the old state and the new. `bits` then begins with one bit a gate: the value of its pin.
pub fn value(
    plan: &[u8],
    part: u32,
    old: &[u32],
    new: &[u32],
    room: &mut [u32],
    bits: &mut [u32],
    pin: Pin,
) -> Result<u32, Refusal>
    ensures value { result ≡ valued_of (value_answer plan.now part old.now new.now (length room.old) (length bits.old) pin.0) }
    ensures room_after { room.new ≡ value_room_after plan.now room.old }
    ensures bits_after { bits.new ≡ bits_after (value_answer plan.now part old.now new.now (length room.old) (length bits.old) pin.0) bits.old }
{
    if room.len() < room_words(plan) {
        return Err(Refusal::nowhere(Reason::RoomShort));
    }
    clear(room);
    if !is_edition(edition_of(plan)) {
        return Err(Refusal::nowhere(Reason::NoEdition));
    }
    if !plan_form(plan) {
        return Err(Refusal::nowhere(Reason::PlanForm));
    }
    match check_gates(plan) {
        Some(g) => Err(Refusal::at_item(Reason::GateOrder, g as u64)),
        None => value_lent(plan, part as usize, old, new, room, bits, pin),
    }
}
