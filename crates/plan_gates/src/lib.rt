// The gate list: its form, a gate by its pin, the value of a pin. Document 01, refusal 6 and "The run".
#![tactic(auto)]

ghost use Rattle.std.specs.Prelude.{◌≡◌, ◌%◌, ◌<◌, min, ◌&&◌, length, ◌==◌, nat_lt};
ghost use Rattle.std.proofs.Math.Option.{none};
ghost use Rattle.std.specs.Int.Bits.{differ};
ghost use Rattle.sort.specs.HalfSearch.{least};
ghost use Rattle.pinmap.specs.PinMap.{look};
ghost use Rattle.plan_record.specs.Record.{gates_of, gate_pin, gate_first, gate_second};
ghost use Rattle.words.specs.Found.{item_of};
ghost use Rattle.plan_gates.specs.Gates.{bad_gate, gate_of, value};
ghost use Rattle.plan_gates.specs.GateValues.{gate_words, store_bit, Given, AskablePin, ValuedBelow, GateReady, ValuesFillable};

use gatelist::Gate;
use plan_record::numbers::{gate_first, gate_pin, gate_second, gates_of};
use words::bits::{bit_at, set_bit};
use words::units::{Pin, PinIv};

// A gate by its number.
fn gate_at(d: &[u8], g: u32) -> Gate
    ensures { (result.pin.0 ≡ gate_pin d.now g) × (result.first.0 ≡ gate_first d.now g) × (result.second.0 ≡ gate_second d.now g) }
{
    Gate {
        pin: gate_pin(d, g),
        first: gate_first(d, g),
        second: gate_second(d, g),
    }
}

// Refusal 6 over the whole list: the lowest gate that is not right.
pub fn check_gates(d: &[u8]) -> Option<usize>
    ensures { result ≡ item_of (bad_gate d.now) }
{
    gatelist::first_wrong(gates_of(d) as usize, |g| gate_at(d, g as u32))
}

// The first gate whose pin is not below this one, by halves.
fn first_not_below(d: &[u8], pin: Pin) -> u32
    requires { bad_gate d.now ≡ none }
    ensures { result ≡ least (gate_pin d.now) (gates_of d.now) pin.0 }
{
    sort::partition_point(gates_of(d) as usize, |g| gate_pin(d, g as u32).0 < pin.0) as u32
}

// stays: `gatelist` has the same look; in one body of both the search's closure would call a closure parameter, which has then to serve any number.
// Whether there is a gate g, and it has this pin.
fn has_pin(d: &[u8], g: u32, pin: Pin) -> bool
    ensures { result ≡ (nat_lt g (gates_of d.now) && gate_pin d.now g == pin.0) }
{
    g < gates_of(d) && gate_pin(d, g).0 == pin.0
}

// The gate of a pin. Gates' pins are nearly always consecutive numbers, so that the gate they give is looked at first.
pub fn find_gate(d: &[u8], pin: Pin) -> Option<u32>
    requires { bad_gate d.now ≡ none }
    ensures { result ≡ item_of (gate_of d.now pin.0) }
{
    let guess = pin.0.wrapping_sub(gate_pin(d, 0).0);
    if has_pin(d, guess, pin) {
        return Some(guess);
    }
    let g = first_not_below(d, pin);
    if has_pin(d, g, pin) { Some(g) } else { None }
}

// The AND of two bits, each with its fan-in's inversion.
fn and_gate(a: u32, first: PinIv, b: u32, second: PinIv) -> u32
    requires { (a < 2) × (b < 2) }
    ensures { (result ≡ min (differ a (first.0 % 2)) (differ b (second.0 % 2))) × (result < 2) }
{
    (a ^ first.inversion()) & (b ^ second.inversion())
}

// The value of a pin: what is known of it; else, for a gate, its bit in `bits` where it is one of the first `done` gates, and the AND of its
// fan-ins' values where not; else 0. Fan-in pins are smaller.
pub fn value(d: &[u8], known: &[u32], bits: &[u32], done: u32, pin: Pin) -> u32
    requires { Given d.now known.now × AskablePin pin.0 × ValuedBelow d.now known.now bits.now done }
    ensures { (result ≡ value d.now (look known.now) pin.0) × (result < 2) }
{
    match pinmap::look_up(known, pin) {
        Some(v) => v,
        None => match find_gate(d, pin) {
            Some(g) => {
                if g < done {
                    return bit_at(bits, g as usize);
                }
                let first = gate_first(d, g);
                let second = gate_second(d, g);
                let a = value(d, known, bits, done, first.pin());
                let b = value(d, known, bits, done, second.pin());
                and_gate(a, first, b, second)
            }
            None => 0,
        },
    }
}

// Stores the value of gate g's pin in its bit, which is clear. The gates before it have theirs, so no call goes deeper than a fan-in.
fn store_gate(d: &[u8], known: &[u32], bits: &mut [u32], g: u32)
    requires { GateReady d.now known.now bits.old g }
    ensures { bits.new ≡ store_bit bits.old g (value d.now (look known.now) (gate_pin d.now g)) }
{
    if value(d, known, bits, g, gate_pin(d, g)) != 0 {
        set_bit(bits, g as usize);
    }
}

// The values of all gates in one pass up the list: bit g is the value of gate g's pin.
pub fn all_values(d: &[u8], known: &[u32], bits: &mut [u32])
    requires { ValuesFillable d.now known.now bits.old }
    ensures { bits.new ≡ gate_words d.now (look known.now) (length bits.old) }
{
    bits.fill(0);
    for g in 0..gates_of(d) {
        store_gate(d, known, bits, g);
    }
}
