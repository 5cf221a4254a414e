// A gate list as words, three a gate: its form, and a gate by its pin. Document 01, refusal 6.
#![tactic(auto)]

ghost use Rattle.std.specs.Prelude.{◌≡◌, ℕ, ◌/◌, ◌<◌, ◌&&◌, ◌==◌, nat_lt};
ghost use Rattle.sort.specs.HalfSearch.{least};
ghost use Rattle.std.proofs.Math.Option.{none};
ghost use Rattle.gatelist.specs.GateList.{bad_over};
ghost use Rattle.gatelist.specs.ListWords.{list_pin, list_first, list_second, whole_gates, bad_list, gate_in};
ghost use Rattle.words.specs.Found.{item_of};

use sort::partition_point;
use words::units::{Pin, PinIv};

// A gate as a list tells it: its pin and its fan-ins.
#[derive(Clone, Copy)]
pub struct Gate {
    pub pin: Pin,
    pub first: PinIv,
    pub second: PinIv,
}

// Whether a gate stands above the pin of the gate before it, and above its fan-ins.
fn stands(gate: Gate, before: Pin) -> bool
    ensures { result ≡ (nat_lt before.0 gate.pin.0 && nat_lt (gate.first.0 / 2) gate.pin.0 && nat_lt (gate.second.0 / 2) gate.pin.0) }
{
    let pin = gate.pin.0;
    let first = gate.first.pin().0;
    let second = gate.second.pin().0;
    (before.0 < pin) & (first < pin) & (second < pin)
}

// Refusal 6 of n gates kept in any form, where the closure tells each: the lowest that is not right.
pub fn first_wrong<F: Fn(usize) -> Gate>(n: usize, gate_at: F) -> Option<usize>
    requires { (i : ℕ) → i < n → F.pre gate_at i }
    ensures { (pin first second : ℕ → ℕ) → ((i : ℕ) → i < n → (x : Gate) → F.post gate_at i x → (x.pin.0 ≡ pin i) × (x.first.0 ≡ first i) × (x.second.0 ≡ second i)) → result ≡ item_of (bad_over pin first second n) }
{
    let mut before = Pin(0);
    for i in 0..n {
        let gate = gate_at(i);
        if !stands(gate, before) {
            return Some(i);
        }
        before = gate.pin;
    }
    None
}

// The pin of a whole gate, and its fan-ins.
pub fn pin_of(l: &[u32], g: usize) -> Pin
    requires { g < whole_gates l.now }
    ensures { result.0 ≡ list_pin l.now g }
{
    Pin(l[3 * g])
}

pub fn first_of(l: &[u32], g: usize) -> PinIv
    requires { g < whole_gates l.now }
    ensures { result.0 ≡ list_first l.now g }
{
    PinIv(l[3 * g + 1])
}

pub fn second_of(l: &[u32], g: usize) -> PinIv
    requires { g < whole_gates l.now }
    ensures { result.0 ≡ list_second l.now g }
{
    PinIv(l[3 * g + 2])
}

// Refusal 6 over the whole list: the lowest gate that is not right. A last gate that is cut breaks the form.
pub fn check_list(l: &[u32]) -> Option<usize>
    ensures { result ≡ item_of (bad_list l.now) }
{
    let gates = l.len() / 3;
    let wrong = first_wrong(
        gates,
        |g| Gate {
            pin: pin_of(l, g),
            first: first_of(l, g),
            second: second_of(l, g),
        },
    );
    if let Some(g) = wrong {
        return Some(g);
    }
    if 0 < l.len() % 3 {
        return Some(gates);
    }
    None
}

// The first gate whose pin is not below this one, by halves.
fn first_not_below(l: &[u32], pin: Pin) -> usize
    requires { bad_list l.now ≡ none }
    ensures { result ≡ least (list_pin l.now) (whole_gates l.now) pin.0 }
{
    partition_point(l.len() / 3, |g| pin_of(l, g).0 < pin.0)
}

// Whether there is a gate g, and it has this pin.
fn has_pin(l: &[u32], g: usize, pin: Pin) -> bool
    ensures { result ≡ (nat_lt g (whole_gates l.now) && list_pin l.now g == pin.0) }
{
    g < l.len() / 3 && pin_of(l, g).0 == pin.0
}

// Which gate has this pin, if the gates' pins are consecutive numbers.
fn guess(l: &[u32], pin: Pin) -> usize {
    if l.len() < 3 {
        return 0;
    }
    pin.0.wrapping_sub(pin_of(l, 0).0) as usize
}

// The gate of a pin. Gates' pins are nearly always consecutive numbers, so that the gate they give is looked at first.
pub fn find_in(l: &[u32], pin: Pin) -> Option<usize>
    requires { bad_list l.now ≡ none }
    ensures { result ≡ item_of (gate_in l.now pin.0) }
{
    let near = guess(l, pin);
    if has_pin(l, near, pin) {
        return Some(near);
    }
    let g = first_not_below(l, pin);
    if has_pin(l, g, pin) { Some(g) } else { None }
}
