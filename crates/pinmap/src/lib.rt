// Pins to numbers in lent words, by open addressing. Zeros are the empty map. A pin has 32 homes of its own; only where all of them are
// taken by other pins does a probe go round the slots. So a probe looks at 32 slots, then at each slot once: no smaller bound is proved.
#![tactic(auto)]

ghost use Rattle.std.specs.Prelude.{◌≡◌, ◌+◌, ◌*◌, ◌-◌, ◌<◌, ◌^◌, set};
ghost use Rattle.pinmap.specs.PinMap.{capacity, key_at, value_at, scattered, scattered_on, home, probe_from, slot_of, put_answer, put_in, put_there, look};
ghost use Rattle.words.specs.Found.{item_of};

use words::round::next_of;
use words::units::Pin;

// How many homes a pin has.
const HOMES: usize = 32;

// Where probing for a pin ends.
#[derive(Drop)]
pub enum Slot {
    // The first free slot: the pin is not there.
    Free(usize),
    // The slot that has the pin.
    Taken(usize),
    // Every slot is taken by other pins.
    Nowhere,
}

// Every slot is taken by other pins.
#[derive(Clone, Copy)]
pub struct Full;

// A pin scattered, and the next number of the same pin.
fn scatter(p: Pin) -> u64
    ensures { result ≡ scattered p.0 }
{
    p.0 as u64 * 2654435769 % 4294967296
}

fn scatter_on(s: u64) -> u64
    requires { s < 2 ^ 32 }
    ensures { result ≡ scattered_on s }
{
    (s / 65536 + s % 65536 * 65536 + 1) * 2654435769 % 4294967296
}

// The home of a scattered pin.
fn home_slot(slots: usize, s: u64) -> usize
    requires { s < 2 ^ 32 }
    ensures { result ≡ home slots s }
{
    if slots < 4294967296 {
        (s * slots as u64 / 4294967296) as usize
    } else {
        s as usize
    }
}

// The key of slot i, and its value.
fn key_of(t: &[u32], i: usize) -> u32
    requires { i < capacity t.now }
    ensures { result ≡ key_at t.now i }
{
    t[2 * i]
}

fn value_of(t: &[u32], i: usize) -> u32
    requires { i < capacity t.now }
    ensures { result ≡ value_at t.now i }
{
    t[2 * i + 1]
}

// Gives slot i to a pin.
fn take_slot(t: &mut [u32], i: usize, p: Pin)
    requires { (i < capacity t.old) × (p.0 < 2 ^ 32 - 1) }
    ensures { t.new ≡ set t.old (2 * i) (p.0 + 1) }
{
    t[2 * i] = p.0 + 1;
}

// Stores slot i's value.
fn store_value(t: &mut [u32], i: usize, v: u32)
    requires { i < capacity t.old }
    ensures { t.new ≡ set t.old (2 * i + 1) v }
{
    t[2 * i + 1] = v;
}

// The first slot, going round from slot i, that is free or has the pin.
fn go_round(t: &[u32], p: Pin, from: usize) -> Slot
    requires { (p.0 < 2 ^ 32 - 1) × (from < capacity t.now) }
    ensures { result ≡ probe_from t.now p.0 (capacity t.now) from }
{
    let slots = t.len() / 2;
    let key = p.0 + 1;
    let mut i = from;
    for _ in 0..slots {
        let found = key_of(t, i);
        if found == 0 {
            return Slot::Free(i);
        }
        if found == key {
            return Slot::Taken(i);
        }
        i = next_of(i, slots);
    }
    Slot::Nowhere
}

// The first of the pin's homes that is free or has it, else the first such slot going round.
fn probe(t: &[u32], p: Pin) -> Slot
    requires { p.0 < 2 ^ 32 - 1 }
    ensures { result ≡ slot_of t.now p.0 }
{
    let slots = t.len() / 2;
    if slots == 0 {
        return Slot::Nowhere;
    }
    let key = p.0 + 1;
    let mut s = scatter(p);
    for _ in 0..HOMES {
        let i = home_slot(slots, s);
        let found = key_of(t, i);
        if found == 0 {
            return Slot::Free(i);
        }
        if found == key {
            return Slot::Taken(i);
        }
        s = scatter_on(s);
    }
    go_round(t, p, home_slot(slots, s))
}

// Puts a pin's value, over the one that was there. Where every slot is taken by other pins nothing changes.
#[tactic(auto, using(crate::proofs::PinMapCodeLaws::free_inside, crate::proofs::PinMapCodeLaws::taken_inside), unfolding(crate::specs::PinMap::put_at, crate::specs::PinMap::answer_at))]
pub fn put(t: &mut [u32], p: Pin, v: u32) -> Result<(), Full>
    requires { p.0 < 2 ^ 32 - 1 }
    ensures value { result ≡ put_answer t.old p.0 }
    ensures t_after { t.new ≡ put_in t.old p.0 v }
{
    match probe(t, p) {
        Slot::Free(i) => {
            take_slot(t, i, p);
            store_value(t, i, v);
            Ok(())
        }
        Slot::Taken(i) => {
            store_value(t, i, v);
            Ok(())
        }
        Slot::Nowhere => Err(Full),
    }
}

// The value of a pin.
#[tactic(auto, using(crate::proofs::PinMapCodeLaws::taken_inside), unfolding(crate::specs::PinMap::look_at))]
pub fn look_up(t: &[u32], p: Pin) -> Option<u32>
    requires { p.0 < 2 ^ 32 - 1 }
    ensures { result ≡ item_of (look t.now p.0) }
{
    match probe(t, p) {
        Slot::Taken(i) => Some(value_of(t, i)),
        Slot::Free(_) | Slot::Nowhere => None,
    }
}

// Puts a pin's value where the pin is there already, else nothing.
#[tactic(auto, using(crate::proofs::PinMapCodeLaws::taken_inside), unfolding(crate::specs::PinMap::put_there_at))]
pub fn put_where_there(t: &mut [u32], p: Pin, v: u32)
    requires { p.0 < 2 ^ 32 - 1 }
    ensures { t.new ≡ put_there t.old p.0 v }
{
    if let Slot::Taken(i) = probe(t, p) {
        store_value(t, i, v);
    }
}
