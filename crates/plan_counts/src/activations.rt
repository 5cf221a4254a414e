// The activations of a part's endpoints, and the duplicate words that they ask for.
ghost use Rattle.std.specs.Prelude.{◌≡◌, ◌++◌, ◌+◌, ◌^◌, ◌≤◌, ◌<◌, length, drop};
ghost use Rattle.std.specs.Option.{option_to_list};
ghost use Rattle.std.proofs.lemmas.List.Edits.{sets};
ghost use Rattle.sort.specs.SortAnswer.{keys_after, scratch_after};
ghost use Rattle.words.specs.declared.units.Pin.{Pin};
ghost use Rattle.plan_record.specs.declared.bodies.Endpoint.TheVariants.{Staged};
ghost use Rattle.plan_counts.specs.Counts.{activation, activations_of, activations, duplicates_in, duplicates};
ghost use Rattle.plan_counts.specs.Parts.{Countable, activations_at};
ghost use Rattle.plan_counts.specs.Neighbours.{extra, extras};

use plan_record::bodies::{Endpoint, Part};
use words::units::PinIv;

// An activation as one number: the inverted pin number d times 2^32, and the enable.
fn key_of(x: PinIv, en: PinIv) -> u64
    ensures { result ≡ activation x.0 en.0 }
{
    4294967296 * (x.0 as u64) + en.0 as u64
}

// 1 where two activations of one pin differ, else 0. The pin of an activation is the number over 2^33.
fn extra_of(x: u64, y: u64) -> usize
    ensures { (result ≡ extra x y) × (result ≤ 1) }
{
    if y != x && y / 8589934592 == x / 8589934592 {
        1
    } else {
        0
    }
}

// How many of the activations, which are in order, differ from their neighbour and have its pin.
fn extras_in(keys: &[u64]) -> usize
    ensures { result ≡ extras keys.now }
{
    let mut found = 0;
    for i in 1..keys.len() {
        found += extra_of(keys[i - 1], keys[i]);
    }
    found
}

// The duplicate words of some activations, which are sorted for it.
fn duplicate_words(keys: &mut [u64], scratch: &mut [u64]) -> u32
    requires { (length keys.old ≤ 8192) × (length keys.old ≤ length scratch.old) }
    ensures value { result ≡ duplicates_in keys.old }
    ensures keys_after { keys.new ≡ keys_after keys.old scratch.old }
    ensures scratch_after { scratch.new ≡ scratch_after keys.old scratch.old }
{
    sort::sort(keys, scratch).unwrap();
    extras_in(keys).div_ceil(32) as u32
}

// The activation of an endpoint, if it has one. Where nothing enables, the enable is the constant 1.
fn key(endpoint: Endpoint) -> Option<u64>
    requires { (x : Pin) → endpoint ≡ Staged x → x.0 ≤ 2 ^ 30 }
    ensures { option_to_list result ≡ activations_of endpoint }
{
    match endpoint {
        Endpoint::Output(x) => Some(key_of(x, PinIv(1))),
        Endpoint::Staged(x) => Some(key_of(x.inverted(0), PinIv(1))),
        Endpoint::Register(x, en) => Some(key_of(x, en)),
        Endpoint::Sram => None,
    }
}

// Puts the activation of endpoint i, if it has one, at index n: the next free index.
// stays: the keys are lent words, of which n are taken: nothing here allocates.
fn put_key(part: &Part, i: usize, keys: &mut [u64], n: usize) -> usize
    requires { Countable part.now.d.now part.now.p part.now.body × (i < part.now.body.endpoints) × (n < length keys.old) }
    ensures value { result ≡ n + length (activations_at part.now.d.now part.now.p i) }
    ensures keys_after { keys.new ≡ sets keys.old n (activations_at part.now.d.now part.now.p i) }
{
    if let Some(key) = key(part.endpoint(i)) {
        keys[n] = key;
        return n + 1;
    }
    n
}

// Puts the activations of a part at the front of `keys`: how many there are.
fn collect(part: &Part, keys: &mut [u64]) -> usize
    requires { Countable part.now.d.now part.now.p part.now.body × (8192 ≤ length keys.old) }
    ensures value { (result ≡ length (activations part.now.d.now part.now.p)) × (result ≤ 8192) }
    ensures keys_after { keys.new ≡ activations part.now.d.now part.now.p ++ drop result keys.old }
{
    let mut n = 0;
    for i in 0..part.body.endpoints {
        n = put_key(part, i, keys, n);
    }
    n
}

// The duplicate words of a part. What keys and scratch hold afterwards is left open.
pub fn duplicates_of(part: &Part, keys: &mut [u64], scratch: &mut [u64]) -> u32
    requires { Countable part.now.d.now part.now.p part.now.body × (8192 ≤ length keys.old) × (8192 ≤ length scratch.old) }
    ensures { result ≡ duplicates part.now.d.now part.now.p }
{
    let n = collect(part, keys);
    duplicate_words(&mut keys[..n], scratch)
}
