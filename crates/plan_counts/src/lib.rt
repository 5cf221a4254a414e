// Activations, duplicate words and write-out words: refusal 7. Document 01, "Positions and counts".
#![tactic(auto)]

pub mod activations;

ghost use Rattle.std.specs.Prelude.{◌≡◌, true, ◌≤◌, length};
ghost use Rattle.plan_record.specs.Form.{plan_form};
ghost use Rattle.plan_counts.specs.Counts.{is_sram, srams, bad_counts, refusal7};
ghost use Rattle.plan_counts.specs.Parts.{Countable, CountsOf, bad_location};
ghost use Rattle.words.specs.Found.{item_of, lowest_of};

use plan_record::bodies::{Endpoint, Part, first_body, parts_of};
use words::found::Place;

// A part's SRAMs, duplicate words and write-out words.
#[derive(Drop)]
pub struct Counts {
    pub srams: u32,
    pub duplicates: u32,
    pub words: usize,
}

// 1 for an SRAM, else 0.
fn sram_of(e: Endpoint) -> u32
    ensures { (result ≡ is_sram e) × (result ≤ 1) }
{
    match e {
        Endpoint::Sram => 1,
        _ => 0,
    }
}

// The SRAMs among a part's endpoints.
pub fn srams_of(part: &Part) -> u32
    ensures { (result ≡ srams part.now.d.now part.now.p) × (result ≤ 8192) }
{
    let mut found = 0;
    for i in 0..part.body.endpoints {
        found += sram_of(part.endpoint(i));
    }
    found
}

// The counts of a part. What keys and scratch hold afterwards is left open, here and below.
pub fn counts_of(part: &Part, keys: &mut [u64], scratch: &mut [u64]) -> Counts
    requires { Countable part.now.d.now part.now.p part.now.body × (8192 ≤ length keys.old) × (8192 ≤ length scratch.old) }
    ensures { CountsOf part.now.d.now part.now.p result }
{
    let srams = srams_of(part);
    let duplicates = activations::duplicates_of(part, keys, scratch);
    Counts {
        srams,
        duplicates,
        words: part.body.locations + srams as usize + duplicates as usize,
    }
}

// The first location of a part that is no lane of the plan's edition.
fn first_bad_location(part: &Part) -> Option<usize>
    ensures { result ≡ item_of (bad_location part.now.d.now part.now.p) }
{
    for l in 0..part.body.locations {
        if part.body.lanes <= part.location(l) as usize {
            return Some(l);
        }
    }
    None
}

// Refusal 7 in a part: a location, or else the sum, told at the location count.
pub fn bad_counts(part: &Part, keys: &mut [u64], scratch: &mut [u64]) -> Option<usize>
    requires { Countable part.now.d.now part.now.p part.now.body × (8192 ≤ length keys.old) × (8192 ≤ length scratch.old) }
    ensures { result ≡ item_of (bad_counts part.now.d.now part.now.p) }
{
    if let Some(l) = first_bad_location(part) {
        return Some(l);
    }
    let counts = counts_of(part, keys, scratch);
    if counts.words <= part.body.lanes {
        return None;
    }
    Some(part.body.locations)
}

// Refusal 7 over the whole plan.
pub fn check_counts(d: &[u8], keys: &mut [u64], scratch: &mut [u64]) -> Option<Place>
    requires { (plan_form d.now ≡ true) × (8192 ≤ length keys.old) × (8192 ≤ length scratch.old) }
    ensures { result ≡ lowest_of (refusal7 d.now) }
{
    let mut at = first_body(d);
    for p in 0..parts_of(d) {
        let part = Part::at(d, p, at);
        if let Some(item) = bad_counts(&part, keys, scratch) {
            return Some(Place { part: p, item });
        }
        at = part.body.end;
    }
    None
}
