// The form of a plan record: refusal 5. The head is looked at first, then the numbers of parts, the part heads and the record's length; what the
// lists hold comes last, when they are known to be there. So past the 64 counts no loop runs longer than the record, and each ends at the first fault.
#![tactic(auto)]

ghost use Rattle.std.specs.Prelude.{◌≡◌, ◌&&◌, ◌+◌, ◌*◌, ◌/◌, ◌^◌, ◌≤◌, ◌<◌, leb, length};
ghost use Rattle.plan_record.specs.Record.{majors_of, parts_of, gates_of, layout_of, positions_of, endpoints_of, gate_base, layout_base, position_base, head_base, position_words};
ghost use Rattle.words.specs.Tests.{all_below};
ghost use Rattle.words.specs.Pins.{is_pin, is_pin_iv};
ghost use Rattle.plan_record.specs.Form.{rest_form, head_form, counts_form, part_head_form, length_form, gate_form, layout_form, position_form, numbers_form, endpoint_form, lists_form, plan_form};
ghost use Rattle.plan_record.specs.Body.{Headed, Measured};

use plan_record::bodies::{Endpoint, Part, first_body, parts_of};
use plan_record::numbers::{count_at, gates_of, layout_of, majors_of, positions_of};
use plan_record::places::{
    PART_HEAD_WORDS, POSITION_WORDS, body_words, gate_base, head_base, layout_base, position_base,
    word_at, word_in,
};
use words::found::all_below;
use words::units::EMPTY_PIN;

// Whether a number is in a range.
fn in_range(x: u32, low: u32, high: u32) -> bool
    ensures { result ≡ (leb low x && leb x high) }
{
    (low..=high).contains(&x)
}

// Whether a word is a pin.
fn is_pin(x: u32) -> bool
    ensures { result ≡ is_pin x }
{
    x <= 1073741824
}

// Whether a word is an inverted pin number.
fn is_pin_iv(x: u32) -> bool
    ensures { result ≡ is_pin_iv x }
{
    x <= 2147483649
}

// The words of the head that are 0.
fn rest_form(d: &[u8]) -> bool
    ensures { result ≡ rest_form d.now }
{
    (word_at(d, 6) == 0) & ((word_at(d, 7) == 0) & (word_at(d, 8) == 0))
}

// The head of a record.
fn head_form(d: &[u8]) -> bool
    ensures { result ≡ head_form d.now }
{
    let sizes = in_range(word_at(d, 0), 1, 1024) & in_range(word_at(d, 1), 1, 64);
    let lists = (word_at(d, 3) <= 1048576) & (word_at(d, 4) <= 1048576);
    sizes & lists & rest_form(d)
}

// The parts of each major stage.
fn counts_form(d: &[u8]) -> bool
    ensures { result ≡ counts_form d.now }
{
    all_below(majors_of(d) as usize, |s| count_at(d, s) <= 4096)
}

// The head of part p, given where the part heads begin.
fn part_form(d: &[u8], heads: usize, p: usize) -> bool
    requires { (heads ≡ head_base d.now) × (heads < 2 ^ 37) × (p < 262144) }
    ensures { result ≡ part_head_form d.now p }
{
    let at = heads + PART_HEAD_WORDS * p;
    let sizes = in_range(word_at(d, at), 1, 255) & (word_at(d, at + 1) <= 8192);
    sizes & ((word_at(d, at + 2) == 0) & (word_at(d, at + 3) == 0))
}

// The heads of all parts: one that the record lacks has no stages and ends the loop.
fn heads_form(d: &[u8]) -> bool
    requires { (majors_of d.now ≤ 64) × (parts_of d.now ≤ 262144) }
    ensures { result ≡ all_below (part_head_form d.now) (parts_of d.now) }
{
    let heads = head_base(d);
    all_below(parts_of(d), |p| part_form(d, heads, p))
}

// The record's length: the bodies are walked until one begins past the record's end.
fn length_form(d: &[u8]) -> bool
    requires { Headed d.now }
    ensures { result ≡ length_form d.now }
{
    let words = d.len() / 4;
    let heads = head_base(d);
    let mut at = first_body(d);
    for p in 0..parts_of(d) {
        if words < at {
            return false;
        }
        let stages = word_at(d, heads + PART_HEAD_WORDS * p) as usize;
        let endpoints = word_at(d, heads + PART_HEAD_WORDS * p + 1) as usize;
        at += body_words(d, at, stages, endpoints);
    }
    (d.len() % 4 == 0) & (at == words)
}

// Gate g, given where the gates begin.
fn gate_form(d: &[u8], gates: usize, g: usize) -> bool
    requires { (gates ≡ gate_base d.now) × (gates + 3 * g + 2 < length d.now / 4) }
    ensures { result ≡ gate_form d.now g }
{
    let at = gates + 3 * g;
    is_pin(word_in(d, at)) & is_pin_iv(word_in(d, at + 1)) & is_pin_iv(word_in(d, at + 2))
}

// The gate list.
fn gates_form(d: &[u8]) -> bool
    requires { head_base d.now ≤ length d.now / 4 }
    ensures { result ≡ all_below (gate_form d.now) (gates_of d.now) }
{
    let base = gate_base(d);
    all_below(gates_of(d) as usize, |g| gate_form(d, base, g))
}

// Entry i of the input layout, given where it begins.
fn layout_form(d: &[u8], layout: usize, i: usize) -> bool
    requires { (layout ≡ layout_base d.now) × (layout + i < length d.now / 4) }
    ensures { result ≡ layout_form d.now i }
{
    let x = word_in(d, layout + i);
    is_pin(x) | (x == EMPTY_PIN)
}

// The input layout.
fn layouts_form(d: &[u8]) -> bool
    requires { head_base d.now ≤ length d.now / 4 }
    ensures { result ≡ all_below (layout_form d.now) (layout_of d.now) }
{
    let base = layout_base(d);
    all_below(layout_of(d) as usize, |i| layout_form(d, base, i))
}

// Position i, given where the positions begin.
fn position_form(d: &[u8], positions: usize, i: usize) -> bool
    requires { (positions ≡ position_base d.now) × (positions + position_words * i + 3 < length d.now / 4) }
    ensures { result ≡ position_form d.now i }
{
    let at = positions + POSITION_WORDS * i;
    is_pin(word_in(d, at)) & (word_in(d, at + 2) <= 1) & (word_in(d, at + 3) == 0)
}

// The position list.
fn positions_form(d: &[u8]) -> bool
    requires { head_base d.now ≤ length d.now / 4 }
    ensures { result ≡ all_below (position_form d.now) (positions_of d.now) }
{
    let base = position_base(d);
    all_below(positions_of(d) as usize, |i| position_form(d, base, i))
}

// The numbers that an endpoint holds.
fn numbers_form(e: Endpoint) -> bool
    ensures { result ≡ numbers_form e }
{
    match e {
        Endpoint::Output(x) => is_pin_iv(x.0),
        Endpoint::Staged(x) => is_pin(x.0),
        Endpoint::Register(x, en) => is_pin_iv(x.0) & is_pin_iv(en.0),
        Endpoint::Sram => true,
    }
}

// Endpoint i of part p: its kind, then its numbers.
fn endpoint_form(part: &Part, i: usize) -> bool
    requires { i < part.now.body.endpoints }
    ensures { result ≡ endpoint_form part.now.d.now part.now.p i }
{
    (part.endpoint_word(i, 0) <= 3) & numbers_form(part.endpoint(i))
}

// The endpoints of part p.
fn endpoints_form(part: &Part) -> bool
    ensures { result ≡ all_below (endpoint_form part.now.d.now part.now.p) (endpoints_of part.now.d.now part.now.p) }
{
    all_below(part.body.endpoints, |i| endpoint_form(part, i))
}

// The endpoints of all parts.
fn bodies_form(d: &[u8]) -> bool
    requires { Measured d.now }
    ensures { result ≡ all_below (λ p. all_below (endpoint_form d.now p) (endpoints_of d.now p)) (parts_of d.now) }
{
    let mut at = first_body(d);
    for p in 0..parts_of(d) {
        let part = Part::at(d, p, at);
        if !endpoints_form(&part) {
            return false;
        }
        at = part.body.end;
    }
    true
}

// What the lists hold.
fn lists_form(d: &[u8]) -> bool
    requires { Measured d.now }
    ensures { result ≡ lists_form d.now }
{
    gates_form(d) && layouts_form(d) && positions_form(d) && bodies_form(d)
}

// The heads, the length and the lists, once the numbers of parts are in range.
fn parts_form(d: &[u8]) -> bool
    requires { (majors_of d.now ≤ 64) × (parts_of d.now ≤ 262144) }
    ensures { result ≡ (all_below (part_head_form d.now) (parts_of d.now) && length_form d.now && lists_form d.now) }
{
    heads_form(d) && length_form(d) && lists_form(d)
}

// Whether a plan record is in form: where not, it is refusal 5.
pub fn plan_form(d: &[u8]) -> bool
    ensures { result ≡ plan_form d.now }
{
    head_form(d) && counts_form(d) && parts_form(d)
}
