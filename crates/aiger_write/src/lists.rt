// A gate list, judged and measured in one pass, and written in another.
ghost use Rattle.std.specs.Prelude.{◌≡◌, true, ◌+◌, ◌*◌, ◌^◌, ◌<◌, ◌≤◌, length};
ghost use Rattle.std.proofs.lemmas.List.Edits.{sets};
ghost use Rattle.text.specs.Wrote.{Wrote};
ghost use Rattle.gatelist.specs.ListWords.{whole_gates};
ghost use Rattle.aiger.specs.Writing.{header_text, gates_bytes, inputs_of, writable, text_of, write_aiger};
ghost use Rattle.aiger_write.specs.WriteTold.{list_judged, right_of, InRange};

use crate::bytes::{gate_length, put_gate};
use gatelist::{first_of, pin_of, second_of};
use text::Writer;
use words::units::{Pin, PinIv};

// The first gate's pin less 1, or 0.
fn inputs_of(gates: &[u32]) -> u32
    ensures { result ≡ inputs_of gates.now }
{
    if gates.is_empty() {
        0
    } else {
        gates[0].saturating_sub(1)
    }
}

// The header of so many gates behind so many inputs.
fn put_header(out: &mut Writer, inputs: u64, gates: u64)
    requires { (inputs + gates < 2 ^ 64) × (out.old.at < 2 ^ 32) }
    ensures { Wrote 71 (header_text (inputs + gates) inputs 0 0 gates) out.old out.new }
{
    out.put_bytes(b"aig ");
    out.put_number(inputs + gates, b' ');
    out.put_number(inputs, b' ');
    out.put_bytes(b"0 0 ");
    out.put_number(gates, b'\n');
}

// How long it is: it is written past the end of no bytes.
fn header_length(inputs: u64, gates: u64) -> usize
    requires { inputs + gates < 2 ^ 64 }
    ensures { (result ≡ length (header_text (inputs + gates) inputs 0 0 gates)) × (result ≤ 71) }
{
    let mut nothing = [0u8; 0];
    let mut out = Writer::new(&mut nothing);
    put_header(&mut out, inputs, gates);
    out.at
}

// Whether a gate has the pin that comes next, and its fan-ins are below it, the second not above the first.
#[tactic(auto, unfolding(crate::specs::WriteTold::right_of))]
fn is_right(pin: Pin, own: Pin, first: PinIv, second: PinIv) -> bool
    requires { pin.0 ≤ 2 ^ 30 }
    ensures { result ≡ right_of pin.0 own.0 first.0 second.0 }
{
    own.0 == pin.0 && first.0 < pin.inverted(0).0 && second.0 <= first.0
}

// How long the text of the gates behind so many inputs is, where each is right.
fn judge_gates(gates: &[u32], inputs: u32) -> Option<usize>
    requires { InRange gates.now inputs }
    ensures { result ≡ list_judged (write_aiger gates.now) }
{
    let count = gates.len() / 3;
    let mut bytes = header_length(inputs as u64, count as u64);
    for g in 0..count {
        let pin = Pin(inputs + 1 + g as u32);
        let first = first_of(gates, g);
        let second = second_of(gates, g);
        if !is_right(pin, pin_of(gates, g), first, second) {
            return None;
        }
        bytes += gate_length(pin, first, second);
    }
    Some(bytes)
}

// How long the text of a list is, where it is written.
pub fn judge(gates: &[u32]) -> Option<usize>
    ensures { result ≡ list_judged (write_aiger gates.now) }
{
    if gates.len() % 3 != 0 {
        return None;
    }
    let inputs = inputs_of(gates);
    if 0x4000_0000 < inputs as usize + gates.len() / 3 {
        return None;
    }
    judge_gates(gates, inputs)
}

// The gates of a list that is written.
fn put_gates(out: &mut Writer, gates: &[u32])
    requires { (writable gates.now ≡ true) × (out.old.at < 2 ^ 32) }
    ensures { Wrote (10 * 2 ^ 30) (gates_bytes gates.now (whole_gates gates.now) 0) out.old out.new }
{
    for g in 0..gates.len() / 3 {
        put_gate(
            out,
            pin_of(gates, g),
            first_of(gates, g),
            second_of(gates, g),
        );
    }
}

// The text of a list that is written, as far as the lent bytes go.
pub fn put_text(gates: &[u32], out: &mut [u8])
    requires { writable gates.now ≡ true }
    ensures { out.new ≡ sets out.old 0 (text_of gates.now) }
{
    let inputs = inputs_of(gates);
    let mut text = Writer::new(out);
    put_header(&mut text, inputs as u64, (gates.len() / 3) as u64);
    put_gates(&mut text, gates);
}
