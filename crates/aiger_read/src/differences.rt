// Differences, literals and gates.
ghost use Rattle.std.specs.Prelude.{◌≡◌, ◌^◌, ◌<◌, ◌≤◌, drop, length};
ghost use Rattle.aiger.specs.Reading.{above, groups_in, difference_at, literal_of, gate_from};
ghost use Rattle.aiger_read.specs.ReadTold.{difference_of, literal_told, gate_told};

use crate::fields::Number;
use words::refusals::{Reason, Refusal};
use words::units::{Pin, PinIv};

// A literal and the byte behind it.
#[derive(Clone, Copy)]
pub struct Literal {
    pub literal: PinIv,
    pub next: usize,
}

// A gate's literals and the byte behind it.
#[derive(Clone, Copy)]
pub struct Gate {
    pub first: PinIv,
    pub second: PinIv,
    pub next: usize,
}

fn wide(b: u8) -> u64
    ensures { (result ≡ b) × (result < 256) }
{
    b as u64
}

// The groups from a byte on, behind one of 128 or more whose number is `low`.
fn groups_from(bytes: &[u8], at: usize, low: u64) -> Result<Number, Refusal>
    requires { (low < 128) × (at ≤ length bytes.now) }
    ensures { result ≡ difference_of (above low (groups_in 4 at (drop at bytes.now))) }
{
    let mut value = low;
    let mut scale: u64 = 128;
    for k in 0..4 {
        let i = at + k;
        if bytes.len() <= i {
            return Err(Refusal::nowhere(Reason::CutGates));
        }
        let b = wide(bytes[i]);
        if b == 0 {
            return Err(Refusal::nowhere(Reason::Difference));
        }
        if b < 128 {
            return Ok(Number {
                value: b * scale + value,
                next: i + 1,
            });
        }
        value = (b - 128) * scale + value;
        scale = scale * 128;
    }
    Err(Refusal::nowhere(Reason::Difference))
}

// The difference at a byte.
fn difference_at(bytes: &[u8], at: usize) -> Result<Number, Refusal>
    ensures { result ≡ difference_of (difference_at bytes.now at) }
{
    if bytes.len() <= at {
        return Err(Refusal::nowhere(Reason::CutGates));
    }
    let b = wide(bytes[at]);
    if b < 128 {
        return Ok(Number {
            value: b,
            next: at + 1,
        });
    }
    groups_from(bytes, at + 1, b - 128)
}

// The literal that lies below `top` by a difference of `least` or more.
fn literal_at(bytes: &[u8], at: usize, top: PinIv, least: u64) -> Result<Literal, Refusal>
    ensures { result ≡ literal_told (literal_of top.0 least (difference_at bytes.now at)) }
{
    let difference = difference_at(bytes, at)?;
    let above = top.0 as u64;
    if difference.value < least || above < difference.value {
        return Err(Refusal::nowhere(Reason::Difference));
    }
    Ok(Literal {
        literal: PinIv((above - difference.value) as u32),
        next: difference.next,
    })
}

// The gate of a pin.
pub fn gate_at(bytes: &[u8], pin: Pin, at: usize) -> Result<Gate, Refusal>
    requires { pin.0 ≤ 2 ^ 30 }
    ensures { result ≡ gate_told (gate_from bytes.now pin.0 at) }
{
    let first = literal_at(bytes, at, pin.inverted(0), 1)?;
    let second = literal_at(bytes, first.next, first.literal, 0)?;
    Ok(Gate {
        first: first.literal,
        second: second.literal,
        next: second.next,
    })
}
