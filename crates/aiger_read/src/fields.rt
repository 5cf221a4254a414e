// Numbers of the header and of the lines.
ghost use Rattle.std.specs.Prelude.{◌≡◌, ◌<◌, ◌≤◌, drop, length};
ghost use Rattle.std.proofs.Math.Option.{some};
ghost use Rattle.words.specs.Found.{item_of};
ghost use Rattle.aiger.specs.Reading.{digits_from, number_in, field_at};
ghost use Rattle.aiger_read.specs.ReadTold.{digit_of, field_of};

// A number and the byte behind it.
#[derive(Clone, Copy)]
pub struct Number {
    pub value: u64,
    pub next: usize,
}

// A digit's number.
#[inline(always)]
fn digit_of(b: u8) -> Option<u64>
    ensures { result ≡ item_of (digit_of b) }
{
    if b.is_ascii_digit() {
        Some((b - b'0') as u64)
    } else {
        None
    }
}

// The number that the digits from a byte on make, or none where it is larger than `most`.
fn digits_from(bytes: &[u8], at: usize, most: u64) -> Option<Number>
    requires { at ≤ length bytes.now }
    ensures { result ≡ field_of most (some (digits_from 0 at (drop at bytes.now))) }
{
    let mut value: u64 = 0;
    for i in at..bytes.len() {
        let Some(digit) = digit_of(bytes[i]) else {
            return Some(Number { value, next: i });
        };
        if most / 10 < value {
            return None;
        }
        if most - 10 * value < digit {
            return None;
        }
        value = 10 * value + digit;
    }
    Some(Number {
        value,
        next: bytes.len(),
    })
}

// The number at a byte.
fn number_at(bytes: &[u8], at: usize, most: u64) -> Option<Number>
    ensures { result ≡ field_of most (number_in at (drop at bytes.now)) }
{
    if bytes.len() <= at {
        return None;
    }
    if bytes[at] == b'0' {
        return Some(Number {
            value: 0,
            next: at + 1,
        });
    }
    digit_of(bytes[at])?;
    digits_from(bytes, at, most)
}

// The number at a byte, with the byte `last` right behind it.
pub fn field_at(bytes: &[u8], last: u8, at: usize, most: u64) -> Option<Number>
    requires { 0 < last }
    ensures { result ≡ field_of most (field_at bytes.now last at) }
{
    let number = number_at(bytes, at, most)?;
    if bytes.len() <= number.next {
        return None;
    }
    if bytes[number.next] != last {
        return None;
    }
    Some(Number {
        value: number.value,
        next: number.next + 1,
    })
}
