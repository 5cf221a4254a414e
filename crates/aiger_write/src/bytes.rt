// Differences and gates as bytes.
ghost use Rattle.std.specs.Prelude.{◌≡◌, ◌++◌, ◌*◌, ◌-◌, ◌^◌, ◌<◌, ◌≤◌, length};
ghost use Rattle.text.specs.Wrote.{Wrote};
ghost use Rattle.aiger.specs.Writing.{difference_bytes};
ghost use Rattle.aiger_write.specs.WriteTold.{GateRight};

use text::Writer;
use words::units::{Pin, PinIv};

// How many bytes a difference takes.
fn difference_length(x: u32) -> usize
    ensures { (result ≡ length (difference_bytes x)) × (result ≤ 5) }
{
    if x < 0x80 {
        return 1;
    }
    if x < 0x4000 {
        return 2;
    }
    if x < 0x20_0000 {
        return 3;
    }
    if x < 0x1000_0000 {
        return 4;
    }
    5
}

// Seven bits a byte, least first.
fn put_difference(out: &mut Writer, x: u32)
    requires { out.old.at < 2 ^ 62 }
    ensures { Wrote 5 (difference_bytes x) out.old out.new }
{
    let mut rest = x;
    while 128 <= rest {
        out.put((rest % 128 + 128) as u8);
        rest /= 128;
    }
    out.put(rest as u8);
}

// How many bytes a gate takes.
pub fn gate_length(pin: Pin, first: PinIv, second: PinIv) -> usize
    requires { GateRight pin.0 first.0 second.0 }
    ensures { (result ≡ length (difference_bytes (2 * pin.0 - first.0) ++ difference_bytes (first.0 - second.0))) × (result ≤ 10) }
{
    difference_length(pin.inverted(0).0 - first.0) + difference_length(first.0 - second.0)
}

// A gate's two differences.
pub fn put_gate(out: &mut Writer, pin: Pin, first: PinIv, second: PinIv)
    requires { GateRight pin.0 first.0 second.0 × (out.old.at < 2 ^ 61) }
    ensures { Wrote 10 (difference_bytes (2 * pin.0 - first.0) ++ difference_bytes (first.0 - second.0)) out.old out.new }
{
    put_difference(out, pin.inverted(0).0 - first.0);
    put_difference(out, first.0 - second.0);
}
