// A line of the listing as text. Document 01, "Listing program".
#![tactic(auto)]

ghost use Rattle.std.specs.Prelude.{◌≡◌, ◌^◌, ◌<◌};
ghost use Rattle.text.specs.Wrote.{Wrote};
ghost use Rattle.listing_line.specs.Line.{hex_digit, hex, kind_letter, line};

use text::Writer;

#[tactic(auto, unfolding(crate::specs::Line::hex_digit))]
fn hex_digit(d: u32) -> u8
    requires { d < 16 }
    ensures { result ≡ hex_digit d }
{
    if d < 10 {
        b'0' + d as u8
    } else {
        b'a' - 10 + d as u8
    }
}

fn put_hex(out: &mut Writer, n: u32)
    requires { out.old.at < 2 ^ 62 }
    ensures { Wrote 8 (hex n) out.old out.new }
{
    for k in (0..8u32).rev() {
        out.put(hex_digit((n >> (4 * k)) % 16));
    }
}

#[tactic(auto, unfolding(crate::specs::Line::kind_letter))]
fn kind_letter(word: u32) -> u8
    ensures { result ≡ kind_letter word }
{
    if word < 0x8000_0000 { b'n' } else { b's' }
}

pub fn put_line(out: &mut Writer, lane: usize, round: usize, word: u32, mask: u32)
    requires { out.old.at < 2 ^ 60 }
    ensures { Wrote 74 (line lane round word mask) out.old out.new }
{
    out.put_number(lane as u64, b' ');
    out.put_number(round as u64, b' ');
    out.put(kind_letter(word));
    out.put(b' ');
    out.put_number((word % 0x8000_0000) as u64, b' ');
    put_hex(out, mask);
    out.put(b'\n');
}
