// What stands before the gates: the header, and the lines that are passed over.
ghost use Rattle.std.specs.Prelude.{◌≡◌, length};
ghost use Rattle.words.specs.Found.{item_of};
ghost use Rattle.aiger.specs.Reading.{is_marked, fields_of, header_of, lines_from, gates_start};
ghost use Rattle.aiger_read.specs.ReadTold.{header_told, start_told};

use crate::fields::field_at;

// The numbers of a header: M is the sum of inputs, latches and gates.
#[derive(Clone, Copy)]
pub struct Header {
    pub inputs: u64,
    pub latches: u64,
    pub outputs: u64,
    pub gates: u64,
}

// The header and the byte behind it, or behind its lines.
#[derive(Clone, Copy)]
pub struct Start {
    pub header: Header,
    pub next: usize,
}

// `aig `
fn is_marked(bytes: &[u8]) -> bool
    ensures { result ≡ is_marked bytes.now }
{
    bytes.starts_with(b"aig ")
}

// The five numbers. Lines need two bytes each, so that more outputs than half the bytes are an early end.
fn fields_of(bytes: &[u8]) -> Option<Start>
    ensures { result ≡ header_told (length bytes.now) (fields_of bytes.now) }
{
    let most = field_at(bytes, b' ', 4, 0x4000_0000)?;
    let inputs = field_at(bytes, b' ', most.next, most.value)?;
    let latches = field_at(bytes, b' ', inputs.next, most.value)?;
    let outputs = field_at(bytes, b' ', latches.next, bytes.len() as u64 / 2)?;
    let gates = field_at(bytes, b'\n', outputs.next, most.value)?;
    if inputs.value + latches.value + gates.value != most.value {
        return None;
    }
    let header = Header {
        inputs: inputs.value,
        latches: latches.value,
        outputs: outputs.value,
        gates: gates.value,
    };
    Some(Start {
        header,
        next: gates.next,
    })
}

fn header_of(bytes: &[u8]) -> Option<Start>
    ensures { result ≡ header_told (length bytes.now) (header_of bytes.now) }
{
    if is_marked(bytes) {
        return fields_of(bytes);
    }
    None
}

// The byte behind so many lines, each one literal. A function of its own: among the code of an export its loop would keep the byte on the stack.
#[inline(never)]
fn lines_from(bytes: &[u8], most: u64, lines: u64, at: usize) -> Option<usize>
    ensures { result ≡ item_of (lines_from bytes.now most lines at) }
{
    let mut i = at;
    for _ in 0..lines {
        i = field_at(bytes, b'\n', i, most)?.next;
    }
    Some(i)
}

// All that stands before the gates, and the gates' first byte.
pub fn start_of(bytes: &[u8]) -> Option<Start>
    ensures { result ≡ start_told (gates_start bytes.now) }
{
    let Start { header, next } = header_of(bytes)?;
    let most = 2 * (header.inputs + header.latches + header.gates) + 1;
    let next = lines_from(bytes, most, header.latches + header.outputs, next)?;
    Some(Start { header, next })
}
