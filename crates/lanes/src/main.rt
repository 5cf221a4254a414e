// The listing program: records on standard input, the lanes of their read set on standard output. Document 01, "Listing program".
#![tactic(auto)]

use listing::{RECORD_BYTES, TEXT_BYTES};
use std::io;

// A function's result is an array that the prover does not compute.
fn input_place() -> [u8; RECORD_BYTES] {
    [0u8; RECORD_BYTES]
}

fn text_place() -> [u8; TEXT_BYTES] {
    [0u8; TEXT_BYTES]
}

fn main(rt: HostRuntime) -> io::Result<()> {
    let mut input = input_place();
    let n = input::read_full(rt.reader(), &mut input)?;
    let mut out = text_place();
    let length = listing::text_of(&input[..n], &mut out);
    rt.write_all(&out[..length])
}
