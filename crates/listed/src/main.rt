// Runs the listing on the records of each file that an argument names, and writes the texts one after the other.
// The files: nothing at all; an end alone; position 5 with no end; a body cut after two bytes; kind 3 after a position; a byte after the end;
// positions 0 to 8191 and the end; 8193 positions; 257 words of 17 bits; M5; positions out of order, twice, staged, and the last there is.
#![tactic(auto)]

use listing::{RECORD_BYTES, TEXT_BYTES};
use std::fs::File;
use std::rt::Files;
use std::{env, io};

// Places for the records that matter and for any text, as in `lanes`.
fn input_place() -> [u8; RECORD_BYTES] {
    [0u8; RECORD_BYTES]
}

fn text_place() -> [u8; TEXT_BYTES] {
    [0u8; TEXT_BYTES]
}

// A file that cannot be opened is named on standard error, and the next one follows.
fn show(rt: &(impl Files + Print + Eprint + AllocGlobal), path: &str) -> io::Result<()> {
    let file = match File::open(rt, path) {
        Ok(file) => file,
        Err(error) => return eprintln!(rt; "{path}: {error}"),
    };
    let mut input = input_place();
    let n = input::read_full(file, &mut input)?;
    let mut out = text_place();
    let size = listing::text_of(&input[..n], &mut out);
    rt.write_all(&out[..size])
}

fn main(rt: HostRuntime) -> io::Result<()> {
    for path in env::args(&rt)?.skip(1) {
        show(&rt, &path)?;
    }
    Ok(())
}
