// The programs' input.
#![tactic(auto)]

ghost use Rattle.std.specs.Prelude.{◌≤◌, length, IfOk};

use std::io;
use std::io::Read;

// Fills `to` from its front with what a reader has left: how many bytes came.
pub fn read_full<R: Read>(mut from: R, to: &mut [u8]) -> io::Result<usize>
where
    R: Drop,
    ensures { IfOk result (λ n. n ≤ length to.new) }
{
    let mut n = 0;
    while n < to.len() {
        let came = from.read(&mut to[n..])?;
        if came == 0 {
            break;
        }
        n += came;
    }
    Ok(n)
}
