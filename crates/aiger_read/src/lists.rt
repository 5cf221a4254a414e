// The gates of a file, judged and then written: each pass goes over their bytes once.
ghost use Rattle.std.specs.Prelude.{◌≡◌, ◌+◌, ◌^◌, ◌≤◌, length};
ghost use Rattle.std.proofs.lemmas.List.Edits.{sets};
ghost use Rattle.aiger.specs.Reading.{gates_from};
ghost use Rattle.aiger_read.specs.ReadTold.{gates_judged, list_in, GatesFillable};

use crate::differences::gate_at;
use words::refusals::Refusal;
use words::units::Pin;

// Whether all gates are good.
pub fn judge(bytes: &[u8], gates: u64, first: Pin, at: usize) -> Result<(), Refusal>
    requires { first.0 + gates ≤ 2 ^ 30 + 1 }
    ensures { result ≡ gates_judged (gates_from bytes.now gates first.0 at) }
{
    let mut i = at;
    for k in 0..gates as u32 {
        i = gate_at(bytes, Pin(first.0 + k), i)?.next;
    }
    Ok(())
}

// The list of good gates, from the start of `out`.
pub fn fill(bytes: &[u8], out: &mut [u32], gates: u64, first: Pin, at: usize)
    requires { GatesFillable bytes.now (length out.old) gates first.0 at }
    ensures { out.new ≡ sets out.old 0 (list_in (gates_from bytes.now gates first.0 at)) }
{
    let mut i = at;
    for k in 0..gates as u32 {
        let pin = first.0 + k;
        let gate = gate_at(bytes, Pin(pin), i).unwrap();
        let j = 3 * k as usize;
        out[j] = pin;
        out[j + 1] = gate.first.0;
        out[j + 2] = gate.second.0;
        i = gate.next;
    }
}
