// Gates read from binary AIGER. Document 02, 1/13.
#![tactic(auto)]

pub mod differences;
pub mod fields;
pub mod lists;
pub mod start;

ghost use Rattle.std.specs.Prelude.{◌≡◌, length};
ghost use Rattle.aiger.specs.Reading.{read_aiger};
ghost use Rattle.aiger.specs.AigerAnswer.{fitting, gate_list_after};
ghost use Rattle.aiger_read.specs.ReadTold.{gates_read_of};

use lists::{fill, judge};
use start::{Header, Start, start_of};
use words::refusals::{Reason, Refusal};
use words::units::Pin;

// The gates of a binary AIGER file, three words each: pin, first and second inverted pin number. Tells the header's numbers.
pub fn read_gates(bytes: &[u8], out: &mut [u32]) -> Result<Header, Refusal>
    ensures value { result ≡ gates_read_of (fitting (length out.old) (read_aiger bytes.now)) }
    ensures out_after { out.new ≡ gate_list_after (fitting (length out.old) (read_aiger bytes.now)) out.old }
{
    let Start { header, next } = start_of(bytes).ok_or(Refusal::nowhere(Reason::BeforeGates))?;
    let first = Pin((header.inputs + header.latches + 1) as u32);
    judge(bytes, header.gates, first, next)?;
    if (out.len() as u64) < 3 * header.gates {
        return Err(Refusal::nowhere(Reason::ResultShort));
    }
    fill(bytes, out, header.gates, first, next);
    Ok(header)
}
