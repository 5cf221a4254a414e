// A gate list written as binary AIGER. Document 02, 1/13.
#![tactic(auto)]

pub mod bytes;
pub mod lists;

ghost use Rattle.std.specs.Prelude.{◌≡◌, length};
ghost use Rattle.words.specs.Answer.{result_of};
ghost use Rattle.aiger.specs.Writing.{write_aiger};
ghost use Rattle.aiger.specs.AigerAnswer.{holding, file_after};

use lists::{judge, put_text};
use words::refusals::{Reason, Refusal};

// A gate list, three words a gate, as binary AIGER: the text's length, or the refusal.
pub fn write_gates(gates: &[u32], out: &mut [u8]) -> Result<usize, Refusal>
    ensures value { result ≡ result_of length (holding (length out.old) (write_aiger gates.now)) }
    ensures out_after { out.new ≡ file_after (holding (length out.old) (write_aiger gates.now)) out.old }
{
    let Some(n) = judge(gates) else {
        return Err(Refusal::nowhere(Reason::NotWritable));
    };
    if out.len() < n {
        return Err(Refusal::nowhere(Reason::ResultShort));
    }
    put_text(gates, out);
    Ok(n)
}
