// Refusals 3, 21, 22 and 4, and the rounds and the piece size of each part.
ghost use Rattle.std.specs.Prelude.{◌≡◌, length};
ghost use Rattle.plan_reads.specs.ReadsReady.{SetRoom, ReadsSearchable};
ghost use Rattle.plan_reads.specs.PartReadAnswers.{searched_room};
ghost use Rattle.plan_refusals.specs.RefusalGroups.{read_refusal};
ghost use Rattle.plan_checks.specs.Verdicts.{verdict_of};

use crate::tell::refusal_of;
use plan_reads::check::check_reads;
use words::refusals::Refusal;

// Refusals 3, 21, 22 and 4. What keys, scratch and set hold afterwards is left open.
pub fn check_reading(
    plan: &[u8],
    room: &mut [u32],
    keys: &mut [u64],
    scratch: &mut [u64],
    set: &mut [u32],
) -> Result<(), Refusal>
    requires { ReadsSearchable plan.now room.old × SetRoom (length keys.old) (length scratch.old) (length set.old) }
    ensures value { result ≡ verdict_of (read_refusal plan.now) }
    ensures room_after { room.new ≡ searched_room plan.now room.old }
{
    match check_reads(plan, room, keys, scratch, set) {
        Ok(()) => Ok(()),
        Err(unread) => Err(refusal_of(unread)),
    }
}
