// The refusals of a plan, in their order: document 01, "Numbered refusals".
#![tactic(auto)]

pub mod lists;
pub mod pins;
pub mod places;
pub mod reading;
pub mod tell;

ghost use Rattle.std.specs.Prelude.{◌≡◌, length};
ghost use Rattle.std.proofs.Math.Option.{none};
ghost use Rattle.plan_reads.specs.ReadsReady.{SetRoom};
ghost use Rattle.plan_refusals.specs.Refusals.{plan_refusal, plan_verdict};
ghost use Rattle.plan_checks.specs.Verdicts.{verdict_of};
ghost use Rattle.plan_checks.specs.CheckedRoom.{PlanReady, Cleared, ready_room, room_left};

use lists::{check_lists, check_totals};
use pins::check_pins;
use places::check_places;
use plan_record::places::room_words;
use reading::check_reading;
use words::clear::clear;
use words::refusals::{Reason, Refusal};

// All refusals but for room: the first of them. What the room of a refused plan holds is left open, and so is what keys, scratch and set do, here and
// below.
fn check_all(
    plan: &[u8],
    room: &mut [u32],
    keys: &mut [u64],
    scratch: &mut [u64],
    set: &mut [u32],
) -> Result<(), Refusal>
    requires { Cleared plan.now room.old × SetRoom (length keys.old) (length scratch.old) (length set.old) }
    ensures value { result ≡ verdict_of (plan_refusal plan.now) }
    ensures room_after { plan_refusal plan.now ≡ none → room.new ≡ ready_room plan.now (length room.old) }
{
    check_lists(plan, keys, scratch)?;
    check_totals(plan, room, keys, scratch)?;
    check_pins(plan, room)?;
    check_places(plan, room, keys)?;
    check_reading(plan, room, keys, scratch, set)
}

// Checks a plan: its first refusal. Once it is accepted, the room has its part table; once it is refused, the room is clear, unless it was too short.
pub fn check_plan(
    plan: &[u8],
    room: &mut [u32],
    keys: &mut [u64],
    scratch: &mut [u64],
    set: &mut [u32],
) -> Result<(), Refusal>
    requires { SetRoom (length keys.old) (length scratch.old) (length set.old) }
    ensures value { result ≡ verdict_of (plan_verdict plan.now (length room.old)) }
    ensures room_after { room.new ≡ room_left plan.now room.old }
    ensures plan_ready { plan_verdict plan.now (length room.old) ≡ none → PlanReady plan.now room.new }
{
    if room.len() < room_words(plan) {
        return Err(Refusal::nowhere(Reason::RoomShort));
    }
    clear(room);
    match check_all(plan, room, keys, scratch, set) {
        Ok(()) => Ok(()),
        Err(refusal) => {
            clear(room);
            Err(refusal)
        }
    }
}
