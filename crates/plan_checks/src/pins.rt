// Refusals 9, 10 and 11. The first words of the room are lent as a table of pins, and are clear before and after.
ghost use Rattle.std.specs.Prelude.{◌≡◌, true};
ghost use Rattle.std.proofs.Math.Option.{none};
ghost use Rattle.plan_record.specs.Form.{plan_form};
ghost use Rattle.plan_gates.specs.Gates.{bad_gate};
ghost use Rattle.plan_slots.specs.Slots.{refusal10, refusal11};
ghost use Rattle.words.specs.Found.{lowest_of};
ghost use Rattle.plan_reads.specs.ReadsReady.{ClearRoom};
ghost use Rattle.plan_refusals.specs.RefusalGroups.{pin_refusal};
ghost use Rattle.plan_checks.specs.Verdicts.{verdict_of};

use crate::tell::of_lowest;
use plan_positions::planned::PIN_TABLE;
use plan_slot_tests::computed::refusal11;
use plan_slot_tests::later::refusal10;
use plan_slot_tests::standing::refusal9;
use words::found::Place;
use words::refusals::{Reason, Refusal};

// Refusal 10.
fn later_pins(plan: &[u8], room: &mut [u32]) -> Option<Place>
    requires { (plan_form plan.now ≡ true) × ClearRoom plan.now room.old }
    ensures value { result ≡ lowest_of (refusal10 plan.now) }
    ensures room_unchanged { room.new ≡ room.old }
{
    refusal10(plan, &mut room[..PIN_TABLE])
}

// Refusal 11.
fn computed_pins(plan: &[u8], room: &mut [u32]) -> Option<Place>
    requires { (plan_form plan.now ≡ true) × ClearRoom plan.now room.old }
    ensures value { result ≡ lowest_of (refusal11 plan.now) }
    ensures room_unchanged { room.new ≡ room.old }
{
    refusal11(plan, &mut room[..PIN_TABLE])
}

// Refusals 9, 10 and 11.
pub fn check_pins(plan: &[u8], room: &mut [u32]) -> Result<(), Refusal>
    requires { (plan_form plan.now ≡ true) × (bad_gate plan.now ≡ none) × ClearRoom plan.now room.old }
    ensures value { result ≡ verdict_of (pin_refusal plan.now) }
    ensures room_unchanged { room.new ≡ room.old }
{
    of_lowest(Reason::Slot.number(), refusal9(plan))?;
    of_lowest(Reason::NotInStageBefore.number(), later_pins(plan, room))?;
    of_lowest(Reason::ReadAndComputed.number(), computed_pins(plan, room))
}
