// Refusals 12 and 13.
ghost use Rattle.std.specs.Prelude.{◌≡◌, ◌≤◌, length};
ghost use Rattle.plan_positions.specs.Places.{Judgeable};
ghost use Rattle.plan_refusals.specs.RefusalGroups.{place_refusal};
ghost use Rattle.plan_checks.specs.Verdicts.{verdict_of};

use crate::tell::of_lowest;
use plan_entries::refusal13;
use plan_positions::planned::refusal12;
use words::refusals::{Reason, Refusal};

// Refusals 12 and 13. The room has the part table. What keys holds afterwards is left open.
pub fn check_places(plan: &[u8], room: &mut [u32], keys: &mut [u64]) -> Result<(), Refusal>
    requires { Judgeable plan.now room.old × (8192 ≤ length keys.old) }
    ensures value { result ≡ verdict_of (place_refusal plan.now) }
    ensures room_unchanged { room.new ≡ room.old }
{
    of_lowest(Reason::NoPosition.number(), refusal12(plan, room, keys))?;
    of_lowest(Reason::TableEntry.number(), refusal13(plan))
}
