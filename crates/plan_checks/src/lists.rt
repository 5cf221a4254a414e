// Refusals 29, 5, 6 and 7, and 8 with the part table.
ghost use Rattle.std.specs.Prelude.{◌≡◌, ◌≤◌, length};
ghost use Rattle.plan_blocks.specs.TableFill.{TableFillable, allotted_room};
ghost use Rattle.plan_refusals.specs.RefusalGroups.{list_refusal, total_refusal};
ghost use Rattle.plan_checks.specs.Verdicts.{verdict_of};

use crate::tell::{of_gates, of_lowest, of_test};
use plan_counts::check_counts;
use plan_form::plan_form;
use plan_gates::check_gates;
use plan_record::numbers::edition_of;
use plan_table::table::allot;
use words::edition::is_edition;
use words::refusals::{Reason, Refusal};

// Refusals 29, 5, 6 and 7. What keys and scratch hold afterwards is left open, here and below.
pub fn check_lists(plan: &[u8], keys: &mut [u64], scratch: &mut [u64]) -> Result<(), Refusal>
    requires { (8192 ≤ length keys.old) × (8192 ≤ length scratch.old) }
    ensures { result ≡ verdict_of (list_refusal plan.now) }
{
    of_test(Reason::NoEdition.number(), is_edition(edition_of(plan)))?;
    of_test(Reason::PlanForm.number(), plan_form(plan))?;
    of_gates(check_gates(plan))?;
    of_lowest(
        Reason::WriteOuts.number(),
        check_counts(plan, keys, scratch),
    )
}

// Refusal 8.
pub fn check_totals(
    plan: &[u8],
    room: &mut [u32],
    keys: &mut [u64],
    scratch: &mut [u64],
) -> Result<(), Refusal>
    requires { TableFillable plan.now room.old × (8192 ≤ length keys.old) × (8192 ≤ length scratch.old) }
    ensures value { result ≡ verdict_of (total_refusal plan.now) }
    ensures room_after { room.new ≡ allotted_room plan.now room.old }
{
    of_test(Reason::Totals.number(), allot(plan, room, keys, scratch))
}
