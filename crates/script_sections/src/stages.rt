// The sections of the stages, and the entries of every stage but the first.
ghost use Rattle.std.specs.Prelude.{◌≡◌, ◌+◌, ◌*◌, ◌≤◌, ◌<◌, length};
ghost use Rattle.words.specs.Section.{list_of};
ghost use Rattle.plan_record.specs.Record.{plan_lanes, slots_of};
ghost use Rattle.plan_slots.specs.Puts.{position_puts, filled, FilledWith};
ghost use Rattle.script.specs.Script.{stage_entry, stage_section};
ghost use Rattle.script.specs.Writers.{AcceptedPart, EntriesOf, LaneMasks};

use crate::sections::write_section;
use plan_record::bodies::Part;
use plan_slots::tables::fill_positions;
use script::masks::lane_masks;
use words::units::EMPTY_PIN;

// Entry i of stage s + 1: its pin's highest position in stage s, whose positions the table holds.
fn later_entry(part: &Part, s: usize, table: &[u32], i: usize) -> u32
    requires { AcceptedPart part.now.d.now part.now.p part.now.body × (s + 1 < part.now.body.stages) × FilledWith (position_puts part.now.d.now part.now.p s) table.now × (i < 32 * part.now.body.lanes) }
    ensures { result ≡ stage_entry (plan_lanes part.now.d.now) part.now.d.now part.now.p (s + 1) i }
{
    let pin = part.level_slot(s + 1, i);
    if pin.0 == EMPTY_PIN {
        return 0;
    }
    match pinmap::look_up(table, pin) {
        Some(q) => q,
        None => 0,
    }
}

// The entries of stage s + 1.
fn later_entries(part: &Part, s: usize, table: &[u32], entries: &mut [u32])
    requires { AcceptedPart part.now.d.now part.now.p part.now.body × (s + 1 < part.now.body.stages) × FilledWith (position_puts part.now.d.now part.now.p s) table.now × (length entries.old ≡ slots_of part.now.d.now) }
    ensures { entries.new ≡ list_of (stage_entry (plan_lanes part.now.d.now) part.now.d.now part.now.p (s + 1)) (slots_of part.now.d.now) }
{
    for (i, entry) in entries.iter_mut().enumerate() {
        *entry = later_entry(part, s, table, i);
    }
}

// Writes the section of stage s from its entries.
pub fn write_stage(part: &Part, s: usize, entries: &[u32], out: &mut [u32])
    requires { AcceptedPart part.now.d.now part.now.p part.now.body × (s < part.now.body.stages) × EntriesOf part.now.d.now part.now.p s entries.now × (length out.old ≡ 20 * plan_lanes part.now.d.now) }
    ensures { out.new ≡ stage_section (plan_lanes part.now.d.now) part.now.d.now part.now.p s }
{
    write_section(
        part.body.lanes,
        entries,
        |w|
            requires { AcceptedPart part.now.d.now part.now.p part.now.body × (s < part.now.body.stages) × (w < part.now.body.lanes) }
            ensures { LaneMasks part.entry.now.d.now part.entry.now.p s w result }
        { lane_masks(part, s, w) },
        out,
    );
}

// Writes the section of stage s + 1. The table then holds the positions of stage s; what the entries hold is left open.
pub fn write_later(part: &Part, s: usize, table: &mut [u32], out: &mut [u32], entries: &mut [u32])
    requires { AcceptedPart part.now.d.now part.now.p part.now.body × (s + 1 < part.now.body.stages) × (32768 ≤ length table.old) × (length out.old ≡ 20 * plan_lanes part.now.d.now) × (length entries.old ≡ slots_of part.now.d.now) }
    ensures table_after { table.new ≡ filled (length table.old) (position_puts part.now.d.now part.now.p s) }
    ensures out_after { out.new ≡ stage_section (plan_lanes part.now.d.now) part.now.d.now part.now.p (s + 1) }
{
    let next = s + 1;
    fill_positions(part, s, table);
    later_entries(part, s, table, entries);
    write_stage(part, next, entries, out);
}
