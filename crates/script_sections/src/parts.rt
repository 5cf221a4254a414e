// Sections joined: the head, the stages, the two tables, and a part's script. The entries of a section are put together in a lent list, one
// section at a time; what it holds afterwards is left open.
ghost use Rattle.std.specs.Prelude.{◌≡◌, ◌++◌, ◌*◌, ◌/◌, length, replicate};
ghost use Rattle.plan_record.specs.Record.{plan_lanes, slots_of, stages_of};
ghost use Rattle.script.specs.Script.{location_words, stage_sections, sram_section, enable_section, part_script};
ghost use Rattle.script.specs.Writers.{AcceptedPart, number_words, StagesRoom, ScriptRoom};

use crate::sections::{SECTION_WORDS, write_enables, write_sram};
use crate::stages::write_later;
use plan_record::bodies::Part;
use script::head::{Numbers, write_locations, write_numbers};
use script::sizes::lanes_in;
use words::clear::clear;

// Words a lane of a round of the read section.
const ROUND_WORDS: usize = 2;

// Writes the numbers and the locations.
pub fn write_head(part: &Part, x: Numbers, out: &mut [u32])
    requires { AcceptedPart part.now.d.now part.now.p part.now.body × (length out.old ≡ plan_lanes part.now.d.now) }
    ensures { out.new ≡ number_words (plan_lanes part.now.d.now / 2) x ++ location_words (plan_lanes part.now.d.now) part.now.d.now part.now.p }
{
    let half = part.body.lanes / 2;
    write_numbers(x, &mut out[..half]);
    write_locations(part, &mut out[half..]);
}

// Writes the sections of the two tables.
pub fn write_tables(part: &Part, out: &mut [u32], entries: &mut [u32])
    requires { AcceptedPart part.now.d.now part.now.p part.now.body × (length out.old ≡ 40 * plan_lanes part.now.d.now) × (length entries.old ≡ slots_of part.now.d.now) }
    ensures { out.new ≡ sram_section (plan_lanes part.now.d.now) part.now.d.now part.now.p ++ enable_section (plan_lanes part.now.d.now) part.now.d.now part.now.p }
{
    let section = SECTION_WORDS * part.body.lanes;
    write_sram(part, &mut out[..section], entries);
    write_enables(part, &mut out[section..], entries);
}

// Writes the sections of the stages behind that of the first.
pub fn write_stages(part: &Part, table: &mut [u32], out: &mut [u32], entries: &mut [u32])
    requires { AcceptedPart part.now.d.now part.now.p part.now.body × StagesRoom part.now.d.now part.now.p part.now.body table.old out.old × (length entries.old ≡ slots_of part.now.d.now) }
    ensures table_after { table.new ≡ replicate (length table.old) 0 }
    ensures out_after { out.new ≡ stage_sections (plan_lanes part.now.d.now) part.now.d.now part.now.p (stages_of part.now.d.now part.now.p) }
{
    let lanes = part.body.lanes;
    for s in 0..part.body.stages - 1 {
        let from = SECTION_WORDS * lanes_in(lanes, s + 1);
        let to = from + SECTION_WORDS * lanes;
        write_later(part, s, table, &mut out[from..to], entries);
    }
    clear(table);
}

// Writes a part's script around its read section and the section of its first stage.
pub fn write_script(
    part: &Part,
    x: Numbers,
    table: &mut [u32],
    out: &mut [u32],
    entries: &mut [u32],
)
    requires { AcceptedPart part.now.d.now part.now.p part.now.body × ScriptRoom part.now.d.now part.now.p part.now.body x table.old out.old × (length entries.old ≡ slots_of part.now.d.now) }
    ensures table_after { table.new ≡ replicate (length table.old) 0 }
    ensures out_after { out.new ≡ part_script (plan_lanes part.now.d.now) part.now.d.now part.now.p x.last x.state x.sram }
{
    let lanes = part.body.lanes;
    let from = lanes + ROUND_WORDS * lanes_in(lanes, x.rounds as usize);
    let to = from + SECTION_WORDS * lanes_in(lanes, part.body.stages);
    write_head(part, x, &mut out[..lanes]);
    write_stages(part, table, &mut out[from..to], entries);
    write_tables(part, &mut out[to..], entries);
}
