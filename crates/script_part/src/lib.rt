// The script of one part of an accepted plan: document 01, "The script of a part". The Rust is `build_script`.
#![tactic(auto)]

ghost use Rattle.std.specs.Prelude.{◌≡◌, ◌++◌, ◌+◌, ◌*◌, ◌≤◌, length, drop, replicate};
ghost use Rattle.words.specs.Edition.{part_words};
ghost use Rattle.plan_record.specs.Record.{plan_lanes};
ghost use Rattle.plan_reads.specs.ReadsReady.{SetRoom};
ghost use Rattle.script.specs.Script.{part_script};
ghost use Rattle.script.specs.Writers.{NumbersOf};
ghost use Rattle.script_front.specs.Build.{Buildable};

use plan_positions::planned::PIN_TABLE;
use plan_record::bodies::Part;
use script::head::Numbers;
use script_front::{ROUND_WORDS, write_front};
use script_sections::parts::write_script;
use script_sections::sections::SECTION_WORDS;
use words::clear::clear;
use words::edition::Edition;

// The words of the room that are zero before a part is built and after.
const CLEAR_ROOM: usize = 8 * Edition::SLOTS;

// Writes the script of part p, with the table of its pins and the table of its lanes in the room. What the room and the lists hold afterwards is
// left open.
fn write_words(
    part: &Part,
    x: Numbers,
    room: &mut [u32],
    out: &mut [u32],
    keys: &mut [u64],
    scratch: &mut [u64],
    set: &mut [u32],
)
    requires { Buildable part.now.d.now part.now.p part.now.body × NumbersOf part.now.d.now part.now.p x × (length room.old ≡ 32768 + 32 * part.now.body.lanes) × (length out.old ≡ part_words (plan_lanes part.now.d.now) x.rounds x.stages) × SetRoom (length keys.old) (length scratch.old) (length set.old) }
    ensures { out.new ≡ part_script (plan_lanes part.now.d.now) part.now.d.now part.now.p x.last x.state x.sram }
{
    let lanes = part.body.lanes;
    let slots = 32 * lanes;
    let rounds = x.rounds as usize;
    let to = lanes + ROUND_WORDS * (lanes * rounds) + SECTION_WORDS * lanes;
    write_front(part, rounds, room, &mut out[lanes..to], keys, scratch, set);
    write_script(part, x, &mut room[..PIN_TABLE], out, &mut set[..slots]);
}

// Writes the script of part p. The first 65536 words of the room are zero afterwards, the others as they were. What the lent lists hold is left
// open.
pub fn build_script(
    part: &Part,
    x: Numbers,
    room: &mut [u32],
    out: &mut [u32],
    keys: &mut [u64],
    scratch: &mut [u64],
    set: &mut [u32],
)
    requires { Buildable part.now.d.now part.now.p part.now.body × NumbersOf part.now.d.now part.now.p x × (65536 ≤ length room.old) × (length out.old ≡ part_words (plan_lanes part.now.d.now) x.rounds x.stages) × SetRoom (length keys.old) (length scratch.old) (length set.old) }
    ensures out_after { out.new ≡ part_script (plan_lanes part.now.d.now) part.now.d.now part.now.p x.last x.state x.sram }
    ensures room_after { room.new ≡ replicate 65536 0 ++ drop 65536 room.old }
{
    let tables = PIN_TABLE + 32 * part.body.lanes;
    write_words(part, x, &mut room[..tables], out, keys, scratch, set);
    clear(&mut room[..CLEAR_ROOM]);
}
