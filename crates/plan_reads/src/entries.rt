// The entries of stage 0: of each slot of level 0 the local position of its pin's state bit.
ghost use Rattle.std.specs.Prelude.{◌≡◌, ℕ, ◌*◌, ◌<◌, length};
ghost use Rattle.words.specs.Section.{list_of};
ghost use Rattle.plan_record.specs.Record.{plan_lanes, slots_of};
ghost use Rattle.plan_reads.specs.ReadsReady.{AllWon};
ghost use Rattle.plan_reads.specs.Entries.{first_entry, AllNumbered};

use crate::asked::bit_of_pin;
use plan_record::bodies::Part;
use reads_local::local_position;
use words::units::{EMPTY_PIN, LocalPosition};

// The entry of slot i: 0 where it is empty.
fn first_entry(part: &Part, pins: &[u32], set: &[u32], bases: &[u64], i: usize) -> LocalPosition
    requires { (0 < part.now.body.stages) × (i < 32 * part.now.body.lanes) × AllWon part.now.d.now part.now.p pins.now × AllNumbered (plan_lanes part.now.d.now) part.now.d.now part.now.p set.now bases.now }
    ensures { (result.0 ≡ first_entry (plan_lanes part.now.d.now) part.now.d.now part.now.p i) × (result.0 < slots_of part.now.d.now) }
{
    let pin = part.level_slot(0, i);
    if pin.0 == EMPTY_PIN {
        return LocalPosition(0);
    }
    local_position(set, bases, bit_of_pin(part.d, pins, pin))
}

// The entries of all slots. They stand in words of 64 bits, since the lent scratch is free by then.
pub fn first_entries(part: &Part, pins: &[u32], set: &[u32], bases: &[u64], entries: &mut [u64])
    requires { (0 < part.now.body.stages) × AllWon part.now.d.now part.now.p pins.now × AllNumbered (plan_lanes part.now.d.now) part.now.d.now part.now.p set.now bases.now × (length entries.old ≡ slots_of part.now.d.now) }
    ensures entries_after { entries.new ≡ list_of (first_entry (plan_lanes part.now.d.now) part.now.d.now part.now.p) (slots_of part.now.d.now) }
    ensures by_index { (i : ℕ) → i < slots_of part.now.d.now → first_entry (plan_lanes part.now.d.now) part.now.d.now part.now.p i < slots_of part.now.d.now }
{
    for (i, entry) in entries.iter_mut().enumerate() {
        *entry = first_entry(part, pins, set, bases, i).0 as u64;
    }
}
