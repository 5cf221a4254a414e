// The bits that the pins of level 0 of stage 0 ask for, and the read set of them.
ghost use Rattle.std.specs.Prelude.{◌≡◌, ◌-◌, ◌^◌, ◌≤◌, ◌<◌, length};
ghost use Rattle.std.proofs.lemmas.List.Edits.{sets};
ghost use Rattle.pinmap.specs.PinMap.{look};
ghost use Rattle.plan_record.specs.Record.{slots_of};
ghost use Rattle.plan_winners.specs.Planned.{planned};
ghost use Rattle.plan_winners.specs.Winners.{ListsInRange, planned_by};
ghost use Rattle.plan_positions.specs.Places.{planned_table};
ghost use Rattle.plan_reads.specs.PartReads.{or_zero, asked_to, read_words};
ghost use Rattle.plan_reads.specs.ReadsReady.{planned_number, bits_of, part_bits, Narrow, AllNarrow, EntryOf, Won, ListWon, AllPlanned, SetRoom};

use plan_positions::planned::list_planned;
use plan_record::bodies::Part;
use plan_winners::planned_by;
use words::units::{AskedBit, Pin};

// The bit of the position that entry w gives.
fn bit_of_entry(d: &[u8], w: u32) -> AskedBit
    requires { EntryOf d.now w }
    ensures { (result.0 ≡ planned_number (planned_by d.now w)) × Narrow result.0 }
{
    let x = planned_by(d, w);
    let place = x.place;
    place.asked(x.staged)
}

// The entry that wins for a pin, 0 where the table has none.
fn entry_of(pins: &[u32], pin: Pin) -> u32
    requires { pin.0 < 2 ^ 32 - 1 }
    ensures { result ≡ or_zero (look pins.now pin.0) }
{
    pinmap::look_up(pins, pin).unwrap_or(0)
}

// The bit of a pin that has a winner.
pub fn bit_of_pin(d: &[u8], pins: &[u32], pin: Pin) -> AskedBit
    requires { (pin.0 < 2 ^ 32 - 1) × Won d.now pins.now pin.0 }
    ensures { (result.0 ≡ planned_number (planned d.now pin.0)) × Narrow result.0 }
{
    bit_of_entry(d, entry_of(pins, pin))
}

// Each pin's bit in its place.
fn ask_bits(d: &[u8], pins: &[u32], keys: &mut [u64])
    requires { ListWon d.now pins.now keys.old }
    ensures keys_after { keys.new ≡ bits_of d.now keys.old }
    ensures all_narrow { AllNarrow (bits_of d.now keys.old) }
{
    for key in keys.iter_mut() {
        *key = bit_of_pin(d, pins, Pin(*key as u32)).0;
    }
}

// The bits that the part's pins ask for, each pin's once, from the start of the keys. Returns how many there are. The table then has the pins, each
// with the entry that wins for it.
fn list_bits(part: &Part, pins: &mut [u32], keys: &mut [u64]) -> usize
    requires { (0 < part.now.body.stages) × ListsInRange part.now.d.now × AllPlanned part.now.d.now part.now.p × (8192 ≤ length keys.old) × (length pins.old ≡ 32768) }
    ensures value { (result ≡ length (part_bits part.now.d.now part.now.p)) × (result ≤ 8192) }
    ensures pins_after { pins.new ≡ planned_table part.now.d.now part.now.p (length pins.old) }
    ensures keys_after { keys.new ≡ sets keys.old 0 (part_bits part.now.d.now part.now.p) }
    ensures all_narrow { AllNarrow (part_bits part.now.d.now part.now.p) }
{
    let n = list_planned(part, pins, keys);
    ask_bits(part.d, pins, &mut keys[..n]);
    n
}

// The read set of the part, from the start of `set`. Returns how many words it has. The table then has the part's pins, each with the entry that
// wins for it. What keys and scratch hold afterwards is left open.
pub fn part_set(
    part: &Part,
    pins: &mut [u32],
    keys: &mut [u64],
    scratch: &mut [u64],
    set: &mut [u32],
) -> usize
    requires { (0 < part.now.body.stages) × ListsInRange part.now.d.now × AllPlanned part.now.d.now part.now.p × SetRoom (length keys.old) (length scratch.old) (length set.old) × (length pins.old ≡ 32768) }
    ensures value { (result ≡ length (read_words part.now.d.now part.now.p)) × (result ≤ 16384) }
    ensures pins_after { pins.new ≡ planned_table part.now.d.now part.now.p (length pins.old) }
    ensures set_after { set.new ≡ sets set.old 0 (read_words part.now.d.now part.now.p) }
    ensures all_narrow { AllNarrow (asked_to part.now.d.now part.now.p (slots_of part.now.d.now)) }
{
    let n = list_bits(part, pins, keys);
    reads_asked::read_set(&mut keys[..n], scratch, set)
}
