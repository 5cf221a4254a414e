// Tables of pins in lent words: the positions of a stage, and the pins that a part reads.
ghost use Rattle.std.specs.Prelude.{◌≡◌, ℕ, ◌+◌, ◌*◌, ◌≤◌, ◌<◌, length};
ghost use Rattle.std.proofs.lemmas.List.Edits.{sets};
ghost use Rattle.pinmap.specs.PinMap.{after_puts};
ghost use Rattle.plan_record.specs.Record.{slots_of, slot_at};
ghost use Rattle.plan_slots.specs.Slots.{TopOf};
ghost use Rattle.plan_slots.specs.Puts.{held_at, held_below, position_puts, read_puts, new_pin, read_pin, read_pins, AllPins, filled, FilledWith};

use plan_record::bodies::Part;
use words::clear::clear;
use words::units::EMPTY_PIN;

// The largest power of two not above a position: slot a stands that far above it, slot b twice as far.
pub fn top_power(q: usize) -> usize
    requires { (0 < q) × (q < 8192) }
    ensures { TopOf q result }
{
    1 << (63 - usize::leading_zeros(q))
}

// Puts the pin at index q with value v, unless the slot is empty.
#[inline(always)]
fn put_slot(part: &Part, s: usize, q: usize, v: u32, table: &mut [u32])
    requires { (s < part.now.body.stages) × (1 ≤ q) × (q < 64 * part.now.body.lanes) }
    ensures { table.new ≡ after_puts table.old (held_at (slot_at part.now.d.now part.now.p s q) v) }
{
    let pin = part.slot(s, q);
    if pin.0 == EMPTY_PIN {
        return;
    }
    let _ = pinmap::put(table, pin, v);
}

// The pins of n slots of stage s from index `first` on, put in their order: the pin of the i-th with value(i), empty slots excepted.
fn fill<F: Fn(usize) -> u32>(
    part: &Part,
    s: usize,
    first: usize,
    n: usize,
    value: F,
    table: &mut [u32],
)
    requires inside { (s < part.now.body.stages) × (1 ≤ first) × (first + n ≤ 64 * part.now.body.lanes) }
    requires may_ask { (i : ℕ) → i < n → F.pre value i }
    ensures { (pin v : ℕ → ℕ) → ((i : ℕ) → i < n → slot_at part.now.d.now part.now.p s (first + i) ≡ pin i)
        → ((i : ℕ) → i < n → (x : ℕ) → F.post value i x → x ≡ v i) → table.new ≡ filled (length table.old) (held_below pin v n) }
{
    clear(table);
    for i in 0..n {
        put_slot(part, s, first + i, value(i), table);
    }
}

// The positions of stage s: each pin with the highest that has it.
pub fn fill_positions(part: &Part, s: usize, table: &mut [u32])
    requires { (s < part.now.body.stages) }
    ensures { table.new ≡ filled (length table.old) (position_puts part.now.d.now part.now.p s) }
{
    fill(
        part,
        s,
        1,
        32 * part.body.lanes - 1,
        |q| (q + 1) as u32,
        table,
    );
}

// The pins that the part reads, each with 0.
pub fn fill_reads(part: &Part, table: &mut [u32])
    requires { (0 < part.now.body.stages) }
    ensures { table.new ≡ filled (length table.old) (read_puts part.now.d.now part.now.p) }
{
    let slots = 32 * part.body.lanes;
    fill(part, 0, slots, slots, |_| 0, table);
}

// Puts the pin of slot j and lists it behind the n pins that are there, unless the slot is empty or an earlier one has the pin: the table holds
// those of the earlier slots.
fn list_slot(part: &Part, j: usize, table: &mut [u32], list: &mut [u64], n: usize) -> usize
    requires { (0 < part.now.body.stages) × (j < 32 * part.now.body.lanes) × (n < length list.old) × FilledWith (held_below (read_pin part.now.d.now part.now.p) (λ k. 0) j) table.old }
    ensures value { result ≡ n + length (new_pin (read_pin part.now.d.now part.now.p) j) }
    ensures table_after { table.new ≡ after_puts table.old (held_at (read_pin part.now.d.now part.now.p j) 0) }
    ensures list_after { list.new ≡ sets list.old n (new_pin (read_pin part.now.d.now part.now.p) j) }
    ensures all_pins { AllPins (new_pin (read_pin part.now.d.now part.now.p) j) }
{
    let pin = part.level_slot(0, j);
    if pin.0 == EMPTY_PIN {
        return n;
    }
    match pinmap::look_up(table, pin) {
        Some(_) => n,
        None => {
            let _ = pinmap::put(table, pin, 0);
            list[n] = pin.0 as u64;
            n + 1
        }
    }
}

// The same table of the pins that the part reads, and the list of them, each once. Returns how many there are.
pub fn list_reads(part: &Part, table: &mut [u32], list: &mut [u64]) -> usize
    requires { (0 < part.now.body.stages) × (32768 ≤ length table.old) × (32 * part.now.body.lanes ≤ length list.old) }
    ensures value { (result ≡ length (read_pins part.now.d.now part.now.p)) × (result ≤ slots_of part.now.d.now) }
    ensures table_after { table.new ≡ filled (length table.old) (read_puts part.now.d.now part.now.p) }
    ensures list_after { list.new ≡ sets list.old 0 (read_pins part.now.d.now part.now.p) }
    ensures all_pins { AllPins (read_pins part.now.d.now part.now.p) }
{
    clear(table);
    let slots = 32 * part.body.lanes;
    let mut n = 0;
    for j in 0..slots {
        n = list_slot(part, j, table, list, n);
    }
    n
}
