// Planned positions of the pins that parts read: refusal 12.
ghost use Rattle.std.specs.Prelude.{◌≡◌, ◌*◌, ◌≤◌, ◌<◌, length};
ghost use Rattle.std.proofs.lemmas.List.Edits.{sets};
ghost use Rattle.words.specs.Tests.{all_below};
ghost use Rattle.words.specs.Found.{item_of, lowest_of};
ghost use Rattle.plan_slots.specs.Puts.{read_pins, AllPins};
ghost use Rattle.plan_positions.specs.Positions.{twelve_right};
ghost use Rattle.plan_winners.specs.Winners.{ListsInRange, winner, planned_by};
ghost use Rattle.plan_positions.specs.Places.{bad_slot, position_right_in, planned_table, WinnerHeld, ListHeld, listed_pin_right, TableSearchable, SlotsReady, Judgeable, PartReady};

use crate::ranks::{is_normal, parts_earlier};
use pinmap::look_up;
use plan_blocks::totals::state_words;
use plan_record::bodies::{Part, first_body, parts_of};
use plan_slots::tables::{fill_reads, list_reads};
use plan_winners::{fill_winners, planned_by};
use words::clear::clear;
use words::edition::Edition;
use words::found::{Place, all_below, first_not};
use words::units::{EMPTY_PIN, Pin};

// The first words of a room, which are the table of the pins that a part reads.
pub const PIN_TABLE: usize = 4 * Edition::SLOTS;

// Whether the position that entry w gives is right, where the earlier major stages have n parts.
fn place_right(d: &[u8], room: &[u32], state: usize, n: usize, w: u32) -> bool
    requires { TableSearchable d.now room.now state n }
    ensures { result ≡ position_right_in d.now n (planned_by d.now w) }
{
    if w == 0 {
        return false;
    }
    let x = planned_by(d, w);
    let place = x.place;
    let word = place.word();
    if x.staged == 0 {
        return (word as usize) < state;
    }
    is_normal(room, n, word)
}

// Whether the position of a pin is right, whose entry the table in the first words of the room has.
fn pin_right(d: &[u8], room: &[u32], state: usize, n: usize, pin: Pin) -> bool
    requires { TableSearchable d.now room.now state n × (32768 ≤ length room.now) × WinnerHeld d.now room.now pin.0 }
    ensures { result ≡ position_right_in d.now n (planned_by d.now (winner d.now pin.0)) }
{
    match look_up(&room[..PIN_TABLE], pin) {
        Some(w) => place_right(d, room, state, n, w),
        None => false,
    }
}

// Whether those of all listed pins are.
fn pins_right(d: &[u8], room: &[u32], state: usize, n: usize, list: &[u64]) -> bool
    requires { TableSearchable d.now room.now state n × (32768 ≤ length room.now) × ListHeld d.now room.now list.now }
    ensures { result ≡ all_below (listed_pin_right d.now n list.now) (length list.now) }
{
    all_below(
        list.len(),
        |i| pin_right(d, room, state, n, Pin(list[i] as u32)),
    )
}

// Whether slot j of level 0 of stage 0 is empty, or its pin's position is right.
fn slot_right(part: &Part, room: &[u32], state: usize, n: usize, j: usize) -> bool
    requires { SlotsReady part.now.d.now part.now.p part.now.body room.now state n × (j < 32 * part.now.body.lanes) }
    ensures { result ≡ twelve_right part.now.d.now part.now.p j }
{
    let pin = part.level_slot(0, j);
    if pin.0 == EMPTY_PIN {
        return true;
    }
    pin_right(part.d, room, state, n, pin)
}

// The lowest slot that is not right.
fn bad_slot(part: &Part, room: &[u32], state: usize, n: usize) -> Option<usize>
    requires { SlotsReady part.now.d.now part.now.p part.now.body room.now state n }
    ensures { result ≡ item_of (bad_slot part.now.d.now part.now.p) }
{
    first_not(
        32 * part.body.lanes,
        |j| slot_right(part, room, state, n, j),
    )
}

// The pins that a part reads, each with the number of the entry that wins for it.
pub fn fill_planned(part: &Part, table: &mut [u32])
    requires { ListsInRange part.now.d.now × (0 < part.now.body.stages) }
    ensures { table.new ≡ planned_table part.now.d.now part.now.p (length table.old) }
{
    fill_reads(part, table);
    fill_winners(part.d, table);
}

// The same table, and the list of the pins, each once. Returns how many there are.
pub fn list_planned(part: &Part, table: &mut [u32], list: &mut [u64]) -> usize
    requires { ListsInRange part.now.d.now × (0 < part.now.body.stages) × (32768 ≤ length table.old) × (8192 ≤ length list.old) }
    ensures value { (result ≡ length (read_pins part.now.d.now part.now.p)) × (result ≤ 8192) }
    ensures table_after { table.new ≡ planned_table part.now.d.now part.now.p (length table.old) }
    ensures list_after { list.new ≡ sets list.old 0 (read_pins part.now.d.now part.now.p) }
    ensures all_pins { AllPins (read_pins part.now.d.now part.now.p) }
{
    let n = list_reads(part, table, list);
    fill_winners(part.d, table);
    n
}

// The lowest slot that is not right, by the list of the pins: where all of them are right there is none.
fn bad_pin(part: &Part, room: &[u32], state: usize, n: usize, list: &[u64]) -> Option<usize>
    requires { SlotsReady part.now.d.now part.now.p part.now.body room.now state n × (list.now ≡ read_pins part.now.d.now part.now.p) × AllPins list.now }
    ensures { result ≡ item_of (bad_slot part.now.d.now part.now.p) }
{
    if pins_right(part.d, room, state, n, list) {
        return None;
    }
    bad_slot(part, room, state, n)
}

// Refusal 12 of one part. The first words of the room, clear before and after, are its table of pins. What keys holds
// afterwards, here the list of the pins, is left open.
fn judge_part(part: &Part, room: &mut [u32], state: usize, keys: &mut [u64]) -> Option<usize>
    requires { PartReady part.now.d.now part.now.p part.now.body room.old state × (8192 ≤ length keys.old) }
    ensures value { result ≡ item_of (bad_slot part.now.d.now part.now.p) }
    ensures room_unchanged { room.new ≡ room.old }
{
    let m = list_planned(part, &mut room[..PIN_TABLE], keys);
    let found = bad_pin(part, room, state, parts_earlier(part.d, part.p), &keys[..m]);
    clear(&mut room[..PIN_TABLE]);
    found
}

// Refusal 12. What keys holds afterwards is left open.
pub fn refusal12(d: &[u8], room: &mut [u32], keys: &mut [u64]) -> Option<Place>
    requires { Judgeable d.now room.old × (8192 ≤ length keys.old) }
    ensures value { result ≡ lowest_of (Rattle.plan_positions.specs.Positions.refusal12 d.now) }
    ensures room_unchanged { room.new ≡ room.old }
{
    let state = state_words(d, room) as usize;
    let mut at = first_body(d);
    for p in 0..parts_of(d) {
        let part = Part::at(d, p, at);
        if let Some(item) = judge_part(&part, room, state, keys) {
            return Some(Place { part: p, item });
        }
        at = part.body.end;
    }
    None
}
