// The functions that a host calls, over words, bytes and numbers. Each returns 0 or the refusal's number, and two or four numbers more through what is
// lent for them: what a good answer says, or the refusal's place. Each contract is one equation: the numbers, then every slice that is written.
// An edition is named by its number of lanes, the last number before those; a plan names its own.
#![tactic(auto)]

ghost use Rattle.std.specs.Prelude.{◌≡◌, [], ◌∷◌};
ghost use Rattle.capi.specs.Exported.{after_read_rounds, after_local_position, after_list, after_value, after_run, after_plan_sizes, after_build, after_place_bit, after_purge_bit, after_read_aiger, after_write_aiger, after_join};
ghost use Rattle.capi.specs.Numbers.{rounds_numbers, brought_numbers, one_number, four_numbers, flattened_numbers, gates_numbers};
ghost use Rattle.capi.specs.Promised.{Promised};

use aiger_read::start::Header;
use flatten::sizes::Sizes;
use rounds::Placed;
use words::answer::{hand_good, hand_refusal};
use words::refusals::Refusal;
use words::units::{LocalPosition, Pin};

// What is told for the position of a bit that a set does not ask for.
const NO_POSITION: u64 = 0xFFFF_FFFF;

fn tell_rounds(answer: Result<Placed, Refusal>, first: &mut u64, second: &mut u64) -> u32
    ensures { (result ∷ first.new ∷ second.new ∷ []) ≡ rounds_numbers answer }
{
    match answer {
        Ok(placed) => {
            *first = placed.rounds as u64;
            *second = placed.size as u64;
            0
        }
        Err(refusal) => hand_refusal(refusal, first, second),
    }
}

fn tell_position(
    answer: Result<Option<LocalPosition>, Refusal>,
    first: &mut u64,
    second: &mut u64,
) -> u32
    ensures { (result ∷ first.new ∷ second.new ∷ []) ≡ brought_numbers answer }
{
    match answer {
        Ok(Some(position)) => hand_good(position.0 as u64, first, second),
        Ok(None) => hand_good(NO_POSITION, first, second),
        Err(refusal) => hand_refusal(refusal, first, second),
    }
}

// One number of something good.
fn tell(answer: Result<u64, Refusal>, first: &mut u64, second: &mut u64) -> u32
    ensures { (result ∷ first.new ∷ second.new ∷ []) ≡ one_number answer }
{
    match answer {
        Ok(n) => hand_good(n, first, second),
        Err(refusal) => hand_refusal(refusal, first, second),
    }
}

// The same of a length.
fn tell_length(answer: Result<usize, Refusal>, first: &mut u64, second: &mut u64) -> u32
    ensures { (result ∷ first.new ∷ second.new ∷ []) ≡ one_number answer }
{
    tell(answer.map(|n| n as u64), first, second)
}

// Four numbers of something good.
fn tell_four(
    answer: Result<(u64, u64, u64, u64), Refusal>,
    first: &mut u64,
    second: &mut u64,
    third: &mut u64,
    fourth: &mut u64,
) -> u32
    ensures { (result ∷ first.new ∷ second.new ∷ third.new ∷ fourth.new ∷ []) ≡ four_numbers answer }
{
    match answer {
        Ok((a, b, c, e)) => {
            *first = a;
            *second = b;
            *third = c;
            *fourth = e;
            0
        }
        Err(refusal) => {
            *third = 0;
            *fourth = 0;
            hand_refusal(refusal, first, second)
        }
    }
}

fn tell_sizes(
    answer: Result<Sizes, Refusal>,
    first: &mut u64,
    second: &mut u64,
    third: &mut u64,
    fourth: &mut u64,
) -> u32
    ensures { (result ∷ first.new ∷ second.new ∷ third.new ∷ fourth.new ∷ []) ≡ flattened_numbers answer }
{
    let numbers = answer.map(|x| (x.starts, x.words, x.state, x.sram));
    tell_four(numbers, first, second, third, fourth)
}

fn tell_header(
    answer: Result<Header, Refusal>,
    first: &mut u64,
    second: &mut u64,
    third: &mut u64,
    fourth: &mut u64,
) -> u32
    ensures { (result ∷ first.new ∷ second.new ∷ third.new ∷ fourth.new ∷ []) ≡ gates_numbers answer }
{
    let numbers = answer.map(|x| (x.gates, x.inputs, x.latches, x.outputs));
    tell_four(numbers, first, second, third, fourth)
}

fn tell_bit(answer: Result<u32, Refusal>, first: &mut u64, second: &mut u64) -> u32
    ensures { (result ∷ first.new ∷ second.new ∷ []) ≡ one_number answer }
{
    tell(answer.map(|b| b as u64), first, second)
}

// A read set's rounds: `first` is their number, or the refusal's part; `second` is the piece size that won, or its item.
#[unsafe(no_mangle)]
pub extern "C" fn juolgesot_read_rounds(
    set: &[u32],
    room: &mut [u32],
    out: &mut [u32],
    edition: u32,
    first: &mut u64,
    second: &mut u64,
) -> u32
    ensures { ((result ∷ first.new ∷ second.new ∷ []) ∷ room.new ∷ out.new ∷ []) ≡ after_read_rounds set.now room.old out.old edition }
{
    tell_rounds(
        rounds::map_global_read_to_rounds(set, room, out, edition),
        first,
        second,
    )
}

// The local position of a bit of a word in the packing of a read set: `first` is the position, or 0xFFFFFFFF where the set does not ask for the bit,
// or the refusal's part; `second` is 0, or its item.
#[unsafe(no_mangle)]
pub extern "C" fn juolgesot_local_position(
    set: &[u32],
    room: &mut [u32],
    word: u32,
    bit: u32,
    edition: u32,
    first: &mut u64,
    second: &mut u64,
) -> u32
    ensures { ((result ∷ first.new ∷ second.new ∷ []) ∷ room.new ∷ []) ≡ after_local_position set.now room.old word bit edition }
{
    tell_position(
        locals::local_position(set, room, word, bit, edition),
        first,
        second,
    )
}

// The listing program's text for any records: `first` is its length, or the refusal's part; `second` is 0, or its item.
#[unsafe(no_mangle)]
pub extern "C" fn juolgesot_list(
    records: &[u8],
    room: &mut [u32],
    out: &mut [u8],
    edition: u32,
    first: &mut u64,
    second: &mut u64,
) -> u32
    ensures { ((result ∷ first.new ∷ second.new ∷ []) ∷ room.new ∷ out.new ∷ []) ≡ after_list records.now room.old out.old edition }
{
    tell_length(listing::list(records, room, out, edition), first, second)
}

// The value of a pin in a part of a plan, between two states: `first` is the bit, or the refusal's part; `second` is 0, or its item. `bits` then
// begins with one bit a gate: the value of its pin.
#[unsafe(no_mangle)]
pub extern "C" fn juolgesot_value(
    plan: &[u8],
    room: &mut [u32],
    old: &[u32],
    new: &[u32],
    bits: &mut [u32],
    part: u32,
    pin: u32,
    first: &mut u64,
    second: &mut u64,
) -> u32
    ensures { ((result ∷ first.new ∷ second.new ∷ []) ∷ room.new ∷ bits.new ∷ []) ≡ after_value plan.now room.old old.now new.now bits.old part pin }
{
    tell_bit(
        values::value(plan, part, old, new, room, bits, Pin(pin)),
        first,
        second,
    )
}

// A run of one major stage: `first` is the turns left, or the refusal's part; `second` is 0, or its item.
#[unsafe(no_mangle)]
pub extern "C" fn juolgesot_run(
    words: &[u32],
    starts: &[u64],
    turns: &[u32],
    old: &[u32],
    new: &mut [u32],
    room: &mut [u32],
    edition: u32,
    first: &mut u64,
    second: &mut u64,
) -> u32
    ensures room_after { ((result ∷ first.new ∷ second.new ∷ []) ∷ new.new ∷ room.new ∷ []) ≡ after_run words.now starts.now turns.now old.now new.old room.old edition }
    ensures promise { Promised words.now starts.now old.now new.old edition result first.new new.new }
{
    tell(
        run::run(words, starts, turns, old, new, room, edition),
        first,
        second,
    )
}

// What a plan's result takes: starts, words, state words and SRAM words, or the refusal's part and item and twice 0.
#[unsafe(no_mangle)]
pub extern "C" fn juolgesot_plan_sizes(
    plan: &[u8],
    room: &mut [u32],
    first: &mut u64,
    second: &mut u64,
    third: &mut u64,
    fourth: &mut u64,
) -> u32
    ensures { ((result ∷ first.new ∷ second.new ∷ third.new ∷ fourth.new ∷ []) ∷ room.new ∷ []) ≡ after_plan_sizes plan.now room.old }
{
    tell_sizes(
        flatten::plan_sizes(plan, room),
        first,
        second,
        third,
        fourth,
    )
}

// The assembled script of a plan, and the piece size that won for each part; the four numbers are those of its sizes.
#[unsafe(no_mangle)]
pub extern "C" fn juolgesot_build(
    plan: &[u8],
    room: &mut [u32],
    starts: &mut [u64],
    words: &mut [u32],
    pieces: &mut [u32],
    first: &mut u64,
    second: &mut u64,
    third: &mut u64,
    fourth: &mut u64,
) -> u32
    ensures { ((result ∷ first.new ∷ second.new ∷ third.new ∷ fourth.new ∷ []) ∷ room.new ∷ starts.new ∷ words.new ∷ pieces.new ∷ []) ≡ after_build plan.now room.old starts.old words.old pieces.old }
{
    tell_sizes(
        flatten::build_flattened_script_v1(plan, room, starts, words, pieces),
        first,
        second,
        third,
        fourth,
    )
}

// A node placed at a slot of a level of one stage: `first` is the entries of the new count list, or the refusal's part; `second` is 0, or its item.
#[unsafe(no_mangle)]
pub extern "C" fn juolgesot_place_bit(
    gates: &[u32],
    levels: &[u32],
    counts: &[u32],
    slots: &mut [u32],
    after: &mut [u32],
    room: &mut [u32],
    level: u32,
    slot: u32,
    node: u32,
    edition: u32,
    first: &mut u64,
    second: &mut u64,
) -> u32
    ensures { ((result ∷ first.new ∷ second.new ∷ []) ∷ slots.new ∷ after.new ∷ room.new ∷ []) ≡ after_place_bit gates.now levels.now counts.now slots.old after.old room.old level slot node edition }
{
    let answer = repair::place_bit(
        gates,
        levels,
        counts,
        slots,
        after,
        room,
        level,
        slot,
        Pin(node),
        edition,
    );
    tell_length(answer, first, second)
}

// A slot of a level of one stage cleared, with what stands below it: the numbers are as for a placing.
#[unsafe(no_mangle)]
pub extern "C" fn juolgesot_purge_bit(
    counts: &[u32],
    slots: &mut [u32],
    after: &mut [u32],
    room: &mut [u32],
    level: u32,
    slot: u32,
    edition: u32,
    first: &mut u64,
    second: &mut u64,
) -> u32
    ensures { ((result ∷ first.new ∷ second.new ∷ []) ∷ slots.new ∷ after.new ∷ room.new ∷ []) ≡ after_purge_bit counts.now slots.old after.old room.old level slot edition }
{
    tell_length(
        repair::purge_bit(counts, slots, after, room, level, slot, edition),
        first,
        second,
    )
}

// The gates of a binary AIGER file: gates, inputs, latches and outputs, or the refusal's part and item and twice 0.
#[unsafe(no_mangle)]
pub extern "C" fn juolgesot_read_aiger(
    bytes: &[u8],
    out: &mut [u32],
    first: &mut u64,
    second: &mut u64,
    third: &mut u64,
    fourth: &mut u64,
) -> u32
    ensures { ((result ∷ first.new ∷ second.new ∷ third.new ∷ fourth.new ∷ []) ∷ out.new ∷ []) ≡ after_read_aiger bytes.now out.old }
{
    tell_header(
        aiger_read::read_gates(bytes, out),
        first,
        second,
        third,
        fourth,
    )
}

// The binary AIGER text of a gate list: `first` is its length, or the refusal's part; `second` is 0, or its item.
#[unsafe(no_mangle)]
pub extern "C" fn juolgesot_write_aiger(
    gates: &[u32],
    out: &mut [u8],
    first: &mut u64,
    second: &mut u64,
) -> u32
    ensures { ((result ∷ first.new ∷ second.new ∷ []) ∷ out.new ∷ []) ≡ after_write_aiger gates.now out.old }
{
    tell_length(aiger_write::write_gates(gates, out), first, second)
}

// The join of two read sets: `first` is its pairs, or the refusal's part; `second` is 0, or its item.
#[unsafe(no_mangle)]
pub extern "C" fn juolgesot_join(
    a: &[u32],
    b: &[u32],
    out: &mut [u32],
    first: &mut u64,
    second: &mut u64,
) -> u32
    ensures { ((result ∷ first.new ∷ second.new ∷ []) ∷ out.new ∷ []) ≡ after_join a.now b.now out.old }
{
    tell_length(joins::join_sets(a, b, out), first, second)
}
