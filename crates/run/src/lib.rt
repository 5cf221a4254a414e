// The run of one major stage, for any arguments: document 01, "The run", and refusals 32, 29, 15 and 16.
#![tactic(auto)]

pub mod left;
pub mod states;
pub mod taking;

ghost use Rattle.std.specs.Prelude.{◌≡◌, length, replicate};
ghost use Rattle.words.specs.Answer.{result_of};
ghost use Rattle.words.specs.Edition.{levels_for};
ghost use Rattle.run_machine.specs.Run.{Ran, run_turns, all_left, run_answer, new_after, run_room_after};
ghost use Rattle.run.specs.LeftInForm.{RunAccepted};

use left::turns_left;
use run_form::form::States;
use run_form::part::Script;
use run_form::refuse::{bad_block, bad_turn, blocks_of};
use run_turns::room::BLOCK_ROOM;
use states::begin_blocks;
use taking::take_turns;
use words::edition::is_edition;
use words::refusals::{Reason, Refusal};

// A run that is not refused; how many turns are left. The blocks' rooms are clear after it.
fn run_well(
    script: &Script,
    starts: &[u64],
    turns: &[u32],
    old: &[u32],
    new: &mut [u32],
    rooms: &mut [u32],
) -> u64
    requires { RunAccepted script.now.lanes script.now.words.now starts.now turns.now (length old.now) (length new.old) rooms.old }
    ensures left { let n = script.now.lanes in result ≡ all_left n script.now.words.now (run_turns n (levels_for n) script.now.words.now starts.now turns.now old.now new.old).blocks }
    ensures state { let n = script.now.lanes in new.new ≡ (run_turns n (levels_for n) script.now.words.now starts.now turns.now old.now new.old).new }
    ensures room { rooms.new ≡ replicate (length rooms.old) 0 }
{
    let blocks = blocks_of(starts);
    begin_blocks(script.words, starts, blocks, rooms);
    take_turns(script, turns, old, new, rooms);
    let left = turns_left(script, blocks, rooms);
    rooms.fill(0);
    left as u64
}

// Each block of a script of that edition at its first turn, then the turns in their order: the number of each is that of the block that takes it.
// How many turns are left, or the refusal.
pub fn run(
    words: &[u32],
    starts: &[u64],
    turns: &[u32],
    old: &[u32],
    new: &mut [u32],
    room: &mut [u32],
    edition: u32,
) -> Result<u64, Refusal>
    ensures answer { result ≡ result_of (λ (x : Ran). x.left) (run_answer edition (levels_for edition) words.now starts.now turns.now old.now new.old (length room.old)) }
    ensures state { new.new ≡ new_after (run_answer edition (levels_for edition) words.now starts.now turns.now old.now new.old (length room.old)) new.old }
    ensures room { room.new ≡ run_room_after starts.now room.old }
{
    if room.len() / BLOCK_ROOM < blocks_of(starts) {
        return Err(Refusal::nowhere(Reason::RoomShort));
    }
    room.fill(0);
    if !is_edition(edition) {
        return Err(Refusal::nowhere(Reason::NoEdition));
    }
    let script = Script {
        words,
        lanes: edition as usize,
    };
    let states = States {
        old: old.len(),
        new: new.len(),
    };
    if let Some(i) = bad_block(&script, starts, states) {
        return Err(Refusal::at_item(Reason::ScriptForm, i as u64));
    }
    if let Some(i) = bad_turn(starts, turns) {
        return Err(Refusal::at_item(Reason::Turn, i as u64));
    }
    Ok(run_well(&script, starts, turns, old, new, room))
}
