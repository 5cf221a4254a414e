// How many turns are left: a part takes stages + 2, read, each stage, store.
ghost use Rattle.std.specs.Prelude.{◌≡◌, List, ℕ, ◌-◌, length};
ghost use Rattle.run_machine.specs.Run.{turns_after, turns_left, all_left};
ghost use Rattle.run_machine.specs.Room.{phase_of};
ghost use Rattle.run.specs.States.{room_block, blocks_in};
ghost use Rattle.run.specs.LeftInForm.{PartsFrom, RoomLeftInForm, AllLeftInForm};

use run_form::part::{self, Part, Script};
use run_turns::block::Phase;
use run_turns::room::{BLOCK_ROOM, load_state};

// The turns of the parts of a block after the one at word `at`.
fn turns_after(script: &Script, at: usize) -> usize
    requires { PartsFrom script.now.lanes script.now.words.now at }
    ensures { result ≡ turns_after script.now.lanes script.now.words.now at }
{
    let mut o = at;
    let mut sum: usize = 0;
    'parts: loop {
        let part = Part {
            script: *script,
            at: o,
        };
        if part.last() == 1 {
            return sum;
        }
        o = part.end();
        sum += part::stages(script.words, o) + 2;
    }
}

// Those of the block in `room`.
fn block_left(script: &Script, room: &[u32]) -> usize
    requires { (s : ℕ) × (t : ℕ) × RoomLeftInForm script.now.lanes script.now.words.now s t room.now }
    ensures { result ≡ turns_left script.now.lanes script.now.words.now (phase_of room.now) (room_block script.now.lanes script.now.words.now room.now) }
{
    let state = load_state(room);
    let phase = state.phase;
    let at = state.part;
    match phase {
        Phase::Read => part::stages(script.words, at) + 2 + turns_after(script, at),
        Phase::Stage => {
            part::stages(script.words, at) - state.stage + 1 + turns_after(script, at)
        }
        Phase::Store => 1 + turns_after(script, at),
        Phase::Finished => 0,
    }
}

// Those of all blocks.
pub fn turns_left(script: &Script, blocks: usize, room: &[u32]) -> usize
    requires { (starts : List ℕ) × (s : ℕ) × (t : ℕ) × (blocks ≡ length starts - 1) × AllLeftInForm script.now.lanes script.now.words.now starts s t room.now }
    ensures { result ≡ all_left script.now.lanes script.now.words.now (blocks_in script.now.lanes script.now.words.now room.now blocks 0) }
{
    let mut sum: usize = 0;
    for b in 0..blocks {
        sum += block_left(script, &room[BLOCK_ROOM * b..BLOCK_ROOM * b + BLOCK_ROOM]);
    }
    sum
}
