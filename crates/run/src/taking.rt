// The turns, one after the other.
ghost use Rattle.std.specs.Prelude.{◌≡◌, List, ℕ, ◌-◌, length};
ghost use Rattle.words.specs.Edition.{levels_for};
ghost use Rattle.run_machine.specs.Turn.{turned, written};
ghost use Rattle.run_machine.specs.Run.{run_from};
ghost use Rattle.run_machine.specs.Room.{phase_of};
ghost use Rattle.run.specs.States.{room_block, running};
ghost use Rattle.run.specs.LeftInForm.{RoomLeftInForm, AllLeftInForm, TurnsNamed};

use run_form::part::Script;
use run_turns::room::{BLOCK_ROOM, load_state, store_state};

// One turn of the block in `room`.
fn one_turn(script: &Script, old: &[u32], new: &mut [u32], room: &mut [u32])
    requires { RoomLeftInForm script.now.lanes script.now.words.now (length old.now) (length new.old) room.old }
    ensures block { room_block script.now.lanes script.now.words.now room.new ≡ turned script.now.lanes (levels_for script.now.lanes) script.now.words.now old.now (phase_of room.old) (room_block script.now.lanes script.now.words.now room.old) new.old }
    ensures state { new.new ≡ written script.now.lanes script.now.words.now old.now (phase_of room.old) (room_block script.now.lanes script.now.words.now room.old) new.old }
{
    let state = load_state(room).turn(script, old, new, room);
    store_state(room, state);
}

// All turns, in their order.
pub fn take_turns(script: &Script, turns: &[u32], old: &[u32], new: &mut [u32], room: &mut [u32])
    requires { (starts : List ℕ) × AllLeftInForm script.now.lanes script.now.words.now starts (length old.now) (length new.old) room.old × TurnsNamed starts turns.now }
    ensures good { (starts : List ℕ) → AllLeftInForm script.now.lanes script.now.words.now starts (length old.now) (length new.old) room.old → TurnsNamed starts turns.now → AllLeftInForm script.now.lanes script.now.words.now starts (length old.now) (length new.old) room.new }
    ensures run { (starts : List ℕ) → AllLeftInForm script.now.lanes script.now.words.now starts (length old.now) (length new.old) room.old → TurnsNamed starts turns.now → running script.now.lanes script.now.words.now (length starts - 1) room.new new.new ≡ run_from script.now.lanes (levels_for script.now.lanes) script.now.words.now old.now (running script.now.lanes script.now.words.now (length starts - 1) room.old new.old) turns.now }
{
    for i in 0..turns.len() {
        let b = turns[i] as usize;
        one_turn(
            script,
            old,
            new,
            &mut room[BLOCK_ROOM * b..BLOCK_ROOM * b + BLOCK_ROOM],
        );
    }
}
