// A block's room: which of its words are for what, and what of it a turn is lent. No other file has these numbers.
ghost use Rattle.std.specs.Prelude.{◌≡◌, ◌+◌, ◌<◌, ◌≤◌, length, take, drop};
ghost use Rattle.std.proofs.lemmas.List.Edits.{sets};
ghost use Rattle.words.specs.Edition.{levels_for};
ghost use Rattle.words.specs.Section.{list_of};
ghost use Rattle.run_machine.specs.Part.{stages_at, start_at, normal_at};
ghost use Rattle.run_machine.specs.Turn.{stored_word};
ghost use Rattle.run_machine.specs.Room.{block_room, captured_from, part_low, phase_code, phase_from, part_of, phase_of, stage_of, block_state_words};
ghost use Rattle.run_turns.specs.Phases.{phase_is};
ghost use Rattle.run_turns.specs.Block.{room_read, room_staged};

use crate::block::{BlockState, Phase};
use crate::capture::capture;
use run_form::part::{PartEntries, PartInForm};
use run_read::{Reading, read_turn};
use run_stage::stage_turn;
use run_store::{Storing, store};

// The words of a block's room: document 01, "1024 a block for a run".
// stays: each function asks that a room has so many words. As an array it would be a chunk of the slice that a run is lent, and the definitions of a run speak of that slice.
pub const BLOCK_ROOM: usize = 1024;
// From word 0 on the n words of the positions, from word n on those of the bits that a stage gathers; from here on the captured words.
pub const CAPTURED: usize = 512;
// Then the block's state: where its part begins, low 32 bits and high, its phase and its stage.
const PART_LOW: usize = 768;

const PART_HIGH: usize = 769;

const PHASE: usize = 770;

const STAGE: usize = 771;

// A phase as a word, and a word as a phase.
fn phase_word(phase: Phase) -> u32
    ensures { result ≡ phase_code (phase_is phase) }
{
    phase as u32
}

fn phase_from(word: u32) -> Phase
    ensures { phase_is result ≡ phase_from word }
{
    match word {
        0 => Phase::Read,
        1 => Phase::Stage,
        2 => Phase::Store,
        _ => Phase::Finished,
    }
}

// The state that a block's room holds.
pub fn load_state(room: &[u32]) -> BlockState
    requires { length room.now ≡ block_room }
    ensures { (result.part ≡ part_of room.now) × (phase_is result.phase ≡ phase_of room.now) × (result.stage ≡ stage_of room.now) }
{
    let phase = phase_from(room[PHASE]);
    BlockState {
        part: room[PART_LOW] as usize + 0x1_0000_0000 * (room[PART_HIGH] as usize),
        phase,
        stage: room[STAGE] as usize,
    }
}

// Stores it there.
pub fn store_state(room: &mut [u32], state: BlockState)
    requires { (length room.old ≡ block_room) × (state.stage ≤ 255) }
    ensures { room.new ≡ sets room.old part_low (block_state_words state.part (phase_is state.phase) state.stage) }
{
    let at = state.part;
    let phase = state.phase;
    room[PART_LOW] = (at % 0x1_0000_0000) as u32;
    room[PART_HIGH] = (at / 0x1_0000_0000) as u32;
    room[PHASE] = phase_word(phase);
    room[STAGE] = state.stage as u32;
}

// The read turn: it is lent the positions, and no word is captured yet.
pub fn read_room(turn: &Reading, room: &mut [u32])
    requires { length room.old ≡ block_room }
    ensures { room.new ≡ room_read turn.now.part.script.lanes turn.now.part.script.words.now turn.now.part.at turn.now.old.now turn.now.new.now room.old }
{
    let n = turn.part.script.lanes;
    read_turn(turn, &mut room[..n]);
    room[CAPTURED..PART_LOW].fill(0);
}

// Stage k: it is lent the positions and the gathered bits; then words are captured.
pub fn stage_room(part: &PartInForm, k: usize, room: &mut [u32])
    requires { (k < stages_at part.now.part.script.words.now part.now.part.at) × (length room.old ≡ block_room) }
    ensures { let n = part.now.part.script.lanes in room.new ≡ room_staged n (levels_for n) part.now.part.script.words.now part.now.part.at k room.old }
{
    let bits = 2 * part.part.script.lanes;
    stage_turn(&PartEntries { part: part.part }, k, &mut room[..bits]);
    capture(part, k, room);
}

// The store turn: it is lent the captured words.
pub fn store_room(turn: &Storing, room: &[u32], new: &mut [u32])
    requires { let W = turn.now.part.part.script.words.now in let o = turn.now.part.part.at in
        (length room.now ≡ block_room) × (0 < normal_at W o → start_at W o + normal_at W o ≤ length new.old) }
    ensures { let W = turn.now.part.part.script.words.now in let o = turn.now.part.part.at in
        new.new ≡ sets new.old (start_at W o) (list_of (stored_word turn.now.part.part.script.lanes W o turn.now.old.now (take (normal_at W o) (drop captured_from room.now))) (normal_at W o)) }
{
    store(turn, &room[CAPTURED..PART_LOW], new);
}
