// A block's turn. What it does is in the block's small state; its positions and captured words are in its room.
ghost use Rattle.std.specs.Prelude.{◌≡◌, ◌<◌, length};
ghost use Rattle.words.specs.Edition.{levels_for};
ghost use Rattle.run_machine.specs.Turn.{begins, turned, written};
ghost use Rattle.run_machine.specs.Room.{block_room};
ghost use Rattle.run_turns.specs.Phases.{phase_is};
ghost use Rattle.run_turns.specs.Block.{state_block, room_turned, BlockWell};

use crate::room::{read_room, stage_room, store_room};
use run_form::part::{self, Part, PartInForm, Script};
use run_read::Reading;
use run_store::Storing;

// What a block's next turn does: document 01, "read, each stage, store", and nothing once it is finished.
#[derive(Clone, Copy)]
pub enum Phase {
    Read,
    Stage,
    Store,
    Finished,
}

// Where the block's part begins; what its next turn does; which stage.
#[derive(Clone, Copy)]
pub struct BlockState {
    pub part: usize,
    pub phase: Phase,
    pub stage: usize,
}

impl BlockState {
    // A block that begins the part at word `at`: an empty block is finished.
    pub fn begins(words: &[u32], at: usize) -> BlockState
        requires { at < length words.now }
        ensures { (result.part ≡ at) × (phase_is result.phase ≡ (begins words.now at).phase) × (result.stage ≡ 0) }
    {
        let phase = if part::stages(words, at) == 0 {
            Phase::Finished
        } else {
            Phase::Read
        };
        BlockState {
            part: at,
            phase,
            stage: 0,
        }
    }

    // One turn. A turn of a finished block does nothing.
    pub fn turn(
        mut self,
        script: &Script,
        old: &[u32],
        new: &mut [u32],
        room: &mut [u32],
    ) -> BlockState
        requires { BlockWell script.now.lanes script.now.words.now (length old.now) (length new.old) self.part (phase_is self.phase) self.stage × (length room.old ≡ block_room) }
        ensures block { state_block script.now.lanes script.now.words.now result.part (phase_is result.phase) result.stage room.new
            ≡ turned script.now.lanes (levels_for script.now.lanes) script.now.words.now old.now (phase_is self.phase) (state_block script.now.lanes script.now.words.now self.part (phase_is self.phase) self.stage room.old) new.old }
        ensures state { new.new ≡ written script.now.lanes script.now.words.now old.now (phase_is self.phase) (state_block script.now.lanes script.now.words.now self.part (phase_is self.phase) self.stage room.old) new.old }
        ensures room { room.new ≡ room_turned script.now.lanes (levels_for script.now.lanes) script.now.words.now self.part self.stage old.now new.old (phase_is self.phase) room.old }
    {
        let script = *script;
        let at = self.part;
        let k = self.stage;
        match self.phase {
            Phase::Read => {
                let part = Part { script, at };
                let reading = Reading { part, old, new };
                read_room(&reading, room);
                self.phase = Phase::Stage;
                self.stage = 0;
                self
            }
            Phase::Stage => {
                let part = Part { script, at };
                let part = PartInForm { part };
                stage_room(&part, k, room);
                let stages = part.part.stages();
                if k + 1 == stages {
                    return BlockState {
                        part: at,
                        phase: Phase::Store,
                        stage: k + 1,
                    };
                }
                self.stage = k + 1;
                self
            }
            Phase::Store => {
                let part = Part { script, at };
                let formed = PartInForm { part };
                let storing = Storing { part: formed, old };
                store_room(&storing, room, new);
                if part.last() == 1 {
                    self.phase = Phase::Finished;
                    self.stage = 0;
                    return self;
                }
                BlockState::begins(script.words, part.end())
            }
            Phase::Finished => self,
        }
    }
}
