// Each block at its first turn, in the lent room, whatever the number of lanes.
ghost use Rattle.std.specs.Prelude.{◌≡◌, ℕ};
ghost use Rattle.run_machine.specs.Run.{blocks_from};
ghost use Rattle.run.specs.States.{blocks_in};
ghost use Rattle.run.specs.LeftInForm.{Beginnings};

use run_turns::block::BlockState;
use run_turns::room::{BLOCK_ROOM, store_state};

pub fn begin_blocks(words: &[u32], starts: &[u64], blocks: usize, room: &mut [u32])
    requires { Beginnings words.now starts.now blocks room.old }
    ensures { (n : ℕ) → blocks_in n words.now room.new blocks 0 ≡ blocks_from words.now starts.now blocks 0 }
{
    for b in 0..blocks {
        let state = BlockState::begins(words, starts[b] as usize);
        store_state(
            &mut room[BLOCK_ROOM * b..BLOCK_ROOM * b + BLOCK_ROOM],
            state,
        );
    }
}
