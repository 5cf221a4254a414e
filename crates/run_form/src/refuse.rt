// The refusals of a run that look at what is given: 15, "script words not well formed for the run", and 16, "turn names no block".
ghost use Rattle.std.specs.Prelude.{◌≡◌, ◌-◌, length};
ghost use Rattle.run_machine.specs.Run.{bad_block, bad_turn};
ghost use Rattle.run_machine.specs.Well.{Lanes};
ghost use Rattle.words.specs.Found.{item_of};

use crate::form::{self, States};
use crate::part::Script;
use words::found::first_not;

// How many blocks the starts tell.
pub fn blocks_of(starts: &[u64]) -> usize
    ensures { result ≡ length starts.now - 1 }
{
    starts.len().saturating_sub(1)
}

// The lowest block that is not well formed.
pub fn bad_block(script: &Script, starts: &[u64], states: States) -> Option<usize>
    requires { Lanes script.now.lanes }
    ensures { result ≡ item_of (bad_block script.now.lanes script.now.words.now starts.now states.old states.new) }
{
    if starts.len() < 2 {
        return Some(0);
    }
    first_not(blocks_of(starts), |i| {
        form::block_form(script, starts[i] as usize, starts[i + 1] as usize, states)
    })
}

// The lowest turn that names no block.
pub fn bad_turn(starts: &[u64], turns: &[u32]) -> Option<usize>
    ensures { result ≡ item_of (bad_turn starts.now turns.now) }
{
    let blocks = blocks_of(starts);
    first_not(turns.len(), |i| (turns[i] as usize) < blocks)
}
