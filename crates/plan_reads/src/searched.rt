// What the search makes of a part's read set.
ghost use Rattle.std.specs.Prelude.{◌≡◌, length};
ghost use Rattle.reads.specs.ReadSet.{pairs_of};
ghost use Rattle.reads.specs.Search.{lanes_of};
ghost use Rattle.reads.specs.SetAnswer.{packed};
ghost use Rattle.rounds.specs.Rounds.{rounds_of, table_after, Solvable};
ghost use Rattle.plan_reads.specs.ReadsReady.{SetInForm};

use rounds::Placed;
use words::refusals::Refusal;

// The search over a read set. The table then has the lanes, or zeros where there are none. What keys and scratch hold afterwards is left open.
pub fn search_set(
    set: &[u32],
    table: &mut [u32],
    keys: &mut [u64],
    scratch: &mut [u64],
    lanes: usize,
) -> Result<Placed, Refusal>
    requires { SetInForm set.now × Solvable (length table.old) (length keys.old) (length scratch.old) lanes }
    ensures value { result ≡ rounds_of (packed lanes (pairs_of set.now)) }
    ensures table_after { table.new ≡ table_after lanes (lanes_of lanes (pairs_of set.now)) }
{
    let size = rounds::search_sizes(set, table, keys, scratch, lanes)?;
    let n = reads_section::longest_row(set, table, lanes);
    Ok(Placed {
        rounds: n as u32,
        size: size as u32,
    })
}
