// How long the pieces of an assembled script are, over the number of lanes. An empty block has a word a lane.
ghost use Rattle.std.specs.Prelude.{◌≡◌, ◌*◌, ◌^◌, ◌≤◌};
ghost use Rattle.words.specs.Edition.{part_words};

// The zero words that close a script, words a lane.
pub const CLOSING_ZEROS: usize = 8;

// The lanes of any number of rounds or stages.
fn lanes_times(lanes: usize, runs: u32) -> u64
    requires { lanes ≤ 256 }
    ensures { (result ≡ lanes * runs) × (result ≤ 2 ^ 40) }
{
    lanes as u64 * runs as u64
}

// The words of a part's script, for any numbers of rounds and stages.
pub fn part_words(lanes: usize, rounds: u32, stages: u32) -> u64
    requires { lanes ≤ 256 }
    ensures { (result ≡ part_words lanes rounds stages) × (result ≤ 2 ^ 45) }
{
    let header = lanes as u64;
    header + 2 * lanes_times(lanes, rounds) + 20 * lanes_times(lanes, stages) + 40 * header
}
