// What a good part adds, counted over the table of its lanes.
ghost use Rattle.std.specs.Prelude.{◌≡◌, []};
ghost use Rattle.reads_try.specs.TableLanes.{lanes_at};
ghost use Rattle.reads_section.specs.Readout.{TableReadable};
ghost use Rattle.report.specs.Report.{part_given, gain_of};
ghost use Rattle.report_part.specs.PartOutcome.{counted_of, gained_of, Gainable};

use words::edition::part_words;

// The bits of lanes, those with a pair, and the pairs of the longest.
#[derive(Drop)]
struct Counted {
    bits: u64,
    lanes: u64,
    rounds: u32,
}

// What a part adds to words 2 to 6 of a batch.
#[derive(Drop)]
pub struct Gained {
    pub bits: u64,
    pub lanes: u64,
    pub rounds: u64,
    pub empty: u64,
    pub words: u64,
}

// One pass over the table.
fn count_lanes(set: &[u32], table: &[u32], n: usize) -> Counted
    requires { TableReadable set.now table.now n }
    ensures { result ≡ counted_of (lanes_at set.now table.now n) }
{
    let mut bits = 0;
    let mut lanes = 0;
    let mut rounds = 0;
    for j in 0..n {
        let held = reads_try::lane_load(set, table, j);
        bits += held.bits as u64;
        if 0 < held.pairs {
            lanes += 1;
        }
        rounds = rounds.max(held.pairs);
    }
    Counted {
        bits,
        lanes,
        rounds: rounds as u32,
    }
}

// What a good part adds: the bits that were asked for are those that the lanes hold, and each lane and round without a pair is empty.
pub fn gain_of(set: &[u32], table: &[u32], stages: u32, n: usize) -> Gained
    requires { Gainable set.now table.now n }
    ensures { gained_of result ≡ gain_of n (part_given set.now [] stages) (lanes_at set.now table.now n) }
{
    let held = count_lanes(set, table, n);
    Gained {
        bits: held.bits,
        lanes: held.lanes,
        rounds: held.rounds as u64,
        empty: (n * held.rounds as usize - set.len() / 2) as u64,
        words: part_words(n as u16, held.rounds, stages),
    }
}
