// A read section, and its lines: by lane, then round.
ghost use Rattle.std.specs.Prelude.{◌≡◌, ◌*◌, ◌^◌, ◌<◌, ◌≤◌, get_or};
ghost use Rattle.text.specs.Wrote.{Wrote};
ghost use Rattle.listing.specs.SectionLines.{pair_line, lane_round_lines, section_lines};

use listing_line::put_line;
use text::Writer;

// The words of a read section over a number of lanes.
#[derive(Clone, Copy)]
pub struct Section<'a> {
    pub words: &'a [u32],
    pub lanes: usize,
    ghost few: { lanes ≤ 256 },
}

impl<'a> Section<'a> {
    // A word, 0 past the end.
    fn word(&self, i: usize) -> u32
        ensures { result ≡ get_or self.now.words.now i 0 }
    {
        if i < self.words.len() {
            self.words[i]
        } else {
            0
        }
    }

    // The line of a lane in a round; none where the mask is 0.
    fn put_place(&self, out: &mut Writer, lane: usize, round: usize)
        requires { (out.old.at < 2 ^ 60) × (lane < 2 ^ 32) × (round < 2 ^ 32) }
        ensures { Wrote 74 (pair_line self.now.lanes self.now.words.now lane round) out.old out.new }
    {
        let place = 2 * self.lanes * round + 2 * lane;
        let mask = self.word(place + 1);
        if mask != 0 {
            put_line(out, lane, round, self.word(place), mask);
        }
    }

    // The lines of a lane.
    fn put_lane(&self, out: &mut Writer, lane: usize, rounds: u32)
        requires { (out.old.at < 2 ^ 59) × (lane < 2 ^ 32) }
        ensures { Wrote (74 * 2 ^ 32) (lane_round_lines self.now.lanes self.now.words.now lane rounds 0) out.old out.new }
    {
        for round in 0..rounds as usize {
            self.put_place(out, lane, round);
        }
    }

    // All lines.
    pub fn put_lanes(&self, out: &mut Writer, rounds: u32)
        requires { out.old.at < 2 ^ 58 }
        ensures { Wrote (256 * (74 * 2 ^ 32)) (section_lines self.now.lanes self.now.words.now rounds self.now.lanes 0) out.old out.new }
    {
        for lane in 0..self.lanes {
            self.put_lane(out, lane, rounds);
        }
    }
}
