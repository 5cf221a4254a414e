// The first words, one a lane: half of them the part's numbers, half its locations.
ghost use Rattle.std.specs.Prelude.{◌≡◌, ◌+◌, ◌*◌, ◌/◌, ◌^◌, ◌≤◌, ◌<◌, length};
ghost use Rattle.plan_record.specs.Record.{plan_lanes};
ghost use Rattle.script.specs.Script.{location_stage, location_half, location_words};
ghost use Rattle.script.specs.Writers.{AcceptedPart, number_words, ends_by};

use plan_record::bodies::Part;
use words::clear::clear;

// Words 0..7, in this order.
#[derive(Drop)]
pub struct Numbers {
    pub stages: u32,
    pub last: u32,
    pub writeouts: u32,
    pub state: u32,
    pub srams: u32,
    pub sram: u32,
    pub rounds: u32,
    pub duplicates: u32,
}

// Writes the eight numbers, and zeros behind them.
pub fn write_numbers(x: Numbers, out: &mut [u32])
    requires { 8 ≤ length out.old }
    ensures { out.new ≡ number_words (length out.old) x }
{
    clear(out);
    out[0] = x.stages;
    out[1] = x.last;
    out[2] = x.writeouts;
    out[3] = x.state;
    out[4] = x.srams;
    out[5] = x.sram;
    out[6] = x.rounds;
    out[7] = x.duplicates;
}

// 1 where a stage that ends at location `end` ends at or before location l.
fn ends_by(end: usize, l: usize) -> usize
    ensures { (result ≡ ends_by end l) × (result ≤ 1) }
{
    if end <= l { 1 } else { 0 }
}

// The stage of location l: how many stages end at or before it.
fn location_stage(part: &Part, l: usize) -> u32
    requires { AcceptedPart part.now.d.now part.now.p part.now.body }
    ensures { (result ≡ location_stage part.now.d.now part.now.p l) × (result ≤ 255) }
{
    let mut end = 0;
    let mut ended = 0;
    for s in 0..part.body.stages {
        end += part.stage_locations(s) as usize;
        ended += ends_by(end, l);
    }
    ended as u32
}

// The half of location l: stage and location, or ones past the last.
fn location_half(part: &Part, l: usize) -> u32
    requires { AcceptedPart part.now.d.now part.now.p part.now.body }
    ensures { (result ≡ location_half part.now.d.now part.now.p l) × (result < 2 ^ 16) }
{
    if l < part.body.locations {
        256 * location_stage(part, l) + part.location(l)
    } else {
        0xffff
    }
}

// Word j of the locations: two halves, the first one low.
fn location_word(part: &Part, j: usize) -> u32
    requires { AcceptedPart part.now.d.now part.now.p part.now.body × (2 * j < part.now.body.lanes) }
    ensures { result ≡ location_half part.now.d.now part.now.p (2 * j + 1) * 2 ^ 16 + location_half part.now.d.now part.now.p (2 * j) }
{
    let low = location_half(part, 2 * j);
    let high = location_half(part, 2 * j + 1);
    low | (high << 16)
}

// Writes the locations.
pub fn write_locations(part: &Part, out: &mut [u32])
    requires { AcceptedPart part.now.d.now part.now.p part.now.body × (length out.old ≡ part.now.body.lanes / 2) }
    ensures { out.new ≡ location_words (plan_lanes part.now.d.now) part.now.d.now part.now.p }
{
    for (j, word) in out.iter_mut().enumerate() {
        *word = location_word(part, j);
    }
}
