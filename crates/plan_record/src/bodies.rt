// The bodies of a record's parts: where each of a part's lists begins. A pass over all parts starts at `first_body`, asks `body_at` once a part
// and goes on at the body's end.
ghost use Rattle.std.specs.Prelude.{◌≡◌, ◌*◌, ◌^◌, ◌≤◌, ◌<◌};
ghost use Rattle.plan_record.specs.Record.{table_words, majors_of, parts_of, body_at, endpoint_word, stage_locations, slot_at, level_at, location_at, table_at};
ghost use Rattle.plan_record.specs.Body.{BodyReady, BodyOf};
ghost use Rattle.plan_record.specs.Endpoint.{endpoint_at};

use crate::places::{
    ENDPOINT_WORDS, PART_HEAD_WORDS, TABLE_WORDS, head_base, lanes_of, locations_in, parts_before,
    slot_words, word_at, word_in,
};
use words::units::{Pin, PinIv};

// An endpoint: a primary output, a staged pin, a register with its data and its enable, or an SRAM.
#[derive(Clone, Copy)]
pub enum Endpoint {
    Output(PinIv),
    Staged(Pin),
    Register(PinIv, PinIv),
    Sram,
}

// The lanes of the edition, one part's numbers, and the words where its lists begin: endpoints, locations of each stage, slots, locations, tables,
// and the next body.
#[derive(Clone, Copy)]
pub struct Body {
    pub lanes: usize,
    pub stages: usize,
    pub endpoints: usize,
    pub locations: usize,
    pub at: usize,
    pub counts: usize,
    pub slots: usize,
    pub places: usize,
    pub tables: usize,
    pub end: usize,
}

// How many parts a record has.
pub fn parts_of(d: &[u8]) -> usize
    requires { majors_of d.now ≤ 64 }
    ensures { (result ≡ parts_of d.now) × (result < 2 ^ 39) }
{
    parts_before(d, word_at(d, 1) as usize)
}

// Where the first body begins.
pub fn first_body(d: &[u8]) -> usize
    requires { majors_of d.now ≤ 64 }
    ensures { (result ≡ body_at d.now 0) × (result < 2 ^ 42) }
{
    head_base(d) + PART_HEAD_WORDS * parts_of(d)
}

// A part of a plan: the plan's record, the part's number, and its body there.
#[derive(Clone, Copy)]
pub struct Part<'a> {
    pub d: &'a [u8],
    pub p: usize,
    pub body: Body,
    ghost of: { BodyOf d.now p body },
}

// The body of part p, which begins at word `at`.
pub fn body_at(d: &[u8], p: usize, at: usize) -> Body
    requires { BodyReady d.now p at }
    ensures { BodyOf d.now p result }
{
    let lanes = lanes_of(d);
    let head = head_base(d) + PART_HEAD_WORDS * p;
    let stages = word_at(d, head) as usize;
    let endpoints = word_at(d, head + 1) as usize;
    let locations = locations_in(d, at, stages, endpoints);
    let counts = at + ENDPOINT_WORDS * endpoints;
    let slots = counts + stages;
    let places = slots + slot_words(lanes, stages);
    let tables = places + locations;
    Body {
        lanes,
        stages,
        endpoints,
        locations,
        at,
        counts,
        slots,
        places,
        tables,
        end: tables + TABLE_WORDS * lanes,
    }
}

impl<'a> Part<'a> {
    // Part p, whose body begins at word `at`.
    pub fn at(d: &'a [u8], p: usize, at: usize) -> Part<'a>
        requires { BodyReady d.now p at }
        ensures { (result.d.now ≡ d.now) × (result.p ≡ p) × BodyOf d.now p result.body }
    {
        Part {
            d,
            p,
            body: body_at(d, p, at),
        }
    }

    // Word k of endpoint i: its kind, or a number of it. What it holds is asked of `endpoint`.
    pub fn endpoint_word(&self, i: usize, k: usize) -> u32
        requires { (i < self.now.body.endpoints) × (k < 3) }
        ensures { result ≡ endpoint_word self.now.d.now self.now.p i k }
    {
        word_in(self.d, self.body.at + ENDPOINT_WORDS * i + k)
    }

    // Endpoint i.
    pub fn endpoint(&self, i: usize) -> Endpoint
        requires { i < self.now.body.endpoints }
        ensures { result ≡ endpoint_at self.now.d.now self.now.p i }
    {
        let x = self.endpoint_word(i, 1);
        match self.endpoint_word(i, 0) {
            0 => Endpoint::Output(PinIv(x)),
            1 => Endpoint::Staged(Pin(x)),
            2 => Endpoint::Register(PinIv(x), PinIv(self.endpoint_word(i, 2))),
            _ => Endpoint::Sram,
        }
    }

    // How many locations stage s has.
    pub fn stage_locations(&self, s: usize) -> u32
        requires { s < self.now.body.stages }
        ensures { result ≡ stage_locations self.now.d.now self.now.p s }
    {
        word_in(self.d, self.body.counts + s)
    }

    // The pin at index q of stage s.
    pub fn slot(&self, s: usize, q: usize) -> Pin
        requires { (s < self.now.body.stages) × (1 ≤ q) × (q < 64 * self.now.body.lanes) }
        ensures { result.0 ≡ slot_at self.now.d.now self.now.p s q }
    {
        Pin(word_in(
            self.d,
            self.body.slots + slot_words(self.body.lanes, s) + (q - 1),
        ))
    }

    // The pin of slot j of level 0 of stage s.
    pub fn level_slot(&self, s: usize, j: usize) -> Pin
        requires { (s < self.now.body.stages) × (j < 32 * self.now.body.lanes) }
        ensures { result.0 ≡ level_at self.now.d.now self.now.p s j }
    {
        self.slot(s, 32 * self.body.lanes + j)
    }

    // Location l, counted over the stages.
    pub fn location(&self, l: usize) -> u32
        requires { l < self.now.body.locations }
        ensures { result ≡ location_at self.now.d.now self.now.p l }
    {
        word_in(self.d, self.body.places + l)
    }

    // Word i of the two tables.
    pub fn table_word(&self, i: usize) -> u32
        requires { i < table_words self.now.body.lanes }
        ensures { result ≡ table_at self.now.d.now self.now.p i }
    {
        word_in(self.d, self.body.tables + i)
    }
}
