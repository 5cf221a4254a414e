// The words of a plan record, and where its lists begin.
ghost use Rattle.std.specs.Prelude.{◌≡◌, ◌*◌, ◌/◌, ◌^◌, ◌≤◌, ◌<◌, length};
ghost use Rattle.plan_record.specs.Record.{plan_lanes, slot_words, word_at, parts_before, gate_base, layout_base, position_base, head_base, locations_in, body_words};
ghost use Rattle.plan_record.specs.Form.{plan_room_words};

use words::edition::{Edition, SmallEdition};

// The words of the head, of a position, of a part's head and of an endpoint.
pub const HEAD_WORDS: usize = 9;

pub const POSITION_WORDS: usize = 4;

pub const PART_HEAD_WORDS: usize = 4;

pub const ENDPOINT_WORDS: usize = 4;

// What a lane has of the two tables: 32 entries in each, and one word in each of five lists.
pub const TABLE_WORDS: usize = 69;

// Word i of a record that has it.
pub fn word_in(d: &[u8], i: usize) -> u32
    requires { i < length d.now / 4 }
    ensures { result ≡ word_at d.now i }
{
    u32::from_le_bytes([d[4 * i], d[4 * i + 1], d[4 * i + 2], d[4 * i + 3]])
}

// Word i of a record; 0 where the record does not have the whole of it.
pub fn word_at(d: &[u8], i: usize) -> u32
    ensures { result ≡ word_at d.now i }
{
    if i < d.len() / 4 { word_in(d, i) } else { 0 }
}

// The lanes of a record's edition; a number that names none is read as the full edition's.
pub fn lanes_of(d: &[u8]) -> usize
    ensures { (result ≡ plan_lanes d.now) × (128 ≤ result) × (result ≤ 256) }
{
    if word_at(d, 5) == SmallEdition::LANES as u32 {
        SmallEdition::LANES
    } else {
        Edition::LANES
    }
}

// The slots of s stages: of a stage those from index 1 on, its positions and level 0.
pub fn slot_words(lanes: usize, s: usize) -> usize
    requires { (128 ≤ lanes) × (lanes ≤ 256) × (s ≤ 255) }
    ensures { (result ≡ slot_words lanes * s) × (result < 2 ^ 22) }
{
    (64 * lanes - 1) * s
}

// Where the gates begin.
pub fn gate_base(d: &[u8]) -> usize
    ensures { (result ≡ gate_base d.now) × (result < 2 ^ 33) }
{
    HEAD_WORDS + word_at(d, 1) as usize
}

// Where the input layout begins.
pub fn layout_base(d: &[u8]) -> usize
    ensures { (result ≡ layout_base d.now) × (result < 2 ^ 35) }
{
    gate_base(d) + 3 * (word_at(d, 2) as usize)
}

// Where the positions begin.
pub fn position_base(d: &[u8]) -> usize
    ensures { (result ≡ position_base d.now) × (result < 2 ^ 36) }
{
    layout_base(d) + word_at(d, 3) as usize
}

// Where the part heads begin.
pub fn head_base(d: &[u8]) -> usize
    ensures { (result ≡ head_base d.now) × (result < 2 ^ 37) }
{
    position_base(d) + POSITION_WORDS * (word_at(d, 4) as usize)
}

// The parts of the major stages before s.
pub fn parts_before(d: &[u8], s: usize) -> usize
    requires { s ≤ 64 }
    ensures { (result ≡ parts_before d.now s) × (result < 2 ^ 39) }
{
    let mut sum = 0;
    for i in 0..s {
        sum += word_at(d, HEAD_WORDS + i) as usize;
    }
    sum
}

// How much working room a plan asks for.
pub fn room_words(d: &[u8]) -> usize
    ensures { (result ≡ plan_room_words d.now) × (result < 2 ^ 44) }
{
    65536 + 16 * parts_before(d, (word_at(d, 1) as usize).min(64))
}

// How many locations a body at word b has, with m stages and e endpoints.
pub fn locations_in(d: &[u8], b: usize, m: usize, e: usize) -> usize
    requires { (b < 2 ^ 62) × (m ≤ 255) × (e ≤ 8192) }
    ensures { (result ≡ locations_in d.now b m e) × (result < 2 ^ 41) }
{
    let mut sum = 0;
    for s in 0..m {
        sum += word_at(d, b + ENDPOINT_WORDS * e + s) as usize;
    }
    sum
}

// How long that body is.
pub fn body_words(d: &[u8], b: usize, m: usize, e: usize) -> usize
    requires { (b < 2 ^ 62) × (m ≤ 255) × (e ≤ 8192) }
    ensures { (result ≡ body_words d.now b m e) × (result < 2 ^ 42) }
{
    let lanes = lanes_of(d);
    ENDPOINT_WORDS * e + m + slot_words(lanes, m) + locations_in(d, b, m, e) + TABLE_WORDS * lanes
}
