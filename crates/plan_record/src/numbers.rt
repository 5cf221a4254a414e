// The numbers of a record's head and lists, by name: no other crate knows at which word of a record one stands. A list's first word, which takes a
// look at the head, is asked for once and lent.
ghost use Rattle.std.specs.Prelude.{◌≡◌, ◌^◌, ◌<◌};
ghost use Rattle.plan_record.specs.Record.{blocks_of, majors_of, gates_of, layout_of, positions_of, edition_of, count_at, gate_pin, gate_first, gate_second, layout_base, layout_pin, position_base, position_pin, position_state, position_staged, head_base, stages_of};

use crate::places::{
    HEAD_WORDS, PART_HEAD_WORDS, POSITION_WORDS, gate_base, position_base, word_at,
};
use words::units::{Pin, PinIv, StatePosition};

// How many blocks.
pub fn blocks_of(d: &[u8]) -> u32
    ensures { result ≡ blocks_of d.now }
{
    word_at(d, 0)
}

// How many major stages.
pub fn majors_of(d: &[u8]) -> u32
    ensures { result ≡ majors_of d.now }
{
    word_at(d, 1)
}

// How many gates.
pub fn gates_of(d: &[u8]) -> u32
    ensures { result ≡ gates_of d.now }
{
    word_at(d, 2)
}

// How long the input layout is.
pub fn layout_of(d: &[u8]) -> u32
    ensures { result ≡ layout_of d.now }
{
    word_at(d, 3)
}

// How many positions.
pub fn positions_of(d: &[u8]) -> u32
    ensures { result ≡ positions_of d.now }
{
    word_at(d, 4)
}

// The number that names the edition.
pub fn edition_of(d: &[u8]) -> u32
    ensures { result ≡ edition_of d.now }
{
    word_at(d, 5)
}

// How many parts major stage s has.
pub fn count_at(d: &[u8], s: usize) -> u32
    requires { s < 2 ^ 32 }
    ensures { result ≡ count_at d.now s }
{
    word_at(d, HEAD_WORDS + s)
}

// The pin of gate g, and its fan-ins.
pub fn gate_pin(d: &[u8], g: u32) -> Pin
    ensures { result.0 ≡ gate_pin d.now g }
{
    Pin(word_at(d, gate_base(d) + 3 * (g as usize)))
}

pub fn gate_first(d: &[u8], g: u32) -> PinIv
    ensures { result.0 ≡ gate_first d.now g }
{
    PinIv(word_at(d, gate_base(d) + 3 * (g as usize) + 1))
}

pub fn gate_second(d: &[u8], g: u32) -> PinIv
    ensures { result.0 ≡ gate_second d.now g }
{
    PinIv(word_at(d, gate_base(d) + 3 * (g as usize) + 2))
}

// The pin of entry i of the input layout, which begins at word `base`.
pub fn layout_pin(d: &[u8], base: usize, i: u32) -> Pin
    requires { (base ≡ layout_base d.now) × (base < 2 ^ 35) }
    ensures { result.0 ≡ layout_pin d.now i }
{
    Pin(word_at(d, base + i as usize))
}

// The positions of a plan: its record, and the word where they begin.
#[derive(Clone, Copy)]
pub struct Positions<'a> {
    pub d: &'a [u8],
    base: usize,
    ghost begins: { (base ≡ position_base d.now) × (base < 2 ^ 36) },
}

impl<'a> Positions<'a> {
    pub fn of(d: &'a [u8]) -> Positions<'a>
        ensures { result.d.now ≡ d.now }
    {
        Positions {
            d,
            base: position_base(d),
        }
    }

    // The pin of entry i; its place in the state; 1 where it is staged.
    pub fn pin(&self, i: u32) -> Pin
        ensures { result.0 ≡ position_pin self.now.d.now i }
    {
        Pin(word_at(self.d, self.base + POSITION_WORDS * (i as usize)))
    }

    pub fn place(&self, i: u32) -> StatePosition
        ensures { result.0 ≡ position_state self.now.d.now i }
    {
        StatePosition(word_at(self.d, self.base + POSITION_WORDS * (i as usize) + 1))
    }

    pub fn staged(&self, i: u32) -> u32
        ensures { result ≡ position_staged self.now.d.now i }
    {
        word_at(self.d, self.base + POSITION_WORDS * (i as usize) + 2)
    }
}

// How many boomerang stages part p has, of a record whose part heads begin at word `base`.
pub fn stages_at(d: &[u8], base: usize, p: usize) -> u32
    requires { (base ≡ head_base d.now) × (base < 2 ^ 37) × (p < 262144) }
    ensures { result ≡ stages_of d.now p }
{
    word_at(d, base + PART_HEAD_WORDS * p)
}
