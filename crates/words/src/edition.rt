// The script editions: document 01, "Numbers" and "The script of a part"; 10/13 of document 02. An edition is named by its number of lanes. Code
// that serves both carries that number.
ghost use Rattle.std.specs.Prelude.{◌≡◌};
ghost use Rattle.words.specs.Edition.{known, levels_for, part_words};

// The length of a part's script in words, of an edition of so many lanes, for any numbers of rounds and stages.
pub fn part_words(lanes: u16, rounds: u32, stages: u32) -> u64
    ensures { result ≡ part_words lanes rounds stages }
{
    let n = lanes as u64;
    n + 2 * n * rounds as u64 + 20 * n * stages as u64 + 40 * n
}

// The full edition. Its numbers are associated constants.
// stays: two types and no generic one, since of a generic type's constant a proof learns nothing: `is_edition` and `levels_for` did not close.
#[derive(Drop)]
pub struct Edition;

impl Edition {
    // Lanes of 32 bits.
    pub const LANES: usize = 256;
    // Slots of level 0: 32 to a lane.
    pub const SLOTS: usize = 8192;
    // Levels above level 0: 2 to this power is the number of slots.
    pub const LEVELS: u32 = 13;

    // The length of a part's script in words.
    pub fn part_words(rounds: u32, stages: u32) -> u64
        ensures { result ≡ part_words 256 rounds stages }
    {
        part_words(Edition::LANES as u16, rounds, stages)
    }
}

// The small edition.
#[derive(Drop)]
pub struct SmallEdition;

impl SmallEdition {
    pub const LANES: usize = 128;

    pub const SLOTS: usize = 4096;

    pub const LEVELS: u32 = 12;

    pub fn part_words(rounds: u32, stages: u32) -> u64
        ensures { result ≡ part_words 128 rounds stages }
    {
        part_words(SmallEdition::LANES as u16, rounds, stages)
    }
}

// Whether a number names an edition: refusal 29 where not.
#[tactic(auto, unfolding(crate::specs::Edition::known))]
pub fn is_edition(number: u32) -> bool
    ensures { result ≡ known number }
{
    number == Edition::LANES as u32 || number == SmallEdition::LANES as u32
}

// The levels above level 0 with so many lanes.
#[tactic(auto, unfolding(crate::specs::Edition::levels_for))]
pub fn levels_for(lanes: usize) -> u32
    ensures { result ≡ levels_for lanes }
{
    if lanes == SmallEdition::LANES {
        SmallEdition::LEVELS
    } else {
        Edition::LEVELS
    }
}
