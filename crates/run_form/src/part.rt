// A script of so many lanes, and the part that begins at word `at` of it, by the numbers of its header. Where a round, a section or the part's end
// stands has a product of two numbers, and is worked out here alone.
ghost use Rattle.std.specs.Prelude.{◌≡◌, ◌+◌, ◌*◌, ◌/◌, ◌%◌, ◌^◌, ◌<◌, ◌≤◌, length};
ghost use Rattle.run_machine.specs.Part.{stages_at, last_at, write_outs_at, start_at, srams_at, rounds_at, duplicates_at, normal_at, end_at, location_in, read_word_at, read_mask_at, section_at};
ghost use Rattle.run_machine.specs.Well.{Lanes, PartIn, EntriesIn, Captures};
ghost use Rattle.run_machine.proofs.KnownFactLaws.{known_props};

// Words for each lane: of a round, which word is read and its mask; of a section's permutation, 32 halves; of a section, that and four more.
const ROUND_WORDS: usize = 2;

pub const ENTRY_WORDS: usize = 16;

pub const SECTION_WORDS: usize = ENTRY_WORDS + 4;

// The words of a script, and the lanes of its edition.
#[derive(Clone, Copy)]
pub struct Script<'a> {
    pub words: &'a [u32],
    pub lanes: usize,
}

// A part of a script, which begins at word `at`: all its words are inside the script.
#[derive(Clone, Copy)]
pub struct Part<'a> {
    pub script: Script<'a>,
    pub at: usize,
    ghost inside: { PartIn script.lanes script.words.now at } by { Prim.hlevel known_props },
}

// A part whose entries are in form: what the gathering of a section asks for.
#[derive(Clone, Copy)]
pub struct PartEntries<'a> {
    pub part: Part<'a>,
    ghost entries: { EntriesIn part.script.lanes part.script.words.now part.at },
}

// A part whose entries and locations are in form: what a stage and a store turn ask for.
#[derive(Clone, Copy)]
pub struct PartInForm<'a> {
    pub part: Part<'a>,
    ghost entries: { EntriesIn part.script.lanes part.script.words.now part.at },
    ghost captures: { Captures part.script.lanes part.script.words.now part.at },
}

// What a lane reads in a round: a word of the states, and which of its bits.
#[derive(Clone, Copy)]
pub struct Pair {
    pub word: u32,
    pub mask: u32,
}

// Where a captured word comes from: the stage, and the word of its positions.
#[derive(Clone, Copy)]
pub struct Location {
    pub stage: u32,
    pub word: u32,
}

// The stages that word `at` tells, of a part or of an empty block.
pub fn stages(words: &[u32], at: usize) -> usize
    requires { at < length words.now }
    ensures { (result ≡ stages_at words.now at) × (result < 2 ^ 32) }
{
    words[at] as usize
}

// The rounds of the part at word `at`.
fn rounds(words: &[u32], at: usize) -> usize
    requires { at + 6 < length words.now }
    ensures { (result ≡ rounds_at words.now at) × (result < 2 ^ 32) }
{
    words[at + 6] as usize
}

impl<'a> Script<'a> {
    // Where a part ends whose header is at word `at`.
    pub fn part_end(&self, at: usize) -> usize
        requires { Lanes self.now.lanes × (at + self.now.lanes ≤ length self.now.words.now) }
        ensures { result ≡ end_at self.now.lanes self.now.words.now at }
    {
        let n = self.lanes;
        at + n
            + ROUND_WORDS * (n * rounds(self.words, at))
            + SECTION_WORDS * (n * stages(self.words, at))
            + 2 * SECTION_WORDS * n
    }
}

impl<'a> Part<'a> {
    pub fn stages(&self) -> usize
        ensures { (result ≡ stages_at self.now.script.words.now self.now.at) × (result < 2 ^ 32) }
    {
        stages(self.script.words, self.at)
    }

    pub fn last(&self) -> u32
        ensures { result ≡ last_at self.now.script.words.now self.now.at }
    {
        self.script.words[self.at + 1]
    }

    pub fn start(&self) -> usize
        ensures { result ≡ start_at self.now.script.words.now self.now.at }
    {
        self.script.words[self.at + 3] as usize
    }

    pub fn rounds(&self) -> usize
        ensures { (result ≡ rounds_at self.now.script.words.now self.now.at) × (result < 2 ^ 32) }
    {
        rounds(self.script.words, self.at)
    }

    // The normal words: word 2 less words 4 and 7.
    pub fn normal(&self) -> usize
        requires { srams_at self.now.script.words.now self.now.at + duplicates_at self.now.script.words.now self.now.at ≤ write_outs_at self.now.script.words.now self.now.at }
        ensures { result ≡ normal_at self.now.script.words.now self.now.at }
    {
        let words = self.script.words;
        (words[self.at + 2] - (words[self.at + 4] + words[self.at + 7])) as usize
    }

    // Where the part ends.
    pub fn end(&self) -> usize
        ensures { result ≡ end_at self.now.script.lanes self.now.script.words.now self.now.at }
    {
        self.script.part_end(self.at)
    }

    // Location l.
    pub fn location(&self, l: usize) -> Location
        requires { l < self.now.script.lanes }
        ensures { (result.stage ≡ location_in self.now.script.lanes self.now.script.words.now self.now.at l / 256)
            × (result.word ≡ location_in self.now.script.lanes self.now.script.words.now self.now.at l % 256) }
    {
        let x = self.script.words[self.at + self.script.lanes / 2 + l / 2];
        let place = if l % 2 == 0 { x & 0xffff } else { x >> 16 };
        Location {
            stage: place / 256,
            word: place % 256,
        }
    }

    // What lane i reads in round r.
    pub fn pair(&self, r: usize, i: usize) -> Pair
        requires { (r < rounds_at self.now.script.words.now self.now.at) × (i < self.now.script.lanes) }
        ensures { (result.word ≡ read_word_at self.now.script.lanes self.now.script.words.now self.now.at r i)
            × (result.mask ≡ read_mask_at self.now.script.lanes self.now.script.words.now self.now.at r i) }
    {
        let n = self.script.lanes;
        let from = self.at + n + ROUND_WORDS * (n * r) + 2 * i;
        Pair {
            word: self.script.words[from],
            mask: self.script.words[from + 1],
        }
    }

    // Where section k begins.
    pub fn section(&self, k: usize) -> usize
        requires { k < stages_at self.now.script.words.now self.now.at + 2 }
        ensures { (result ≡ section_at self.now.script.lanes self.now.script.words.now self.now.at k)
            × (result + 20 * self.now.script.lanes ≤ length self.now.script.words.now)
            × (length self.now.script.words.now < 2 ^ 61) }
    {
        let n = self.script.lanes;
        let words = self.script.words;
        self.at + n + ROUND_WORDS * (n * rounds(words, self.at)) + SECTION_WORDS * (n * k)
    }
}

impl<'a> PartInForm<'a> {
    // The normal words.
    pub fn normal(&self) -> usize
        ensures { result ≡ normal_at self.now.part.script.words.now self.now.part.at }
    {
        self.part.normal()
    }
}
