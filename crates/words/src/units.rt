// The four units of document 01 ("Numbers") and the bit that a read set asks for, each a number of its own kind, converted only here.
ghost use Rattle.std.specs.Prelude.{◌≡◌, ◌+◌, ◌*◌, ◌/◌, ◌%◌, ◌^◌, ◌<◌};

// A pin of the netlist.
#[derive(Clone, Copy, PartialEq, Eq, PartialOrd, Ord)]
pub struct Pin(pub u32);

// A pin with its inversion: 2·pin, plus 1 where inverted.
#[derive(Clone, Copy, PartialEq, Eq, PartialOrd, Ord)]
pub struct PinIv(pub u32);

// A bit of the state: bit p % 32 of word p / 32.
#[derive(Clone, Copy)]
pub struct StatePosition(pub u32);

// A bit of a part's own lanes: bit p % 32 of lane p / 32.
#[derive(Clone, Copy)]
pub struct LocalPosition(pub u32);

// A bit that a read set asks for: 32 times its word there, plus its place in the word. Bit 31 of the word means staged.
#[derive(Clone, Copy)]
pub struct AskedBit(pub u64);

// No pin, in slots and in the input layout.
pub const EMPTY_PIN: u32 = 0xFFFF_FFFF;

impl Pin {
    // The pin with an inversion of 0 or 1.
    pub fn inverted(self, inversion: u32) -> PinIv
        requires { (self.0 < 2 ^ 31) × (inversion < 2) }
        ensures { result.0 ≡ 2 * self.0 + inversion }
    {
        PinIv(2 * self.0 + inversion)
    }
}

impl PinIv {
    pub fn pin(self) -> Pin
        ensures { result.0 ≡ self.0 / 2 }
    {
        Pin(self.0 / 2)
    }

    pub fn inversion(self) -> u32
        ensures { result ≡ self.0 % 2 }
    {
        self.0 % 2
    }
}

impl StatePosition {
    pub fn word(self) -> u32
        ensures { result ≡ self.0 / 32 }
    {
        self.0 / 32
    }

    pub fn bit(self) -> u32
        ensures { result ≡ self.0 % 32 }
    {
        self.0 % 32
    }

    // The bit that a read set asks for to have this position, of the old state (0) or staged (1).
    pub fn asked(self, staged: u32) -> AskedBit
        requires { staged < 2 }
        ensures { result.0 ≡ 2 ^ 36 * staged + self.0 }
    {
        AskedBit(0x10_0000_0000 * staged as u64 + self.0 as u64)
    }
}

impl AskedBit {
    pub fn word(self) -> u32
        requires { self.0 < 2 ^ 37 }
        ensures { result ≡ self.0 / 32 }
    {
        (self.0 / 32) as u32
    }

    pub fn bit(self) -> u32
        ensures { (result ≡ self.0 % 32) × (result < 32) }
    {
        (self.0 % 32) as u32
    }
}

impl LocalPosition {
    // Bit k of a lane.
    pub fn of(lane: u32, k: u32) -> LocalPosition
        requires { (lane < 2 ^ 16) × (k < 32) }
        ensures { result.0 ≡ 32 * lane + k }
    {
        LocalPosition(32 * lane + k)
    }
}
