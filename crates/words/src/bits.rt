// Bits of words and of lists of words.
ghost use Rattle.std.specs.Prelude.{◌≡◌, ◌+◌, ◌/◌, ◌^◌, ◌<◌, length};
ghost use Rattle.words.specs.Bit.{bit_at, set_bit, pop};

// The bit at a position of a list of words.
pub fn bit_at(s: &[u32], p: usize) -> u32
    requires { p / 32 < length s.now }
    ensures { result ≡ bit_at s.now p }
{
    (s[p / 32] >> (p % 32)) & 1
}

// Sets the bit at a position.
pub fn set_bit(s: &mut [u32], p: usize)
    requires { p / 32 < length s.old }
    ensures { s.new ≡ set_bit s.old p }
{
    s[p / 32] |= 1 << (p % 32);
}

// How many bits are set.
pub fn count(m: u32) -> u32
    ensures { result ≡ pop m }
{
    m.count_ones()
}

// How many bits above bit k are set. Shifted twice, since one shift by 32 is none.
pub fn count_above(m: u32, k: u32) -> u32
    requires { k < 32 }
    ensures { result ≡ pop (m / 2 ^ (k + 1)) }
{
    count((m >> k) >> 1)
}
