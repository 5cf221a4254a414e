// Comparisons, exact both ways.
ghost use Rattle.std.specs.Prelude.{◌≡◌, true, ◌+◌, ◌*◌};
ghost use Rattle.stored_lists.specs.Stored.{Halves};

// Whether two slices hold the same words.
pub fn same_words(a: &[u32], b: &[u32]) -> bool
    ensures { (result ≡ true → a.now ≡ b.now) × (a.now ≡ b.now → result ≡ true) }
{
    a == b
}

// A number of its low and its high word.
fn joined(low: u32, high: u32) -> u64
    ensures { result ≡ low + 4294967296 * high }
{
    low as u64 + 0x1_0000_0000 * (high as u64)
}

// Whether the words are the halves of the numbers.
pub fn same_halves(numbers: &[u64], words: &[u32]) -> bool
    ensures { (result ≡ true → Halves numbers.now words.now) × (Halves numbers.now words.now → result ≡ true) }
{
    if words.len() % 2 != 0 || numbers.len() != words.len() / 2 {
        return false;
    }
    for i in 0..numbers.len() {
        if numbers[i] != joined(words[2 * i], words[2 * i + 1]) {
            return false;
        }
    }
    true
}
