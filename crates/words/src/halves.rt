// Halves of words, and sections of 32n entries packed two to a word, over the number of lanes n.
ghost use Rattle.std.specs.Prelude.{◌≡◌, ℕ, ◌+◌, ◌*◌, ◌^◌, ◌≤◌, ◌<◌, length, get_or};
ghost use Rattle.std.proofs.lemmas.List.Edits.{sets};
ghost use Rattle.words.specs.Section.{list_of, section_of};

// Entries 2p and 2p + 1 as one word.
fn pair_at(entries: &[u32], p: usize) -> u32
    requires { (2 * p + 1 < length entries.now) × (get_or entries.now (2 * p) 0 < 2 ^ 16) × (get_or entries.now (2 * p + 1) 0 < 2 ^ 16) }
    ensures { result ≡ get_or entries.now (2 * p + 1) 0 * 2 ^ 16 + get_or entries.now (2 * p) 0 }
{
    entries[2 * p] | (entries[2 * p + 1] << 16)
}

// Puts entries 2p to 2p + 7 into the four words from w on.
fn put_four(s: &mut [u32], w: usize, entries: &[u32], p: usize)
    requires { (w + 4 ≤ length s.old) × (2 * p + 8 ≤ length entries.now) × ((i : ℕ) → i < length entries.now → get_or entries.now i 0 < 2 ^ 16) }
    ensures { s.new ≡ sets s.old w (list_of (λ h. get_or entries.now (2 * (p + h) + 1) 0 * 2 ^ 16 + get_or entries.now (2 * (p + h)) 0) 4) }
{
    let a = pair_at(entries, p);
    let b = pair_at(entries, p + 1);
    let c = pair_at(entries, p + 2);
    let e = pair_at(entries, p + 3);
    s[w] = a;
    s[w + 1] = b;
    s[w + 2] = c;
    s[w + 3] = e;
}

// Packs a whole section: each lane has four words in each of the four rows, and each word is written once.
pub fn pack(s: &mut [u32], entries: &[u32], n: usize)
    requires { (n ≤ 65536) × (length s.old ≡ 16 * n) × (length entries.now ≡ 32 * n) × ((i : ℕ) → i < 32 * n → get_or entries.now i 0 < 2 ^ 16) }
    ensures { s.new ≡ section_of n (λ i. get_or entries.now i 0) }
{
    for t in 0..n {
        put_four(s, 4 * t, entries, 16 * t);
        put_four(s, 4 * n + 4 * t, entries, 16 * t + 4);
        put_four(s, 8 * n + 4 * t, entries, 16 * t + 8);
        put_four(s, 12 * n + 4 * t, entries, 16 * t + 12);
    }
}
