// The pairs that are handed in, one by one: the number of each in the set, whether it may stand where it does, its mark. Document 02, 8/13.
#![tactic(auto)]

ghost use Rattle.std.specs.Prelude.{◌≡◌, ◌&&◌, ◌*◌, ◌≤◌, ◌<◌, eqb, length};
ghost use Rattle.words.specs.Bit.{bit_at, set_bit};
ghost use Rattle.words.specs.Tests.{all_below};
ghost use Rattle.words.specs.Found.{item_of};
ghost use Rattle.handed_pairs.specs.HandedPair.{SetFormed, pair_found, fitting_pair, tabled};

use words::bits;
use words::found::all_below;

// The number of the pair with this word and mask, if the set has it.
fn find_pair(set: &[u32], w: u32, m: u32) -> Option<usize>
    requires { SetFormed set.now }
    ensures { result ≡ item_of (pair_found set.now w m) }
{
    let n = set.len() / 2;
    let p = sort::partition_point(n, |p| set[2 * p] < w);
    if n <= p {
        return None;
    }
    if set[2 * p] != w {
        return None;
    }
    if set[2 * p + 1] != m {
        return None;
    }
    Some(p)
}

// The number of a pair that may stand in a lane of b bits, if it may.
pub fn fit(set: &[u32], seen: &[u32], b: u32, w: u32, m: u32) -> Option<usize>
    requires { SetFormed set.now × (length seen.now ≡ 256) × (b ≤ 32) }
    ensures { result ≡ item_of (fitting_pair set.now seen.now b w m) }
{
    let p = find_pair(set, w, m)?;
    if bits::bit_at(seen, p) == 1 {
        return None;
    }
    if 32 < b + bits::count(m) {
        return None;
    }
    Some(p)
}

// Marks pair p, and puts it at a place of a lane that the table has a row for.
pub fn put(table: &mut [u32], seen: &mut [u32], n: usize, lane: usize, place: usize, p: usize)
    requires { (length table.old ≡ 32 * n) × (length seen.old ≡ 256) × (n ≤ 256) × (place < 32) × (p < 8192) }
    ensures table_after { table.new ≡ tabled n table.old lane place p }
    ensures seen_after { seen.new ≡ set_bit seen.old p }
{
    bits::set_bit(seen, p);
    if lane < n {
        table[32 * lane + place] = p as u32 + 1;
    }
}

// Whether each of n pairs is marked.
fn all_marked(seen: &[u32], n: usize) -> bool
    requires { n ≤ 32 * length seen.now }
    ensures { result ≡ all_below (λ p. eqb (bit_at seen.now p) 1) n }
{
    all_below(n, |p| bits::bit_at(seen, p) == 1)
}

// Whether there are n lanes, and each of the set's pairs is marked.
pub fn is_whole(seen: &[u32], pairs: usize, count: usize, n: usize) -> bool
    requires { pairs ≤ 32 * length seen.now }
    ensures { result ≡ (eqb count n && all_below (λ p. eqb (bit_at seen.now p) 1) pairs) }
{
    count == n && all_marked(seen, pairs)
}
