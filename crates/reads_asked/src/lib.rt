// The read set that asks for given bits, each an `AskedBit` of `words`.
#![tactic(auto)]

ghost use Rattle.std.specs.Prelude.{◌≡◌, ◌++◌, length, take, drop, replicate};
ghost use Rattle.std.proofs.lemmas.List.Edits.{sets};
ghost use Rattle.reads.specs.Asked.{ask, read_set_of};
ghost use Rattle.sort.specs.Sorted.{sort_of};
ghost use Rattle.reads_asked.specs.Rising.{AskableNext, Gatherable, Settable};

use words::units::AskedBit;

// Asks for bit q too, in the set of the first n words, whose last word is not above q's. Returns how many words the set then has.
fn ask_next(set: &mut [u32], n: usize, q: AskedBit) -> usize
    requires { AskableNext set.old n q.0 }
    ensures value { result ≡ length (ask q.0 (take n set.old)) }
    ensures set_after { set.new ≡ sets set.old 0 (ask q.0 (take n set.old)) }
{
    let word = q.word();
    let mask = 1u32 << q.bit();
    if 2 <= n {
        if set[n - 2] == word {
            set[n - 1] |= mask;
            return n;
        }
    }
    set[n] = word;
    set[n + 1] = mask;
    n + 2
}

// The set that asks for bits that are in order, from the start of `set`.
fn gather(keys: &[u64], set: &mut [u32]) -> usize
    requires { Gatherable keys.now set.old }
    ensures value { result ≡ length (read_set_of keys.now) }
    ensures set_after { set.new ≡ sets set.old 0 (read_set_of keys.now) }
{
    let mut n = 0;
    for key in keys {
        n = ask_next(set, n, AskedBit(*key));
    }
    n
}

// The set that asks for bits in any order. Returns how many words it has. The keys are then sorted.
pub fn read_set(keys: &mut [u64], scratch: &mut [u64], set: &mut [u32]) -> usize
    requires { Settable keys.old scratch.old set.old }
    ensures value { result ≡ length (read_set_of keys.old) }
    ensures keys_after { keys.new ≡ sort_of keys.old }
    ensures scratch_after { scratch.new ≡ replicate (length keys.old) 0 ++ drop (length keys.old) scratch.old }
    ensures set_after { set.new ≡ sets set.old 0 (read_set_of keys.old) }
{
    sort::sort(keys, scratch).unwrap();
    gather(keys, set)
}
