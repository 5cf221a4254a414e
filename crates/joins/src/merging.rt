// The join of two sets pair by pair: one pass counts its words, one writes them.
ghost use Rattle.std.specs.Prelude.{◌≡◌, ◌≤◌, length};
ghost use Rattle.std.proofs.lemmas.List.Edits.{sets};
ghost use Rattle.joins_sets.specs.Join.{join};
ghost use Rattle.joins.specs.Merge.{of_first, of_second, first_pair, PairOfEach, HasPair, Joinable, RoomForJoin};

// A pair of the join, and how many words of each set it takes.
#[derive(Drop)]
pub struct Step {
    pub word: u32,
    pub mask: u32,
    pub first: usize,
    pub second: usize,
}

// The first set's first pair.
fn of_first(a: &[u32]) -> Step
    requires { 2 ≤ length a.now }
    ensures { result ≡ of_first a.now }
{
    Step {
        word: a[0],
        mask: a[1],
        first: 2,
        second: 0,
    }
}

// The second set's.
fn of_second(b: &[u32]) -> Step
    requires { 2 ≤ length b.now }
    ensures { result ≡ of_second b.now }
{
    Step {
        word: b[0],
        mask: b[1],
        first: 0,
        second: 2,
    }
}

// The first pair of the join of two sets that have one each.
fn lower_pair(a: &[u32], b: &[u32]) -> Step
    requires { PairOfEach a.now b.now }
    ensures { result ≡ first_pair a.now b.now }
{
    let w = a[0];
    let v = b[0];
    if w < v {
        return of_first(a);
    }
    if w == v {
        return Step {
            word: w,
            mask: a[1] | b[1],
            first: 2,
            second: 2,
        };
    }
    of_second(b)
}

// The first pair of the join.
fn first_pair(a: &[u32], b: &[u32]) -> Step
    requires { HasPair a.now b.now }
    ensures { result ≡ first_pair a.now b.now }
{
    if b.len() == 0 {
        return of_first(a);
    }
    if a.len() == 0 {
        return of_second(b);
    }
    lower_pair(a, b)
}

// How many words the join has.
pub fn count_words(a: &[u32], b: &[u32]) -> usize
    requires { Joinable a.now b.now }
    ensures { result ≡ length (join a.now b.now) }
{
    let mut n = 0;
    let mut i = 0;
    let mut j = 0;
    while i + j < a.len() + b.len() {
        let step = first_pair(&a[i..], &b[j..]);
        i += step.first;
        j += step.second;
        n += 2;
    }
    n
}

// Writes the join from the start of `out`. Returns how many words it has.
pub fn write_pairs(a: &[u32], b: &[u32], out: &mut [u32]) -> usize
    requires { RoomForJoin a.now b.now (length out.old) }
    ensures value { result ≡ length (join a.now b.now) }
    ensures out_after { out.new ≡ sets out.old 0 (join a.now b.now) }
{
    let mut n = 0;
    let mut i = 0;
    let mut j = 0;
    while i + j < a.len() + b.len() {
        let step = first_pair(&a[i..], &b[j..]);
        out[n] = step.word;
        out[n + 1] = step.mask;
        i += step.first;
        j += step.second;
        n += 2;
    }
    n
}
