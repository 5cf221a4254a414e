// A place in a plan, and looks over the numbers below n by a test.
ghost use Rattle.std.specs.Prelude.{◌≡◌, ℕ, Bool, ◌<◌};
ghost use Rattle.words.specs.Found.{item_of};
ghost use Rattle.words.specs.Tests.{all_below, first_not};

// Part and item.
#[derive(Clone, Copy)]
pub struct Place {
    pub part: usize,
    pub item: usize,
}

// The lowest of the numbers below n that a test doesn't pass, where the test answers as f does.
pub fn first_not<F: Fn(usize) -> bool>(n: usize, test: F) -> Option<usize>
    requires { (i : ℕ) → i < n → F.pre test i }
    ensures { (f : ℕ → Bool) → ((i : ℕ) → i < n → (b : Bool) → F.post test i b → b ≡ f i) → result ≡ item_of (first_not f n) }
{
    for i in 0..n {
        if !test(i) {
            return Some(i);
        }
    }
    None
}

// Whether each of the numbers below n passes a test, where the test answers as f does.
pub fn all_below<F: Fn(usize) -> bool>(n: usize, test: F) -> bool
    requires { (i : ℕ) → i < n → F.pre test i }
    ensures { (f : ℕ → Bool) → ((i : ℕ) → i < n → (b : Bool) → F.post test i b → b ≡ f i) → result ≡ all_below f n }
{
    first_not(n, test).is_none()
}
