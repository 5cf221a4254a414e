// Places in a round.
ghost use Rattle.std.specs.Prelude.{◌≡◌, ◌<◌};
ghost use Rattle.words.specs.Round.{next};

// The next of n places round.
pub fn next_of(i: usize, n: usize) -> usize
    requires { i < n }
    ensures { result ≡ next n i }
{
    if i + 1 == n { 0 } else { i + 1 }
}
