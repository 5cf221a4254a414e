// Lent words are left as zeros.
ghost use Rattle.std.specs.Prelude.{◌≡◌, length, replicate};

// Zeros in every word.
pub fn clear(l: &mut [u32])
    ensures { l.new ≡ replicate (length l.old) 0 }
{
    l.fill(0);
}
