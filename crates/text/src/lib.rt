// Numbers and bytes as text.
#![tactic(auto)]

ghost use Rattle.std.specs.Prelude.{◌≡◌, [], ◌∷◌, ◌++◌, ◌+◌, ◌^◌, ◌<◌, length};
ghost use Rattle.text.specs.Text.{decimal};
ghost use Rattle.text.specs.Wrote.{Wrote, Begun};

fn digit(n: u64) -> u8
    requires { n < 10 }
    ensures { result ≡ 48 + n }
{
    48 + n as u8
}

// Lent bytes, and where in them the next byte of a text goes. Past their end the bytes are only counted: a writer of no bytes measures a text.
#[derive(Drop)]
pub struct Writer<'a> {
    pub out: &'a mut [u8],
    pub at: usize,
}

impl<'a> Writer<'a> {
    // At the start of the lent bytes.
    pub fn new(out: &'a mut [u8]) -> Writer<'a>
        ensures same_reference { result.out.ghost_name ≡ out.entry.ghost_name }
        ensures begun { Begun out.old result }
    {
        Writer { out, at: 0 }
    }

    pub fn put(&mut self, b: u8)
        requires { self.old.at < 2 ^ 63 }
        ensures { Wrote 1 (b ∷ []) self.old self.new }
    {
        if self.at < self.out.len() {
            self.out[self.at] = b;
        }
        self.at += 1;
    }

    pub fn put_decimal(&mut self, n: u64)
        requires { self.old.at < 2 ^ 62 }
        ensures { Wrote 20 (decimal n) self.old self.new }
    {
        if 10 <= n {
            self.put_decimal(n / 10);
        }
        self.put(digit(n % 10));
    }

    // A number and the byte after it.
    pub fn put_number(&mut self, n: u64, last: u8)
        requires { self.old.at < 2 ^ 61 }
        ensures { Wrote 21 (decimal n ++ (last ∷ [])) self.old self.new }
    {
        self.put_decimal(n);
        self.put(last);
    }

    // All bytes of a text.
    pub fn put_bytes(&mut self, text: &[u8])
        requires { (self.old.at < 2 ^ 61) × (length text.now < 2 ^ 61) }
        ensures { Wrote (length text.now) text.now self.old self.new }
    {
        for b in text {
            self.put(*b);
        }
    }
}
