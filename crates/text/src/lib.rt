// Numbers and bytes as text, put at the cursor of a lent text.
#![tactic(auto)]

ghost use Rattle.std.specs.Prelude.{◌≡◌, [], ◌∷◌, ◌++◌, ◌+◌, ◌*◌, ◌≤◌, ◌<◌, length};
ghost use Rattle.text.specs.Definition.Put.{Puts, Room};
ghost use Rattle.text.specs.Definition.Text.{digit_of, glyph, decimal_of, hex_of, fields_of};

// A lent text, and the place up to which it is written.
#[derive(Drop)]
pub struct Cursor<'a> {
    pub text: &'a mut [u8],
    pub at: usize,
}

fn digit(n: usize) -> u8
    ensures { result ≡ digit_of n }
{
    b'0' + (n % 10) as u8
}

fn nibble(d: u8) -> u8
    requires { d < 16 }
    ensures { result ≡ glyph d }
{
    if d < 10 { b'0' + d } else { b'a' - 10 + d }
}

impl Cursor<'_> {
    // One byte.
    pub fn put(&mut self, b: u8)
        requires { Room self.old 1 }
        ensures { Puts self.old self.new (b ∷ []) }
    {
        self.text[self.at] = b;
        self.at += 1;
    }

    // Bytes as they are.
    pub fn put_run(&mut self, bytes: &[u8])
        requires { Room self.old (length bytes.now) }
        ensures { Puts self.old self.new bytes.now }
    {
        let end = self.at + bytes.len();
        self.text[self.at..end].copy_from_slice(bytes);
        self.at = end;
    }

    // A number in decimal.
    pub fn decimal(&mut self, n: usize)
        requires { Room self.old (length (decimal_of n)) }
        ensures { Puts self.old self.new (decimal_of n) }
    {
        if 10 <= n {
            self.decimal(n / 10);
        }
        self.put(digit(n));
    }

    // Bytes in hexadecimal.
    pub fn hex(&mut self, bytes: &[u8])
        requires { Room self.old (2 * length bytes.now) }
        ensures { Puts self.old self.new (hex_of bytes.now) }
    {
        for x in bytes {
            self.put(nibble(x / 16));
            self.put(nibble(x % 16));
        }
    }

    // A number of at most five digits, and a space.
    fn field(&mut self, n: u16)
        requires { Room self.old 6 }
        ensures { Puts self.old self.new (decimal_of n ++ (32 ∷ [])) }
    {
        self.decimal(usize::from(n));
        self.put(b' ');
    }

    // Four numbers, one space between.
    pub fn fields(&mut self, kind: u16, answer: u16, a: u16, b: u16)
        requires { Room self.old 23 }
        ensures puts { Puts self.old self.new (fields_of kind answer a b) }
        ensures within { self.new.at ≤ self.old.at + 23 }
    {
        self.field(kind);
        self.field(answer);
        self.field(a);
        self.decimal(usize::from(b));
    }
}
