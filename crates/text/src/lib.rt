// Text in a lent buffer of bytes: words, whole numbers, doubles. What the buffer has no room for is left out.
#![tactic(auto)]

mod double;
mod writer;

ghost use Rattle.std.specs.Prelude.{◌≡◌, ◌+◌, ◌<◌, ◌≤◌, [], ◌∷◌};
ghost use Rattle.text.specs.Text.{says};
ghost use Rattle.text.specs.Digits.{digit, digits, places, decimal};

pub use double::minus;
pub use writer::Writer;

// Not `char::from_digit`: what it answers is an Option of a char, and the byte had still to be taken out of both.
fn digit(d: u64) -> u8
    requires { d < 16 }
    ensures { result ≡ digit d }
{
    if d < 10 {
        b'0' + d as u8
    } else {
        b'a' - 10 + d as u8
    }
}

// How many decimal digits n has.
#[tactic(auto, using(crate::proofs::Numerals::places_power))]
fn places(n: u64) -> usize
    ensures { result ≡ places 19 n }
{
    n.max(1).ilog10() as usize + 1
}

impl Writer<'_> {
    #[tactic(auto, unfolding(crate::specs::Text::written, crate::specs::Text::more, crate::specs::Text::byte_more))]
    pub fn put(&mut self, byte: u8)
        ensures { says (byte ∷ []) self }
    {
        if self.at < self.buffer.len() {
            self.buffer[self.at] = byte;
            self.at += 1;
        }
    }

    #[tactic(auto, using(crate::proofs::Laws::written_nothing, crate::proofs::Laws::written_byte))]
    pub fn words(&mut self, text: &[u8])
        ensures { says text.now self }
    {
        for byte in text {
            self.put(*byte);
        }
    }

    // The last k digits of n.
    #[tactic(auto, using(crate::proofs::Laws::written_nothing, crate::proofs::Numerals::digits_none, crate::proofs::Numerals::written_digits))]
    fn digits(&mut self, base: u64, k: usize, n: u64)
        requires { (0 < base) × (base ≤ 16) }
        ensures { says (digits base k n) self }
    {
        if k == 0 {
            return;
        }
        self.digits(base, k - 1, n / base);
        self.put(digit(n % base));
    }

    // Not `write!`: it may answer an error, of which its law says nothing, and a writer here cannot fail.
    pub fn decimal(&mut self, n: u64)
        ensures { says (decimal n) self }
    {
        self.digits(10, places(n), n);
    }
}
