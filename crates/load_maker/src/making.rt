//! A load while it is made.

ghost use Rattle.std.specs.Prelude.{◌≡◌, ◌<◌, decimal};
ghost use Rattle.text_lines.specs.Hex.{hex_text};
ghost use Rattle.load_maker.specs.Drawing.{drawn, next_state};
ghost use Rattle.load_maker.specs.Made.{Puts};

use itoa::Buffer;
use text_lines::hex_digits;

/// A load while it is made: the state of its draws, and its text so far. Once there was no memory, nothing more is put,
/// and `failed` reports it at the end.
#[derive(Drop)]
pub struct Maker {
    pub state: u32,
    pub text: Vec<u8>,
    pub failed: bool,
}

impl Maker {
    /// A number below a limit.
    #[tactic(auto, unfolding(crate::specs::Drawing::next_state, crate::specs::Drawing::drawn))]
    pub fn draw(&mut self, limit: u64) -> u64
        requires { 0 < limit }
        ensures value { result ≡ drawn (next_state self.old.state) limit }
        ensures below { result < limit }
        ensures after { self.new ≡ record self.old { state = next_state self.old.state } }
    {
        let next = (u64::from(self.state) * 1103515245 + 12345) % 2147483648;
        self.state = next as u32;
        next / 256 % limit
    }

    /// Puts a text after what there is.
    pub fn put(&mut self, text: &[u8])
        ensures { Puts self.old self.new text.now }
    {
        if self.failed {
            return;
        }
        self.failed = self.text.extend_from_slice(text).is_err();
    }

    /// Puts a number in decimal.
    pub fn number(&mut self, n: u64)
        ensures { Puts self.old self.new (decimal n) }
    {
        let mut buffer = Buffer::new();
        self.put(buffer.format(n).as_bytes());
    }

    /// Puts the six lowest hexadecimal digits of a number in lower case.
    #[tactic(auto, unfolding(text_lines::specs::Hex::hex_text))]
    pub fn six_digits(&mut self, n: u32)
        ensures { Puts self.old self.new (hex_text n 6) }
    {
        let digits = hex_digits(n);
        self.put(&digits[2..]);
    }
}
