//! Hexadecimal digits.

ghost use Rattle.std.specs.Prelude.{◌≡◌, ◌<◌};
ghost use Rattle.std.specs.Char.{digit_char};
ghost use Rattle.text_lines.specs.Hex.{eight_digits};

/// A hexadecimal digit in lower case.
fn hex_digit(n: u32) -> u8
    requires { n < 16 }
    ensures { result ≡ digit_char n }
{
    if n < 10 {
        b'0' + n as u8
    } else {
        b'a' + (n - 10) as u8
    }
}

/// The eight hexadecimal digits of a number, the highest first.
#[tactic(auto, unfolding(crate::specs::Hex::eight_digits))]
pub fn hex_digits(n: u32) -> [u8; 8]
    ensures { result ≡ eight_digits n }
{
    [
        hex_digit(n / 0x1000_0000 % 16),
        hex_digit(n / 0x100_0000 % 16),
        hex_digit(n / 0x10_0000 % 16),
        hex_digit(n / 0x1_0000 % 16),
        hex_digit(n / 0x1000 % 16),
        hex_digit(n / 0x100 % 16),
        hex_digit(n / 0x10 % 16),
        hex_digit(n % 16),
    ]
}
