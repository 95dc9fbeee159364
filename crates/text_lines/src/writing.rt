//! Bytes and numbers that go to a sink at once.

ghost use Rattle.std.specs.Prelude.{◌≤◌};
ghost use Rattle.std.specs.Fmt.{signed_decimal};
ghost use Rattle.text_lines.specs.Delivered.{Delivered};
ghost use Rattle.text_lines.specs.Hex.{hex_text};

use crate::digits::hex_digits;
use itoa::Buffer;
use tool_io::{Failed, Sink};

/// Writes a whole piece, in as many writes as the sink needs.
pub fn put<K: Sink>(sink: &mut K, piece: &[u8]) -> Result<(), Failed>
    ensures { Delivered (K.state sink.old) (K.state sink.new) result piece.now }
{
    let mut done = 0;
    while done < piece.len() {
        done += sink.write(&piece[done..])?;
    }
    Ok(())
}

/// Writes a number in decimal, with `-` before one below 0.
pub fn number<K: Sink>(sink: &mut K, n: i64) -> Result<(), Failed>
    ensures { Delivered (K.state sink.old) (K.state sink.new) result (signed_decimal n) }
{
    let mut buffer = Buffer::new();
    put(sink, buffer.format(n).as_bytes())
}

/// Writes the lowest hexadecimal digits of a number in lower case.
#[tactic(auto, unfolding(crate::specs::Hex::hex_text))]
pub fn hex<K: Sink>(sink: &mut K, n: u32, digits: u8) -> Result<(), Failed>
    requires some { 1 ≤ digits }
    requires at_most_eight { digits ≤ 8 }
    ensures { Delivered (K.state sink.old) (K.state sink.new) result (hex_text n digits) }
{
    let text = hex_digits(n);
    put(sink, &text[8 - digits as usize..])
}
