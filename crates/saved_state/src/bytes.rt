//! How many bytes texts and entries take.
ghost use Rattle.std.specs.Prelude.{◌≡◌, ◌<◌, ◌≤◌, ◌^◌, encode_utf8, encode_utf8_all, length, true};
ghost use lib.Utf8.{scalar, scalars};
ghost use Rattle.saved_state.specs.State.{entry_size};

use crate::format::{OFFSET_ENTRY_BYTES, TEXT_ENTRY_BYTES};
use crate::value::Value;
use view_model::Text;

/// How many bytes a text has as UTF-8.
pub fn text_bytes(text: &Text) -> usize
    ensures value { result ≡ length (encode_utf8_all text.now) }
    ensures few { result < 2 ^ 33 }
    ensures valid { scalars text.now ≡ true }
{
    let mut count = 0;
    for character in text.characters() {
        count += character_bytes(*character);
    }
    count
}

/// How many bytes a character has as UTF-8.
fn character_bytes(character: char) -> usize
    ensures value { result ≡ length (encode_utf8 character) }
    ensures few { result ≤ 4 }
    ensures valid { scalar character ≡ true }
{
    let mut units = [0; 4];
    character.encode_utf8(&mut units).len()
}

/// How many bytes the entry of a value takes.
pub fn entry_bytes(value: &Value) -> usize
    ensures value { result ≡ entry_size value.now }
    ensures few { result < 2 ^ 34 }
{
    match value {
        Value::Offset(_) => OFFSET_ENTRY_BYTES,
        Value::Text(text) => TEXT_ENTRY_BYTES + text_bytes(text),
    }
}
