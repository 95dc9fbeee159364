//! Writing of the fields of a state.
ghost use Rattle.std.specs.Prelude.{◌≡◌, ◌≤◌, ◌++◌, ◌∷◌, OnOk, encode_utf8, encode_utf8_all, length};
ghost use Rattle.byteorder.specs.Endian.{little_bytes};
ghost use Rattle.saved_state.specs.State.{IsValue, entry_bytes, value_bytes};
ghost use Rattle.saved_state.specs.Numbers.{last_version, max_text_bytes};
ghost use Rattle.saved_state.specs.declared.value.Value.TheVariants.{Text as TextValue};

use crate::bytes::text_bytes;
use crate::format::{OFFSET_KIND, TEXT_KIND, VERSION};
use crate::value::Value;
use byteorder::{ByteOrder, LittleEndian};
use std::alloc::AllocError;
use view_model::Text;

/// Adds the head of a state of `count` entries.
pub fn put_head(bytes: &mut Vec<u8>, count: u16) -> Result<(), AllocError>
    ensures { OnOk result (bytes.new.items ≡ bytes.old.items ++ (86 ∷ 83 ∷ last_version ∷ little_bytes 2 count)) }
{
    bytes.extend_from_slice(&[b'V', b'S', VERSION])?;
    put_short(bytes, count)
}

/// Adds an entry.
pub fn put_entry(bytes: &mut Vec<u8>, id: u32, value: &Value) -> Result<(), AllocError>
    requires { IsValue value.now }
    ensures { OnOk result (bytes.new.items ≡ bytes.old.items ++ entry_bytes (id, value.now)) }
{
    put_number(bytes, id)?;
    match value {
        Value::Offset(offset) => {
            bytes.push(OFFSET_KIND)?;
            put_number(bytes, *offset)
        }
        Value::Text(text) => put_text(bytes, text),
    }
}

/// Adds the kind of a text, its length and its characters.
fn put_text(bytes: &mut Vec<u8>, text: &Text) -> Result<(), AllocError>
    requires { length (encode_utf8_all text.now) ≤ max_text_bytes }
    ensures { OnOk result (bytes.new.items ≡ bytes.old.items ++ value_bytes (TextValue text.now)) }
{
    bytes.push(TEXT_KIND)?;
    put_short(bytes, text_bytes(text) as u16)?;
    put_characters(bytes, text.characters())
}

/// Adds characters as UTF-8.
fn put_characters(bytes: &mut Vec<u8>, characters: &[char]) -> Result<(), AllocError>
    ensures { OnOk result (bytes.new.items ≡ bytes.old.items ++ encode_utf8_all characters.now) }
{
    for character in characters {
        put_character(bytes, *character)?;
    }
    Ok(())
}

/// Adds a character as UTF-8.
fn put_character(bytes: &mut Vec<u8>, character: char) -> Result<(), AllocError>
    ensures { OnOk result (bytes.new.items ≡ bytes.old.items ++ encode_utf8 character) }
{
    if character.is_ascii() {
        bytes.push(character as u8)?;
        return Ok(());
    }
    let mut units = [0; 4];
    bytes.extend_from_slice(character.encode_utf8(&mut units).as_bytes())
}

/// Adds a number of two bytes.
fn put_short(bytes: &mut Vec<u8>, number: u16) -> Result<(), AllocError>
    ensures { OnOk result (bytes.new.items ≡ bytes.old.items ++ little_bytes 2 number) }
{
    let mut digits = [0; 2];
    LittleEndian::write_u16(&mut digits, number);
    bytes.extend_from_slice(&digits)
}

/// Adds a number of four bytes.
fn put_number(bytes: &mut Vec<u8>, number: u32) -> Result<(), AllocError>
    ensures { OnOk result (bytes.new.items ≡ bytes.old.items ++ little_bytes 4 number) }
{
    let mut digits = [0; 4];
    LittleEndian::write_u32(&mut digits, number);
    bytes.extend_from_slice(&digits)
}
