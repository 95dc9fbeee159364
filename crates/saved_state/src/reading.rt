//! Reading of saved states.
ghost use Rattle.std.specs.Prelude.{◌≡◌, ℕ, ◌≤◌, ◌+◌, List, Ok, drop, encode_utf8_all, length, slice_index, IfOk};
ghost use Rattle.saved_state.specs.Answers.{ReadAs};
ghost use Rattle.saved_state.specs.State.{IsState, decoded, encoded_as, entries_of, entry_of, entry_size, has_kind, head_of, id_of, kind_of, offset_of, text_of, value_of, value_size, words_of, IsPlaceIn};
ghost use Rattle.saved_state.specs.Numbers.{head_bytes, last_version};
ghost use Rattle.saved_state.specs.declared.value.Value.{Value};
ghost use Rattle.saved_state.specs.declared.value.Value.TheVariants.{Text as TextValue};

use crate::bytes::entry_bytes;
use crate::fault::{StateFault, bad_state};
use crate::format::{FIRST_VERSION, HEAD_BYTES, MAX_OFFSET, OFFSET_KIND, TEXT_KIND, VERSION};
use crate::states::States;
use crate::value::Value;
use byteorder::{ByteOrder, LittleEndian};
use std::alloc::Global;
use view_model::Text;

/// Reads a state of either version, or reports the first byte of the first field that is cut short or wrong, or of what
/// follows the state.
#[tactic(auto, unfolding(crate::specs::State::decoded))]
pub fn read(alloc: Global, bytes: &[u8]) -> Result<States, StateFault>
    ensures read { ReadAs (decoded bytes.now) result }
    ensures state { IfOk result (λ states. IsState last_version states) }
    ensures found { IfOk result (λ states. IsState (slice_index bytes.now 2) states
        × (bytes.now ≡ encoded_as (slice_index bytes.now 2) states)) }
    ensures only { (version : ℕ) (entries : List (ℕ × Value))
        → IsState version entries
        → bytes.now ≡ encoded_as version entries
        → ReadAs (Ok entries) result }
{
    let (version, count) = head_of(bytes)?;
    entries_of(alloc, bytes, version, count)
}

/// The state of `count` entries of a version, which follow the head and end with the bytes.
fn entries_of(alloc: Global, bytes: &[u8], version: u8, count: u16) -> Result<States, StateFault>
    requires { head_bytes ≤ length bytes.now }
    ensures read { ReadAs (entries_of version count 0 head_bytes (drop head_bytes bytes.now)) result }
    ensures state { IfOk result (λ states. IsState last_version states) }
{
    let mut entries = Vec::new(alloc);
    let mut before = 0;
    let mut place = HEAD_BYTES;
    for _ in 0..count {
        let entry = entry_at(alloc, bytes, version, place, before)?;
        before = entry.0;
        place += entry_bytes(&entry.1);
        entries.push(entry)?;
    }
    if place < bytes.len() {
        return Err(bad_state(place));
    }
    Ok(States { entries })
}

/// The version and the number of entries by the head of a state.
#[tactic(auto, unfolding(crate::specs::State::head_of))]
fn head_of(bytes: &[u8]) -> Result<(u8, u16), StateFault>
    ensures value { ReadAs (head_of bytes.now) result }
    ensures there { IfOk result (λ _. head_bytes ≤ length bytes.now) }
{
    if bytes.len() < 2 || bytes[0] != b'V' || bytes[1] != b'S' {
        return Err(bad_state(0));
    }
    if bytes.len() < 3 || (bytes[2] != FIRST_VERSION && bytes[2] != VERSION) {
        return Err(bad_state(2));
    }
    if bytes.len() < HEAD_BYTES {
        return Err(bad_state(3));
    }
    Ok((bytes[2], LittleEndian::read_u16(&bytes[3..])))
}

/// The entry at a place, after an entry of the id `before`.
#[tactic(auto, unfolding(crate::specs::State::entry_of))]
fn entry_at(
    alloc: Global,
    bytes: &[u8],
    version: u8,
    place: usize,
    before: u32,
) -> Result<(u32, Value), StateFault>
    requires { IsPlaceIn bytes.now place }
    ensures value { ReadAs (entry_of version before place (drop place bytes.now)) result }
    ensures there { IfOk result (λ entry. place + entry_size entry.1 ≤ length bytes.now) }
{
    let id = id_at(bytes, place, before)?;
    let kind = kind_at(bytes, place + 4, version)?;
    let value = value_at(alloc, bytes, place + 5, kind)?;
    Ok((id, value))
}

/// The id at a place, which is above the one `before`.
#[tactic(auto, unfolding(crate::specs::State::id_of))]
fn id_at(bytes: &[u8], place: usize, before: u32) -> Result<u32, StateFault>
    requires { IsPlaceIn bytes.now place }
    ensures value { ReadAs (id_of before place (drop place bytes.now)) result }
    ensures there { IfOk result (λ _. place + 4 ≤ length bytes.now) }
{
    let rest = following(bytes, place);
    if rest.len() < 4 {
        return Err(bad_state(place));
    }
    let id = LittleEndian::read_u32(rest);
    if id <= before {
        return Err(bad_state(place));
    }
    Ok(id)
}

/// The kind at a place of an entry of this version.
#[tactic(auto, unfolding(crate::specs::State::kind_of))]
fn kind_at(bytes: &[u8], place: usize, version: u8) -> Result<u8, StateFault>
    requires { IsPlaceIn bytes.now place }
    ensures value { ReadAs (kind_of version place (drop place bytes.now)) result }
    ensures there { IfOk result (λ _. place + 1 ≤ length bytes.now) }
{
    let rest = following(bytes, place);
    if rest.is_empty() || !has_kind(version, rest[0]) {
        return Err(bad_state(place));
    }
    Ok(rest[0])
}

/// Whether entries of a version may have this kind.
fn has_kind(version: u8, kind: u8) -> bool
    ensures { result ≡ has_kind version kind }
{
    kind == OFFSET_KIND || (version != FIRST_VERSION && kind == TEXT_KIND)
}

/// The value of this kind at a place.
fn value_at(alloc: Global, bytes: &[u8], place: usize, kind: u8) -> Result<Value, StateFault>
    requires { IsPlaceIn bytes.now place }
    ensures value { ReadAs (value_of kind place (drop place bytes.now)) result }
    ensures there { IfOk result (λ value. place + value_size value ≤ length bytes.now) }
{
    if kind == OFFSET_KIND {
        let offset = offset_at(bytes, place)?;
        return Ok(Value::Offset(offset));
    }
    let text = text_at(alloc, bytes, place)?;
    Ok(Value::Text(text))
}

/// The offset at a place, in pixels.
#[tactic(auto, unfolding(crate::specs::State::offset_of))]
fn offset_at(bytes: &[u8], place: usize) -> Result<u32, StateFault>
    requires { IsPlaceIn bytes.now place }
    ensures value { ReadAs (offset_of place (drop place bytes.now)) result }
    ensures there { IfOk result (λ _. place + 4 ≤ length bytes.now) }
{
    let rest = following(bytes, place);
    if rest.len() < 4 {
        return Err(bad_state(place));
    }
    let offset = LittleEndian::read_u32(rest);
    if offset > MAX_OFFSET {
        return Err(bad_state(place));
    }
    Ok(offset)
}

/// The text whose length is at a place.
#[tactic(auto, unfolding(crate::specs::State::text_of))]
fn text_at(alloc: Global, bytes: &[u8], place: usize) -> Result<Text, StateFault>
    requires { IsPlaceIn bytes.now place }
    ensures value { ReadAs (text_of place (drop place bytes.now)) result }
    ensures there { IfOk result (λ text. place + value_size (TextValue text) ≤ length bytes.now) }
{
    let rest = following(bytes, place);
    if rest.len() < 2 {
        return Err(bad_state(place));
    }
    let count = LittleEndian::read_u16(rest);
    words_at(alloc, bytes, place + 2, count)
}

/// The text of `count` bytes at a place.
#[tactic(auto, unfolding(crate::specs::State::words_of))]
fn words_at(alloc: Global, bytes: &[u8], place: usize, count: u16) -> Result<Text, StateFault>
    requires { IsPlaceIn bytes.now place }
    ensures value { ReadAs (words_of count place (drop place bytes.now)) result }
    ensures there { IfOk result (λ _. place + count ≤ length bytes.now) }
    ensures count { IfOk result (λ text. length (encode_utf8_all text) ≡ count) }
{
    let rest = following(bytes, place);
    let count = usize::from(count);
    if rest.len() < count {
        return Err(bad_state(place));
    }
    match std::str::from_utf8(&rest[..count]) {
        Ok(words) => Ok(Text::new(alloc, words)?),
        Err(_) => Err(bad_state(place)),
    }
}

/// The bytes from a place on.
fn following(bytes: &[u8], place: usize) -> &[u8]
    requires { IsPlaceIn bytes.now place }
    ensures { result.now ≡ drop place bytes.now }
{
    &bytes[place..]
}
