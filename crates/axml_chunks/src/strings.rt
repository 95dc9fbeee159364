//! One string of a pool, in UTF-8 or UTF-16.
//!
//! A lone surrogate in UTF-16, and in UTF-8 a surrogate or a longer form than needed, is `BadString`.
ghost use Rattle.std.specs.Prelude.{◌≡◌, ◌+◌, ◌*◌, ◌^◌, ◌<◌, ◌≤◌, length, IfSome, IfOk};
ghost use Rattle.std.specs.Option.{option_map};
ghost use Rattle.std.specs.String.{string_bytes};
ghost use Rattle.axml_chunks.specs.Pool.{string_at, text_at};
ghost use Rattle.axml_chunks.specs.Strings.{utf8_length, utf16_length, text_of_bytes, ended_bytes, ended_units, utf8_text, utf16_text, text_of_units, units_at};

use crate::chunk::{u16_at, u32_at};
use crate::pool::Header;
use std::alloc::{AllocError, Global};

/// A length in one byte or two, and the place after it.
#[tactic(auto, unfolding(crate::specs::Strings::utf8_length))]
fn utf8_length(chunk: &[u8], i: usize) -> Option<(usize, usize)>
    ensures value { result ≡ utf8_length chunk.now i }
    ensures place { IfSome result (λ r. r.1 ≤ length chunk.now) }
{
    if i >= chunk.len() {
        return None;
    }
    let first = chunk[i] as usize;
    if first < 0x80 {
        return Some((first, i + 1));
    }
    if i + 1 >= chunk.len() {
        return None;
    }
    Some(((first - 0x80) * 256 + chunk[i + 1] as usize, i + 2))
}

/// The bytes as a text, if they are one.
#[tactic(auto, using(crate::proofs::Texts::is_taken, crate::proofs::Texts::is_refused))]
fn text_of_bytes(bytes: &[u8]) -> Option<&str>
    ensures { option_map (λ s. s.now) result ≡ text_of_bytes bytes.now }
{
    match str::from_utf8(bytes) {
        Ok(text) => Some(text),
        Err(_) => None,
    }
}

/// The text of `len` bytes at a place, if a zero follows.
#[tactic(auto, unfolding(crate::specs::Strings::ended_bytes))]
fn ended_bytes(chunk: &[u8], i: usize, len: usize) -> Option<&str>
    requires { i ≤ length chunk.now }
    ensures { option_map (λ s. s.now) result ≡ ended_bytes chunk.now i len }
{
    if chunk.len() - i <= len {
        return None;
    }
    if chunk[i + len] != 0 {
        return None;
    }
    text_of_bytes(&chunk[i..i + len])
}

/// The string in UTF-8 at a place.
#[tactic(auto, unfolding(crate::specs::Strings::utf8_text))]
fn utf8_text(chunk: &[u8], i: usize) -> Option<&str>
    ensures { option_map (λ s. s.now) result ≡ utf8_text chunk.now i }
{
    let (_units, i) = utf8_length(chunk, i)?;
    let (len, i) = utf8_length(chunk, i)?;
    ended_bytes(chunk, i, len)
}

/// The `len` units from a place on.
fn units_at(alloc: Global, chunk: &[u8], i: usize, len: usize) -> Result<Vec<u16>, AllocError>
    requires { i + 2 * len ≤ length chunk.now }
    ensures { IfOk result (λ units. units.items ≡ units_at chunk.now i len) }
{
    let mut units = Vec::with_capacity(alloc, len)?;
    for k in 0..len {
        units.push(u16_at(chunk, i + 2 * k))?;
    }
    Ok(units)
}

/// The text of units, if they are one.
#[tactic(auto, unfolding(crate::specs::Strings::text_of_units))]
fn text_of_units(alloc: Global, units: &[u16]) -> Result<Option<String>, AllocError>
    ensures { IfOk result (λ text. option_map string_bytes text ≡ text_of_units units.now) }
{
    let text = String::from_utf16(alloc, units)?;
    Ok(text.ok())
}

/// A length in one unit or two, and the place after it.
#[tactic(auto, unfolding(crate::specs::Strings::utf16_length))]
fn utf16_length(chunk: &[u8], i: usize) -> Option<(usize, usize)>
    requires { i < 2 ^ 40 }
    ensures value { result ≡ utf16_length chunk.now i }
    ensures place { IfSome result (λ r. (r.1 ≤ length chunk.now) × (r.0 < 2 ^ 32)) }
{
    if chunk.len() < i + 2 {
        return None;
    }
    let first = u16_at(chunk, i) as usize;
    if first < 0x8000 {
        return Some((first, i + 2));
    }
    if chunk.len() < i + 4 {
        return None;
    }
    let second = u16_at(chunk, i + 2) as usize;
    Some(((first - 0x8000) * 65536 + second, i + 4))
}

/// The text of `len` units at a place, if a zero follows.
#[tactic(auto, unfolding(crate::specs::Strings::ended_units))]
fn ended_units(
    alloc: Global,
    chunk: &[u8],
    i: usize,
    len: usize,
) -> Result<Option<String>, AllocError>
    requires place { i ≤ length chunk.now }
    requires len { len < 2 ^ 32 }
    ensures { IfOk result (λ text. option_map string_bytes text ≡ ended_units chunk.now i len) }
{
    if chunk.len() - i < 2 * len + 2 {
        return Ok(None);
    }
    if u16_at(chunk, i + 2 * len) != 0 {
        return Ok(None);
    }
    let units = units_at(alloc, chunk, i, len)?;
    text_of_units(alloc, &units)
}

/// The string in UTF-16 at a place.
#[tactic(auto, unfolding(crate::specs::Strings::utf16_text))]
fn utf16_text(alloc: Global, chunk: &[u8], i: usize) -> Result<Option<String>, AllocError>
    requires { i < 2 ^ 40 }
    ensures { IfOk result (λ text. option_map string_bytes text ≡ utf16_text chunk.now i) }
{
    let Some((len, i)) = utf16_length(chunk, i) else {
        return Ok(None);
    };
    ended_units(alloc, chunk, i, len)
}

/// A text as a string of its own.
fn owned(alloc: Global, text: Option<&str>) -> Result<Option<String>, AllocError>
    ensures { IfOk result (λ owned. option_map string_bytes owned ≡ option_map (λ s. s.now) text.entry) }
{
    match text {
        Some(text) => Ok(Some(String::from_str(alloc, text)?)),
        None => Ok(None),
    }
}

/// The string at a place, if it is a text.
#[tactic(auto, unfolding(crate::specs::Pool::string_at))]
fn string_at(
    alloc: Global,
    utf8: bool,
    chunk: &[u8],
    i: usize,
) -> Result<Option<String>, AllocError>
    requires { i < 2 ^ 40 }
    ensures { IfOk result (λ text. option_map string_bytes text ≡ string_at utf8 chunk.now i) }
{
    if utf8 {
        owned(alloc, utf8_text(chunk, i))
    } else {
        utf16_text(alloc, chunk, i)
    }
}

/// String `k`, if it is a text.
pub fn text_at(
    alloc: Global,
    chunk: &[u8],
    head: usize,
    header: Header,
    k: usize,
) -> Result<Option<String>, AllocError>
    requires entry { head + 4 * k + 4 ≤ length chunk.now }
    requires first { header.first < 2 ^ 32 }
    ensures { IfOk result (λ text. option_map string_bytes text ≡ text_at chunk.now head header k) }
{
    let place = header.first + u32_at(chunk, head + 4 * k) as usize;
    string_at(alloc, header.utf8, chunk, place)
}
