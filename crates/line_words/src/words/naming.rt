//! How a line names a view.
//!
//! The number of `vN` has no bound: `v0` and `v9999999999` name no view. Hexadecimal digits may have either case; more
//! than eight are no name. `@0` is well formed and names no view. Ids with the highest bit set are ids as any other.

ghost use Rattle.std.specs.Prelude.{◌≡◌, ◌<◌, ◌≤◌, length, if◌then◌else◌, Some, None, IfSome, IfOk};
ghost use Rattle.std.specs.Char.{is_ascii_hexdigit};
ghost use Rattle.std.specs.List.{list_all};
ghost use Rattle.line_words.specs.words.Names.{hex_digit_of, hex_of, hex_value, id_in, id_of, name_in, name_of, parent_in, parent_of};
ghost use Rattle.line_words.specs.words.Words.{after_word, map_ok, words};

use crate::fault::LineFault;
use crate::words::number::natural;
use crate::words::{is, word};

/// How a line names a view.
#[derive(Clone, Copy)]
pub enum Name {
    /// By the number that it was given when it was made.
    Number(u64),
    /// By its id: the first view in preorder that has it. 0 names none.
    Id(u32),
}

/// The value of a hexadecimal digit.
#[tactic(auto, unfolding(crate::specs::words::Names::hex_digit_of))]
fn hex_digit(b: u8) -> Option<u8>
    ensures value { result ≡ if is_ascii_hexdigit b then Some (hex_digit_of b) else None }
    ensures below { IfSome result (λ digit. digit < 16) }
{
    if b.is_ascii_digit() {
        return Some(b - b'0');
    }
    match b {
        b'a'..=b'f' => Some(b - b'a' + 10),
        b'A'..=b'F' => Some(b - b'A' + 10),
        _ => None,
    }
}

/// The number that up to eight hexadecimal digits write; `None` if one of the bytes is no digit.
fn read_hex(word: &[u8]) -> Option<u32>
    requires { length word.now ≤ 8 }
    ensures { result ≡ if list_all is_ascii_hexdigit word.now then Some (hex_value word.now) else None }
{
    let mut n = 0u32;
    for d in word {
        let Some(digit) = hex_digit(*d) else {
            return None;
        };
        n = 16 * n + digit as u32;
    }
    Some(n)
}

/// Whether each byte is a hexadecimal digit.
pub fn all_hex(word: &[u8]) -> bool
    ensures { result ≡ list_all is_ascii_hexdigit word.now }
{
    word.iter().all(|b| b.is_ascii_hexdigit())
}

/// The number of one to eight hexadecimal digits.
#[tactic(auto, unfolding(crate::specs::words::Names::hex_of))]
pub fn hex(word: &[u8]) -> Option<u32>
    ensures { result ≡ hex_of word.now }
{
    if word.is_empty() || word.len() > 8 {
        return None;
    }
    read_hex(word)
}

/// The id that a word gives.
#[tactic(auto, unfolding(crate::specs::words::Names::id_of))]
fn read_id(word: &[u8]) -> Result<u32, LineFault>
    ensures { result ≡ id_of word.now }
{
    if word.is_empty() || word[0] != b'@' {
        return Err(LineFault::Syntax);
    }
    match hex(&word[1..]) {
        None => Err(LineFault::Syntax),
        Some(id) => Ok(id),
    }
}

/// The id that the first word gives, and what comes after it.
pub fn id_word(bytes: &[u8]) -> Result<(u32, &[u8]), LineFault>
    ensures value { map_ok (λ r. (r.0, words r.1.now)) result ≡ id_in (words bytes.now) }
    ensures rest { IfOk result (λ r. r.1.now ≡ after_word bytes.now) }
{
    let (word, rest) = word(bytes)?;
    Ok((read_id(word)?, rest))
}

/// The view that a word names.
#[tactic(auto, unfolding(crate::specs::words::Names::name_of))]
fn read_name(word: &[u8]) -> Result<Name, LineFault>
    ensures { result ≡ name_of word.now }
{
    if !word.is_empty() && word[0] == b'v' {
        return match natural(&word[1..]) {
            None => Err(LineFault::Syntax),
            Some(number) => Ok(Name::Number(number)),
        };
    }
    Ok(Name::Id(read_id(word)?))
}

/// The view that the first word names, and what comes after it.
pub fn name_word(bytes: &[u8]) -> Result<(Name, &[u8]), LineFault>
    ensures value { map_ok (λ r. (r.0, words r.1.now)) result ≡ name_in (words bytes.now) }
    ensures rest { IfOk result (λ r. r.1.now ≡ after_word bytes.now) }
{
    let (word, rest) = word(bytes)?;
    Ok((read_name(word)?, rest))
}

/// The parent that a word names; `None` is for the root.
#[tactic(auto, unfolding(crate::specs::words::Names::parent_of))]
fn read_parent(word: &[u8]) -> Result<Option<Name>, LineFault>
    ensures { result ≡ parent_of word.now }
{
    if is(word, b"root") {
        return Ok(None);
    }
    Ok(Some(read_name(word)?))
}

/// The parent that the first word names, and what comes after it.
pub fn parent_word(bytes: &[u8]) -> Result<(Option<Name>, &[u8]), LineFault>
    ensures { map_ok (λ r. (r.0, words r.1.now)) result ≡ parent_in (words bytes.now) }
{
    let (word, rest) = word(bytes)?;
    Ok((read_parent(word)?, rest))
}
