//! The words of a line. Each module below reads what one word may say: a colour, a dimension, a text, the name of a
//! file or of a view, a gravity, a number or a weight.
//!
//! Runs of spaces separate words, also before the first and after the last. Only the one space after the word before a
//! text is no part of it. The whole line is tried against the grammar before any bounds, and both before the world is
//! asked.

ghost use Rattle.std.specs.Prelude.{◌≡◌, IfOk};
ghost use Rattle.std.specs.Char.{is_ascii};
ghost use Rattle.std.specs.List.{list_all, prefix_len};
ghost use Rattle.std.specs.Str.{is_utf8};
ghost use Rattle.line_words.specs.words.Words.{is_space};
ghost use Rattle.line_words.specs.words.Words.{after_word, end_of, first_word, in_word, literal_in, map_ok, on_of, text_of, word_in, words};
ghost use Rattle.line_words.specs.words.Words.{IsCut};

pub mod colors;
pub mod dimension;
pub mod escapes;
pub mod file_name;
pub mod gravity;
pub mod naming;
pub mod number;
pub mod weights;

use crate::fault::LineFault;
pub use view_model::words::is;

/// How many spaces there are at the front.
fn spaces(bytes: &[u8]) -> usize
    ensures count { result ≡ prefix_len is_space bytes.now }
    ensures within { IsCut bytes.now result }
{
    let mut at = 0;
    while at < bytes.len() && bytes[at] == b' ' {
        at += 1;
    }
    at
}

/// How long the word at the front is.
fn word_len(bytes: &[u8]) -> usize
    ensures count { result ≡ prefix_len in_word bytes.now }
    ensures within { IsCut bytes.now result }
{
    let mut at = 0;
    while at < bytes.len() && bytes[at] != b' ' {
        at += 1;
    }
    at
}

/// The first word, or the empty one if there is none, and what comes after it.
#[tactic(auto, unfolding(crate::specs::words::Words::first_word, crate::specs::words::Words::after_word))]
fn first(bytes: &[u8]) -> (&[u8], &[u8])
    ensures word { result.0.now ≡ first_word bytes.now }
    ensures rest { result.1.now ≡ after_word bytes.now }
{
    let line = &bytes[spaces(bytes)..];
    let len = word_len(line);
    (&line[..len], &line[len..])
}

/// The first word, and what comes after it.
#[tactic(auto, using(crate::proofs::texts::WordLaws::words_none, crate::proofs::texts::WordLaws::words_some))]
pub fn word(bytes: &[u8]) -> Result<(&[u8], &[u8]), LineFault>
    ensures value { map_ok (λ r. (r.0.now, words r.1.now)) result ≡ word_in (words bytes.now) }
    ensures rest { IfOk result (λ r. r.1.now ≡ after_word bytes.now) }
{
    let (word, rest) = first(bytes);
    if word.is_empty() {
        return Err(LineFault::Syntax);
    }
    Ok((word, rest))
}

/// This word, and what comes after it.
pub fn literal<'a>(name: &[u8], bytes: &'a [u8]) -> Result<&'a [u8], LineFault>
    ensures { map_ok (λ r. words r.now) result ≡ literal_in name.now (words bytes.now) }
{
    let (word, rest) = word(bytes)?;
    if is(word, name) {
        return Ok(rest);
    }
    Err(LineFault::Syntax)
}

/// No words are left.
#[tactic(auto, using(crate::proofs::texts::WordLaws::words_none, crate::proofs::texts::WordLaws::words_some))]
pub fn end(bytes: &[u8]) -> Result<(), LineFault>
    ensures { result ≡ end_of (words bytes.now) }
{
    let (word, _) = first(bytes);
    if word.is_empty() {
        return Ok(());
    }
    Err(LineFault::Syntax)
}

/// Whether each of a few bytes is ASCII. Four are tested together.
#[tactic(auto, using(crate::proofs::texts::PlainLaws::ascii_of_four))]
fn few_ascii(bytes: &[u8]) -> bool
    ensures { result ≡ list_all is_ascii bytes.now }
{
    if bytes.len() < 4 {
        return all_ascii(bytes);
    }
    let first = bytes[0].is_ascii() & bytes[1].is_ascii();
    let second = bytes[2].is_ascii() & bytes[3].is_ascii();
    if !(first & second) {
        return false;
    }
    all_ascii(&bytes[4..])
}

/// The same, each byte by itself.
fn all_ascii(bytes: &[u8]) -> bool
    ensures { result ≡ list_all is_ascii bytes.now }
{
    bytes.iter().all(|b| b.is_ascii())
}

/// Whether a line of less than eight bytes is valid UTF-8.
#[tactic(auto, using(crate::proofs::texts::PlainLaws::utf8_of_ascii))]
fn is_short_text(line: &[u8]) -> bool
    ensures { result ≡ is_utf8 line.now }
{
    few_ascii(line) || std::str::from_utf8(line).is_ok()
}

/// Whether a line is valid UTF-8. Most lines are ASCII, which is faster to see: std tests eight bytes together.
#[inline(always)]
pub fn is_text(line: &[u8]) -> bool
    ensures { result ≡ is_utf8 line.now }
{
    if line.len() < 8 {
        return is_short_text(line);
    }
    line.is_ascii() || std::str::from_utf8(line).is_ok()
}

/// Bytes as a text, if they are valid UTF-8.
#[tactic(auto, unfolding(crate::specs::words::Words::text_of))]
pub fn text(bytes: &[u8]) -> Result<&str, LineFault>
    ensures value { map_ok (λ text. text.now) result ≡ text_of bytes.now }
    ensures same { IfOk result (λ text. text.now ≡ bytes.now) }
{
    match std::str::from_utf8(bytes) {
        Ok(text) => Ok(text),
        Err(_) => Err(LineFault::Syntax),
    }
}

/// Whether something is on.
#[tactic(auto, unfolding(crate::specs::words::Words::on_of))]
pub fn read_on(word: &[u8]) -> Result<bool, LineFault>
    ensures { result ≡ on_of word.now }
{
    if is(word, b"yes") {
        return Ok(true);
    }
    if is(word, b"no") {
        return Ok(false);
    }
    Err(LineFault::Syntax)
}
