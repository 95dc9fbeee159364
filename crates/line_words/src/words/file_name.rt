//! The names that a layout file may have.

ghost use Rattle.std.specs.Prelude.{◌≡◌};
ghost use Rattle.std.specs.List.{list_all};
ghost use Rattle.line_words.specs.words.FileNames.{file_name_in, file_name_of, is_file_name, is_file_name_byte};
ghost use Rattle.line_words.specs.words.Words.{map_ok, words};

use crate::fault::LineFault;
use crate::words::{text, word};

/// Whether a layout file may have this name.
#[tactic(auto, unfolding(crate::specs::words::FileNames::is_file_name))]
pub fn is_file_name(name: &[u8]) -> bool
    ensures { result ≡ is_file_name name.now }
{
    !name.is_empty() && name.len() <= 64 && are_file_name_bytes(name) && name[0] != b'.'
}

/// Whether each byte is one that the name of a layout file may have.
fn are_file_name_bytes(bytes: &[u8]) -> bool
    ensures { result ≡ list_all is_file_name_byte bytes.now }
{
    bytes.iter().all(|b| b.is_ascii_alphanumeric() || *b == b'_' || *b == b'-' || *b == b'.')
}

/// The file that a word names.
fn read_file_name(word: &[u8]) -> Result<&str, LineFault>
    ensures { map_ok (λ name. name.now) result ≡ file_name_of word.now }
{
    if !is_file_name(word) {
        return Err(LineFault::Syntax);
    }
    text(word)
}

/// The file that the first word names, and what comes after it.
pub fn file_name_word(bytes: &[u8]) -> Result<(&str, &[u8]), LineFault>
    ensures { map_ok (λ r. (r.0.now, words r.1.now)) result ≡ file_name_in (words bytes.now) }
{
    let (word, rest) = word(bytes)?;
    Ok((read_file_name(word)?, rest))
}
