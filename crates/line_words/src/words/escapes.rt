//! Texts with escapes, as lines give them.
//!
//! A backslash at the end of a text is no escape; a wrong escape counts before an id of 0.

ghost use Rattle.std.specs.Prelude.{◌≡◌, ℕ, List, IfOk, IsTrue};
ghost use Rattle.std.specs.Iterator.{YieldsFirst, item_count};
ghost use Rattle.std.specs.Str.{chars};
ghost use Rattle.line_words.specs.words.Escapes.{escaped, escaped_text_of, has_escapes, left, meant_by, rest_of, unescaped};
ghost use Rattle.line_words.specs.words.Words.{map_ok};

use crate::fault::LineFault;
use crate::words::text;

/// Whether each backslash begins an escape: `\n` or `\\`.
fn has_escapes(text: &[u8]) -> bool
    ensures { result ≡ has_escapes text.now }
{
    let mut bytes = text.iter();
    while let Some(b) = bytes.next() {
        if *b == b'\\' && !matches!(bytes.next(), Some(b'n' | b'\\')) {
            return false;
        }
    }
    true
}

/// Bytes as a text, its escapes as written.
#[tactic(auto, unfolding(crate::specs::words::Escapes::escaped_text_of))]
fn escaped_text(bytes: &[u8]) -> Result<&str, LineFault>
    ensures value { map_ok (λ text. text.now) result ≡ escaped_text_of bytes.now }
    ensures escapes { IfOk result (λ text. IsTrue (has_escapes text.now)) }
{
    if !has_escapes(bytes) {
        return Err(LineFault::Syntax);
    }
    text(bytes)
}

/// The text after one space, its escapes as written.
#[tactic(auto, unfolding(crate::specs::words::Escapes::rest_of))]
pub fn rest_text(rest: &[u8]) -> Result<&str, LineFault>
    ensures value { map_ok (λ text. text.now) result ≡ rest_of rest.now }
    ensures escapes { IfOk result (λ text. IsTrue (has_escapes text.now)) }
{
    if rest.is_empty() {
        return Err(LineFault::Syntax);
    }
    escaped_text(&rest[1..])
}

/// The character that an escape means, by the one after its backslash.
fn meant_by(c: char) -> char
    ensures { result ≡ meant_by c }
{
    if c == 'n' { '\n' } else { c }
}

/// The characters of a text, its escapes resolved.
#[derive(Clone, Drop)]
pub struct Unescaped<'a> {
    /// What is still to be resolved, its escapes as written.
    rest: &'a str,
}

impl<'a> Unescaped<'a> {
    /// The characters of a text whose escapes are as written.
    pub fn new(text: &'a str) -> Unescaped<'a>
        ensures value { left result ≡ unescaped (chars text.now) }
        ensures written { (characters : List ℕ) → chars text.now ≡ escaped characters → left result ≡ characters }
    {
        Unescaped { rest: text }
    }
}

impl<'a> Iterator for Unescaped<'a> {
    type Item = char;

    ghost next_gives = { YieldsFirst left };

    ghost remaining = { item_count left };

    /// The next character, that of an escape as what the escape means; a backslash at the end as itself.
    #[tactic(auto, using(crate::proofs::texts::EscapeLaws::plain_first, crate::proofs::texts::EscapeLaws::escape_first, crate::proofs::texts::EscapeLaws::backslash_last))]
    fn next(&mut self) -> Option<char> {
        let mut written = self.rest.chars();
        let c = written.next()?;
        if c != '\\' {
            self.rest = written.as_str();
            return Some(c);
        }
        let escaped = written.next();
        self.rest = written.as_str();
        match escaped {
            None => Some(c),
            Some(d) => Some(meant_by(d)),
        }
    }
}
