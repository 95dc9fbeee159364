//! Texts without escapes.

ghost use Rattle.std.specs.Prelude.{◌≡◌, true, not, chars};
ghost use Rattle.std.specs.List.{list_all};
ghost use Rattle.line_words.specs.words.Escapes.{is_backslash, unescaped};

/// Whether none of these bytes is a backslash.
fn has_no_backslash(bytes: &[u8]) -> bool
    ensures { result ≡ list_all (λ b. not (is_backslash b)) bytes.now }
{
    bytes.iter().all(|b| *b != b'\\')
}

/// Whether a text has no escapes, and so means what is written.
pub fn is_plain(text: &str) -> bool
    ensures value { result ≡ list_all (λ b. not (is_backslash b)) text.now }
    ensures plain { result ≡ true → unescaped (chars text.now) ≡ chars text.now }
{
    has_no_backslash(text.as_bytes())
}
