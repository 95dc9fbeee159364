//! Texts that lines give to views.

ghost use Rattle.std.specs.Prelude.{◌≡◌, ◌≤◌, IfOk, chars, encode_utf8_all, length};
ghost use Rattle.std.specs.String.{string_bytes};
ghost use Rattle.line_words.specs.words.Escapes.{unescaped};

use line_words::Unescaped;
use std::alloc::{AllocError, Global};

/// Collects the characters of a text, its escapes resolved, as UTF-8.
fn collect_string(alloc: Global, text: &str) -> Result<String, AllocError>
    ensures { IfOk result (λ resolved. string_bytes resolved ≡ encode_utf8_all (unescaped (chars text.now))) }
{
    let resolved = Unescaped::new(text).collect(alloc)?;
    Ok(resolved)
}

/// Resolves the escapes of a text that are as written.
pub fn resolve_escapes(alloc: Global, text: &str) -> Result<String, AllocError>
    ensures value { IfOk result (λ resolved. chars (string_bytes resolved) ≡ unescaped (chars text.now)) }
    ensures short { IfOk result (λ resolved. length (string_bytes resolved) ≤ length text.now) }
{
    let resolved = collect_string(alloc, text)?;
    Ok(resolved)
}
