//! The strings of a pool while it is read.
ghost use Rattle.std.specs.Prelude.{◌≤◌};
ghost use Rattle.std.specs.List.{All};
ghost use Rattle.std.specs.String.{string_bytes};
ghost use Rattle.axml_chunks.specs.Limits.{max_text};
ghost use Rattle.axml_chunks.specs.Short.{IsShort};

/// The strings of a pool so far, and the sum of their lengths in bytes of UTF-8.
#[derive(Drop)]
pub(crate) struct Gathering {
    pub(crate) texts: Vec<String>,
    pub(crate) sum: usize,
    ghost room: { sum ≤ max_text },
    ghost each: { All (λ text. IsShort (string_bytes text)) texts.items },
}
