//! Where a byte is.

ghost use Rattle.std.specs.Prelude.{◌≡◌, ◌==◌};
ghost use Rattle.std.specs.List.{position_or_len};
ghost use Rattle.line_words.specs.words.Words.{IsCut};

use memchr::memchr;

/// Where this byte comes first, or the length.
#[tactic(auto, using(crate::proofs::texts::OffsetLaws::place_none, crate::proofs::texts::OffsetLaws::place_some))]
#[inline]
pub fn offset_of(byte: u8, bytes: &[u8]) -> usize
    ensures place { result ≡ position_or_len (λ b. b == byte) bytes.now }
    ensures within { IsCut bytes.now result }
{
    match memchr(byte, bytes) {
        None => bytes.len(),
        Some(place) => place,
    }
}
