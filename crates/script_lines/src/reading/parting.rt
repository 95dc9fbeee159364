//! The edits of a hook, which the word `;` separates.

ghost use Rattle.std.specs.Prelude.{◌≡◌, ◌≤◌, ◌<◌, ◌∷◌, [], length, take, drop, IfSome};
ghost use Rattle.std.specs.List.{slice_split};
ghost use Rattle.script_lines.specs.reading.Hooks.{parts_edits};
ghost use Rattle.line_words.specs.words.Words.{words};

use line_words::words::{is, word};

/// Where the edit at the front ends, and where the next one begins after its `;`; nothing if it is the last.
pub fn first_edit(bytes: &[u8]) -> Option<(usize, usize)>
    ensures last { result ≡ None → slice_split parts_edits (words bytes.now) ≡ words bytes.now ∷ [] }
    ensures cut { IfSome result (λ r. slice_split parts_edits (words bytes.now)
        ≡ words (take r.0 bytes.now) ∷ slice_split parts_edits (words (drop r.1 bytes.now))) }
    ensures within { IfSome result (λ r. r.0 ≤ length bytes.now) }
    ensures forward { IfSome result (λ r. 0 < r.1) }
    ensures following { IfSome result (λ r. r.1 ≤ length bytes.now) }
{
    let mut at = 0;
    while let Ok((word, rest)) = word(&bytes[at..]) {
        let following = bytes.len() - rest.len();
        if is(word, b";") {
            return Some((at, following));
        }
        at = following;
    }
    None
}
