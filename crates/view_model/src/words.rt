//! Words, as lines of scripts and layout files have them.

ghost use Rattle.std.specs.Prelude.{◌≡◌};
ghost use Rattle.std.specs.Str.{bytes_eq};

/// Whether two words are equal. Most words that are compared differ in their length or their first byte; where one of
/// them is written in the code, the loop becomes a test for each of its bytes.
#[inline]
pub fn is(word: &[u8], name: &[u8]) -> bool
    ensures { result ≡ bytes_eq word.now name.now }
{
    if word.len() != name.len() {
        return false;
    }
    let mut at = 0;
    while at < word.len() {
        if word[at] != name[at] {
            return false;
        }
        at += 1;
    }
    true
}
