//! The numbers of a line.
//!
//! `-0`, `+1`, `01` and eleven digits are no numbers. One to ten digits outside the bounds are read, and refused for
//! the bounds; so is a dimension below 0, which never means `match` or `wrap`. Both numbers of a weight and their sum
//! have bounds.

ghost use Rattle.std.specs.Prelude.{◌≡◌, ◌<◌, ◌≤◌, ◌^◌, pos, negsuc, ◌≤ℤ◌, length, if◌then◌else◌, Some, None, IfSome, IfOk};
ghost use Rattle.std.specs.Char.{is_ascii_digit};
ghost use Rattle.std.specs.List.{list_all};
ghost use Rattle.line_words.specs.words.Numbers.{IsWithin, digits_value, integer_in, integer_of, natural_of, pair_of, natural_within, within_of};
ghost use Rattle.line_words.specs.words.Words.{map_ok, words};

use crate::fault::LineFault;
use crate::words::{end, word};

/// The number that up to ten digits write; `None` if one of the bytes is no digit.
fn read_digits(word: &[u8]) -> Option<u64>
    requires { length word.now ≤ 10 }
    ensures value { result ≡ if list_all is_ascii_digit word.now then Some (digits_value word.now) else None }
    ensures below { IfSome result (λ n. n < 10 ^ 10) }
{
    let mut n = 0u64;
    for d in word {
        if !d.is_ascii_digit() {
            return None;
        }
        n = 10 * n + d.saturating_sub(b'0') as u64;
    }
    Some(n)
}

/// The number that a word of digits writes.
#[tactic(auto, unfolding(crate::specs::words::Numbers::natural_of))]
pub fn natural(word: &[u8]) -> Option<u64>
    ensures value { result ≡ natural_of word.now }
    ensures below { IfSome result (λ n. n < 10 ^ 10) }
{
    if word.is_empty() || word.len() > 10 {
        return None;
    }
    if word.len() > 1 && word[0] == b'0' {
        return None;
    }
    read_digits(word)
}

/// The number that a word writes.
#[tactic(auto, unfolding(crate::specs::words::Numbers::integer_of))]
pub fn integer(word: &[u8]) -> Result<i64, LineFault>
    ensures { result ≡ integer_of word.now }
{
    if !word.is_empty() && word[0] == b'-' {
        return match natural(&word[1..]) {
            None | Some(0) => Err(LineFault::Syntax),
            Some(n) => Ok(-(n as i64)),
        };
    }
    match natural(word) {
        None => Err(LineFault::Syntax),
        Some(n) => Ok(n as i64),
    }
}

/// The number that the first word writes, and what comes after it.
pub fn number(bytes: &[u8]) -> Result<(i64, &[u8]), LineFault>
    ensures { map_ok (λ r. (r.0, words r.1.now)) result ≡ integer_in (words bytes.now) }
{
    let (word, rest) = word(bytes)?;
    Ok((integer(word)?, rest))
}

/// A number within its bounds.
#[tactic(auto, unfolding(crate::specs::words::Numbers::within_of))]
pub fn within(low: i64, high: i64, n: i64) -> Result<i32, LineFault>
    requires low { negsuc 2147483646 ≤ℤ low }
    requires high { high ≤ℤ pos 2147483647 }
    ensures value { result ≡ within_of low high n }
    ensures bounds { IfOk result (λ n. IsWithin low high n) }
{
    if low <= n && n <= high {
        Ok(n as i32)
    } else {
        Err(LineFault::Range)
    }
}

/// A number that is not negative, within its bounds.
#[tactic(auto, unfolding(crate::specs::words::Numbers::natural_within))]
pub fn natural_within(low: u32, high: u32, n: i64) -> Result<u32, LineFault>
    ensures value { result ≡ natural_within low high n }
    ensures low { IfOk result (λ n. low ≤ n) }
    ensures high { IfOk result (λ n. n ≤ high) }
{
    if i64::from(low) <= n && n <= i64::from(high) {
        Ok(n as u32)
    } else {
        Err(LineFault::Range)
    }
}

/// The two numbers that end a line, each within these bounds.
#[tactic(auto, unfolding(crate::specs::words::Numbers::pair_of))]
pub fn pair(low: i64, high: i64, bytes: &[u8]) -> Result<(i32, i32), LineFault>
    requires low { negsuc 2147483646 ≤ℤ low }
    requires high { high ≤ℤ pos 2147483647 }
    ensures value { result ≡ pair_of low high (words bytes.now) }
    ensures bounds { IfOk result (λ r. IsWithin low high r.0 × IsWithin low high r.1) }
{
    let (a, rest) = number(bytes)?;
    let (b, rest) = number(rest)?;
    end(rest)?;
    let first = within(low, high, a)?;
    let second = within(low, high, b)?;
    Ok((first, second))
}
