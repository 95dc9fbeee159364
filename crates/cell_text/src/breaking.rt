//! Where the lines of a text begin.
ghost use Rattle.std.specs.Prelude.{◌≡◌, ◌≢◌, ℕ, ◌+◌, ◌<◌, ◌≤◌, length, take, drop, get_or, slice_get};
ghost use Rattle.view_model.specs.CellText.{cell_of, newline};
ghost use Rattle.cell_text.specs.Rows.{HasCells};

use crate::lines::NEWLINE;

/// The first line of a text: its characters are before `end`, and the next line begins at `next`.
#[derive(Clone, Copy)]
pub struct Break {
    pub end: usize,
    pub next: usize,
}

/// Where the first line of a text in lines of `n` cells ends: at a newline, which belongs to it, at the first character
/// that has no cell left, or with the text.
pub fn first_line(text: &[char], n: u32) -> Break
    requires { HasCells n }
    ensures within { (result.end ≤ result.next) × (result.next ≤ length text.now) }
    ensures goes_on { 0 < length text.now → 0 < result.next }
    ensures first { (place : ℕ) → cell_of n text.now 0 place ≡ slice_get (take result.end text.now) place }
    ensures rest { (line place : ℕ)
        → cell_of n text.now (line + 1) place ≡ cell_of n (drop result.next text.now) line place }
{
    let end = line_end(text, n as usize);
    let next = match text.get(end) {
        Some(c) => if *c == NEWLINE { end + 1 } else { end },
        None => end,
    };
    Break { end, next }
}

/// The place of the first newline among the first `n` characters, or else how many of these there are.
fn line_end(text: &[char], n: usize) -> usize
    ensures short { result ≤ n }
    ensures within { result ≤ length text.now }
    ensures plain { (k : ℕ) → k < result → get_or text.now k newline ≢ newline }
    ensures full { result < n → result < length text.now → get_or text.now result newline ≡ newline }
{
    let mut end = 0;
    while end < n && end < text.len() && text[end] != NEWLINE {
        end += 1;
    }
    end
}
