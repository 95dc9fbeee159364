//! The cells of a text.
ghost use Rattle.std.specs.Prelude.{◌≡◌, ◌<◌, ◌^◌, nat_lt, if◌then◌else◌, length, None};
ghost use Rattle.view_model.specs.CellText.{cell_in, cell_of, lines_for};
ghost use Rattle.cell_text.specs.Rows.{HasCells};

use crate::lines::{NEWLINE, lines_for};
use view_model::Text;

/// The character of a cell of a text in lines of `n` cells, if there is one. Lines, and places in a line, count from 0.
pub fn cell(text: &Text, n: u32, line: u32, place: u32) -> Option<char>
    requires { HasCells n }
    ensures { result ≡ cell_of n text.now line place }
{
    let characters = text.characters();
    let mut line = line;
    let mut begin = 0;
    for (end, c) in characters.iter().enumerate() {
        if *c == NEWLINE {
            let segment = &characters[begin..end];
            let lines = lines_for(segment.len() as u32, n);
            if line < lines {
                return cell_in(segment, n, line, place);
            }
            line -= lines;
            begin = end + 1;
        }
    }
    last_cell(&characters[begin..], n, line, place)
}

/// The character of a cell of the last segment, if there is one.
#[tactic(auto, unfolding(view_model::specs::CellText::cell_in))]
fn last_cell(segment: &[char], n: u32, line: u32, place: u32) -> Option<char>
    requires cells { HasCells n }
    requires few { length segment.now < 2 ^ 31 }
    ensures { result ≡ (if nat_lt line (lines_for n (length segment.now))
        then cell_in n segment.now line place else None) }
{
    if line < lines_for(segment.len() as u32, n) {
        return cell_in(segment, n, line, place);
    }
    None
}

/// The character of a cell of a segment, by the number of its line in the segment and its place in the line.
#[tactic(auto, unfolding(view_model::specs::CellText::cell_in))]
fn cell_in(segment: &[char], n: u32, line: u32, place: u32) -> Option<char>
    ensures { result ≡ cell_in n segment.now line place }
{
    if place >= n {
        return None;
    }
    let before = line as u64 * n as u64;
    segment.get((before + place as u64) as usize).copied()
}
