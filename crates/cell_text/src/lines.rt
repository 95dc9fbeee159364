//! The lines of a text.
ghost use Rattle.std.specs.Prelude.{◌≡◌, ◌<◌, ◌≤◌, ◌+◌, ◌^◌, ◌≤ℤ◌, pos};
ghost use Rattle.view_model.specs.CellText.{count_of_lines, lines_for, widest_of};
ghost use Rattle.view_model.specs.TextView.{cells_in};
ghost use Rattle.cell_text.specs.Rows.{HasCells};

use view_model::Text;
use view_model::limits::CELL_WIDTH;

/// The character that ends segments.
pub const NEWLINE: char = '\n';

/// How many characters the longest segment of a text has.
pub fn widest(text: &Text) -> u32
    ensures { result ≡ widest_of text.now }
{
    let mut widest = 0;
    let mut length = 0;
    for c in text.characters() {
        if *c == NEWLINE {
            widest = widest.max(length);
            length = 0;
        } else {
            length += 1;
        }
    }
    widest.max(length)
}

/// How many cells a line has in this many pixels: at least one, even if there is no room.
#[tactic(auto, unfolding(view_model::specs::TextView::cells_in))]
pub fn cells_in(room: i64) -> u32
    requires { room ≤ℤ pos (2 ^ 34) }
    ensures value { result ≡ cells_in room }
    ensures some { 0 < result }
{
    if room < 0 {
        return 1;
    }
    ((room / i64::from(CELL_WIDTH)) as u32).max(1)
}

/// How many lines of `n` cells a text takes.
pub fn count(text: &Text, n: u32) -> u32
    requires { HasCells n }
    ensures { result ≡ count_of_lines n text.now }
{
    let mut lines = 0;
    let mut cells = 0;
    for c in text.characters() {
        if *c == NEWLINE {
            lines += lines_for(cells, n);
            cells = 0;
        } else {
            cells += 1;
        }
    }
    lines + lines_for(cells, n)
}

/// How many lines of `n` cells a segment of this many characters takes.
#[tactic(auto, unfolding(view_model::specs::CellText::lines_for))]
pub fn lines_for(length: u32, n: u32) -> u32
    requires { HasCells n }
    ensures value { result ≡ lines_for n length }
    ensures most { result ≤ length + 1 }
{
    length.div_ceil(n).max(1)
}
