//! Text in cells of 6 by 8 pixels: how long it is, where it breaks, what is set.
//!
//! `lines` has `widest`, the characters of the longest segment, `cells_in`, how many cells a line of some pixels has,
//! and `count`, how many lines a text takes; `breaking` has `first_line`, where the first of them ends, `cells` the
//! character of a cell, and `glyphs` the pixels of a character, a column at a time. Each call goes over the text at
//! most once. Nothing here takes memory.
//!
//! `measure_pass` measures a `TextView` by it, and `tree_painter` paints one. The definitions are `CellText` and
//! `Glyphs` of `view_model`.
//!
//!     cells_in(20)        // 3: 18 of the 20 pixels
//!     count(&text, 3)     // 2 for the text "abcd", in which no newline is
//!     glyph('I', 2)       // the middle column of an I: bit r is the pixel in row r
#![tactic(auto)]

mod breaking;
mod cells;
mod glyphs;
mod lines;

pub use breaking::{Break, first_line};
pub use cells::cell;
pub use glyphs::glyph;
pub use lines::{cells_in, count, widest};
