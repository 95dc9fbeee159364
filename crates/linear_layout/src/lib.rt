//! A linear layout: how it measures its children, one call at a time, and where it places them.
//!
//! `LinearPlan` (`plan`) never sees a child: its owner asks it for the specs of each child in turn, measures that child
//! as it likes and passes the size back. Up to three passes follow one another: the first pass (`first_pass`), the
//! weight pass, in which what is left of the line is shared by weight (`weight_pass`), and the uniform pass, which
//! makes children as broad as the group (`breadth`). The plan keeps sums and maxima, and no list. `Cursor` (`cursor`)
//! places children, one after the other.
//!
//! `axis` reads facts, sizes and specs on an axis, `line` has the group with its specs and what a child takes of it;
//! `running`, `sharing` and `mark` have running numbers with their ranges, and `wide` brings those of 128 bits into
//! ranges. `measure_pass` measures by it, `traversal` places.
//!
//!     let mut cursor = Cursor::start(own, room, total);    // `total` is what `LinearPlan::total` found
//!     cursor.place(first, first_size)                      // the rectangle of the first child
//!     cursor.place(second, second_size)                    // beside or below it, by margins and gravity
#![tactic(auto)]

mod axis;
mod breadth;
mod cursor;
mod first_pass;
mod line;
mod mark;
mod plan;
mod running;
mod sharing;
mod weight_pass;
mod wide;

pub use axis::is_sized;
pub use cursor::{Cursor, is_backwards};
pub use plan::LinearPlan;
