//! Which view gets the focus next, from a view to a side of it.
//!
//! `next` (`searching`) walks over the tree once and keeps the best candidate: of the views that answer `click` and are
//! on the side that is asked for (`side`: `Side`, and how rectangles are to each other), the one with the least key
//! (`keys`), those in the beam of the view first. A view counts by what is seen of it. Nothing takes memory.
//!
//! `whole_tool` calls it for the command `focus SIDE V`, after the lines of a script.
//!
//!     next(tree, window, view, Side::Right)    // Some: the key of a view; None if there is none on that side
#![tactic(auto)]

mod keys;
mod searching;
mod side;

pub use searching::next;
pub use side::Side;
