//! What is seen of views in a window: the rectangle of a view there, and the canvas of its children.
//!
//! `seen` (`climbing`) is what is seen of any view, through all its ancestors. `frame` has `Canvas`, where coordinates
//! begin and what may be touched, and the arithmetic of rectangles that may be far outside; `seeing` has what is seen
//! of a view in a canvas (`part_seen`), the canvas of its children, and `follow`, which adds to the damage what is seen
//! of a view that moves. `is_seen_within` (`origins`) takes less time than `seen` to find that a view is within a
//! rectangle. Nothing takes memory.
//!
//! `tree_painter` and `traversal` go down by canvases; `seen_edits` and `focus_finder` ask for one view.
//!
//!     seen(tree, Size { w: 100, h: 50 }, kid)    // 90 0 100 20, if the view is at 90 0 120 20 of the window
#![tactic(auto)]

mod climbing;
mod frame;
mod origins;
mod seeing;

pub use climbing::seen;
pub use frame::{Canvas, Frame, before, inner_frame, moved, part_in, past};
pub use origins::is_seen_within;
pub use seeing::{children_canvas, follow, part_seen, window_canvas, window_rect};
