//! A frame: a pass over the tree, where it needs that, and a second one if a hook fired in the first.
//!
//! `frame` (`framing`) lays the whole tree out in a window and says how that ended (`outcome`: `Frame`, settled or not,
//! which hooks fired, what has to be painted). `pass` is one pass: measuring, then `laying`, with `laying/placer` for
//! where a group places its children. `firing` finds the hook that fires and makes its edits, `forcing` has the views
//! whose layout these request, and `reporting` the sizes that are reported to hooks. Nothing takes memory.
//!
//! `view_world` calls it for the line `frame`. It measures by `measure_pass`, places by `frame_layout`, `linear_layout`
//! and `scroll_offsets`, and gathers damage by `seen_parts`.
//!
//!     let done = frame(tree, hooks, Size { w: 100, h: 50 }, work);
//!     done.settled    // true if the last pass fired no hook
//!     done.damage     // the rectangle of the window that has to be painted
#![tactic(auto)]

mod firing;
mod forcing;
mod framing;
mod laying;
mod outcome;
mod pass;
mod reporting;

pub use framing::frame;
pub use outcome::Frame;
pub use reporting::near_size;
