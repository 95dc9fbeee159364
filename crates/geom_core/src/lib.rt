//! Numbers on the screen: sizes, rectangles, colours, and the specs of measuring.
//!
//! `geometry` has `Size`, `Rect` and `Insets`, in whole pixels; `measuring` has `Spec`, a mode and a size, by which a
//! parent asks a child for a size on one axis; `color` has `Argb`; `limits` has the range of every size, 0..16777215,
//! and of every left and top edge, -2^28..2^28. The main calls are `child_spec`, which makes a child's spec of its
//! parent's, `default_size` and `resolve`, which make a size of it, and `blend`, which shows one colour over another.
//!
//! Each crate that computes with pixels uses it. It uses no other crate, and takes no memory.
//!
//!     let parent = Spec { mode: Mode::Exactly, size: 100 };
//!     child_spec(parent, 20, MATCH)    // Exactly 80: padding and margins take 20 of the 100 pixels
//!     child_spec(parent, 20, WRAP)     // AtMost 80
//!     child_spec(parent, 20, 30)       // Exactly 30
#![tactic(auto)]

mod color;
mod geometry;
mod limits;
mod measuring;

pub use color::{Argb, BLACK, blend};
pub use geometry::{Insets, Rect, Size, hull, meet};
pub use limits::{to_coordinate, to_size};
pub use measuring::{MATCH, Mode, Spec, WRAP, child_spec, default_size, remaining, resolve};
