//! A picture in memory, into which rectangles of a colour are blended.
//!
//! `surface` has `Surface`: `fill` blends a rectangle, `ink` the set pixels of a column, `digest` is the SHA-256 of all
//! pixels. `cut` has the part of a picture that a rectangle covers, `rows` how a colour is blended over the rows of
//! such a part, `runs` over pixels side by side, `strip` over single pixels of a column, and `blending` over one pixel;
//! `marks` how rows of one colour are kept, and `digest` the digest. Only making a picture takes memory.
//!
//! `tree_painter` paints into one, `view_world` keeps it, `world_replies` prints pixels, and `stack_worlds`
//! puts several together.
//!
//!     let mut picture = Surface::new(alloc, Size { w: 4, h: 2 })?;    // all black
//!     picture.fill(Rect { left: 1, top: 0, right: 3, bottom: 1 }, Argb(0xffff_0000), work);
//!     picture.pixel(2, 0)    // red; `work.painted` has risen by the 2 pixels of the rectangle
#![tactic(auto)]

mod blending;
mod cut;
mod digest;
mod marks;
mod rows;
mod runs;
mod strip;
mod surface;

pub use strip::Strip;
pub use surface::Surface;
