//! What has to be painted again: the bounding box of rectangles.
//!
//! `bounding` has `Damage`: `add` takes a rectangle in window coordinates, one without a pixel changes nothing, and
//! `rect` is the smallest rectangle around all of them. One rectangle, and not a list of them, so that adding takes no
//! memory.
//!
//! `traversal`, `seen_parts`, `seen_edits` and `view_world` add to one; `seen_edits` paints what it has and empties it.
//!
//!     let mut damage = Damage::new();
//!     damage.add(Rect { left: 0, top: 0, right: 10, bottom: 5 });
//!     damage.add(Rect { left: 20, top: 0, right: 30, bottom: 5 });
//!     damage.rect()    // 0 0 30 5
#![tactic(auto)]

mod bounding;

pub use bounding::Damage;
