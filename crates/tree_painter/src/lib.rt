//! Painting of a tree of views into a picture, over black and within a rectangle.
//!
//! `paint` (`painting`) walks over the tree: a view first, then its children over it, each cut off as its parents say.
//! `own` paints what one view shows itself, its background and its text; `text` and `ink` have the characters, and
//! `edges` the arithmetic of edges that may be far outside. Nothing takes memory; the pixels that are gone over count
//! in `Work`.
//!
//! `seen_edits` calls it for the damage alone. The definition is `Painting` of `view_model`.
//!
//!     paint(tree, picture, Rect { left: 0, top: 0, right: 100, bottom: 50 }, work);
#![tactic(auto)]

mod edges;
mod ink;
mod own;
mod painting;
mod text;

pub use painting::paint;
