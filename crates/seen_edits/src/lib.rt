//! Edits of a tree whose picture was painted, and what of the window they make stale.
//!
//! `change` and `take` (`damaging`) make an edit or remove a view and add what was seen of it to the damage;
//! `restore_views` (`restoring`) does that for a restored state, `note_scrolled` (`scrolling`) for what an event has
//! scrolled; and `paint_damage` (`painting`) paints what these have left. `trees` has what they share.
//!
//! `view_world` makes every edit of a script through it; the edits themselves are those of `tree_edits` and
//! `saved_state`.
//!
//!     change(alloc, tree, window, edit, damage)?;    // what was seen of its view is damage
//!     paint_damage(tree, picture, damage, work);     // is painted anew, and nothing is damage after that
#![tactic(auto)]

mod damaging;
mod painting;
mod restoring;
mod scrolling;
mod trees;

pub use damaging::{change, damage_all, take};
pub use painting::paint_damage;
pub use restoring::restore_views;
pub use scrolling::note_scrolled;
