//! A link to a value in a slab, or to none, in four bytes.
//!
//! `link` has `Link`: `to` and `of` make one from a key below `LINKS_END`, `none` makes one to nothing, and `key` is
//! the key again.
//!
//! The nodes of `view_tree` and `touch_targets` have links in place of keys.
//!
//!     Link::to(7).key()     // Some(7)
//!     Link::none().key()    // None
#![tactic(auto)]

mod link;

pub use link::{LINKS_END, Link};
