//! The targets of a gesture: which children a group has captured, in which order, by which pointers.
//!
//! `targets` has `Targets`, a pool of the open views: `put` adds a child to the targets of a group with a set of
//! pointers, `newest` and `next` go over them, `drop_ids` takes pointers away. `node` is what the pool keeps of a view
//! that is a group or a target, `slots` which open views have a node, and `links` how nodes join and leave the targets
//! of a group. Views are named by their numbers. Only `open` takes memory.
//!
//! `touch_dispatch` keeps one in its `Gesture`.
//!
//!     targets.open(1)?;
//!     targets.open(2)?;
//!     targets.put(1, 2, 0b1);    // the group 1 has captured its child 2 by pointer 0
//!     targets.newest(1)          // Some(2)
#![tactic(auto)]

mod links;
mod node;
mod slots;
mod targets;

pub use targets::Targets;
