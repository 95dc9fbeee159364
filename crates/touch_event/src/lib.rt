//! Touch events: what happened, by which pointer, and where all pointers that are down are.
//!
//! `event` has `Event`, an `Action` with a pointer and the points of at most `MAX_POINTERS` pointers, by rising ids;
//! `splitting` has `split`, the part of an event for a view that follows only some of them; `pointer_set` has sets of
//! pointers as bits. Nothing takes memory.
//!
//! `world_parts` makes the events of a script, and `touch_dispatch` splits them and sends them on.
//!
//!     split(&event, 0b10)    // what pointer 1 makes of it: if pointer 1 goes down beside pointer 0, it is alone there
#![tactic(auto)]

mod event;
mod pointer_set;
mod splitting;

pub use event::{Action, Event, MAX_POINTERS, Point};
pub use pointer_set::has_id;
pub use splitting::{has_point, split, split_action};
