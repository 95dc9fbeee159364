//! How touch events go through a tree of views, and what is recorded of each.
//!
//! `dispatch` (`dispatching`) sends an event to the root, and `cancel_view` cancels the gesture of a view that goes
//! away. `reaching` is the way of an event down the tree: a group intercepts it, passes it to its targets, or finds a
//! child that takes the pointer; `handling` is what a view does itself, as a click or a drag. `gesture` (`Gesture`) is
//! kept between events, and `log` (`Log`) records them. Only `Gesture::open` and `Log::reserve` take memory, when a
//! view is made.
//!
//! `view_world` calls both for lines of touches and for views that go away.
//!
//!     dispatch(tree, gesture, &event, slop, log)    // whether the root took it
//!     log.entries()                                 // who was asked, touched, clicked or scrolled, in order
#![tactic(auto)]

mod dispatching;
mod gesture;
mod handling;
mod log;
mod reaching;

pub use dispatching::{cancel_view, dispatch};
pub use gesture::Gesture;
pub use handling::drag::Drag;
pub use log::{Entry, Kind, Log};
