//! A frame layout: how it measures its children, one call at a time, and where it places them.
//!
//! `FramePlan` (`plan`) is the measuring. It never sees a child: the owner of the tree asks it for the specs of each
//! child in turn (`ask`), measures that child as it likes and passes the size back (`take`); `turn` ends a phase, and
//! `finish` is the group's size. The plan keeps the maxima and the count that the rule needs, and no list; `axis` has
//! the arithmetic of an axis. `Room::place` and `place` (`placing`) say where a child is.
//!
//! `measure_pass` measures by it, `traversal` places, and `scroll_view` is built on it. What it computes is
//! `frame_rule` of `view_model`.
//!
//!     let mut plan = FramePlan::start(own, ws, hs);
//!     if let Some((kid_ws, kid_hs)) = plan.ask(kid, size) {
//!         plan.take(kid, measured);    // the size that the child has under these specs
//!     }
//!     plan.turn()      // whether a second phase follows, for children that match the group
//!     plan.finish()    // the group's own size
#![tactic(auto)]

mod axis;
mod placing;
mod plan;

pub use placing::{Room, place};
pub use plan::FramePlan;
