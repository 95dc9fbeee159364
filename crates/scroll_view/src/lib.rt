//! A scroll view: how it measures its child, where it places it, and how far it moves it up.
//!
//! It measures as a frame layout does, except for the heights that it asks for. So `ScrollPlan` (`plan`) has the plan
//! of a frame layout inside, which takes the sizes and knows the group's own; `placing` has the place of a child
//! (`place`) and the range of offsets (`range`, `offset_within`).
//!
//! `measure_pass` measures by it, `scroll_offsets` and `touch_dispatch` bring offsets into the range.
//!
//!     let most = range(own, size, Some(child));    // 30 for a child that is 80 high in a group of 50 without padding
//!     offset_within(most, 45)                      // 30
#![tactic(auto)]

mod placing;
mod plan;

pub use placing::{offset_within, place, range, range_in};
pub use plan::ScrollPlan;
