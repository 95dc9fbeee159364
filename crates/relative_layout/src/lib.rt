//! A relative layout: the orders in which its children are measured, and how it measures and places them.
//!
//! `order` (`ordering`) puts a child after all siblings that its rules name, on each axis, or finds those that lead
//! back to themselves. `naming`, `ids` and `listing` have which children name which, `topological` the order that is
//! made from that (Kahn 1962), `components` the cycles where there is none (Gabow 2000), and `points` and `marks` what
//! these look at.
//!
//! `RelativePlan` (`plan`) never sees a sibling: its owner goes along these orders, passes a child together with the
//! sides of its anchors, measures it as the plan asks, and passes the size back. `sides` and `spans` have the sides of
//! a child, `extent` those of the group. `view_tree` keeps the orders, `measure_pass` measures by the plan.
//!
//!     let orders = order(alloc, &kids)?;    // `OrderFault::Cycle` with the members of one, if there is any
//!     orders.across                         // the places of all children: those that a child names come before it
#![tactic(auto)]

mod ordering;
mod plan;

pub use ordering::ids::named_ids;
pub use ordering::{OrderFault, Orders, order};
pub use plan::RelativePlan;
pub use view_model::{Anchor, Anchors, Edges, Link};
