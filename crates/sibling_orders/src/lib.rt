//! The kept orders of relative layouts.
//!
//! `groups` has what is kept of the children of relative layouts, by the numbers of these: the orders in which they are
//! measured, and more by which an edit is quick. It also has how a child that is added, removed or ruled changes that.
//! `indexes` changes an order, `kids` gathers the children of a sapling's layouts, `highest` has the highest ids that
//! rules name, `latest` the last children with an id, and `ordered` a child in an order.
//!
//! The orders of a relative layout are kept with the tree, and not made in a measuring: so measuring takes no memory,
//! and no edit can leave a cycle. An edit that would make one is refused. `view_tree` keeps the groups of a tree.
//!
//!     make_group_room(&mut groups, parent, 1)?;          // `Fault::NoMemory` if there is none
//!     join_group(&mut groups, parent, number, class);    // the last child, which is tied to none of its siblings
#![tactic(auto)]

mod groups;
mod highest;
mod indexes;
mod kids;
mod latest;
mod ordered;

pub use groups::{
    SiblingOrders, join_group, leave_group, make_group_room, make_id_room, note_groups, set_orders,
};
pub use kids::{Kids, group_of};
pub use ordered::OrderedKid;
