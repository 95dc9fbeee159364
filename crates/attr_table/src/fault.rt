//! Why the attributes of an element are not taken.

use view_model::Fault;

/// Why the attributes of an element are not taken.
pub type AttrFault = Fault;
