//! Why an edit is not made.

use view_model::Fault;

/// Why an edit was not made.
pub type EditFault = Fault;
