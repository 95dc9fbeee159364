//! Why a resource is not defined.

use view_model::Fault;

/// Why a resource is not defined.
pub type ResFault = Fault;
