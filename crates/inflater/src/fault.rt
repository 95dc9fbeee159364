//! Why the views of a document are not made.

use view_model::Fault;

/// Why the views of a document are not made. A refusal is that of the first element, in the order of the file, that is
/// refused, and reports the element's number.
pub type GrowFault = Fault;
