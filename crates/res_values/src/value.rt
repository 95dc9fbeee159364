//! What a resource is.

use geom_core::Argb;
use view_model::Text;

/// What a resource is.
#[derive(Drop)]
pub enum Value {
    Color(Argb),
    /// The word of a dimension, as a layout file has it.
    Dimen(u32),
    Text(Text),
}
