//! The views of a document.

use view_model::Sapling;

/// The views of a document, as they are to be added to a tree.
#[derive(Drop)]
pub struct Grown {
    pub sapling: Sapling,
    /// How many attributes of all elements together are not known.
    pub ignored: u32,
}
