//! The views of a layout file: what each element is, and which are below which.
//!
//! `inflate` (`inflating`) goes over all elements of a document and makes a `Grown` (`grown`): a `Sapling`, the views
//! in preorder with their depths, and how many attributes were ignored. `classes` names the classes of elements,
//! `element` makes the view of one, and `fault` says why one is refused, and which. The place of the views in a tree is
//! not decided here: `ViewTree::graft` does that.
//!
//! `world_parts` calls it for the line `inflate`; the attributes are read by `attr_table`.
//!
//!     let grown = inflate(alloc, &doc, &res, 160)?;    // or the number of the element that is refused
//!     tree.graft(parent, grown.sapling)?;
#![tactic(auto)]

mod classes;
mod element;
mod fault;
mod grown;
mod inflating;

pub use fault::GrowFault;
pub use grown::Grown;
pub use inflating::inflate;
