//! The attributes of an element of a layout file, and the facts that they set.
//!
//! `take` (`taking`) makes a `Taken` of an element: `Facts`, a text, and how many attributes were ignored; or an
//! `AttrFault` (`fault`). `table` has the attributes that are known, `known` finds one; `types` the types of values,
//! `values` what a value means and `given` the form of that; `source` is a document with its resources and density,
//! `draft` what was set so far, and `setting` sets a value in it.
//!
//! `inflater` calls it for each element. A new attribute is a row of `table` and an arm of `setting`.
//!
//!     let taken = take(alloc, &doc, node, &res, 160)?;    // the element that begins at this node, at 160 dots an inch
//!     taken.facts.padding                                 // from `android:padding`, in pixels
#![tactic(auto)]

mod draft;
mod fault;
mod given;
mod known;
mod setting;
mod source;
mod table;
mod taking;
mod types;
mod values;

pub use fault::AttrFault;
pub use source::Source;
pub use taking::{Taken, take};
