//! The saved state of a tree: offsets and texts by ids, as bytes, and restored from them.
//!
//! `save` (`saving`, `writing`) makes the bytes: the offset of each scroll view and the text of each text view that
//! have an id. `read` (`reading`, `bytes`) takes them apart into `States` (`states`), whose entries `value` has, or
//! finds the first wrong byte (`fault`); `restore` (`restoring`) sets the offsets and texts and requests layout where
//! it does, once `marking` says that the tree fits. `format` has the numbers of the form.
//!
//! `view_world` calls `save` and `read` for the lines `save` and `restore`; `seen_edits` restores.
//!
//!     let bytes = save(alloc, tree)?;
//!     let states = read(alloc, bytes.as_slice())?;
//!     restore(alloc, tree, &states)?;    // the tree is as it was when it was saved, if its views are those
#![tactic(auto)]

mod bytes;
mod fault;
mod format;
mod marking;
mod reading;
mod restoring;
mod saving;
mod states;
mod value;
mod writing;

pub use fault::StateFault;
pub use reading::read;
pub use restoring::{is_given, restore};
pub use saving::save;
pub use states::States;
pub use value::Value;
