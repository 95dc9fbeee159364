//! The load: a script that makes many views and edits them over many frames.
//!
//! It is always the same for a size, so that its results and its work can be compared. `script` (`writing`) makes all
//! of it; `making` has the unfinished load, `tree` and `edits` its lines.
//!
//! `whole_tool` runs it for the command `gen N`, in a world of its own.
//!
//!     let bytes = script(alloc, 1)?;    // the smallest load; the greatest has the size 100
#![tactic(auto)]

mod edits;
mod making;
mod tree;
mod writing;

pub use writing::script;
