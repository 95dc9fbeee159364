//! The replies of the tool that are not those of a world: what a file holds, and why it, or a line, is refused.
//!
//! `dump` prints a layout file, and `lookup` what resources hold in a compiled table; each reports by `file_replies` why
//! its file is refused. `refusals` reports refused lines, and `names` has the names of refusals. `status` has the
//! statuses that a call of the tool ends with.
//!
//! `whole_tool` writes these beside the replies of its worlds.
//!
//!     dump(alloc, "card.xml", shelf, sink)    // 0, and the lines of the file are on the sink
#![tactic(auto)]

pub mod dump;
mod file_replies;
pub mod lookup;
mod names;
mod refusals;
pub mod status;

pub use refusals::{put_counted, put_refused, write_refusal};
