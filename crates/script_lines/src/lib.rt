//! The lines of a script, and the command of each. It takes no memory.
//!
//! `Lines` (`cutting`) cuts bytes that come in pieces into lines. `line` (`reading`) makes a `Command` (`commands`) of
//! one, or says why it is none: `line_words` reads its words; `verbs` has those with which lines begin; the modules
//! below `reading` read what a line sets of a view, a hook, a resource, a touch or a state. `readers` are for lines of
//! other scripts.
//!
//! `whole_tool` cuts and reads by it, `view_world` carries commands out, and `window_stack` reads touches and parts.
//!
//!     line(b"add v1 View 10 20")          // Command::Add: the parent v1, the class View, 10 by 20
//!     line(b"add v1 View 10")             // a fault of the grammar, 31 Syntax: a word is missing
//!     line(b"add v1 View 10 99999999")    // a number out of bounds, 30 Range: above the greatest size
#![tactic(auto)]

mod commands;
mod cutting;
mod reading;
mod verbs;

pub use commands::{Asked, Command, Given};
pub use cutting::{Ended, LinePlace, Lines, PassedOver, passes_over};
pub use reading::hooks::edits_written;
pub use reading::line;

/// The readers of touches and of what is small, for lines of other scripts.
pub mod readers {
    pub use crate::commands::{MAX_POINT, MAX_WINDOW};
    pub use crate::reading::pixels::is_small;
    pub use crate::reading::touches::{Touch, read_pointer, read_touch};
}
