//! What the words of a line say. It takes no memory.
//!
//! `words` splits a line, and the modules below it read one word each, as `gravity` or `colors`; `fault` says why one
//! cannot be read. `offsets` finds a byte in a line.
//!
//! `script_lines` and `window_stack` read lines by it, `whole_tool` and `vindaesk_c` single words.
//!
//!     name_word(b"v1 10")     // the view `v1`, and the rest ` 10`
//!     integer(b"-0")          // 31 Syntax: there is no `-0`
//!     within(0, 9, 10)        // 30 Range: a number above its bounds
#![tactic(auto)]

mod fault;
mod offsets;
pub mod words;

pub use fault::LineFault;
pub use offsets::offset_of;
pub use words::escapes::Unescaped;
pub use words::file_name::is_file_name;
pub use words::naming::{Name, hex};
pub use words::number::natural;
