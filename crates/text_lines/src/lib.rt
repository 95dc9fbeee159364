//! Text that goes to a sink: bytes, numbers, and a buffer for them.
//!
//! `TextBuffer` (`buffer`) gathers text into pieces of up to 4096 bytes: `put`, `number`, `natural` and `hex` add to
//! it, and `finish` writes what is left and says whether a write has failed. `writing` has `put`, `number` and `hex`
//! without a buffer, and `digits` the digits of numbers. A new buffer clears its room, so one that serves for many
//! texts is restarted.
//!
//! All crates that print use it: `world_replies`, `stack_worlds`, `whole_tool`, `axml_reader`, `arsc_reader`,
//! `load_maker`.
//!
//!     let mut reply = TextBuffer::new();
//!     reply.put(sink, b"v");
//!     reply.natural(sink, 12);
//!     reply.finish(sink)?;    // the sink has got "v12" in one piece
#![tactic(auto)]

mod buffer;
mod digits;
mod writing;

pub use buffer::TextBuffer;
pub use digits::hex_digits;
pub use writing::{hex, number, put};
