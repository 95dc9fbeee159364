//! Android's compiled XML: a layout file is read, or its first fault found, and printed.
//!
//! `read` (`decode`) makes a `Doc` (`doc`) of the bytes of a file: its strings, the resource map, and the nodes in
//! order with their attributes. `reading` has what is known while it goes from chunk to chunk, `nodes` what each kind
//! of chunk adds, and `fields` the fields of one; `alike` compares names. `dump` has `print`, which writes a document
//! line by line, and `put_string`, which writes a string with its escapes.
//!
//! `world_parts` reads for `inflate`, `whole_tool` for `dump`; `inflater` and `attr_table` take the document.
//!
//!     let doc = read(alloc, bytes)?;    // `ReadFault`: the cause and the byte of the first fault
//!     print(&doc, sink)?;               // the lines that the command `dump` writes
#![tactic(auto)]

mod alike;
mod decode;
mod doc;
mod dump;
mod fields;
mod nodes;
mod reading;

pub use decode::read;
pub use doc::{Attr, Doc, NO_STRING, Node};
pub use dump::{print, put_string};
