//! Compiled resource tables: what each resource has in the default configuration.
//!
//! `Table::read` (`table`) reads a file chunk by chunk (`reading`, `chunks`), with the first fault of a broken one;
//! `listing` and `entries` go over the entries of one type, and `held` has `Held`, what a resource holds: nothing, a
//! complex value, or the type and word of a plain one. `value` follows up to sixteen references, `text` is a string of
//! the table, and `lines` writes the line of a resource that was asked for.
//!
//! `whole_tool` uses it for the command `lookup`. Chunks and pools are those of `axml_chunks`.
//!
//!     let table = Table::read(alloc, bytes)?;
//!     table.value(0x7f01_0000)                        // `Held::None` if the table has no such resource
//!     table.put_value(reply, sink, 0x7f01_0000);      // its line of `lookup`
#![tactic(auto)]

mod chunks;
mod entries;
mod held;
mod lines;
mod listing;
mod reading;
mod table;

pub use held::{Entry, Held};
pub use table::Table;
