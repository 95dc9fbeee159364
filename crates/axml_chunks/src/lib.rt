//! Chunks of Android's compiled XML, and the string pool.
//!
//! A compiled file is a chunk with chunks in it. `chunk` has `Chunk`, its type and sizes, `chunk_at`, which reads and
//! checks one, and `u16_at` and `u32_at`; `pool` has `Pool`, the strings of a file, which `strings` reads one by one
//! and `gathering` collects; `cause` has why a file is refused, with its number, and `fault` the place of the first
//! such byte. Each string is checked when its pool is read, so that `Pool::text` cannot fail later.
//!
//! `axml_reader` and `arsc_reader` read their files by it, and `attr_table` looks strings up.
//!
//!     let chunk = chunk_at(bytes, 8, bytes.len())?;    // or a fault: which cause, at which byte
//!     let pool = Pool::read(alloc, bytes, 8, chunk)?;
//!     pool.text(0)                                     // the first string, if there is one
#![tactic(auto)]

mod cause;
mod chunk;
mod fault;
mod gathering;
mod pool;
mod strings;

pub use cause::Cause;
pub use chunk::{Chunk, chunk_at, u16_at, u32_at};
pub use fault::{Fault, ReadFault};
pub use pool::Pool;
