//! What the tool reads from and writes to: a source of bytes, a sink for bytes and a shelf of files.
//!
//! Each of the three is a trait (`source`, `sink`, `shelf`). Its contract says which bytes a call moves, if the object
//! makes them visible, and that its count of failed calls (`faults`) rises by one with a call that fails. Objects in
//! memory are exact: `memory_source`, `memory_sink` and `memory_shelf` fail at the calls that they were made to fail at
//! (`calls`), and otherwise only when out of memory; `steady_source`, `steady_sink` and `steady_shelf` never fail.
//! `bytes_left` has what a source in memory has still to give. `stdin`, `stdout` and `folder` are adapters over a
//! device, whose bytes contracts don't see.
//!
//! An adapter is generic over what it wraps, and not fixed to the system's: so clauses say which bytes went to the
//! device, and tests give it one that fails. `view_tool` makes the adapters, tests and `vindaesk_c` objects in memory,
//! and `whole_tool` takes any.
//!
//!     let mut sink = MemorySink::new(alloc, 3, fails);    // 3 bytes a call at most; `fails` lists the calls that fail
//!     sink.write(b"frame")                                // Ok(3)
//!     sink.gone()                                         // b"fra"
#![tactic(auto)]

mod bytes_left;
mod calls;
mod faults;
mod folder;
mod memory_shelf;
mod memory_sink;
mod memory_source;
mod shelf;
mod sink;
mod source;
mod stdin;
mod stdout;
mod steady_shelf;
mod steady_sink;
mod steady_source;

pub use faults::Failed;
pub use folder::FolderShelf;
pub use memory_shelf::MemoryShelf;
pub use memory_sink::MemorySink;
pub use memory_source::MemorySource;
pub use shelf::{Found, Shelf, ShelfFault};
pub use sink::Sink;
pub use source::Source;
pub use stdin::StdinSource;
pub use stdout::StdoutSink;
pub use steady_shelf::SteadyShelf;
pub use steady_sink::SteadySink;
pub use steady_source::SteadySource;
