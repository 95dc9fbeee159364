//! Tests that cross libraries: calls that fail, work that is counted, the vectors of formats.
//!
//! `runs` has calls of `tool` over objects in memory, `adapters` the adapters over devices that fail, `screen` a real
//! screen whose bytes move one by one, `trees` trees of views, `layout_files` and `string_pools` broken files, and
//! `texts` text that is written. They are in one crate above all others, and not beside what they test, because a
//! crate with tests is proved twice. What a script or a layout file shows by itself is no test here, but a check in
//! `ci/`.
//!
//! `rt test` and the gate run them; no crate uses it.
//!
//!     let mut sink = MemorySink::new(alloc, 4096, fails);    // a sink that fails at the listed calls
//!     tool(alloc, words, shelf, source, &mut sink, work)     // the status of a failed write, and a prefix of the text
#![tactic(auto)]

#[cfg(test)]
mod adapters;
#[cfg(test)]
mod layout_files;
#[cfg(test)]
mod runs;
#[cfg(test)]
mod screen;
#[cfg(test)]
mod string_pools;
#[cfg(test)]
mod texts;
#[cfg(test)]
mod trees;
