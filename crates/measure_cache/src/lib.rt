//! The last eight sizes of a view, each with the two specs for which it was found.
//!
//! `cache` has `Cache`, an array of eight `Entry`s in the node of each view: `find` looks for the size under two specs,
//! `put` adds one and drops the oldest, and `clear` empties it, when the view asks for layout. `same_spec` compares two
//! specs.
//!
//! `view_tree` keeps one for each view, and `measure_pass` asks it before it measures.
//!
//!     let mut cache = Cache::new();
//!     cache.put(ws, hs, Size { w: 30, h: 8 });
//!     cache.find(ws, hs)       // Some: 30 by 8
//!     cache.find(ws, other)    // None
#![tactic(auto)]

mod cache;

pub use cache::{Cache, Entry, same_spec};
