//! Hooks: edits that are made when a layout gives a view another size.
//!
//! `hooks` has `Hooks`, the table of armed hooks: at most `MAX_HOOKS`, at most one of a view, each with at most
//! `MAX_EDITS` edits (`entry`), and `fault` has why one is not armed. A hook fires once: the first size that differs
//! from the one reported. The last arming of a view counts, and an edit names its view by the number that it had then,
//! not by an id. Nothing takes memory.
//!
//! `view_world` arms hooks for the lines `hook`; `traversal` looks for the one that fires, and reports sizes.
//!
//!     hooks.arm(2, Size { w: 0, h: 0 }, &edits)?;    // view 2, which has no bounds yet
//!     hooks.reported(2)                              // Some: a size of 0 by 0
//!     hooks.edit(2, 0)                               // its first edit
#![tactic(auto)]

mod entry;
mod fault;
mod hooks;

pub use fault::HookFault;
pub use hooks::Hooks;
