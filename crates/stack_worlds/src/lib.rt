//! The worlds of a stack of windows: each window has its own, and a line reaches at most one.
//!
//! `Stack` (`stack`) keeps the windows and their worlds and carries out a line. `way` finds where a line goes: to a
//! window by its name, or, of a pointer, to the one that has the gesture or is under the point; `worlds` is what is
//! done in the world of one window, and `composing` all windows as one picture.
//!
//! `whole_tool` runs a stack for the command `stack`. What a line is, and the order of windows, are in `window_stack`.
//!
//!     let mut stack = Stack::new();
//!     stack.line(alloc, stack_line(b"at 0 10 10")?, shelf, sink, work)?;                // opens window 0
//!     stack.line(alloc, stack_line(b"in 0 window 100 50")?, shelf, sink, work)?;        // a line for its world
#![tactic(auto)]

mod stack;

pub use stack::{NO_PANE, Stack};
