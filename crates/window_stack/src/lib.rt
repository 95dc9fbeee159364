//! The lines of a script for a stack of windows, and the order of the windows.
//!
//! `stack_line` (`reading`) makes a `StackLine` (`lines`) of a line: of a window, as `at` and `in`, or of a pointer.
//! `Panes` (`panes`) keeps which windows are open, where they are, which is above which, and which one has the gesture;
//! `under` is the topmost one that a point is in. Nothing takes memory, and no window has a world here: those are in
//! `stack_worlds`.
//!
//! `stack_worlds` carries such lines out, and `whole_tool` reads them for the command `stack`.
//!
//!     let mut panes = Panes::new();
//!     panes.set(0, 10, 10);    // opens window 0 on top
//!     panes.set(1, 0, 0);      // and window 1 above it
//!     panes.order()            // 1, 0
#![tactic(auto)]

mod lines;
mod panes;
mod reading;

pub use lines::{MAX_CORNER, MAX_PANE, MIN_CORNER, StackLine};
pub use panes::{MAX_PANES, Panes};
pub use reading::stack_line;
