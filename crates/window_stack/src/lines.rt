//! What a line of a stack asks for.

use script_lines::Command;

/// The greatest name of a window.
pub const MAX_PANE: u32 = 7;
/// The least coordinate of a corner, in pixels.
pub const MIN_CORNER: i64 = -4096;
/// The greatest coordinate of a corner, in pixels.
pub const MAX_CORNER: i64 = 4096;

/// What a line of a stack asks for. A window has a name `k` from 0 to `MAX_PANE`.
#[derive(Drop)]
pub enum StackLine<'a> {
    /// Sets the corner of a window, each coordinate from `MIN_CORNER` to `MAX_CORNER` pixels, and opens the window on
    /// top if it is not open.
    At { k: u8, x: i32, y: i32 },
    /// Puts a window on top.
    Raise(u8),
    /// Closes a window.
    Close(u8),
    /// Carries out a command in a window, other than `Down`, `Move`, `Up` and `Cancel`.
    In { k: u8, command: Command<'a> },
    /// Prints the colours of a part of all windows together, within the bounds of `Command::Pixels`.
    Compose { x: i32, y: i32, w: i32, h: i32 },
    /// A pointer goes down at a point of the stack, within the bounds of `Command::Down`.
    Down { p: u8, x: i32, y: i32 },
    /// A pointer moves, within the same bounds.
    Move { p: u8, x: i32, y: i32 },
    /// A pointer goes up.
    Up(u8),
    /// The gesture ends without a reply.
    Cancel,
}
