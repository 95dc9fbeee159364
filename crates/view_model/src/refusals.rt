//! The numbers of the refusals of lines, and of files that are not read.

/// An attribute names a resource that is not defined.
pub const UNRESOLVED: u8 = 12;
/// An attribute's value is one of a theme.
pub const THEME_REF: u8 = 13;
/// An attribute's value is not one that the attribute takes.
pub const BAD_VALUE: u8 = 14;
/// A resource would be one more than there may be.
pub const FULL: u8 = 15;
/// An element has an attribute twice.
pub const DUPLICATE: u8 = 16;
/// An element has no width or no height.
pub const NO_SIZE: u8 = 17;
/// Children of a relative layout name one another in a circle.
pub const CYCLE: u8 = 18;
/// A view would be one more than a tree may have.
pub const VIEWS: u8 = 19;
/// A view would be deeper than a tree may be.
pub const DEPTH: u8 = 20;
/// The parent of a new view is no group.
pub const NOT_GROUP: u8 = 21;
/// The parent of a new view takes one child, and has it.
pub const SCROLL_FULL: u8 = 22;
/// An element's name is that of no class.
pub const UNKNOWN_CLASS: u8 = 23;
/// A hook would be one more than may be armed.
pub const HOOKS: u8 = 24;
/// A line has an edit that no hook may make, or one more than a hook may have.
pub const HOOK_EDIT: u8 = 25;
/// The bytes of a saved state are not those of one.
pub const BAD_STATE: u8 = 26;
/// A saved state has the offset of a view that is no scroll view.
pub const STATE_CLASS: u8 = 27;
/// A line names a view that is not there.
pub const NO_VIEW: u8 = 28;
/// A line sets what a view of this class does not have.
pub const WRONG_CLASS: u8 = 29;
/// A number of a line is outside its bounds.
pub const RANGE: u8 = 30;
/// A line is not one of the grammar.
pub const SYNTAX: u8 = 31;
/// A line has more bytes than it may have.
pub const LONG_LINE: u8 = 32;
/// There was no window yet.
pub const NO_WINDOW: u8 = 33;
/// There is no root.
pub const NO_ROOT: u8 = 34;
/// There is a root already.
pub const HAS_ROOT: u8 = 35;
/// The last frame has not settled.
pub const UNSETTLED: u8 = 36;
/// There was no frame yet in this window.
pub const NO_FRAME: u8 = 37;
/// A pointer is down already, or is not.
pub const POINTER: u8 = 38;
/// There is no file of this name.
pub const MISSING: u8 = 39;
/// A file has more bytes than it may have.
pub const LONG_FILE: u8 = 40;
/// The density is set for a screen on which there are views.
pub const DPI_LATE: u8 = 41;
