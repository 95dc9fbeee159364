//! The limits of a tree, of what may be set of a view, of hooks, of resources and of layout files, and the cells of texts.

/// The most views that a tree may have.
pub const MAX_VIEWS: usize = 4096;
/// The most resources that there may be.
pub const MAX_RESOURCES: usize = 4096;
/// How deep the deepest view of a tree may be: a root is 1 deep.
pub const MAX_DEPTH: usize = 32;
/// No view has this number or a greater one.
pub const NUMBERS_END: u64 = 1 << 62;
/// The greatest width, height or offset that may be set, in pixels.
pub const MAX_SIZE: i64 = 16777215;
/// The greatest margin or padding that may be set on a side, in pixels.
pub const MAX_INSET: i64 = 1048575;
/// The least margin that may be set on a side, in pixels.
pub const MIN_MARGIN: i64 = -1048575;
/// The greatest weight and the greatest sum of weights that may be set, in 256ths.
pub const MAX_WEIGHT: u32 = 16776960;
/// The most hooks that may be armed at a time.
pub const MAX_HOOKS: usize = 32;
/// The most edits that a hook may have.
pub const MAX_EDITS: usize = 8;
/// The density of a screen if none is set, in dots an inch.
pub const NORMAL_DPI: u32 = 160;
/// The most bytes that a layout file may have.
pub const MAX_FILE: usize = 1048576;
/// How broad a character of a text is, in pixels.
pub const CELL_WIDTH: u32 = 6;
/// How high a line of a text is, in pixels.
pub const CELL_HEIGHT: u32 = 8;
