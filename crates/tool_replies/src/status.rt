//! The statuses that the tool ends with.

/// Every line was carried out and the question was answered, and none was refused; or the file was printed.
pub const ACCEPTED: u8 = 0;

/// Every line was carried out, and one was refused, or the question; or the file was.
pub const REFUSED: u8 = 1;

/// The words have no form.
pub const USAGE: u8 = 2;

/// A read of the script failed.
pub const SOURCE_FAILED: u8 = 3;

/// A write failed.
pub const SINK_FAILED: u8 = 4;

/// There was no memory.
pub const NO_MEMORY: u8 = 5;

/// A fetch of a file failed.
pub const SHELF_FAILED: u8 = 6;

/// The script is too long.
pub const LONG_SCRIPT: u8 = 7;
