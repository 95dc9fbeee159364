//! The numbers of the format of saved states.

/// The version that is written.
pub const VERSION: u8 = 2;
/// The version that has no texts. It is read too.
pub const FIRST_VERSION: u8 = 1;
/// How many bytes there are before the first entry.
pub const HEAD_BYTES: usize = 5;
/// The kind of an entry that has an offset.
pub const OFFSET_KIND: u8 = 1;
/// The kind of an entry that has a text.
pub const TEXT_KIND: u8 = 2;
/// How many bytes an entry that has an offset takes.
pub const OFFSET_ENTRY_BYTES: usize = 9;
/// How many bytes an entry that has a text takes before the text.
pub const TEXT_ENTRY_BYTES: usize = 7;
/// The greatest offset that an entry may have, in pixels.
pub const MAX_OFFSET: u32 = 16777215;
/// The most bytes that the text of an entry may have.
pub const MAX_TEXT_BYTES: usize = 65535;
/// The most entries that a state may have.
pub const MAX_ENTRIES: usize = 65535;
