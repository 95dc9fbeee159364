//! The types of values.

pub const NULL: u8 = 0x00;
/// The word is the id of a resource, or 0.
pub const REFERENCE: u8 = 0x01;
/// The word names an attribute of a theme.
pub const THEME: u8 = 0x02;
/// The word is a string number.
pub const STRING: u8 = 0x03;

pub const FLOAT: u8 = 0x04;

pub const DIMENSION: u8 = 0x05;
/// A whole number, written with decimal digits.
pub const DECIMAL: u8 = 0x10;
/// A whole number, written with hexadecimal digits.
pub const HEXADECIMAL: u8 = 0x11;
/// True if the word is not 0.
pub const BOOLEAN: u8 = 0x12;
/// This type and those up to `LAST_COLOR` are colours, and the word has all four channels in each.
pub const FIRST_COLOR: u8 = 0x1c;

pub const LAST_COLOR: u8 = 0x1f;
