//! The rules that tie a child of a relative layout: their places in `Rules.values`.

pub const LEFT_OF: usize = 0;

pub const RIGHT_OF: usize = 1;

pub const ABOVE: usize = 2;

pub const BELOW: usize = 3;

pub const ALIGN_LEFT: usize = 4;

pub const ALIGN_TOP: usize = 5;

pub const ALIGN_RIGHT: usize = 6;

pub const ALIGN_BOTTOM: usize = 7;

pub const START_OF: usize = 8;

pub const END_OF: usize = 9;

pub const ALIGN_START: usize = 10;

pub const ALIGN_END: usize = 11;

pub const PARENT_LEFT: usize = 12;

pub const PARENT_TOP: usize = 13;

pub const PARENT_RIGHT: usize = 14;

pub const PARENT_BOTTOM: usize = 15;

pub const PARENT_START: usize = 16;

pub const PARENT_END: usize = 17;

pub const CENTER: usize = 18;

pub const CENTER_H: usize = 19;

pub const CENTER_V: usize = 20;
