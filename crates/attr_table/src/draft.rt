//! What the attributes of an element have set so far.
ghost use Rattle.std.specs.Prelude.{◌≡◌};
ghost use Rattle.attr_table.specs.Setting.{empty_draft};

use crate::table::KNOWN;
use std::alloc::Global;
use view_model::{Facts, Text};

/// What the attributes of an element have set so far.
#[derive(Drop)]
pub struct Draft {
    pub facts: Facts,
    /// The margin for all sides.
    pub margin: Option<i32>,
    /// The padding for all sides.
    pub padding: Option<i32>,
    pub text: Text,
    /// Which attributes of the table came.
    pub came: [bool; KNOWN],
    /// How many attributes are not known.
    pub ignored: u32,
}

impl Draft {
    /// The draft before any attribute. It takes no memory.
    pub fn new(alloc: Global) -> Draft
        ensures { result ≡ empty_draft }
    {
        Draft {
            facts: Facts::new(0, 0),
            margin: None,
            padding: None,
            text: Text::empty(alloc),
            came: [false; KNOWN],
            ignored: 0,
        }
    }
}
