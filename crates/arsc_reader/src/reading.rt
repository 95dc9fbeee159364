//! A table while it is read.
ghost use Rattle.std.specs.Prelude.{◌≤◌};
ghost use Rattle.arsc_reader.specs.Numbers.{max_entries};

use crate::held::Entry;
use axml_chunks::Pool;

/// What was read of a table so far: its strings, its entries in the order of the file, and how many entries its types
/// so far declare.
#[derive(Drop)]
pub(crate) struct Reading {
    pub(crate) pool: Option<Pool>,
    pub(crate) entries: Vec<Entry>,
    pub(crate) count: usize,
    ghost few: { count ≤ max_entries },
}
