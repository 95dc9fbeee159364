//! A document while it is read.
ghost use Rattle.std.specs.Prelude.{◌≤◌, ◌*◌, length};
ghost use Rattle.axml_reader.specs.Alike.{AreAlike};
ghost use Rattle.axml_reader.specs.Numbers.{max_attrs, max_elements};

use crate::doc::{Attr, Node};
use axml_chunks::Pool;

/// What was read of a document so far: its parts, which string numbers are known to have the same
/// text, the names of the open elements with the innermost last, whether an outermost element has
/// ended, and how many elements have begun.
#[derive(Drop)]
pub(crate) struct Reading {
    pub(crate) pool: Option<Pool>,
    pub(crate) alike: Vec<u32>,
    pub(crate) map: Vec<u32>,
    pub(crate) nodes: Vec<Node>,
    pub(crate) attrs: Vec<Attr>,
    pub(crate) opened: Vec<u32>,
    pub(crate) closed: bool,
    pub(crate) starts: u32,
    ghost known: { AreAlike pool alike.items },
    ghost few: { starts ≤ max_elements },
    ghost room: { length attrs.items ≤ max_attrs * starts },
}
