//! A document, and what the values of its attributes are read with.

use axml_reader::Doc;
use res_values::Resources;

/// A document, the resources that its attributes name, and the density of the screen in dots an inch.
#[derive(Clone, Copy)]
pub struct Source<'a> {
    pub doc: &'a Doc,
    pub res: &'a Resources,
    pub dpi: u32,
}
