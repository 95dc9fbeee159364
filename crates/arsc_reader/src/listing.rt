//! The entries of one type in one configuration, before they are read.

/// Where the entries of a type are: the id of its first entry, the places in the file of the list of offsets and of the
/// first entry, the place after the type's chunk, and how many entries there are.
#[derive(Clone, Copy)]
pub(crate) struct Listing {
    pub(crate) id: u32,
    pub(crate) offsets: usize,
    pub(crate) first: usize,
    pub(crate) end: usize,
    pub(crate) count: usize,
}
