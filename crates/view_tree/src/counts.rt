//! How much layout has been done in a tree.

/// How often views were measured and laid out since a tree was made. A count stays at the greatest number once it is
/// there.
#[derive(Clone, Copy)]
pub struct Counts {
    /// The calls of `set_measured`.
    pub measures: u64,
    /// The calls of `set_bounds`.
    pub laid: u64,
}
