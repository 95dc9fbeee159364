//! How work is counted.

/// How much work was done. Each count stays at the greatest number once it is there.
#[derive(Clone, Copy, Debug, Default, PartialEq, Eq)]
pub struct Work {
    /// How many views were measured.
    pub measured: u64,
    /// How many pixels were painted.
    pub painted: u64,
}
