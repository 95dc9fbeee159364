//! The stage of a script.

/// The stage of a script.
#[derive(Clone, Copy)]
pub enum Stage {
    NoWindow,
    /// A window was opened, and nothing was laid out in it.
    NoFrame,
    /// A hook fired in the last pass of the last frame: the bounds of views are not known.
    Unsettled,
    /// The last frame settled: the views have the bounds that it gave them, and the picture is its own.
    Settled,
}
