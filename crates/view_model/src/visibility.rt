//! The visibility of a view.

/// Whether a view is drawn, and whether it takes part in layout.
#[derive(Clone, Copy)]
pub enum Visibility {
    Visible,
    /// Not drawn, but measured and laid out.
    Invisible,
    /// Neither drawn nor measured nor laid out, and all below it likewise.
    Gone,
}
