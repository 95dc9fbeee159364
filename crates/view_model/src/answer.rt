//! How a view answers events.

/// How a view answers an event that reaches it.
#[derive(Clone, Copy)]
pub enum Answer {
    Off,
    Yes,
    /// Yes, and a press that is lifted near the view is a click.
    Click,
}
