//! What is kept of a view in a gesture, besides the targets.

use crate::handling::drag::Drag;

#[derive(Clone, Copy, PartialEq, Eq)]
pub struct Marks {
    /// The group may not take events away from its children.
    pub disallows: bool,
    pub pressed: bool,
    pub drag: Drag,
}
