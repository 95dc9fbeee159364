//! How a frame has ended.
//!
//! A frame that does not settle keeps what its passes did: sizes, bounds and what the edits of hooks have set.
use geom_core::Rect;

/// How a frame has ended.
#[derive(Clone, Copy)]
pub struct Frame {
    /// Whether its last pass fired no hook.
    pub settled: bool,
    /// How many hooks fired: at most one per pass.
    pub fired: u8,
    /// What has to be painted, in the window's coordinates: nothing if it is empty.
    pub damage: Rect,
}
