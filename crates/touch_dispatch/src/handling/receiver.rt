//! A view that gets an event.

use geom_core::Rect;
use view_model::Answer;

/// What of a view determines how it handles an event itself, and what it is asked. Lengths are in pixels.
#[derive(Clone, Copy)]
pub struct Receiver {
    pub number: u64,
    pub scrolls: bool,
    pub answer: Answer,
    pub intercept: u8,
    /// Its bounds in its parent.
    pub rect: Option<Rect>,
    /// How far a scroll view can move its child up; 0 for another view.
    pub range: i32,
    pub childless: bool,
    /// How far a pointer may slip before that counts.
    pub slop: i32,
}
