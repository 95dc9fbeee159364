//! An event on its way to a view, and how a group passes it on.

use crate::reaching::taker::Taker;
use touch_event::Event;
use view_tree::Key;

/// An event, in the coordinates of the view that gets it.
#[derive(Clone, Copy)]
pub struct Delivery<'a> {
    pub view: Key,
    pub event: &'a Event,
    /// How far a pointer may slip before that counts, in pixels.
    pub slop: i32,
}

/// A delivery to a group, once the group was asked about it and its children were tried: what its targets get.
#[derive(Clone, Copy)]
pub struct Shared<'a> {
    pub delivery: &'a Delivery<'a>,
    /// The group takes the event away from its targets, which get a cancel.
    pub intercepted: bool,
    /// The child that takes the pointer that goes down.
    pub taker: Taker,
}
