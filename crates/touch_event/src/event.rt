//! An event, what happens in it, and the place of a pointer.

use arrayvec::ArrayVec;

/// The most pointers that can be down at once. Their ids are below this.
pub const MAX_POINTERS: usize = 32;

/// What happens in an event.
#[derive(Clone, Copy)]
pub enum Action {
    /// The first pointer goes down.
    Down,
    /// The last pointer goes up.
    Up,
    /// Pointers move, or one that is not among the points goes down or up.
    Move,
    /// The gesture is taken away, whatever pointers are down.
    Cancel,
    /// One more pointer goes down.
    PointerDown,
    /// A pointer goes up, and others stay down.
    PointerUp,
}

/// Where a pointer is: how many pixels right of and below the corner of the view that the event is for.
#[derive(Clone, Copy, Default)]
pub struct Point {
    pub id: u8,
    pub x: i32,
    pub y: i32,
}

/// What a view gets: the action, the id of the pointer that acts, and the pointers that are down, by rising ids. One
/// that goes up is still among them; `Cancel` has none. In a part of an event the one that acts may be missing.
#[derive(Drop)]
pub struct Event {
    pub action: Action,
    pub pointer: u8,
    pub points: ArrayVec<Point, MAX_POINTERS>,
}

impl Event {
    ghost use Rattle.std.specs.Prelude.{◌≡◌};

    /// Becomes a copy of another event.
    pub fn set(&mut self, other: &Event)
        ensures { self.new ≡ other.now }
    {
        self.action = other.action;
        self.pointer = other.pointer;
        self.points.clear();
        match self.points.try_extend_from_slice(other.points.as_slice()) {
            Ok(()) => (),
            Err(_) => unreachable!(),
        }
    }
}
