//! The part of an event that some of its pointers make.
ghost use Rattle.std.specs.Prelude.{◌≡◌, ◌↔◌, [], IfSome, IsNone};
ghost use Rattle.touch_event.specs.PointerSets.{has_id};
ghost use Rattle.touch_event.specs.Splitting.{has_point, kept_points, split_action, split_event};
ghost use Rattle.touch_event.specs.Touches.{IsTouch};

use crate::event::{Action, Event, MAX_POINTERS, Point};
use crate::pointer_set::has_id;
use arrayvec::ArrayVec;

/// What an event is to a view that follows only these pointers, or `None` if it has none of them. In `ids` bit `k`
/// represents the pointer with the id `k`.
pub fn split(event: &Event, ids: u32) -> Option<Event>
    ensures value { result ≡ split_event (has_id ids) event.now }
    ensures none { IsNone result ↔ (kept_points (has_id ids) event.now.points.items ≡ []) }
    ensures touch { IsTouch event.now → IfSome result IsTouch }
{
    let points = kept_points(event, ids);
    if points.is_empty() {
        return None;
    }
    let kept = has_point(points.as_slice(), event.pointer);
    Some(Event {
        action: split_action(event.action, kept, points.len() == 1),
        pointer: event.pointer,
        points,
    })
}

/// The points of these pointers, in the order of the event.
fn kept_points(event: &Event, ids: u32) -> ArrayVec<Point, MAX_POINTERS>
    ensures { result.items ≡ kept_points (has_id ids) event.now.points.items }
{
    let mut points = ArrayVec::new();
    for point in event.points.as_slice() {
        if has_id(ids, point.id) {
            points.push(*point);
        }
    }
    points
}

/// Whether one of the points is that of this pointer.
pub fn has_point(points: &[Point], id: u8) -> bool
    ensures { result ≡ has_point id points.now }
{
    points.iter().any(|point| point.id == id)
}

/// What an action is to a part of the pointers: whether the acting one is `kept` in it, and whether one is kept `alone`.
pub fn split_action(action: Action, kept: bool, alone: bool) -> Action
    ensures { result ≡ split_action action kept alone }
{
    match action {
        Action::PointerDown | Action::PointerUp if !kept => Action::Move,
        Action::PointerDown if alone => Action::Down,
        Action::PointerUp if alone => Action::Up,
        same => same,
    }
}
