//! The pointers that are down, and the events that lines make of them.

ghost use Rattle.std.specs.Prelude.{◌≡◌, ◌↔◌, ◌<◌, ◌≤◌, ◌+◌, ◌++◌, ℕ, [], length};
ghost use Rattle.touch_event.specs.Events.{event_of};
ghost use Rattle.touch_event.specs.Numbers.{max_pointers};
ghost use Rattle.touch_event.specs.PointerSets.{has_id};
ghost use Rattle.world_parts.specs.Pointers.{AreDown, down_action, is_pressed, points_above, points_below, up_action, with_point, without_point};

use arrayvec::ArrayVec;
use touch_event::{Action, Event, MAX_POINTERS, Point};

/// Whether the pointer of this id is down.
pub fn is_pressed(points: &[Point], id: u8) -> bool
    ensures { result ≡ is_pressed id points.now }
{
    points.iter().any(|point| point.id == id)
}

/// The event of a pointer that is at this point now, while these are down, or were.
pub fn event_at(action: Action, point: Point, points: &[Point]) -> Event
    requires down { AreDown points.now }
    requires id { point.id < max_pointers }
    ensures event { result ≡ event_of action point.id (with_point point points.now) }
    ensures down { AreDown result.points.items }
{
    let mut event = Event {
        action,
        pointer: point.id,
        points: ArrayVec::new(),
    };
    put_below(&mut event.points, points, point.id);
    event.points.push(point);
    put_above(&mut event.points, points, point.id);
    event
}

/// Adds the points whose ids are below this one.
fn put_below(all: &mut ArrayVec<Point, MAX_POINTERS>, points: &[Point], id: u8)
    requires { length all.old.items + length (points_below id points.now) ≤ max_pointers }
    ensures { all.new.items ≡ all.old.items ++ points_below id points.now }
{
    for point in points {
        if point.id < id {
            all.push(*point);
        }
    }
}

/// Adds the points whose ids are above this one.
fn put_above(all: &mut ArrayVec<Point, MAX_POINTERS>, points: &[Point], id: u8)
    requires { length all.old.items + length (points_above id points.now) ≤ max_pointers }
    ensures { all.new.items ≡ all.old.items ++ points_above id points.now }
{
    for point in points {
        if id < point.id {
            all.push(*point);
        }
    }
}

/// The points of the pointers that stay down once this one goes up.
pub fn without_point(points: &[Point], id: u8) -> ArrayVec<Point, MAX_POINTERS>
    requires down { AreDown points.now }
    ensures points { result.items ≡ without_point id points.now }
    ensures down { AreDown result.items }
{
    let mut others = ArrayVec::new();
    for point in points {
        if point.id != id {
            others.push(*point);
        }
    }
    others
}

/// The event of a pointer among these.
pub fn event_of(action: Action, pointer: u8, points: &[Point]) -> Event
    requires { length points.now ≤ max_pointers }
    ensures { result ≡ event_of action pointer points.now }
{
    let mut event = Event {
        action,
        pointer,
        points: ArrayVec::new(),
    };
    match event.points.try_extend_from_slice(points) {
        Ok(()) => event,
        Err(_) => unreachable!(),
    }
}

/// Replaces points by others.
pub fn set_points(all: &mut ArrayVec<Point, MAX_POINTERS>, points: &[Point])
    requires { length points.now ≤ max_pointers }
    ensures { all.new.items ≡ points.now }
{
    all.clear();
    match all.try_extend_from_slice(points) {
        Ok(()) => (),
        Err(_) => unreachable!(),
    }
}

/// The event of a pointer that goes down, if these are down already.
pub fn down_action(others: &[Point]) -> Action
    ensures { result ≡ down_action others.now }
{
    if others.is_empty() {
        Action::Down
    } else {
        Action::PointerDown
    }
}

/// The event of a pointer that goes up, if these stay down.
pub fn up_action(others: &[Point]) -> Action
    ensures { result ≡ up_action others.now }
{
    if others.is_empty() {
        Action::Up
    } else {
        Action::PointerUp
    }
}

/// The ids of these points as a set. Bit `k` represents the id `k`.
pub fn ids_of(points: &[Point]) -> u32
    requires { AreDown points.now }
    ensures ids { (id : ℕ) → has_id result id ≡ is_pressed id points.now }
    ensures none { (result ≡ 0) ↔ (points.now ≡ []) }
{
    let mut ids = 0;
    for point in points {
        ids |= 1 << point.id;
    }
    ids
}
