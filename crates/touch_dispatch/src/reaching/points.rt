//! What a child gets of an event, and where its pointers are.
ghost use Rattle.std.specs.Prelude.{◌≡◌, ◌≢◌, ◌<◌, ◌&&◌, Some, None, false, if◌then◌else◌, map};
ghost use Rattle.std.specs.Option.{option_map};
ghost use Rattle.touch_dispatch.specs.Dispatch.{is_offered, only, part_for, tried_event, tried_ids};
ghost use Rattle.touch_dispatch.specs.handling.Handling.{is_cancel, is_down, is_planned, plan_bit};
ghost use Rattle.touch_dispatch.specs.reaching.Points.{acting_point, cancel_event, corner_x, corner_y, is_between, is_inside, is_near, is_near_first, is_near_point, is_tried, is_under, is_visible, local_event, local_point, point_of};
ghost use Rattle.touch_event.specs.PointerSets.{has_id};
ghost use Rattle.touch_event.specs.Splitting.{kept_points, split_event};
ghost use Rattle.touch_event.specs.Numbers.{max_pointers};
ghost use Rattle.touch_event.specs.Touches.{IsPointer};

use crate::handling::receiver::Receiver;
use arrayvec::ArrayVec;
use geom_core::{Rect, to_coordinate};
use touch_event::{Action, Event, MAX_POINTERS, Point, has_id, has_point, split, split_action};
use view_model::{Facts, Visibility};

/// Whether an action is that of a first pointer going down.
pub fn is_down(action: Action) -> bool
    ensures { result ≡ is_down action }
{
    matches!(action, Action::Down)
}

/// Whether an action takes the gesture away.
fn is_cancel(action: Action) -> bool
    ensures { result ≡ is_cancel action }
{
    matches!(action, Action::Cancel)
}

/// The bit of an action in a plan: 1, 2, 4, 8, 16 and 32 for down, up, move, cancel, pointer down and pointer up.
fn plan_bit(action: Action) -> u8
    ensures { result ≡ plan_bit action }
{
    match action {
        Action::Down => 1,
        Action::Up => 2,
        Action::Move => 4,
        Action::Cancel => 8,
        Action::PointerDown => 16,
        Action::PointerUp => 32,
    }
}

/// Whether a plan of interception has an action.
pub fn is_planned(plan: u8, action: Action) -> bool
    ensures { result ≡ is_planned plan action }
{
    plan & plan_bit(action) != 0
}

/// Whether a group tries its children at an action.
pub fn is_offered(action: Action, split: bool) -> bool
    ensures { result ≡ is_offered action split }
{
    match action {
        Action::Down => true,
        Action::PointerDown => split,
        Action::Up | Action::Move | Action::Cancel | Action::PointerUp => false,
    }
}

/// The event that takes a gesture away.
pub fn cancel_event() -> Event
    ensures { result ≡ cancel_event }
{
    Event {
        action: Action::Cancel,
        pointer: 0,
        points: ArrayVec::new(),
    }
}

/// The point of a pointer, if it is there.
pub fn point_of(id: u8, points: &[Point]) -> Option<Point>
    ensures { result ≡ point_of id points.now }
{
    points.iter().copied().find(|point| point.id == id)
}

/// The point of the pointer that acts, if it is there.
pub fn acting_point(event: &Event) -> Option<Point>
    ensures { result ≡ acting_point event.now }
{
    point_of(event.pointer, event.points.as_slice())
}

/// Whether a point of a group that has scrolled this far is in a rectangle, which does not have its right and its
/// bottom edge.
#[tactic(auto, unfolding(crate::specs::reaching::Points::is_inside))]
fn is_inside(rect: Rect, offset: i32, point: Point) -> bool
    ensures { result ≡ is_inside rect offset point }
{
    let across = is_between(rect.left.into(), point.x.into(), rect.right.into());
    let y = i64::from(point.y) + i64::from(offset);
    let down = is_between(rect.top.into(), y, rect.bottom.into());
    both(across, down)
}

/// Whether both are so.
fn both(first: bool, second: bool) -> bool
    ensures { result ≡ (first && second) }
{
    first && second
}

/// Whether a number is at least `low` and below `high`.
fn is_between(low: i64, x: i64, high: i64) -> bool
    ensures { result ≡ is_between low x high }
{
    low <= x && x < high
}

/// Whether a point of a group that has scrolled this far is on a child with these bounds; not so if either is missing.
fn is_under(rect: Option<Rect>, offset: i32, point: Option<Point>) -> bool
    ensures { result ≡ is_under rect offset point }
{
    match (rect, point) {
        (Some(rect), Some(point)) => is_inside(rect, offset, point),
        _ => false,
    }
}

/// Whether a child with these bounds is tried for the acting pointer.
pub fn is_tried(own: &Facts, kid: &Facts, rect: Option<Rect>, event: &Event) -> bool
    ensures { result ≡ is_tried kid.now.visibility rect own.now.offset event.now }
{
    is_visible(kid.visibility) && is_under(rect, own.offset, acting_point(event))
}

/// Whether a visibility is `Visible`: a child with another one is not tried.
fn is_visible(visibility: Visibility) -> bool
    ensures { result ≡ is_visible visibility }
{
    matches!(visibility, Visibility::Visible)
}

/// Whether a point in the coordinates of a view lies in its bounds, widened by the slop on each side.
#[tactic(auto, unfolding(crate::specs::reaching::Points::is_near_point))]
fn is_near_point(rect: Rect, own: &Receiver, point: Point) -> bool
    ensures { result ≡ is_near_point rect own.now.slop point }
{
    let across = is_near(rect.left, rect.right, own.slop, point.x);
    let down = is_near(rect.top, rect.bottom, own.slop, point.y);
    both(across, down)
}

/// Whether a coordinate lies within the slop of a side from `low` to `high`, in pixels from `low`.
fn is_near(low: i32, high: i32, slop: i32, x: i32) -> bool
    ensures { result ≡ is_near low high slop x }
{
    let slop = i64::from(slop);
    let size = i64::from(high) - i64::from(low);
    is_between(0 - slop, x.into(), size + slop)
}

/// Whether the first point lies in the bounds of a view, widened by the slop.
pub fn is_near_first(own: &Receiver, points: &[Point]) -> bool
    ensures { result ≡ is_near_first own.now.rect own.now.slop points.now }
{
    match (own.rect, points.first()) {
        (Some(rect), Some(point)) => is_near_point(rect, own, *point),
        _ => false,
    }
}

/// A point of a group that has scrolled this far, in the coordinates of a child with these bounds, brought into the
/// range of edges.
#[tactic(auto, unfolding(crate::specs::reaching::Points::local_point))]
fn local_point(rect: Option<Rect>, offset: i32, point: Point) -> Point
    ensures { result ≡ local_point rect offset point }
{
    let x = i64::from(point.x) - i64::from(corner_x(rect));
    let y = i64::from(point.y) - i64::from(corner_y(rect)) + i64::from(offset);
    Point {
        id: point.id,
        x: to_coordinate(x),
        y: to_coordinate(y),
    }
}

/// The left edge of the bounds of a child, in its group's coordinates; 0 if it has none.
fn corner_x(rect: Option<Rect>) -> i32
    ensures { result ≡ corner_x rect }
{
    match rect {
        None => 0,
        Some(rect) => rect.left,
    }
}

/// The top edge of the bounds of a child, in its group's coordinates; 0 if it has none.
fn corner_y(rect: Option<Rect>) -> i32
    ensures { result ≡ corner_y rect }
{
    match rect {
        None => 0,
        Some(rect) => rect.top,
    }
}

/// An event in the coordinates of a child with these bounds, of a group that has scrolled this far.
fn local_event(rect: Option<Rect>, own: &Facts, event: &Event) -> Event
    ensures { result ≡ local_event rect own.now.offset event.now }
{
    let mut points = ArrayVec::new();
    for point in event.points.as_slice() {
        points.push(local_point(rect, own.offset, *point));
    }
    Event {
        action: event.action,
        pointer: event.pointer,
        points,
    }
}

/// What a child gets that is tried.
#[inline(never)]
pub fn tried_event(own: &Facts, rect: Option<Rect>, event: &Event) -> Event
    requires { IsPointer event.now.pointer }
    ensures value { result ≡ local_event rect own.now.offset (tried_event own.now.split event.now) }
    ensures pointer { IsPointer result.pointer }
{
    if own.split
        && let Some(part) = split(event, id_bit(event.pointer))
    {
        return local_event(rect, own, &part);
    }
    local_event(rect, own, event)
}

/// The set of this one id.
pub fn id_bit(id: u8) -> u32
    requires { id < max_pointers }
    ensures value { has_id result ≡ only id }
    ensures some { result ≢ 0 }
{
    1 << id
}

/// The pointers that a child gets which was tried and took an event.
pub fn tried_ids(is_split: bool, event: &Event) -> u32
    requires { IsPointer event.now.pointer }
    ensures value { has_id result ≡ tried_ids is_split event.now }
    ensures some { result ≢ 0 }
{
    if is_split {
        id_bit(event.pointer)
    } else {
        u32::MAX
    }
}

/// Makes a part of an event that of a target with these bounds. Returns whether the target gets one.
pub fn put_part(part: &mut Event, own: &Facts, rect: Option<Rect>, event: &Event, ids: u32) -> bool
    ensures value { (if result then Some part.new else None)
        ≡ part_for rect own.now.offset event.now false (has_id ids) }
    ensures pointer { part.new.pointer ≡ event.now.pointer }
{
    if is_cancel(event.action) {
        part.set(event);
        return true;
    }
    put_split(part, own, rect, event, ids)
}

/// Makes a part of an event that of these pointers, in the coordinates of a child with these bounds. Returns whether it
/// has one of them.
fn put_split(part: &mut Event, own: &Facts, rect: Option<Rect>, event: &Event, ids: u32) -> bool
    ensures value { (if result then Some part.new else None)
        ≡ option_map (local_event rect own.now.offset) (split_event (has_id ids) event.now) }
    ensures pointer { part.new.pointer ≡ event.now.pointer }
{
    put_points(&mut part.points, own, rect, event, ids);
    let points = part.points.as_slice();
    let kept = has_point(points, event.pointer);
    part.action = split_action(event.action, kept, points.len() == 1);
    part.pointer = event.pointer;
    !part.points.is_empty()
}

/// The points of these pointers, in the coordinates of a child with these bounds.
fn put_points(
    points: &mut ArrayVec<Point, MAX_POINTERS>,
    own: &Facts,
    rect: Option<Rect>,
    event: &Event,
    ids: u32,
)
    ensures { points.new.items ≡ map (local_point rect own.now.offset)
        (kept_points (has_id ids) event.now.points.items) }
{
    points.clear();
    for point in event.points.as_slice() {
        if has_id(ids, point.id) {
            points.push(local_point(rect, own.offset, *point));
        }
    }
}
