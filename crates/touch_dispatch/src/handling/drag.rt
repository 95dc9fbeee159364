//! How a scroll view follows a pointer.
//!
//! A group that may not intercept follows no drag. A touch uses the bounds of the last frame and the offsets of now;
//! the picture shows a drag from the next frame on.
ghost use Rattle.std.specs.Prelude.{◌≡◌, ◌≤ℤ◌, negsuc, pos, IfSome};
ghost use Rattle.touch_dispatch.specs.handling.Drags.{IsWay, active_point, asked_drag, asked_move, begins_drag, beyond_slop, dragging_at, ended_drag, following, is_active, is_past, lifted_drag, other_point, pressed_drag, pulled, pulled_at, pulled_to, still, way_up};

use crate::handling::receiver::Receiver;
use crate::reaching::points::{acting_point, point_of};
use touch_event::{Action, Event, Point};

/// The pointer that a scroll view follows, and whether that moves its child.
#[derive(Clone, Copy, PartialEq, Eq)]
pub struct Drag {
    pub active: Option<u8>,
    /// Where the pointer was last, in pixels down from the view's top.
    pub last: i32,
    pub dragging: bool,
}

/// What an event does to a drag: how it goes on, and how far it moves the child up, if it moves it.
#[derive(Clone, Copy)]
pub struct Pull {
    pub drag: Drag,
    pub by: Option<i64>,
}

/// The drag that follows the pointer of this point from there on; the same drag if there is no point.
fn following(point: Option<Point>, drag: Drag) -> Drag
    ensures { result ≡ following point drag }
{
    match point {
        None => drag,
        Some(point) => Drag {
            active: Some(point.id),
            last: point.y,
            dragging: drag.dragging,
        },
    }
}

/// The drag once a first pointer went down: it is followed, and does not move the child yet.
fn pressed_drag(event: &Event, drag: Drag) -> Drag
    ensures { result ≡ pressed_drag event.now drag }
{
    let followed = following(acting_point(event), drag);
    Drag {
        active: followed.active,
        last: followed.last,
        dragging: false,
    }
}

/// The drag once the pointers went up or were taken away: it follows none.
fn ended_drag(drag: Drag) -> Drag
    ensures { result ≡ ended_drag drag }
{
    Drag {
        active: None,
        last: drag.last,
        dragging: false,
    }
}

/// The first of the points that is not of this pointer, `None` if there is no other.
fn other_point(id: u8, points: &[Point]) -> Option<Point>
    ensures { result ≡ other_point id points.now }
{
    points.iter().copied().find(|point| point.id != id)
}

/// Whether a drag follows this pointer.
fn is_active(id: u8, drag: Drag) -> bool
    ensures { result ≡ is_active id drag }
{
    match drag.active {
        None => false,
        Some(active) => active == id,
    }
}

/// The drag once the acting pointer goes up: if that was followed, the first of the others is from then on.
fn lifted_drag(event: &Event, drag: Drag) -> Drag
    ensures { result ≡ lifted_drag event.now drag }
{
    if is_active(event.pointer, drag) {
        following(other_point(event.pointer, event.points.as_slice()), drag)
    } else {
        drag
    }
}

/// The point of the pointer that a drag follows; `None` if it follows none, or if the event has no point of it.
fn active_point(event: &Event, drag: Drag) -> Option<Point>
    ensures { result ≡ active_point event.now drag }
{
    match drag.active {
        None => None,
        Some(id) => point_of(id, event.points.as_slice()),
    }
}

/// Whether a way up or down, in pixels, is longer than the slop.
#[tactic(auto, unfolding(crate::specs::handling::Drags::is_past))]
fn is_past(own: &Receiver, way: i64) -> bool
    ensures { result ≡ is_past own.now.slop way }
{
    let slop = i64::from(own.slop);
    way > slop || way < -slop
}

/// How far a pointer has gone up since it was last looked at, in pixels; negative if it has gone down.
#[tactic(auto, unfolding(crate::specs::handling::Drags::way_up))]
fn way_up(drag: Drag, point: Point) -> i64
    ensures value { result ≡ way_up drag point }
    ensures low { negsuc 4294967295 ≤ℤ result }
    ensures high { result ≤ℤ pos 4294967295 }
{
    i64::from(drag.last) - i64::from(point.y)
}

/// Whether a drag that is not on begins, since its pointer has gone further than the slop.
fn begins_drag(own: &Receiver, drag: Drag, point: Point) -> bool
    ensures { result ≡ begins_drag own.now.slop drag point }
{
    !drag.dragging && is_past(own, way_up(drag, point))
}

/// The drag that is on, with its pointer at this point.
fn dragging_at(point: Point, drag: Drag) -> Drag
    ensures { result ≡ dragging_at point drag }
{
    Drag {
        active: drag.active,
        last: point.y,
        dragging: true,
    }
}

/// The drag of a group that was asked about a move. It begins only in one that can scroll; otherwise it stays the same.
fn asked_move(own: &Receiver, point: Option<Point>, drag: Drag) -> Drag
    ensures { result ≡ asked_move own.now.range own.now.slop point drag }
{
    match point {
        Some(point) if own.range > 0 && begins_drag(own, drag, point) => dragging_at(point, drag),
        _ => drag,
    }
}

/// The drag of a scroll view once it was asked about an event.
pub fn asked_drag(own: &Receiver, event: &Event, drag: Drag) -> Drag
    ensures { result ≡ asked_drag own.now.range own.now.slop event.now drag }
{
    match event.action {
        Action::Down => pressed_drag(event, drag),
        Action::Move => asked_move(own, active_point(event, drag), drag),
        Action::PointerDown => drag,
        Action::PointerUp => lifted_drag(event, drag),
        Action::Up | Action::Cancel => ended_drag(drag),
    }
}

/// A way, in pixels, without the slop at its beginning; up is positive.
#[tactic(auto, unfolding(crate::specs::handling::Drags::beyond_slop))]
fn beyond_slop(own: &Receiver, way: i64) -> i64
    requires low { negsuc 4294967295 ≤ℤ way }
    requires high { way ≤ℤ pos 4294967295 }
    ensures value { result ≡ beyond_slop own.now.slop way }
    ensures way { IsWay result }
{
    let slop = i64::from(own.slop);
    if way > 0 { way - slop } else { way + slop }
}

/// This drag, and a child that does not move.
fn still(drag: Drag) -> Pull
    ensures { result ≡ still drag }
{
    Pull { drag, by: None }
}

/// What a move of the followed pointer to this point does. A drag that is on moves the child by the whole way, one that
/// begins by what is beyond the slop.
fn pulled_at(own: &Receiver, point: Point, drag: Drag) -> Pull
    ensures value { result ≡ pulled_at own.now.slop point drag }
    ensures way { IfSome result.by IsWay }
{
    let way = way_up(drag, point);
    if drag.dragging {
        return Pull {
            drag: dragging_at(point, drag),
            by: Some(way),
        };
    }
    if !is_past(own, way) {
        return still(drag);
    }
    Pull {
        drag: dragging_at(point, drag),
        by: Some(beyond_slop(own, way)),
    }
}

/// What a move of the followed pointer does; without a point of it, the drag stays and the child does too.
fn pulled_to(own: &Receiver, point: Option<Point>, drag: Drag) -> Pull
    ensures value { result ≡ pulled_to own.now.slop point drag }
    ensures way { IfSome result.by IsWay }
{
    match point {
        None => still(drag),
        Some(point) => pulled_at(own, point, drag),
    }
}

/// What an event does to a drag that a scroll view handles itself.
pub fn pulled(own: &Receiver, event: &Event, drag: Drag) -> Pull
    ensures value { result ≡ pulled own.now.slop event.now drag }
    ensures way { IfSome result.by IsWay }
{
    match event.action {
        Action::Down => still(pressed_drag(event, drag)),
        Action::Move => pulled_to(own, active_point(event, drag), drag),
        Action::PointerDown => still(following(acting_point(event), drag)),
        Action::PointerUp => still(lifted_drag(event, drag)),
        Action::Up | Action::Cancel => still(ended_drag(drag)),
    }
}
