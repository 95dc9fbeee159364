//! Rectangles in window coordinates whose edges may lie far outside, and what of them is seen.
ghost use Rattle.std.specs.Prelude.{◌≡◌, ℤ, pos, negsuc, ◌+ℤ◌, ◌-ℤ◌, ◌≤ℤ◌, ◌<ℤ◌, ◌&&◌, ◌^◌, OnSome, IfSome};
ghost use Rattle.damage_rect.specs.Within.{IsInside};
ghost use Rattle.geom_core.specs.Rects.{holds, larger_of, smaller_of};
ghost use Rattle.seen_parts.specs.Frames.{IsEdge, IsInReach, IsMoved, IsCommonPart, IsSeen, IsWithin, IsWithout, frame_holds, padding_of, part_holds, IsNearCanvas};

use geom_core::{Insets, Rect};
use view_model::Facts;

/// A rectangle in window coordinates.
#[derive(Clone, Copy)]
pub struct Frame {
    pub left: i64,
    pub top: i64,
    pub right: i64,
    pub bottom: i64,
}

/// Where in a window something is painted: the origin of its coordinates, and the rectangle that it may touch, both in
/// window coordinates.
#[derive(Clone, Copy)]
pub struct Canvas {
    pub left: i64,
    pub top: i64,
    pub clip: Rect,
}

/// An edge in window coordinates.
fn shifted(edge: i32, by: i64) -> i64
    requires { IsWithin (2 ^ 37) by }
    ensures { result ≡ edge +ℤ by }
{
    i64::from(edge) + by
}

/// A rectangle of a canvas in window coordinates.
pub fn moved(rect: Rect, canvas: Canvas) -> Frame
    requires { IsNearCanvas canvas }
    ensures moved { IsMoved rect canvas result }
    ensures reach { IsInReach result }
{
    Frame {
        left: shifted(rect.left, canvas.left),
        top: shifted(rect.top, canvas.top),
        right: shifted(rect.right, canvas.left),
        bottom: shifted(rect.bottom, canvas.top),
    }
}

/// The one of two low edges that cuts off more.
#[tactic(auto, unfolding(geom_core::specs::Rects::larger_of))]
fn later(clip: i32, edge: i64) -> i64
    ensures value { result ≡ larger_of clip edge }
    ensures low { negsuc 2147483647 ≤ℤ result }
    ensures after { edge ≤ℤ result }
{
    i64::from(clip).max(edge)
}

/// The one of two high edges that cuts off more.
#[tactic(auto, unfolding(geom_core::specs::Rects::smaller_of))]
fn earlier(clip: i32, edge: i64) -> i64
    ensures value { result ≡ smaller_of clip edge }
    ensures high { result ≤ℤ pos 2147483647 }
    ensures before { result ≤ℤ edge }
{
    i64::from(clip).min(edge)
}

/// An edge in 32 bits, which has to fit them.
fn narrow(edge: i64) -> i32
    requires low { negsuc 2147483647 ≤ℤ edge }
    requires high { edge ≤ℤ pos 2147483647 }
    ensures { result ≡ edge }
{
    edge as i32
}

/// The rectangle with these edges in window coordinates. It has at least one pixel, and each edge fits 32 bits.
fn rect_of(left: i64, top: i64, right: i64, bottom: i64) -> Rect
    requires left { negsuc 2147483647 ≤ℤ left }
    requires top { negsuc 2147483647 ≤ℤ top }
    requires right { right ≤ℤ pos 2147483647 }
    requires bottom { bottom ≤ℤ pos 2147483647 }
    requires across { left <ℤ right }
    requires down { top <ℤ bottom }
    ensures { result ≡ record { left = left; top = top; right = right; bottom = bottom } }
{
    Rect {
        left: narrow(left),
        top: narrow(top),
        right: narrow(right),
        bottom: narrow(bottom),
    }
}

/// What of a frame lies in a rectangle, if there is anything.
pub fn part_in(clip: Rect, frame: Frame) -> Option<Rect>
    ensures points { (x y : ℤ) → part_holds result x y ≡ (holds clip x y && frame_holds frame x y) }
    ensures edges { IfSome result (IsCommonPart clip frame) }
    ensures seen { OnSome result (IsSeen frame) }
    ensures inside { IfSome result (IsInside clip) }
{
    let left = later(clip.left, frame.left);
    let top = later(clip.top, frame.top);
    let right = earlier(clip.right, frame.right);
    let bottom = earlier(clip.bottom, frame.bottom);
    if left >= right {
        return None;
    }
    if top >= bottom {
        return None;
    }
    Some(rect_of(left, top, right, bottom))
}

/// An edge further to the right, or further down.
pub fn past(edge: i64, by: i32) -> i64
    requires { IsEdge edge }
    ensures { result ≡ edge +ℤ by }
{
    edge + i64::from(by)
}

/// An edge further to the left, or further up.
pub fn before(edge: i64, by: i32) -> i64
    requires { IsEdge edge }
    ensures { result ≡ edge -ℤ by }
{
    edge - i64::from(by)
}

/// The padding of a view; a start value replaces a left one, an end value a right one.
fn padding_of(facts: &Facts) -> Insets
    ensures { result ≡ padding_of facts.now }
{
    Insets {
        left: facts.padding_left(),
        top: facts.padding.top,
        right: facts.padding_right(),
        bottom: facts.padding.bottom,
    }
}

/// A frame with each edge moved inwards by the padding of its side, in pixels.
fn without(frame: Frame, padding: Insets) -> Frame
    requires { IsInReach frame }
    ensures { IsWithout frame padding result }
{
    Frame {
        left: past(frame.left, padding.left),
        top: past(frame.top, padding.top),
        right: before(frame.right, padding.right),
        bottom: before(frame.bottom, padding.bottom),
    }
}

/// A frame without the padding of the view that lies in it.
pub fn inner_frame(facts: &Facts, frame: Frame) -> Frame
    requires { IsInReach frame }
    ensures { IsWithout frame (padding_of facts.now) result }
{
    without(frame, padding_of(facts))
}
