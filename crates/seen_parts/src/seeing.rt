//! What is seen of a view in a canvas.
ghost use Rattle.std.specs.Prelude.{◌≡◌, ◌≢◌, ◌^◌, ℤ, pos, Some, None, true, false, IfSome, MatchOption};
ghost use Rattle.damage_rect.specs.Within.{LiesIn};
ghost use Rattle.geom_core.specs.Rects.{empty_rect, holds};
ghost use Rattle.geom_core.specs.declared.geometry.Rect.{Rect};
ghost use Rattle.view_model.specs.Geometry.{rect_at};
ghost use Rattle.view_model.specs.Visible.{canvas_below, seen_in, whole_window};
ghost use Rattle.seen_parts.specs.Frames.{IsBelow, IsCanvas, IsInReach, IsSeen, IsNearCanvas};
ghost use Rattle.seen_parts.specs.Meeting.{Follows, as_seen};

use crate::frame::{Canvas, Frame, before, inner_frame, moved, part_in};
use damage_rect::Damage;
use geom_core::{Rect, Size};
use view_model::Facts;

/// The canvas of a root in a window of this size.
pub fn window_canvas(window: Size) -> Canvas
    ensures value { as_seen result ≡ whole_window window }
    ensures near { IsCanvas (2 ^ 37) result }
{
    Canvas {
        left: 0,
        top: 0,
        clip: window_rect(window),
    }
}

/// The rectangle of a window of this size.
pub fn window_rect(window: Size) -> Rect
    ensures { result ≡ rect_at (pos 0) (pos 0) window }
{
    Rect {
        left: 0,
        top: 0,
        right: window.w,
        bottom: window.h,
    }
}

/// What is seen of a view in this rectangle of a canvas, if it has bounds: nothing, or a part of the window.
pub fn part_seen(bounds: Option<Rect>, canvas: Canvas) -> Rect
    requires { IsNearCanvas canvas }
    ensures { result ≡ seen_in bounds (as_seen canvas) }
{
    match bounds {
        None => nowhere(),
        Some(bounds) => rect_seen(bounds, canvas),
    }
}

/// The rectangle without a pixel.
pub fn nowhere() -> Rect
    ensures { result ≡ empty_rect }
{
    Rect {
        left: 0,
        top: 0,
        right: 0,
        bottom: 0,
    }
}

/// What is seen of a rectangle of a canvas.
fn rect_seen(bounds: Rect, canvas: Canvas) -> Rect
    requires { IsNearCanvas canvas }
    ensures { result ≡ seen_in (Some bounds) (as_seen canvas) }
{
    match part_in(canvas.clip, moved(bounds, canvas)) {
        None => nowhere(),
        Some(part) => part,
    }
}

/// The canvas of the children of a view in this rectangle of a canvas, if they can be seen anywhere.
pub fn children_canvas(facts: &Facts, bounds: Rect, canvas: Canvas) -> Option<Canvas>
    requires { IsNearCanvas canvas }
    ensures below { MatchOption result
        ((x y : ℤ) → holds (canvas_below (Some bounds) facts.now (as_seen canvas)).clip x y ≡ false)
        (λ inner. as_seen inner ≡ canvas_below (Some bounds) facts.now (as_seen canvas)) }
    ensures near { IfSome result IsNearCanvas }
{
    let frame = moved(bounds, canvas);
    let Some(part) = part_in(canvas.clip, frame) else {
        return None;
    };
    if !facts.clip {
        return Some(canvas_under(facts, frame, part));
    }
    match part_in(part, inner_frame(facts, frame)) {
        Some(inner) => Some(canvas_under(facts, frame, inner)),
        None => None,
    }
}

/// Follows a view from its old bounds to its present ones: if these differ, what was seen of it and what is seen of it
/// is damage. Otherwise returns the canvas of its children, if they can be seen anywhere. A view without a canvas is
/// not followed.
pub fn follow(
    facts: &Facts,
    before: Option<Rect>,
    rect: Rect,
    canvas: Option<Canvas>,
    damage: &mut Damage,
) -> Option<Canvas>
    requires { IfSome canvas (IsCanvas (2 ^ 37)) }
    ensures grew { LiesIn damage.old.rect damage.new.rect }
    ensures near { IfSome result IsNearCanvas }
    ensures follows { IfSome canvas (λ canvas. Follows facts.now before rect (as_seen canvas) damage.new.rect result) }
    ensures within { (box : Rect) → LiesIn damage.old.rect box
        → IfSome canvas (λ canvas. before ≢ Some rect
        → LiesIn (seen_in before (as_seen canvas)) box × LiesIn (seen_in (Some rect) (as_seen canvas)) box)
        → LiesIn damage.new.rect box }
    ensures unfollowed { canvas ≡ None → result ≡ None }
    ensures stays { IfSome result (λ inner. (before ≡ Some rect)
        × IfSome canvas (λ canvas. as_seen inner ≡ canvas_below (Some rect) facts.now (as_seen canvas))) }
{
    let Some(canvas) = canvas else {
        return None;
    };
    if lies_in(before, rect) {
        return children_canvas(facts, rect, canvas);
    }
    damage.add(part_seen(before, canvas));
    damage.add(part_seen(Some(rect), canvas));
    None
}

/// Whether a view that had these bounds, if any, has this rectangle.
fn lies_in(before: Option<Rect>, rect: Rect) -> bool
    ensures same { result ≡ true → before ≡ Some rect }
    ensures other { result ≡ false → before ≢ Some rect }
{
    match before {
        None => false,
        Some(before) => is_same(before, rect),
    }
}

/// Whether two rectangles have the same four edges.
fn is_same(one: Rect, other: Rect) -> bool
    ensures same { result ≡ true → one ≡ other }
    ensures other { result ≡ false → one ≢ other }
{
    one.left == other.left
        && one.top == other.top
        && one.right == other.right
        && one.bottom == other.bottom
}

/// The canvas of children whose parent lies in this frame.
fn canvas_under(facts: &Facts, frame: Frame, clip: Rect) -> Canvas
    requires reach { IsInReach frame }
    requires seen { IsSeen frame }
    ensures below { IsBelow frame facts.now.offset result }
    ensures clip { result.clip ≡ clip }
    ensures canvas { IsCanvas (2 ^ 37) result }
{
    Canvas {
        left: frame.left,
        top: before(frame.top, facts.offset),
        clip,
    }
}
