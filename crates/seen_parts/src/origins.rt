//! Where the coordinates of a view begin in a window, and whether the view is within a rectangle there, by a walk over
//! its ancestors that cuts nothing off.
ghost use Rattle.std.specs.Prelude.{◌≡◌, ◌-ℤ◌, true, IfSome};
ghost use Rattle.damage_rect.specs.Within.{LiesIn};
ghost use Rattle.geom_core.specs.declared.geometry.Size.{Size};
ghost use Rattle.seen_parts.specs.Meeting.{canvas_around, seen_at};
ghost use Rattle.view_model.specs.Visible.{moved_rect, whole_window};
ghost use Rattle.view_tree.specs.Views.{IsLive, held_of};

use crate::climbing::recall_tree;
use geom_core::Rect;
use view_tree::{Key, ViewTree};

/// A point of a window, in pixels.
#[derive(Clone, Copy)]
struct Point {
    left: i64,
    top: i64,
}

/// Whether a view is for sure within a rectangle of a window, wherever its ancestors cut it off. This takes a tenth of
/// the time of `seen` an ancestor, and a view that changes again before the next frame is within the damage.
pub fn is_seen_within(tree: &ViewTree, view: Key, rect: Rect) -> bool
    requires { IsLive tree.now view }
    ensures { result ≡ true → (window : Size)
        → LiesIn (seen_at (held_of tree.now) (whole_window window) view tree.now.tree) rect }
{
    let Some(bounds) = tree.state(view).bounds else {
        return true;
    };
    if rect.left >= rect.right {
        return false;
    }
    match origin(tree, view) {
        None => false,
        Some(origin) => is_placed_within(bounds, origin, rect),
    }
}

/// Whether a rectangle of coordinates that begin at a point of the window is for sure within another of the window.
fn is_placed_within(bounds: Rect, origin: Point, rect: Rect) -> bool
    ensures { result ≡ true → LiesIn (moved_rect bounds origin.left origin.top) rect }
{
    if origin.left < gap(bounds.left, rect.left) {
        return false;
    }
    if origin.top < gap(bounds.top, rect.top) {
        return false;
    }
    if gap(bounds.right, rect.right) < origin.left {
        return false;
    }
    gap(bounds.bottom, rect.bottom) >= origin.top
}

/// How far it is from one edge to another.
fn gap(from: i32, to: i32) -> i64
    ensures { result ≡ to -ℤ from }
{
    i64::from(to) - i64::from(from)
}

/// Where the coordinates in which a view lies begin in a window; nowhere if one of its ancestors has no bounds.
fn origin(tree: &ViewTree, view: Key) -> Option<Point>
    requires { IsLive tree.now view }
    ensures { IfSome result (λ origin. (window : Size)
        → let canvas = canvas_around (held_of tree.now) (whole_window window) view tree.now.tree in
        (canvas.left ≡ origin.left) × (canvas.top ≡ origin.top)) }
{
    recall_tree(tree, view);
    let mut left = 0;
    let mut top = 0;
    let mut inner = view;
    while let Some(outer) = tree.parent(inner) {
        let Some(bounds) = tree.state(outer).bounds else {
            return None;
        };
        left += i64::from(bounds.left);
        top += gap(tree.facts(outer).offset, bounds.top);
        inner = outer;
    }
    Some(Point { left, top })
}
