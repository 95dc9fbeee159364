//! What is seen of a view in a window, through all its ancestors.
ghost use Rattle.std.specs.Prelude.{◌≡◌, ℤ, false, IfSome, MatchOption};
ghost use Rattle.geom_core.specs.Rects.{holds};
ghost use Rattle.seen_parts.specs.Frames.{IsNearCanvas};
ghost use Rattle.seen_parts.specs.Meeting.{as_seen, canvas_around, seen_at};
ghost use Rattle.view_model.specs.Visible.{visible_rect, whole_window};
ghost use Rattle.view_tree.specs.Views.{IsLive, IsTree, geometry_of, held_of, number_of, plain_of};

use crate::frame::Canvas;
use crate::seeing::{children_canvas, nowhere, part_seen, window_canvas};
use geom_core::{Rect, Size};
use view_tree::{Key, ViewTree};

/// What is seen of a view in a window of this size.
pub fn seen(tree: &ViewTree, window: Size, view: Key) -> Rect
    requires { IsLive tree.now view }
    ensures value { result ≡ visible_rect (plain_of tree.now) (geometry_of tree.now) window (number_of tree.now view) }
    ensures keyed { result ≡ seen_at (held_of tree.now) (whole_window window) view tree.now.tree }
{
    let bounds = tree.state(view).bounds;
    match canvas_of(tree, window, view) {
        None => nowhere(),
        Some(canvas) => part_seen(bounds, canvas),
    }
}

/// The canvas in which a view lies, if anything can be seen in it.
fn canvas_of(tree: &ViewTree, window: Size, view: Key) -> Option<Canvas>
    requires { IsLive tree.now view }
    ensures canvas { MatchOption result
        ((x y : ℤ) → holds (canvas_around (held_of tree.now) (whole_window window) view tree.now.tree).clip x y ≡ false)
        (λ canvas. as_seen canvas ≡ canvas_around (held_of tree.now) (whole_window window) view tree.now.tree) }
    ensures near { IfSome result IsNearCanvas }
{
    recall_tree(tree, view);
    let Some(parent) = tree.parent(view) else {
        return Some(window_canvas(window));
    };
    let Some(outer) = canvas_of(tree, window, parent) else {
        return None;
    };
    let Some(bounds) = tree.state(parent).bounds else {
        return None;
    };
    children_canvas(tree.facts(parent), bounds, outer)
}

/// Every tree keeps its invariant; what follows needs it. This is for contracts alone.
pub(crate) fn recall_tree(tree: &ViewTree, view: Key)
    requires { IsLive tree.now view }
    ensures { IsTree tree.now }
{
    let _class = tree.class(view);
}
