//! The walk over a tree of views that paints each of them.
ghost use Rattle.std.specs.Prelude.{◌≡◌, ◌+◌, ◌-◌, ◌*◌, ◌≤◌, ◌^◌, false, min};
ghost use Rattle.geom_core.specs.Color.{alpha_of};
ghost use Rattle.view_model.specs.Classes.{has_text};
ghost use Rattle.view_model.specs.Forest.{Nothing, count_of};
ghost use Rattle.view_model.specs.Painting.{painted, pixel_color};
ghost use Rattle.view_tree.specs.Rows.{children_of_first, first_tree, part_from};
ghost use Rattle.view_tree.specs.Views.{IsLive, geometry_of, held_of, plain_of, view_at};
ghost use Rattle.seen_parts.specs.Frames.{IsNearCanvas};
ghost use Rattle.seen_parts.specs.Meeting.{placed_rows};
ghost use Rattle.tree_painter.specs.Painted.{IsCounted, IsPainted, PaintedIn, area_in, share_of};

use crate::own::{is_blank, paint_own};
use geom_core::{BLACK, Rect};
use pixel_raster::Surface;
use seen_parts::Canvas;
use view_model::Work;
use view_tree::{Key, ViewTree};

/// Paints a whole tree, over black, in a rectangle of the window; the rest of the picture stays. The views have the
/// bounds of their last layout.
pub fn paint(tree: &ViewTree, surface: &mut Surface, damage: Rect, work: &mut Work)
    ensures painted { IsPainted (λ x y under. pixel_color (geometry_of tree.now) (plain_of tree.now) x y)
        damage surface.old surface.new }
    ensures counted { IsCounted ((2 * count_of tree.now.tree + 1) * area_in surface.old damage) surface.old
        surface.new work.old work.new }
    ensures least { min (work.old.painted + area_in surface.old damage) (2 ^ 64 - 1) ≤ work.new.painted }
{
    surface.fill(damage, BLACK, work);
    if let Some(root) = tree.root() {
        let window = Canvas {
            left: 0,
            top: 0,
            clip: damage,
        };
        paint_view(tree, root, surface, window, work);
    }
}

/// Paints a view and all below it. The canvas is that of its siblings. A blank view costs no call, and its bounds are
/// not read.
#[cycle(paint)]
#[inline(always)]
fn paint_view(tree: &ViewTree, view: Key, surface: &mut Surface, canvas: Canvas, work: &mut Work)
    requires live { IsLive tree.now view }
    requires canvas { IsNearCanvas canvas }
    ensures painted { PaintedIn canvas
        (painted (placed_rows (held_of tree.now) (first_tree (part_from view tree.now.tree)))) surface.old surface.new }
    ensures counted { IsCounted (share_of (area_in surface.old canvas.clip) (first_tree (part_from view tree.now.tree)))
        surface.old surface.new work.old work.new }
{
    if is_blank(tree, view) {
        paint_blank(tree, view, surface, canvas, work);
        return;
    }
    paint_filled(tree, view, surface, canvas, work);
}

/// Paints a blank view: its background, which covers nothing.
#[inline(always)]
fn paint_blank(tree: &ViewTree, view: Key, surface: &mut Surface, canvas: Canvas, work: &mut Work)
    requires live { IsLive tree.now view }
    requires clear { alpha_of (view_at tree.now view).facts.background ≡ 0 }
    requires textless { has_text (view_at tree.now view).class ≡ false }
    requires childless { children_of_first (part_from view tree.now.tree) ≡ Nothing }
    ensures painted { PaintedIn canvas
        (painted (placed_rows (held_of tree.now) (first_tree (part_from view tree.now.tree)))) surface.old surface.new }
    ensures counted { IsCounted (share_of (area_in surface.old canvas.clip) (first_tree (part_from view tree.now.tree)))
        surface.old surface.new work.old work.new }
{
    surface.blend(canvas.clip, tree.facts(view).background, work);
}

/// Paints any view and all below it.
#[cycle(paint)]
#[inline(never)]
fn paint_filled(tree: &ViewTree, view: Key, surface: &mut Surface, canvas: Canvas, work: &mut Work)
    requires live { IsLive tree.now view }
    requires canvas { IsNearCanvas canvas }
    ensures painted { PaintedIn canvas
        (painted (placed_rows (held_of tree.now) (first_tree (part_from view tree.now.tree)))) surface.old surface.new }
    ensures counted { IsCounted (share_of (area_in surface.old canvas.clip) (first_tree (part_from view tree.now.tree)))
        surface.old surface.new work.old work.new }
{
    if let Some(inner) = paint_own(tree, view, surface, canvas, work) {
        paint_children(tree, view, surface, inner, work);
    }
}

/// Paints the children of a view, the first one first. The canvas is theirs.
#[cycle(paint)]
fn paint_children(
    tree: &ViewTree,
    view: Key,
    surface: &mut Surface,
    canvas: Canvas,
    work: &mut Work,
)
    requires live { IsLive tree.now view }
    requires canvas { IsNearCanvas canvas }
    ensures painted { PaintedIn canvas (painted
        (placed_rows (held_of tree.now) (children_of_first (part_from view tree.now.tree)))) surface.old surface.new }
    ensures counted { IsCounted (share_of (area_in surface.old canvas.clip)
        (children_of_first (part_from view tree.now.tree))) surface.old surface.new work.old work.new }
{
    let mut next = tree.first(view);
    while let Some(child) = next {
        paint_view(tree, child, surface, canvas, work);
        next = tree.next(child);
    }
}
