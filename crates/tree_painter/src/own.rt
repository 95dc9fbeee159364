//! What one view shows itself.
ghost use Rattle.std.specs.Prelude.{◌≡◌, ℤ, ◌+◌, ◌≤◌, ◌^◌, ◌+ℤ◌, ◌-ℤ◌, ◌≤ℤ◌, ◌&&◌, pos, true, false, IfSome, Some};
ghost use Rattle.damage_rect.specs.Within.{IsInside};
ghost use Rattle.geom_core.specs.Color.{alpha_of};
ghost use Rattle.geom_core.specs.Rects.{holds};
ghost use Rattle.pixel_raster.specs.Raster.{Raster};
ghost use Rattle.view_model.specs.Facts.{padding_across, padding_left};
ghost use Rattle.view_model.specs.Classes.{has_text};
ghost use Rattle.view_model.specs.Painting.{Painter, drawn_in, is_drawn, reaches_children};
ghost use Rattle.view_model.specs.Forest.{Nothing};
ghost use Rattle.view_tree.specs.Rows.{children_of_first, part_from};
ghost use Rattle.view_tree.specs.Views.{IsLive, state_of, view_at};
ghost use Rattle.seen_parts.specs.Frames.{IsBelow, IsCanvas, IsInReach, IsSeen, canvas_holds, frame_size, IsNearCanvas};
ghost use Rattle.tree_painter.specs.Inks.{own_ink};
ghost use Rattle.tree_painter.specs.Painted.{ChildrenPainted, IsCounted, IsPainted, PaintedIn, PaintsNothing, area_in, from_origin};

use crate::text::{TextStyle, ink_text};
use cell_text::cells_in;
use geom_core::Rect;
use pixel_raster::Surface;
use seen_parts::{Canvas, Frame, before, inner_frame, moved, part_in, past};
use view_model::{Facts, Visibility, Work};
use view_tree::{Key, ViewTree};

/// A frame of which something is seen, and the part of it that is.
#[derive(Clone, Copy)]
struct SeenFrame {
    frame: Frame,
    part: Rect,
}

/// Paints what a view shows itself in a canvas. Returns where its children are to be painted, if it has any and they
/// are seen anywhere. If nothing of the view is seen, only its bounds are read, so these come first.
pub fn paint_own(
    tree: &ViewTree,
    view: Key,
    surface: &mut Surface,
    canvas: Canvas,
    work: &mut Work,
) -> Option<Canvas>
    requires live { IsLive tree.now view }
    requires canvas { IsNearCanvas canvas }
    ensures painted { (children : Painter) (end : Raster)
        → (children_of_first (part_from view tree.now.tree) ≡ Nothing → PaintsNothing children)
        → ChildrenPainted result children surface.new end
        → PaintedIn canvas (drawn_in (state_of tree.now view).bounds (view_at tree.now view) children)
        surface.old end }
    ensures size { (surface.new.width ≡ surface.old.width) × (surface.new.height ≡ surface.old.height) }
    ensures canvas { IfSome result IsNearCanvas }
    ensures narrower { IfSome result (λ inner. area_in surface.old inner.clip ≤ area_in surface.old canvas.clip) }
    ensures counted { IsCounted (area_in surface.old canvas.clip + area_in surface.old canvas.clip) surface.old
        surface.new work.old work.new }
{
    let Some(bounds) = tree.state(view).bounds else {
        return None;
    };
    let frame = moved(bounds, canvas);
    let Some(part) = part_in(canvas.clip, frame) else {
        return None;
    };
    if !is_drawn(tree.facts(view).visibility) {
        return None;
    }
    surface.blend(part, tree.facts(view).background, work);
    let seen = SeenFrame { frame, part };
    paint_ink(tree, view, seen, surface, work);
    if !has_children(tree, view) {
        return None;
    }
    children_canvas(tree.facts(view), seen)
}

/// Whether a view of this visibility is drawn.
fn is_drawn(visibility: Visibility) -> bool
    ensures { result ≡ is_drawn visibility }
{
    match visibility {
        Visibility::Visible => true,
        Visibility::Invisible | Visibility::Gone => false,
    }
}

/// Whether nothing is painted of a view wherever it lies: it has no child, no text and no background. Views that only
/// hold a place are such.
#[inline(always)]
pub fn is_blank(tree: &ViewTree, view: Key) -> bool
    requires { IsLive tree.now view }
    ensures childless { result ≡ true → children_of_first (part_from view tree.now.tree) ≡ Nothing }
    ensures textless { result ≡ true → has_text (view_at tree.now view).class ≡ false }
    ensures clear { result ≡ true → alpha_of (view_at tree.now view).facts.background ≡ 0 }
{
    if has_children(tree, view) {
        return false;
    }
    if tree.class(view).has_text() {
        return false;
    }
    tree.facts(view).background.alpha() == 0
}

/// Whether anything lies in a view.
fn has_children(tree: &ViewTree, view: Key) -> bool
    requires { IsLive tree.now view }
    ensures { result ≡ false → children_of_first (part_from view tree.now.tree) ≡ Nothing }
{
    match tree.first(view) {
        None => false,
        Some(_) => true,
    }
}

/// Blends the ink of a view in this frame, within the part of it that is seen.
fn paint_ink(tree: &ViewTree, view: Key, seen: SeenFrame, surface: &mut Surface, work: &mut Work)
    requires live { IsLive tree.now view }
    requires reach { IsInReach seen.frame }
    requires seen { IsSeen seen.frame }
    ensures painted { IsPainted (from_origin seen.frame.left seen.frame.top
        (own_ink (view_at tree.now view) (frame_size seen.frame))) seen.part surface.old surface.new }
    ensures counted { IsCounted (area_in surface.old seen.part) surface.old surface.new work.old work.new }
{
    if tree.class(view).has_text() {
        paint_text(tree, view, seen, surface, work);
    }
}

/// The same of a view that shows its text.
fn paint_text(tree: &ViewTree, view: Key, seen: SeenFrame, surface: &mut Surface, work: &mut Work)
    requires live { IsLive tree.now view }
    requires shows { has_text (view_at tree.now view).class ≡ true }
    requires reach { IsInReach seen.frame }
    requires seen { IsSeen seen.frame }
    ensures painted { IsPainted (from_origin seen.frame.left seen.frame.top
        (own_ink (view_at tree.now view) (frame_size seen.frame))) seen.part surface.old surface.new }
    ensures counted { IsCounted (area_in surface.old seen.part) surface.old surface.new work.old work.new }
{
    let facts = tree.facts(view);
    if let Some(clip) = part_in(seen.part, inner_frame(facts, seen.frame)) {
        let style = TextStyle {
            cells: cells_in(room_across(facts, seen.frame)),
            ink: facts.ink,
        };
        let text = tree.text(view).characters();
        let canvas = text_canvas(facts, seen.frame, clip);
        ink_text(text, style, surface, canvas, work);
    }
}

/// The width of a frame without the padding of the view that lies in it.
fn room_across(facts: &Facts, frame: Frame) -> i64
    requires { IsInReach frame }
    ensures value { result ≡ frame.right -ℤ frame.left -ℤ padding_across facts.now }
    ensures bound { result ≤ℤ pos (2 ^ 34) }
{
    frame.right - frame.left - facts.padding_across()
}

/// The canvas of the text of a view that lies in this frame, which is seen within `clip`.
fn text_canvas(facts: &Facts, frame: Frame, clip: Rect) -> Canvas
    requires reach { IsInReach frame }
    requires seen { IsSeen frame }
    ensures left { result.left ≡ frame.left +ℤ padding_left facts.now }
    ensures top { result.top ≡ frame.top +ℤ facts.now.padding.top }
    ensures clip { result.clip ≡ clip }
    ensures near { IsCanvas (2 ^ 35) result }
{
    Canvas {
        left: past(frame.left, facts.padding_left()),
        top: past(frame.top, facts.padding.top),
        clip,
    }
}

/// Where the children of a view in this frame are painted, if a part of it is seen: higher by the view's offset, and
/// within its padding if that cuts them off.
fn children_canvas(facts: &Facts, seen: SeenFrame) -> Option<Canvas>
    requires reach { IsInReach seen.frame }
    requires seen { IsSeen seen.frame }
    ensures points { (x y : ℤ) → canvas_holds result x y
        ≡ (holds seen.part x y && reaches_children facts.now (frame_size seen.frame)
        (x -ℤ seen.frame.left) (y -ℤ seen.frame.top)) }
    ensures below { IfSome result (IsBelow seen.frame facts.now.offset) }
    ensures canvas { IfSome result IsNearCanvas }
    ensures inside { IfSome result (λ inner. IsInside seen.part inner.clip) }
{
    if !facts.clip {
        return Some(canvas_below(seen.frame, facts.offset, seen.part));
    }
    match part_in(seen.part, inner_frame(facts, seen.frame)) {
        Some(inner) => Some(canvas_below(seen.frame, facts.offset, inner)),
        None => None,
    }
}

/// The canvas of children whose parent lies in this frame and has this offset.
fn canvas_below(frame: Frame, offset: i32, clip: Rect) -> Canvas
    requires reach { IsInReach frame }
    requires seen { IsSeen frame }
    ensures below { IsBelow frame offset result }
    ensures clip { result.clip ≡ clip }
    ensures canvas { IsCanvas (2 ^ 37) result }
{
    Canvas {
        left: frame.left,
        top: before(frame.top, offset),
        clip,
    }
}
