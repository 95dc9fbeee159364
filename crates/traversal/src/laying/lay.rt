//! Laying a measured view and all below it, where they need that: the walk, which is the same for every class.
ghost use Rattle.std.specs.Prelude.{◌≡◌, ◌≢◌, ◌+◌, ◌≤◌, ◌^◌, ℤ, ◌⊎◌, true, false, if◌then◌else◌, [], IfSome, List, None, Some, length};
ghost use Rattle.damage_rect.specs.Within.{LiesIn};
ghost use Rattle.geom_core.specs.Rects.{holds};
ghost use Rattle.geom_core.specs.declared.geometry.Rect.{Rect};
ghost use Rattle.seen_parts.specs.Frames.{IsCanvas, IsNearCanvas};
ghost use Rattle.seen_parts.specs.Meeting.{Follows, as_seen};
ghost use Rattle.kept_views.specs.Kept.{owed};
ghost use Rattle.kept_views.specs.Laying.{Fit, IsPut, IsQuiet, IsQuietAll, IsQuietBack, moved_to, same_place};
ghost use Rattle.kept_views.specs.Passes.{settled, settled_at};
ghost use Rattle.measure_pass.specs.Caches.{Grown};
ghost use Rattle.measure_pass.specs.Measured.{IsFit, Keeps};
ghost use Rattle.measure_pass.specs.Sharing.{SharesOut};
ghost use Rattle.view_model.specs.Classes.{is_relative, lays_in_line};
ghost use Rattle.view_model.specs.declared.limits.TheConstants.{MAX_VIEWS};
ghost use Rattle.view_model.specs.Forest.{count_of};
ghost use Rattle.view_model.specs.Facts.{is_shown};
ghost use Rattle.view_model.specs.Layout.{Spot};
ghost use Rattle.view_model.specs.Measuring.{Measured};
ghost use Rattle.view_model.specs.Offsets.{brought};
ghost use Rattle.view_model.specs.RelativeLayout.{sides_of};
ghost use Rattle.view_model.specs.Visible.{canvas_below, seen_in};
ghost use Rattle.view_tree.specs.Rows.{children_of_first, first_key, part_from};
ghost use Rattle.scroll_offsets.specs.Bringing.{range_at};
ghost use Rattle.view_tree.specs.Views.{IsLive, IsTree, KeepsOthers, KeepsOutside, SameTree, class_of, facts_of, held_of, offset_of, specs_of, state_of, KeepsCounts, KeepsMeasures};
ghost use Rattle.traversal.specs.Counting.{IsMeasuringCounted};
ghost use Rattle.traversal.specs.Laying.{AreFitToLay, HasLaid, stage_of};
ghost use Rattle.traversal.specs.Narrow.{IsNarrow, IsNarrowFor};
ghost use Rattle.traversal.specs.Placing.{LaidKids, PlacesAs, Unmarked};
ghost use Rattle.traversal.specs.Resting.{IsAtPlace, is_at_place};
ghost use Rattle.traversal.specs.Subtrees.{children_at, spot_at, subtree_at};

use super::placer::{Placer, places_backwards};
use crate::reporting::near_size;
use damage_rect::Damage;
use geom_core::{Rect, Size};
use measure_pass::remeasure;
use scroll_offsets::bring_one;
use seen_parts::{Canvas, follow, part_seen};
use view_model::{Facts, Work};
use view_tree::{Key, State, ViewTree};

/// What the children of a view are laid in: the size of the view, and the canvas in which they are seen, if they are.
#[derive(Clone, Copy)]
pub struct Inside {
    size: Size,
    canvas: Option<Canvas>,
}

/// What laying adds to: what has to be painted again, and the counts of work.
#[derive(Clone, Copy)]
pub struct LayoutContext {
    pub damage: Damage,
    pub work: Work,
}

/// Lays a shown view, which was measured, in a rectangle, and all below it, where they need that.
#[cycle(lay)]
#[inline(always)]
pub fn lay(
    tree: &mut ViewTree,
    view: Key,
    rect: Rect,
    canvas: &Option<Canvas>,
    context: &mut LayoutContext,
)
    requires fit { IsFit tree.old view }
    requires narrow { IsNarrow rect }
    requires near { IfSome canvas.now IsNearCanvas }
    ensures done { HasLaid canvas.now (stage_of tree.old context.old) (stage_of tree.new context.new)
        (subtree_at tree.old view) }
    ensures put { IsPut (held_of tree.old) (held_of tree.new) view (part_from view tree.old.tree) rect }
{
    let _in_range = context.work.measured;
    if is_at_place(&tree.state(view), rect) {
        return;
    }
    lay_open(tree, view, rect, canvas, context);
    settle(tree, view);
}

/// Whether nothing was asked of a view of this state, and it has this rectangle. Most views of a frame that follows a
/// small change are such.
#[inline(always)]
fn is_at_place(state: &State, rect: Rect) -> bool
    ensures { result ≡ is_at_place state.now rect }
{
    let asked = state.forced | state.layout_needed | state.measure_first;
    !asked && lies_at(state.bounds, rect)
}

/// The same, but that the view itself has not settled: what was asked of it stays until then.
#[cycle(lay)]
#[inline(always)]
pub fn lay_open(
    tree: &mut ViewTree,
    view: Key,
    rect: Rect,
    canvas: &Option<Canvas>,
    context: &mut LayoutContext,
)
    requires fit { IsFit tree.old view }
    requires narrow { IsNarrow rect }
    requires near { IfSome canvas.now IsNearCanvas }
    ensures done { HasLaid canvas.now (stage_of tree.old context.old) (stage_of tree.new context.new)
        (subtree_at tree.old view) }
    ensures put { IsPut (held_of tree.old) (settled_at view (held_of tree.new)) view
        (part_from view tree.old.tree) rect }
    ensures still { IsAtPlace (state_of tree.old view) rect
        → (tree.new ≡ tree.old) × (context.new.work ≡ context.old.work) }
{
    make_fit(tree, view, &mut context.work);
    let before = tree.state(view).bounds;
    let moved = move_to(tree, view, rect);
    let state = tree.state(view);
    if is_calm(moved, state.forced, state.layout_needed) {
        return;
    }
    if is_bare(tree, view, canvas) {
        bring(tree, view, rect, canvas, &mut context.damage);
        return;
    }
    let inner = follow_in(tree.facts(view), before, rect, canvas, &mut context.damage);
    let inside = Inside {
        size: near_size(rect),
        canvas: inner,
    };
    lay_kids(tree, view, &inside, context);
    bring(tree, view, rect, canvas, &mut context.damage);
}

/// Whether a view has no children and is not seen, so that nothing is to be followed and nothing is below it. Most views
/// that are laid are such.
#[inline(always)]
fn is_bare(tree: &ViewTree, view: Key, canvas: &Option<Canvas>) -> bool
    requires { IsLive tree.now view }
    ensures unseen { result ≡ true → canvas.now ≡ None }
    ensures childless { result ≡ true → first_key (children_of_first (part_from view tree.now.tree)) ≡ None }
{
    match canvas {
        None => tree.first(view).is_none(),
        Some(_) => false,
    }
}

/// The same as `follow`, which is not called without a canvas.
#[inline(always)]
fn follow_in(
    facts: &Facts,
    before: Option<Rect>,
    rect: Rect,
    canvas: &Option<Canvas>,
    damage: &mut Damage,
) -> Option<Canvas>
    requires { IfSome canvas.now IsNearCanvas }
    ensures grew { LiesIn damage.old.rect damage.new.rect }
    ensures near { IfSome result IsNearCanvas }
    ensures follows { IfSome canvas.now
        (λ canvas. Follows facts.now before rect (as_seen canvas) damage.new.rect result) }
    ensures within { (box : Rect) → LiesIn damage.old.rect box
        → IfSome canvas.now (λ canvas. before ≢ Some rect
        → LiesIn (seen_in before (as_seen canvas)) box × LiesIn (seen_in (Some rect) (as_seen canvas)) box)
        → LiesIn damage.new.rect box }
    ensures unfollowed { canvas.now ≡ None → result ≡ None }
    ensures stays { IfSome result (λ inner. (before ≡ Some rect)
        × IfSome canvas.now (λ canvas. as_seen inner ≡ canvas_below (Some rect) facts.now (as_seen canvas))) }
{
    match canvas {
        None => None,
        Some(canvas) => follow_seen(facts, before, rect, canvas, damage),
    }
}

/// The same with a canvas. Most views that are laid have none, since what was seen of a view above them is damage.
#[inline(never)]
fn follow_seen(
    facts: &Facts,
    before: Option<Rect>,
    rect: Rect,
    canvas: &Canvas,
    damage: &mut Damage,
) -> Option<Canvas>
    requires { IsCanvas (2 ^ 37) canvas.now }
    ensures grew { LiesIn damage.old.rect damage.new.rect }
    ensures near { IfSome result IsNearCanvas }
    ensures follows { Follows facts.now before rect (as_seen canvas.now) damage.new.rect result }
    ensures within { (box : Rect) → LiesIn damage.old.rect box
        → (before ≢ Some rect → LiesIn (seen_in before (as_seen canvas.now)) box
        × LiesIn (seen_in (Some rect) (as_seen canvas.now)) box)
        → LiesIn damage.new.rect box }
    ensures stays { IfSome result (λ inner. (before ≡ Some rect)
        × (as_seen inner ≡ canvas_below (Some rect) facts.now (as_seen canvas.now))) }
{
    follow(facts, before, rect, Some(*canvas), damage)
}

/// Brings the offset of a view in this rectangle into its range. If that changes it, what is seen of the view is
/// damage; a view without a canvas is not looked at.
#[inline(always)]
fn bring(tree: &mut ViewTree, view: Key, rect: Rect, canvas: &Option<Canvas>, damage: &mut Damage)
    requires live { IsLive tree.old view }
    requires near { IfSome canvas.now IsNearCanvas }
    ensures same { SameTree tree.old tree.new }
    ensures held { held_of tree.new view
        ≡ record (held_of tree.old view) { offset = brought (range_at tree.old view) (offset_of tree.old view) } }
    ensures others { KeepsOthers tree.old tree.new view }
    ensures counts { KeepsCounts tree.old tree.new }
    ensures grew { LiesIn damage.old.rect damage.new.rect }
    ensures seen { IfSome canvas.now (λ canvas. (offset_of tree.new view ≡ offset_of tree.old view)
        ⊎ ((x y : ℤ) → holds damage.new.rect x y ≡ false → holds (seen_in (Some rect) (as_seen canvas)) x y ≡ false)) }
    ensures within { (box : Rect) → LiesIn damage.old.rect box
        → IfSome canvas.now (λ canvas. offset_of tree.new view ≢ offset_of tree.old view
        → LiesIn (seen_in (Some rect) (as_seen canvas)) box)
        → LiesIn damage.new.rect box }
{
    if !tree.class(view).scrolls() {
        return;
    }
    bring_scrolled(tree, view, rect, canvas, damage);
}

/// The same of a view that scrolls.
#[inline(never)]
fn bring_scrolled(
    tree: &mut ViewTree,
    view: Key,
    rect: Rect,
    canvas: &Option<Canvas>,
    damage: &mut Damage,
)
    requires live { IsLive tree.old view }
    requires near { IfSome canvas.now IsNearCanvas }
    ensures same { SameTree tree.old tree.new }
    ensures held { held_of tree.new view
        ≡ record (held_of tree.old view) { offset = brought (range_at tree.old view) (offset_of tree.old view) } }
    ensures others { KeepsOthers tree.old tree.new view }
    ensures counts { KeepsCounts tree.old tree.new }
    ensures grew { LiesIn damage.old.rect damage.new.rect }
    ensures seen { IfSome canvas.now (λ canvas. (offset_of tree.new view ≡ offset_of tree.old view)
        ⊎ ((x y : ℤ) → holds damage.new.rect x y ≡ false → holds (seen_in (Some rect) (as_seen canvas)) x y ≡ false)) }
    ensures within { (box : Rect) → LiesIn damage.old.rect box
        → IfSome canvas.now (λ canvas. offset_of tree.new view ≢ offset_of tree.old view
        → LiesIn (seen_in (Some rect) (as_seen canvas)) box)
        → LiesIn damage.new.rect box }
{
    if !bring_one(tree, view) {
        return;
    }
    let Some(canvas) = canvas else {
        return;
    };
    damage.add(part_seen(Some(rect), *canvas));
}

/// Whether nothing is to be done below a view.
fn is_calm(moved: bool, forced: bool, needed: bool) -> bool
    ensures { result ≡ (if moved then false else (if forced then false else (if needed then false else true))) }
{
    if moved {
        return false;
    }
    if forced {
        return false;
    }
    if needed {
        return false;
    }
    true
}

/// Measures the children of a view, if it is marked.
fn make_fit(tree: &mut ViewTree, view: Key, work: &mut Work)
    requires { IsFit tree.old view }
    ensures is_tree { IsTree tree.old }
    ensures same { SameTree tree.old tree.new }
    ensures unmarked { Unmarked (held_of tree.old view) (held_of tree.new view) }
    ensures fit { Fit (held_of tree.new) (subtree_at tree.old view) }
    ensures keeps { Keeps (held_of tree.old) (held_of tree.new) }
    ensures others { KeepsOutside (held_of tree.old) (held_of tree.new) (subtree_at tree.old view) }
    ensures measured { work.new.measured + owed (held_of tree.new) (subtree_at tree.old view)
        ≤ work.old.measured + owed (held_of tree.old) (subtree_at tree.old view) }
    ensures laid { tree.new.counts.laid ≡ tree.old.counts.laid }
    ensures counted { IsMeasuringCounted tree.old tree.new work.old work.new }
    ensures caches { Grown (λ place other. other ≡ specs_of (state_of tree.old view)) (held_of tree.old)
        (held_of tree.new) (subtree_at tree.old view) }
    ensures shares { SharesOut (λ place other. other ≡ specs_of (state_of tree.old view)) (λ place. 0)
        (held_of tree.old) (held_of tree.new) (subtree_at tree.old view) work.old.measured work.new.measured }
    ensures still { (state_of tree.old view).measure_first ≡ false → (tree.new ≡ tree.old) × (work.new ≡ work.old) }
{
    let _in_range = work.measured;
    if !tree.state(view).measure_first {
        return;
    }
    remeasure(tree, view, work);
}

/// Whether bounds are this rectangle.
fn lies_at(bounds: Option<Rect>, rect: Rect) -> bool
    ensures { result ≡ same_place bounds rect }
{
    match bounds {
        None => false,
        Some(bounds) => {
            if bounds.left != rect.left {
                return false;
            }
            if bounds.top != rect.top {
                return false;
            }
            if bounds.right != rect.right {
                return false;
            }
            bounds.bottom == rect.bottom
        }
    }
}

/// Sets the bounds of a view if they change; returns whether they did.
fn move_to(tree: &mut ViewTree, view: Key, rect: Rect) -> bool
    requires { IsLive tree.old view }
    ensures moved { same_place (state_of tree.old view).bounds rect ≡ (if result then false else true) }
    ensures same { SameTree tree.old tree.new }
    ensures held { held_of tree.new view
        ≡ (if result then moved_to (held_of tree.old view) rect else held_of tree.old view) }
    ensures others { KeepsOthers tree.old tree.new view }
    ensures laid { tree.new.counts.laid ≤ tree.old.counts.laid + (if result then 1 else 0) }
    ensures measures { KeepsMeasures tree.old tree.new }
    ensures still { result ≡ false → tree.new ≡ tree.old }
{
    if lies_at(tree.state(view).bounds, rect) {
        return false;
    }
    tree.set_bounds(view, Some(rect));
    true
}

/// What was asked of a view is done. If nothing was, nothing is written.
pub fn settle(tree: &mut ViewTree, view: Key)
    requires { IsLive tree.old view }
    ensures is_tree { IsTree tree.old }
    ensures same { SameTree tree.old tree.new }
    ensures held { held_of tree.new view ≡ settled (held_of tree.old view) }
    ensures others { KeepsOthers tree.old tree.new view }
    ensures counts { KeepsCounts tree.old tree.new }
    ensures still { (state_of tree.old view).forced ≡ false
        → (state_of tree.old view).layout_needed ≡ false
        → tree.new ≡ tree.old }
{
    let mut state = tree.state(view);
    if is_calm(false, state.forced, state.layout_needed) {
        return;
    }
    state.forced = false;
    state.layout_needed = false;
    tree.set_state(view, state);
}

/// Lays the children of a view, in the order in which it places them. A view without children is done at once. What a
/// placer holds is cleared where the function that holds it begins, so each kind of placing has a function of its own.
#[cycle(lay)]
#[inline(always)]
fn lay_kids(tree: &mut ViewTree, view: Key, inside: &Inside, context: &mut LayoutContext)
    requires fit { AreFitToLay tree.old view inside.now.canvas }
    ensures done { HasLaid inside.now.canvas (stage_of tree.old context.old) (stage_of tree.new context.new)
        (children_at tree.old view) }
    ensures quiet { IsQuietAll (held_of tree.new) (spot_at tree.old view inside.now.size)
        (held_of tree.old) (children_at tree.old view) }
{
    if tree.first(view).is_none() {
        return;
    }
    if places_backwards(tree, view) {
        lay_backwards(tree, view, inside, context);
        return;
    }
    let class = tree.class(view);
    if class.lays_in_line() {
        lay_in_line(tree, view, inside, context);
        return;
    }
    if class.is_relative() {
        lay_between(tree, view, inside, context);
        return;
    }
    lay_over(tree, view, inside, context);
}

/// Lays the children of a view that places them over one another.
#[cycle(lay)]
#[inline(never)]
fn lay_over(tree: &mut ViewTree, view: Key, inside: &Inside, context: &mut LayoutContext)
    requires fit { AreFitToLay tree.old view inside.now.canvas }
    requires apart { lays_in_line (class_of tree.old view) ≡ false }
    requires untied { is_relative (class_of tree.old view) ≡ false }
    ensures done { HasLaid inside.now.canvas (stage_of tree.old context.old) (stage_of tree.new context.new)
        (children_at tree.old view) }
    ensures quiet { IsQuiet (held_of tree.new) (spot_at tree.old view inside.now.size) []
        (held_of tree.old) (children_at tree.old view) }
{
    let mut placer = Placer::over(tree, view, inside.size);
    lay_forwards(tree, view, &mut placer, inside, context);
}

/// Lays the children of a linear layout, from the first to the last.
#[cycle(lay)]
#[inline(never)]
fn lay_in_line(tree: &mut ViewTree, view: Key, inside: &Inside, context: &mut LayoutContext)
    requires fit { AreFitToLay tree.old view inside.now.canvas }
    requires class { lays_in_line (class_of tree.old view) ≡ true }
    ensures done { HasLaid inside.now.canvas (stage_of tree.old context.old) (stage_of tree.new context.new)
        (children_at tree.old view) }
    ensures quiet { IsQuiet (held_of tree.new) (spot_at tree.old view inside.now.size) []
        (held_of tree.old) (children_at tree.old view) }
{
    let mut placer = Placer::in_line(tree, view, inside.size);
    lay_forwards(tree, view, &mut placer, inside, context);
}

/// Lays the children of a relative layout, each between its sides.
#[cycle(lay)]
#[inline(never)]
fn lay_between(tree: &mut ViewTree, view: Key, inside: &Inside, context: &mut LayoutContext)
    requires fit { AreFitToLay tree.old view inside.now.canvas }
    requires apart { lays_in_line (class_of tree.old view) ≡ false }
    requires tied { is_relative (class_of tree.old view) ≡ true }
    ensures done { HasLaid inside.now.canvas (stage_of tree.old context.old) (stage_of tree.new context.new)
        (children_at tree.old view) }
    ensures quiet { IsQuiet (held_of tree.new) (spot_at tree.old view inside.now.size) []
        (held_of tree.old) (children_at tree.old view) }
{
    let mut placer = Placer::Between;
    lay_forwards(tree, view, &mut placer, inside, context);
}

/// Lays the children of a view, from the first to the last, by a placer that has placed none of them.
#[cycle(lay)]
#[inline(always)]
fn lay_forwards(
    tree: &mut ViewTree,
    view: Key,
    placer: &mut Placer,
    inside: &Inside,
    context: &mut LayoutContext,
)
    requires fit { AreFitToLay tree.old view inside.now.canvas }
    requires places { PlacesAs placer.old (spot_at tree.old view inside.now.size) [] }
    ensures done { HasLaid inside.now.canvas (stage_of tree.old context.old) (stage_of tree.new context.new)
        (children_at tree.old view) }
    ensures quiet { IsQuiet (held_of tree.new) (spot_at tree.old view inside.now.size) []
        (held_of tree.old) (children_at tree.old view) }
{
    let _in_range = context.work.measured;
    let mut next = tree.first(view);
    while let Some(kid) = next {
        lay_kid(tree, placer, kid, &inside.canvas, context);
        next = tree.next(kid);
    }
}

/// Lays the children of a linear layout, from the last to the first.
#[cycle(lay)]
#[inline(never)]
fn lay_backwards(tree: &mut ViewTree, view: Key, inside: &Inside, context: &mut LayoutContext)
    requires fit { AreFitToLay tree.old view inside.now.canvas }
    requires class { lays_in_line (class_of tree.old view) ≡ true }
    ensures done { HasLaid inside.now.canvas (stage_of tree.old context.old) (stage_of tree.new context.new)
        (children_at tree.old view) }
    ensures quiet { IsQuietBack (held_of tree.new) (spot_at tree.old view inside.now.size)
        (held_of tree.old) (children_at tree.old view) }
{
    let _in_range = context.work.measured;
    let mut placer = Placer::in_line(tree, view, inside.size);
    let mut next = tree.last(view);
    while let Some(kid) = next {
        lay_kid(tree, &mut placer, kid, &inside.canvas, context);
        next = tree.previous(kid);
    }
}

/// Lays a child where its group places it, if it takes part in layout.
#[cycle(lay)]
#[inline(always)]
fn lay_kid(
    tree: &mut ViewTree,
    placer: &mut Placer,
    kid: Key,
    canvas: &Option<Canvas>,
    context: &mut LayoutContext,
)
    requires live { IsLive tree.old kid }
    requires fit { Fit (held_of tree.old) (subtree_at tree.old kid) }
    requires narrow { is_shown (facts_of tree.old kid) ≡ true
        → IsNarrowFor placer.old (sides_of (state_of tree.old kid).edges) }
    requires near { IfSome canvas.now IsNearCanvas }
    ensures done { HasLaid canvas.now (stage_of tree.old context.old) (stage_of tree.new context.new)
        (subtree_at tree.old kid) }
    ensures quiet { (spot : Spot) (before : List Measured)
        → PlacesAs placer.old spot before
        → length before + count_of (subtree_at tree.old kid) ≤ MAX_VIEWS
        → LaidKids placer.new spot before (held_of tree.old) (held_of tree.new)
        (subtree_at tree.old kid) }
{
    let _in_range = context.work.measured;
    let facts = tree.facts(kid);
    if !facts.is_shown() {
        return;
    }
    let state = tree.state(kid);
    let rect = placer.place(facts, state.measured, state.edges);
    lay(tree, kid, rect, canvas, context);
}
