//! The offset of a scroll view that was laid out is brought into its range.
ghost use Rattle.std.specs.Prelude.{◌≡◌, ◌≢◌, true, false};
ghost use Rattle.scroll_offsets.specs.Bringing.{child_rect, range_at};
ghost use Rattle.view_model.specs.Classes.{scrolls};
ghost use Rattle.view_model.specs.Offsets.{brought, range_by};
ghost use Rattle.view_model.specs.ScrollView.{offset_within};
ghost use Rattle.view_tree.specs.Rows.{children_of_first, part_from};
ghost use Rattle.view_tree.specs.Views.{IsLive, KeepsOthers, SameTree, class_of, facts_of, held_of, offset_of, state_of, KeepsCounts};

use geom_core::Rect;
use scroll_view::{offset_within, range_in};
use view_model::Facts;
use view_tree::{Key, ViewTree};

/// Brings the offset of a view, if it is a scroll view that has bounds, into the range that it has with its present
/// bounds and those of its first child; returns whether that changes it. An offset that is in its range stays, and then
/// nothing is written. Nothing else changes.
pub fn bring_one(tree: &mut ViewTree, view: Key) -> bool
    requires { IsLive tree.old view }
    ensures moved { result ≡ true → offset_of tree.new view ≢ offset_of tree.old view }
    ensures still { result ≡ false → tree.new ≡ tree.old }
    ensures same { SameTree tree.old tree.new }
    ensures held { held_of tree.new view
        ≡ record (held_of tree.old view) { offset = brought (range_at tree.old view) (offset_of tree.old view) } }
    ensures others { KeepsOthers tree.old tree.new view }
    ensures counts { KeepsCounts tree.old tree.new }
{
    let Some(range) = range_of(tree, view) else {
        return false;
    };
    let facts = facts_within(tree.facts(view), range);
    if has_offset(&facts, tree.facts(view)) {
        return false;
    }
    tree.set_facts(view, facts);
    true
}

/// Whether two views are scrolled by the same offset.
fn has_offset(one: &Facts, other: &Facts) -> bool
    ensures same { result ≡ true → one.now.offset ≡ other.now.offset }
    ensures other { result ≡ false → one.now.offset ≢ other.now.offset }
{
    one.offset == other.offset
}

/// These facts, with the offset brought into this range.
fn facts_within(facts: &Facts, range: i32) -> Facts
    ensures { result ≡ record facts.now { offset = offset_within range facts.now.offset } }
{
    Facts {
        offset: offset_within(range, facts.offset),
        ..*facts
    }
}

/// The range of the offset of a view, if it has one.
fn range_of(tree: &ViewTree, view: Key) -> Option<i32>
    requires { IsLive tree.now view }
    ensures { result ≡ range_at tree.now view }
{
    if !tree.class(view).scrolls() {
        return None;
    }
    range_where_it_lies(tree, view)
}

/// The range of a view that scrolls, if it has bounds.
fn range_where_it_lies(tree: &ViewTree, view: Key) -> Option<i32>
    requires live { IsLive tree.now view }
    requires scrolls { scrolls (class_of tree.now view) ≡ true }
    ensures { result ≡ range_by (class_of tree.now view) (facts_of tree.now view) (state_of tree.now view).bounds
        (child_rect (held_of tree.now) (children_of_first (part_from view tree.now.tree))) }
{
    let child = child_rect(tree, view);
    match tree.state(view).bounds {
        None => None,
        Some(bounds) => Some(range_in(tree.facts(view), bounds, child)),
    }
}

/// The bounds of the first child of a view.
fn child_rect(tree: &ViewTree, view: Key) -> Option<Rect>
    requires { IsLive tree.now view }
    ensures { result ≡ child_rect (held_of tree.now) (children_of_first (part_from view tree.now.tree)) }
{
    match tree.first(view) {
        None => None,
        Some(child) => tree.state(child).bounds,
    }
}
