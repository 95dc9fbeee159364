//! The children of a relative layout: whose turn it is, and the sides that are kept of them.
ghost use Rattle.std.specs.Prelude.{◌≡◌, ◌<◌, ℕ, [], ◌∷◌, List, length, slice_index};
ghost use Rattle.kept_views.specs.Kept.{Ready};
ghost use Rattle.measure_pass.specs.Measured.{Keeps, KeepsAllButEdges, kids_from, tree_from};
ghost use Rattle.measure_pass.specs.Siblings.{FirstHasEdges, FirstHasSize, HaveSizes, IsSettled, TurnIsOver, edges_of, first_child, kids_in, no_edges, order_on, phase_of};
ghost use Rattle.relative_layout.specs.plan.RelativePlan.{RepresentsRelative};
ghost use Rattle.view_model.specs.declared.facts.Facts.{Facts as FactsValue};
ghost use Rattle.view_model.specs.declared.relative.Edges.{Edges as EdgesValue};
ghost use Rattle.view_model.specs.declared.class.Class.TheVariants.{RelativeLayout};
ghost use Rattle.view_model.specs.declared.relative.Axis.TheVariants.{Vertical};
ghost use Rattle.view_model.specs.Measuring.{Specs};
ghost use Rattle.view_model.specs.RelativeCourse.{arranged};
ghost use Rattle.view_model.specs.RelativeLayout.{Spanned, final_rect, relative_size};
ghost use Rattle.view_model.specs.Cycles.{links_in};
ghost use Rattle.sibling_orders.specs.Ordering.{AreOrders};
ghost use Rattle.view_tree.specs.Rows.{part_from, siblings_from, views_of};
ghost use Rattle.view_tree.specs.Views.{IsLive, IsTree, KeepsOthers, KeepsOutside, SameTree, class_of, held_of, orders_of, state_of, KeepsCounts};

use geom_core::Rect;
use relative_layout::RelativePlan;
use view_model::{Axis, Edges};
use view_tree::{Key, ViewTree};

/// How many turns a phase of a relative layout has: one per child.
pub fn turns(tree: &ViewTree, view: Key) -> usize
    requires live { IsLive tree.now view }
    requires siblings { class_of tree.now view ≡ RelativeLayout }
    ensures value { result ≡ length (kids_in (kids_from view tree.now.tree)) }
    ensures ordered { AreOrders (links_in (views_of (kids_from view tree.now.tree))) (orders_of tree.now view) }
{
    match tree.orders(view) {
        None => 0,
        Some(orders) => orders.across.len(),
    }
}

/// The child whose turn it is on an axis.
pub fn kid_in_turn(tree: &ViewTree, view: Key, axis: Axis, turn: usize) -> Key
    requires live { IsLive tree.now view }
    requires siblings { class_of tree.now view ≡ RelativeLayout }
    requires there { turn < length (kids_in (kids_from view tree.now.tree)) }
    ensures part { part_from result tree.now.tree
        ≡ siblings_from (slice_index (order_on axis (orders_of tree.now view)) turn) (kids_from view tree.now.tree) }
    ensures live { IsLive tree.now result }
    ensures is_tree { IsTree tree.now }
{
    tree.child_at(view, place_in_turn(tree, view, axis, turn))
}

/// The place among its siblings of the child whose turn it is on an axis. Turns count from 0.
fn place_in_turn(tree: &ViewTree, view: Key, axis: Axis, turn: usize) -> usize
    requires live { IsLive tree.now view }
    requires siblings { class_of tree.now view ≡ RelativeLayout }
    requires there { turn < length (kids_in (kids_from view tree.now.tree)) }
    ensures value { result ≡ slice_index (order_on axis (orders_of tree.now view)) turn }
    ensures there { result < length (kids_in (kids_from view tree.now.tree)) }
{
    match tree.orders(view) {
        None => 0,
        Some(orders) => match axis {
            Axis::Horizontal => orders.across[turn] as usize,
            Axis::Vertical => orders.down[turn] as usize,
        },
    }
}

/// What is known of a child's sides before its turn on an axis: nothing on the first one, whatever an earlier
/// measuring left.
pub fn edges_before(tree: &ViewTree, kid: Key, axis: Axis) -> Edges
    requires live { IsLive tree.now kid }
    ensures first { axis ≡ Axis.Horizontal → result ≡ no_edges }
    ensures second { axis ≡ Axis.Vertical → result ≡ (state_of tree.now kid).edges }
{
    match axis {
        Axis::Horizontal => Edges {
            across: None,
            down: None,
        },
        Axis::Vertical => tree.state(kid).edges,
    }
}

/// Keeps the sides of a child.
pub fn keep_edges(tree: &mut ViewTree, kid: Key, edges: Edges)
    requires live { IsLive tree.old kid }
    ensures same { SameTree tree.old tree.new }
    ensures held { held_of tree.new kid
        ≡ record (held_of tree.old kid) { state = record (held_of tree.old kid).state { edges = edges } } }
    ensures others { KeepsOthers tree.old tree.new kid }
    ensures counts { KeepsCounts tree.old tree.new }
{
    let mut state = tree.state(kid);
    state.edges = edges;
    tree.set_state(kid, state);
}

/// Moves the children of a relative layout to their final places, once its own size is known: those in its middle and
/// those at its far sides.
#[inline(never)]
pub fn settle(tree: &mut ViewTree, view: Key, plan: &RelativePlan)
    requires live { IsLive tree.old view }
    requires siblings { class_of tree.old view ≡ RelativeLayout }
    requires sizes { HaveSizes (held_of tree.old) (kids_from view tree.old.tree) }
    ensures settled { (own : FactsValue) (specs : Specs) (first second : List Spanned)
        → RepresentsRelative plan.now own specs (first ∷ []) second
        → relative_size own specs first second
        ≡ (arranged own specs (kids_in (kids_from view tree.old.tree))).size
        → ((place : ℕ) → place < length (kids_in (kids_from view tree.old.tree))
        → TurnIsOver (phase_of Vertical own specs (kids_in (kids_from view tree.old.tree)))
        (held_of tree.old) (kids_from view tree.old.tree) place)
        → (place : ℕ) → place < length (kids_in (kids_from view tree.old.tree))
        → IsSettled own specs (held_of tree.new) (kids_from view tree.old.tree) place }
    ensures same { SameTree tree.old tree.new }
    ensures keeps { Keeps (held_of tree.old) (held_of tree.new) }
    ensures others { KeepsOutside (held_of tree.old) (held_of tree.new) (kids_from view tree.old.tree) }
    ensures edged { KeepsAllButEdges (held_of tree.old) (held_of tree.new) }
    ensures ready { Ready (held_of tree.old) (kids_from view tree.old.tree)
        → Ready (held_of tree.new) (kids_from view tree.old.tree) }
    ensures counts { KeepsCounts tree.old tree.new }
{
    for place in 0..turns(tree, view) {
        let kid = tree.child_at(view, place);
        settle_kid(tree, kid, plan);
    }
}

/// The same for one child, if it takes part in layout.
fn settle_kid(tree: &mut ViewTree, kid: Key, plan: &RelativePlan)
    requires live { IsLive tree.old kid }
    requires size { FirstHasSize (held_of tree.old) (part_from kid tree.old.tree) }
    ensures settled { (own : FactsValue) (specs asked : Specs) (first second : List Spanned) (edges : EdgesValue)
        → RepresentsRelative plan.now own specs (first ∷ []) second
        → FirstHasEdges (held_of tree.old) asked edges (part_from kid tree.old.tree)
        → FirstHasEdges (held_of tree.new) asked (edges_of (final_rect own specs (relative_size own specs first second)
        (first_child (part_from kid tree.old.tree)).facts edges
        ((first_child (part_from kid tree.old.tree)).measure asked))) (part_from kid tree.old.tree) }
    ensures same { SameTree tree.old tree.new }
    ensures keeps { Keeps (held_of tree.old) (held_of tree.new) }
    ensures others { KeepsOthers tree.old tree.new kid }
    ensures edged { KeepsAllButEdges (held_of tree.old) (held_of tree.new) }
    ensures ready { Ready (held_of tree.old) (tree_from kid tree.old.tree)
        → Ready (held_of tree.new) (tree_from kid tree.old.tree) }
    ensures counts { KeepsCounts tree.old tree.new }
{
    if !tree.facts(kid).is_shown() {
        return;
    }
    let state = tree.state(kid);
    let rect = plan.settle(tree.facts(kid), state.edges, state.measured);
    keep_edges(tree, kid, edges_of(rect));
}

/// The sides of a rectangle, by axis.
fn edges_of(rect: Rect) -> Edges
    ensures { result ≡ edges_of rect }
{
    Edges {
        across: Some((rect.left, rect.right)),
        down: Some((rect.top, rect.bottom)),
    }
}
