//! Measuring a relative layout: its children on the horizontal axis and then on the vertical one, each in its turn.
ghost use Rattle.std.specs.Prelude.{◌≡◌, ℕ, [], List};
ghost use Rattle.kept_views.specs.Kept.{Ready};
ghost use Rattle.measure_pass.specs.Courses.{IsMeasuredBelow};
ghost use Rattle.measure_pass.specs.Measured.{KeepsRest, kids_from, tree_from};
ghost use Rattle.measure_pass.specs.Replacing.{AreReplaced};
ghost use Rattle.measure_pass.specs.Siblings.{AfterTurn, AfterTurns, FirstHasSize, FirstIsKnown, HaveSizes, TurnIsFixed, kept_spans, kids_in, order_on, phase_of};
ghost use Rattle.relative_layout.specs.plan.RelativePlan.{RepresentsRelative};
ghost use Rattle.view_model.specs.declared.facts.Facts.{Facts as FactsValue};
ghost use Rattle.view_model.specs.declared.class.Class.TheVariants.{RelativeLayout};
ghost use Rattle.view_model.specs.Cycles.{links_in};
ghost use Rattle.view_model.specs.Measuring.{Specs};
ghost use Rattle.view_model.specs.RelativeLayout.{Spanned, phase_axis};
ghost use Rattle.sibling_orders.specs.Ordering.{AreOrders};
ghost use Rattle.view_tree.specs.Rows.{part_from, siblings_from, views_of};
ghost use Rattle.view_tree.specs.Views.{IsLive, IsTree, class_of, held_of, orders_of};

use crate::anchors::{Turn, anchors_of};
use crate::measuring::keeping::Outcome;
use crate::measuring::measure;
use crate::replacements::Replacements;
use crate::siblings::{edges_before, keep_edges, kid_in_turn, settle, turns};
use geom_core::Spec;
use relative_layout::RelativePlan;
use view_model::{Axis, Work};
use view_tree::{Key, ViewTree};

/// Measures what is below a relative layout, and returns the result: each child on the horizontal axis and then each on
/// the vertical one, in their orders.
#[cycle(measure)]
#[inline(never)]
pub fn measure_siblings(
    tree: &mut ViewTree,
    view: Key,
    ws: Spec,
    hs: Spec,
    work: &mut Work,
) -> Outcome
    requires live { IsLive tree.old view }
    requires siblings { class_of tree.old view ≡ RelativeLayout }
    requires ready { Ready (held_of tree.old) (kids_from view tree.old.tree) }
    ensures is_tree { IsTree tree.old }
    ensures measured { IsMeasuredBelow (part_from view tree.old.tree) (record { across = ws; down = hs })
        (held_of tree.old) (held_of tree.new)
        result.size result.total work.old.measured work.new.measured }
    ensures rest { KeepsRest tree.old tree.new (kids_from view tree.old.tree) work.old work.new }
{
    let mut plan = RelativePlan::start(tree.facts(view), ws, hs);
    measure_turns(tree, view, Axis::Horizontal, &mut plan, work);
    plan.turn();
    measure_turns(tree, view, Axis::Vertical, &mut plan, work);
    settle(tree, view, &plan);
    Outcome {
        size: plan.finish(),
        total: 0,
    }
}

/// One phase of a relative layout's measuring: each of its children in turn, by the order of the axis.
#[cycle(measure)]
fn measure_turns(
    tree: &mut ViewTree,
    view: Key,
    axis: Axis,
    plan: &mut RelativePlan,
    work: &mut Work,
)
    requires live { IsLive tree.old view }
    requires siblings { class_of tree.old view ≡ RelativeLayout }
    requires ready { Ready (held_of tree.old) (kids_from view tree.old.tree) }
    ensures turns { (own : FactsValue) (specs : Specs) (past : List (List Spanned))
        → RepresentsRelative plan.old own specs past []
        → phase_axis past ≡ axis
        → ((place : ℕ) → FirstIsKnown axis (held_of tree.old)
        ((phase_of axis own specs (kids_in (kids_from view tree.old.tree))).before place)
        (siblings_from place (kids_from view tree.old.tree)))
        → AfterTurns plan.new own specs past (phase_of axis own specs (kids_in (kids_from view tree.old.tree)))
        (order_on axis (orders_of tree.old view)) (held_of tree.old) (held_of tree.new)
        (kids_from view tree.old.tree) work.old.measured work.new.measured }
    ensures ordered { AreOrders (links_in (views_of (kids_from view tree.old.tree))) (orders_of tree.old view) }
    ensures sizes { HaveSizes (held_of tree.new) (kids_from view tree.old.tree) }
    ensures rest { KeepsRest tree.old tree.new (kids_from view tree.old.tree) work.old work.new }
{
    let rtl = plan.is_rtl();
    let mut replaced = Replacements::none();
    for turn in 0..turns(tree, view) {
        let kid = kid_in_turn(tree, view, axis, turn);
        let turn = Turn {
            view,
            kid,
            axis,
            rtl,
        };
        measure_in_turn(tree, turn, plan, &mut replaced, work);
    }
}

/// Measures a child of a relative layout in its turn, if it takes part in layout, and keeps its sides.
#[cycle(measure)]
fn measure_in_turn(
    tree: &mut ViewTree,
    turn: Turn,
    plan: &mut RelativePlan,
    replaced: &mut Replacements,
    work: &mut Work,
)
    requires live { IsLive tree.old turn.view }
    requires siblings { class_of tree.old turn.view ≡ RelativeLayout }
    requires kid { IsLive tree.old turn.kid }
    requires ready { Ready (held_of tree.old) (tree_from turn.kid tree.old.tree) }
    requires replaced { AreReplaced tree.old.tree turn.view turn.axis turn.rtl replaced.old }
    ensures turn { (own : FactsValue) (specs : Specs) (past : List (List Spanned)) (taken : List Spanned) (place : ℕ)
        → RepresentsRelative plan.old own specs past taken
        → phase_axis past ≡ turn.axis
        → turn.rtl ≡ own.rtl
        → part_from turn.kid tree.old.tree ≡ siblings_from place (kids_from turn.view tree.old.tree)
        → TurnIsFixed turn.axis own specs (kids_in (kids_from turn.view tree.old.tree))
        (kept_spans turn.axis (held_of tree.old) (kids_from turn.view tree.old.tree)) place
        → FirstIsKnown turn.axis (held_of tree.old)
        ((phase_of turn.axis own specs (kids_in (kids_from turn.view tree.old.tree))).before place)
        (part_from turn.kid tree.old.tree)
        → AfterTurn plan.new own specs past taken
        (phase_of turn.axis own specs (kids_in (kids_from turn.view tree.old.tree)))
        (kids_in (kids_from turn.view tree.old.tree)) place (held_of tree.old) (held_of tree.new)
        (part_from turn.kid tree.old.tree) work.old.measured work.new.measured }
    ensures replaced { AreReplaced tree.old.tree turn.view turn.axis turn.rtl replaced.new }
    ensures size { FirstHasSize (held_of tree.new) (part_from turn.kid tree.old.tree) }
    ensures rest { KeepsRest tree.old tree.new (tree_from turn.kid tree.old.tree) work.old work.new }
{
    let kid = turn.kid;
    if !tree.facts(kid).is_shown() {
        return;
    }
    let anchors = &anchors_of(tree, turn, replaced);
    let edges = edges_before(tree, kid, turn.axis);
    let (across, down) = plan.ask(tree.facts(kid), edges, anchors);
    let got = measure(tree, kid, across, down, work);
    let edges = plan.take(tree.facts(kid), edges, anchors, got);
    keep_edges(tree, kid, edges);
}
