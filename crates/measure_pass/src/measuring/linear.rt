//! Measuring a linear layout: its children in order, phase by phase, as its plan asks for them.
ghost use Rattle.std.specs.Prelude.{◌≡◌};
ghost use Rattle.kept_views.specs.Kept.{Ready};
ghost use Rattle.measure_pass.specs.Courses.{IsMeasuredBelow};
ghost use Rattle.measure_pass.specs.Measured.{KeepsRest, kids_from, tree_from};
ghost use Rattle.measure_pass.specs.Phases.{MeasuresAll, MeasuresNext, MeasuresPhase, ArePhasesLeft};
ghost use Rattle.measure_pass.specs.Plans.{Ends, Linear};
ghost use Rattle.view_model.specs.declared.class.Class.TheVariants.{LinearLayout};
ghost use Rattle.view_tree.specs.Rows.{part_from};
ghost use Rattle.view_tree.specs.Views.{IsLive, IsTree, class_of, held_of};

use crate::measuring::keeping::Outcome;
use crate::measuring::measure;
use crate::plan::{linear_ask, linear_leaves_all, linear_take, linear_turn};
use geom_core::Spec;
use linear_layout::LinearPlan;
use view_model::Work;
use view_tree::{Key, ViewTree};

/// Measures what is below a linear layout, and returns the result.
#[cycle(measure)]
#[inline(never)]
pub fn measure_linear(
    tree: &mut ViewTree,
    view: Key,
    ws: Spec,
    hs: Spec,
    work: &mut Work,
) -> Outcome
    requires live { IsLive tree.old view }
    requires class { class_of tree.old view ≡ LinearLayout }
    requires ready { Ready (held_of tree.old) (kids_from view tree.old.tree) }
    ensures is_tree { IsTree tree.old }
    ensures measured { IsMeasuredBelow (part_from view tree.old.tree) (record { across = ws; down = hs })
        (held_of tree.old) (held_of tree.new)
        result.size result.total work.old.measured work.new.measured }
    ensures rest { KeepsRest tree.old tree.new (kids_from view tree.old.tree) work.old work.new }
{
    let mut plan = LinearPlan::start(tree.facts(view), ws, hs);
    measure_phases(tree, view, &mut plan, 2, work)
}

/// The remaining phases of its measuring, at most this many after the next, and their result. A last phase that asks no
/// child is left out: most groups have no child that wants to be as broad as they are.
#[cycle(measure)]
#[inline(always)]
fn measure_phases(
    tree: &mut ViewTree,
    view: Key,
    plan: &mut LinearPlan,
    left: usize,
    work: &mut Work,
) -> Outcome
    requires live { IsLive tree.old view }
    requires left { ArePhasesLeft left }
    requires ready { Ready (held_of tree.old) (kids_from view tree.old.tree) }
    ensures is_tree { IsTree tree.old }
    ensures phases { MeasuresAll left (Linear plan.old) (kids_from view tree.old.tree) result
        (record { views = tree.old; work = work.old }) (record { views = tree.new; work = work.new }) }
    ensures rest { KeepsRest tree.old tree.new (kids_from view tree.old.tree) work.old work.new }
{
    measure_kids(tree, view, plan, work);
    if left == 0 {
        return linear_outcome(plan);
    }
    if !linear_turn(plan) {
        return linear_outcome(plan);
    }
    if linear_leaves_all(plan) {
        return linear_outcome(plan);
    }
    measure_more(tree, view, plan, left - 1, work)
}

/// The same, for the phases after the first one. Most groups have only one.
#[cycle(measure)]
#[inline(never)]
fn measure_more(
    tree: &mut ViewTree,
    view: Key,
    plan: &mut LinearPlan,
    left: usize,
    work: &mut Work,
) -> Outcome
    requires live { IsLive tree.old view }
    requires left { ArePhasesLeft left }
    requires ready { Ready (held_of tree.old) (kids_from view tree.old.tree) }
    ensures is_tree { IsTree tree.old }
    ensures phases { MeasuresAll left (Linear plan.old) (kids_from view tree.old.tree) result
        (record { views = tree.old; work = work.old }) (record { views = tree.new; work = work.new }) }
    ensures rest { KeepsRest tree.old tree.new (kids_from view tree.old.tree) work.old work.new }
{
    measure_phases(tree, view, plan, left, work)
}

/// One phase of its measuring: each of its children in order, as the plan asks for it.
#[cycle(measure)]
#[inline(always)]
fn measure_kids(tree: &mut ViewTree, view: Key, plan: &mut LinearPlan, work: &mut Work)
    requires live { IsLive tree.old view }
    requires ready { Ready (held_of tree.old) (kids_from view tree.old.tree) }
    ensures is_tree { IsTree tree.old }
    ensures phase { MeasuresPhase (Linear plan.old) (Linear plan.new) (kids_from view tree.old.tree)
        (record { views = tree.old; work = work.old }) (record { views = tree.new; work = work.new }) }
    ensures rest { KeepsRest tree.old tree.new (kids_from view tree.old.tree) work.old work.new }
{
    let mut next = tree.first(view);
    while let Some(kid) = next {
        measure_kid(tree, kid, plan, work);
        next = tree.next(kid);
    }
}

/// Measures a child as the plan asks for it, if it takes part in layout.
#[cycle(measure)]
#[inline(always)]
fn measure_kid(tree: &mut ViewTree, kid: Key, plan: &mut LinearPlan, work: &mut Work)
    requires live { IsLive tree.old kid }
    requires ready { Ready (held_of tree.old) (tree_from kid tree.old.tree) }
    ensures next { MeasuresNext (Linear plan.old) (Linear plan.new) (tree_from kid tree.old.tree)
        (record { views = tree.old; work = work.old }) (record { views = tree.new; work = work.new }) }
    ensures rest { KeepsRest tree.old tree.new (tree_from kid tree.old.tree) work.old work.new }
{
    let facts = tree.facts(kid);
    if !facts.is_shown() {
        return;
    }
    let present = tree.state(kid).measured;
    let Some((across, down)) = linear_ask(plan, facts, present) else {
        linear_take(plan, facts, present);
        return;
    };
    let size = measure(tree, kid, across, down, work);
    linear_take(plan, tree.facts(kid), size);
}

/// The result of a linear layout's plan after its last phase.
fn linear_outcome(plan: &LinearPlan) -> Outcome
    ensures { Ends (Linear plan.now) result.size result.total }
{
    Outcome {
        size: plan.finish(),
        total: plan.total(),
    }
}
