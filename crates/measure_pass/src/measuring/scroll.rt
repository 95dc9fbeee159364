//! Measuring a scroll view: its children in order, phase by phase, as its plan asks for them.
ghost use Rattle.std.specs.Prelude.{◌≡◌, pos};
ghost use Rattle.kept_views.specs.Kept.{Ready};
ghost use Rattle.measure_pass.specs.Courses.{IsMeasuredBelow};
ghost use Rattle.measure_pass.specs.Measured.{KeepsRest, kids_from, tree_from};
ghost use Rattle.measure_pass.specs.Phases.{MeasuresAll, MeasuresNext, MeasuresPhase, ArePhasesLeft};
ghost use Rattle.measure_pass.specs.Plans.{Ends, Scroll};
ghost use Rattle.view_model.specs.declared.class.Class.TheVariants.{ScrollView};
ghost use Rattle.view_tree.specs.Rows.{part_from};
ghost use Rattle.view_tree.specs.Views.{IsLive, IsTree, class_of, held_of};

use crate::measuring::keeping::Outcome;
use crate::measuring::measure;
use crate::plan::{scroll_ask, scroll_take, scroll_turn};
use geom_core::{Size, Spec};
use scroll_view::ScrollPlan;
use view_model::Work;
use view_tree::{Key, ViewTree};

/// Measures what is below a scroll view, and returns the result.
#[cycle(measure)]
#[inline(never)]
pub fn measure_scroll(
    tree: &mut ViewTree,
    view: Key,
    ws: Spec,
    hs: Spec,
    work: &mut Work,
) -> Outcome
    requires live { IsLive tree.old view }
    requires class { class_of tree.old view ≡ ScrollView }
    requires ready { Ready (held_of tree.old) (kids_from view tree.old.tree) }
    ensures is_tree { IsTree tree.old }
    ensures measured { IsMeasuredBelow (part_from view tree.old.tree) (record { across = ws; down = hs })
        (held_of tree.old) (held_of tree.new)
        result.size result.total work.old.measured work.new.measured }
    ensures rest { KeepsRest tree.old tree.new (kids_from view tree.old.tree) work.old work.new }
{
    let mut plan = ScrollPlan::start(tree.facts(view), ws, hs);
    Outcome {
        size: measure_phases(tree, view, &mut plan, 2, work),
        total: 0,
    }
}

/// The remaining phases of its measuring, at most this many after the next, and their result.
#[cycle(measure)]
#[inline(always)]
fn measure_phases(
    tree: &mut ViewTree,
    view: Key,
    plan: &mut ScrollPlan,
    left: usize,
    work: &mut Work,
) -> Size
    requires live { IsLive tree.old view }
    requires left { ArePhasesLeft left }
    requires ready { Ready (held_of tree.old) (kids_from view tree.old.tree) }
    ensures is_tree { IsTree tree.old }
    ensures phases { MeasuresAll left (Scroll plan.old) (kids_from view tree.old.tree)
        (record { size = result; total = pos 0 })
        (record { views = tree.old; work = work.old }) (record { views = tree.new; work = work.new }) }
    ensures rest { KeepsRest tree.old tree.new (kids_from view tree.old.tree) work.old work.new }
{
    measure_kids(tree, view, plan, work);
    if left == 0 {
        return scroll_size(plan);
    }
    if !scroll_turn(plan) {
        return scroll_size(plan);
    }
    measure_more(tree, view, plan, left - 1, work)
}

/// The same, for the phases after the first one. Most groups have only one.
#[cycle(measure)]
#[inline(never)]
fn measure_more(
    tree: &mut ViewTree,
    view: Key,
    plan: &mut ScrollPlan,
    left: usize,
    work: &mut Work,
) -> Size
    requires live { IsLive tree.old view }
    requires left { ArePhasesLeft left }
    requires ready { Ready (held_of tree.old) (kids_from view tree.old.tree) }
    ensures is_tree { IsTree tree.old }
    ensures phases { MeasuresAll left (Scroll plan.old) (kids_from view tree.old.tree)
        (record { size = result; total = pos 0 })
        (record { views = tree.old; work = work.old }) (record { views = tree.new; work = work.new }) }
    ensures rest { KeepsRest tree.old tree.new (kids_from view tree.old.tree) work.old work.new }
{
    measure_phases(tree, view, plan, left, work)
}

/// One phase of its measuring: each of its children in order, as the plan asks for it.
#[cycle(measure)]
#[inline(always)]
fn measure_kids(tree: &mut ViewTree, view: Key, plan: &mut ScrollPlan, work: &mut Work)
    requires live { IsLive tree.old view }
    requires ready { Ready (held_of tree.old) (kids_from view tree.old.tree) }
    ensures is_tree { IsTree tree.old }
    ensures phase { MeasuresPhase (Scroll plan.old) (Scroll plan.new) (kids_from view tree.old.tree)
        (record { views = tree.old; work = work.old }) (record { views = tree.new; work = work.new }) }
    ensures rest { KeepsRest tree.old tree.new (kids_from view tree.old.tree) work.old work.new }
{
    let mut next = tree.first(view);
    while let Some(kid) = next {
        measure_kid(tree, kid, plan, work);
        next = tree.next(kid);
    }
}

/// Measures a child as the plan asks for it, if it takes part in layout.
#[cycle(measure)]
#[inline(always)]
fn measure_kid(tree: &mut ViewTree, kid: Key, plan: &mut ScrollPlan, work: &mut Work)
    requires live { IsLive tree.old kid }
    requires ready { Ready (held_of tree.old) (tree_from kid tree.old.tree) }
    ensures next { MeasuresNext (Scroll plan.old) (Scroll plan.new) (tree_from kid tree.old.tree)
        (record { views = tree.old; work = work.old }) (record { views = tree.new; work = work.new }) }
    ensures rest { KeepsRest tree.old tree.new (tree_from kid tree.old.tree) work.old work.new }
{
    let facts = tree.facts(kid);
    if !facts.is_shown() {
        return;
    }
    let present = tree.state(kid).measured;
    let Some((across, down)) = scroll_ask(plan, facts, present) else {
        scroll_take(plan, facts, present);
        return;
    };
    let size = measure(tree, kid, across, down, work);
    scroll_take(plan, tree.facts(kid), size);
}

/// The size of a scroll view by its plan after its last phase. It has no total.
fn scroll_size(plan: &ScrollPlan) -> Size
    ensures { Ends (Scroll plan.now) result (pos 0) }
{
    plan.finish()
}
