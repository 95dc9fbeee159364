//! What the plan of a group asks of its children, by its class. A relative layout has a plan of its own.
ghost use Rattle.std.specs.Prelude.{◌≡◌, true};
ghost use Rattle.measure_pass.specs.Plans.{Asks, Frame, HasIdlePhase, Linear, Scroll, Takes, Turns};
ghost use Rattle.view_model.specs.Facts.{layout_facts};

use frame_layout::FramePlan;
use geom_core::{Size, Spec};
use linear_layout::LinearPlan;
use scroll_view::ScrollPlan;
use view_model::Facts;

/// The specs of a child in this phase of a frame layout, or `None` if it is not measured in it. The size is the child's
/// measured size at this moment.
#[inline(always)]
pub fn frame_ask(plan: &FramePlan, kid: &Facts, size: Size) -> Option<(Spec, Spec)>
    ensures { Asks (Frame plan.now) (layout_facts kid.now) size result }
{
    plan.ask(kid, size)
}

/// The same of a linear layout.
#[inline(always)]
pub fn linear_ask(plan: &LinearPlan, kid: &Facts, size: Size) -> Option<(Spec, Spec)>
    ensures { Asks (Linear plan.now) (layout_facts kid.now) size result }
{
    plan.ask(kid, size)
}

/// The same of a scroll view.
#[inline(always)]
pub fn scroll_ask(plan: &ScrollPlan, kid: &Facts, size: Size) -> Option<(Spec, Spec)>
    ensures { Asks (Scroll plan.now) (layout_facts kid.now) size result }
{
    plan.ask(kid, size)
}

/// Takes the size that a child of a frame layout has got; if the plan asked for none, the one that was given to it.
#[inline(always)]
pub fn frame_take(plan: &mut FramePlan, kid: &Facts, size: Size)
    ensures { Takes (Frame plan.old) (Frame plan.new) (layout_facts kid.now) size }
{
    plan.take(kid, size);
}

/// The same of a linear layout.
#[inline(always)]
pub fn linear_take(plan: &mut LinearPlan, kid: &Facts, size: Size)
    ensures { Takes (Linear plan.old) (Linear plan.new) (layout_facts kid.now) size }
{
    plan.take(kid, size);
}

/// The same of a scroll view.
#[inline(always)]
pub fn scroll_take(plan: &mut ScrollPlan, kid: &Facts, size: Size)
    ensures { Takes (Scroll plan.old) (Scroll plan.new) (layout_facts kid.now) size }
{
    plan.take(kid, size);
}

/// Whether the next phase of a linear layout is the last one and asks no child, so that it can be left out.
#[inline(always)]
pub fn linear_leaves_all(plan: &LinearPlan) -> bool
    ensures { result ≡ true → HasIdlePhase (Linear plan.now) }
{
    plan.leaves_all()
}

/// Ends a phase of a frame layout: true if another follows.
#[inline(always)]
pub fn frame_turn(plan: &mut FramePlan) -> bool
    ensures { Turns (Frame plan.old) (Frame plan.new) result }
{
    plan.turn()
}

/// The same of a linear layout.
#[inline(always)]
pub fn linear_turn(plan: &mut LinearPlan) -> bool
    ensures { Turns (Linear plan.old) (Linear plan.new) result }
{
    plan.turn()
}

/// The same of a scroll view.
#[inline(always)]
pub fn scroll_turn(plan: &mut ScrollPlan) -> bool
    ensures { Turns (Scroll plan.old) (Scroll plan.new) result }
{
    plan.turn()
}
