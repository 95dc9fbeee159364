//! The breadth of the group, and the uniform pass, which gives it to children. Lengths are in pixels.
//!
//! The uniform pass follows whenever the breadth of the group was not given, even if no child is asked, and then its
//! owner may leave it out; what children take of the line stays that of the pass before.
ghost use Rattle.std.specs.Prelude.{◌≡◌, ◌≤ℤ◌, ◌+ℤ◌, ◌^◌, pos, List, Some, None};
ghost use Rattle.std.specs.Option.{option_map};
ghost use Rattle.geom_core.specs.Limits.{IsSide};
ghost use Rattle.geom_core.specs.Spec.{remaining_of};
ghost use Rattle.geom_core.specs.declared.measuring.Mode.TheVariants.{Exactly};
ghost use Rattle.linear_layout.specs.declared.weight_pass.WeightPass.{WeightPass as WeightPassValue};
ghost use Rattle.linear_layout.specs.Line.{kid_with, own_in, specs_in};
ghost use Rattle.linear_layout.specs.Passes.{IsFirstPass, IsWeightPass};
ghost use Rattle.view_model.specs.LinearLayout.{breadth_for, breadth_once, breadth_twice, needed_breadth, resolved_breadth, uniform_pass};
ghost use Rattle.view_model.specs.Measuring.{Measured, pair_of};
ghost use Rattle.linear_layout.specs.Shares.{IsShareOfOne};
ghost use Rattle.view_model.specs.Sums.{IsNoLessThanTwo, IsNoMoreThanTwo};

use crate::axis::{exactly, margins_on, pair_by, size_on};
use crate::first_pass::FirstPass;
use crate::line::Line;
use crate::running::greater;
use crate::weight_pass::WeightPass;
use geom_core::{Mode, Size, Spec, remaining, resolve};
use view_model::Facts;

/// The breadth of a group after its first pass, and after its weight pass if that ran.
pub fn own_breadth(line: &Line, first: &FirstPass, weighed: Option<WeightPass>) -> i32
    ensures once { (kids : List Measured)
        → weighed ≡ None
        → IsFirstPass first.now (own_in line.now) (specs_in line.now) kids
        → result ≡ breadth_for (own_in line.now) (specs_in line.now)
        (breadth_once (own_in line.now) (specs_in line.now) kids) }
    ensures twice { (pass : WeightPassValue) (kids second : List Measured)
        → weighed ≡ Some pass
        → IsFirstPass first.now (own_in line.now) (specs_in line.now) kids
        → IsWeightPass pass (own_in line.now) (specs_in line.now) kids second
        → result ≡ breadth_for (own_in line.now) (specs_in line.now)
        (breadth_twice (own_in line.now) (specs_in line.now) kids second) }
    ensures side { IsSide result }
{
    let beside = !line.vertical();
    resolved_breadth(
        line.min_on(beside),
        line.padding_on(beside),
        needed_breadth(line, first, weighed),
        line.spec_beside(),
    )
}

/// What the children need across the line.
#[tactic(auto, unfolding(view_model::specs::LinearLayout::needed_breadth))]
fn needed_breadth(line: &Line, first: &FirstPass, weighed: Option<WeightPass>) -> i64
    ensures once { (kids : List Measured)
        → weighed ≡ None
        → IsFirstPass first.now (own_in line.now) (specs_in line.now) kids
        → result ≡ breadth_once (own_in line.now) (specs_in line.now) kids }
    ensures twice { (pass : WeightPassValue) (kids second : List Measured)
        → weighed ≡ Some pass
        → IsFirstPass first.now (own_in line.now) (specs_in line.now) kids
        → IsWeightPass pass (own_in line.now) (specs_in line.now) kids second
        → result ≡ breadth_twice (own_in line.now) (specs_in line.now) kids second }
    ensures low { pos 0 ≤ℤ result }
    ensures high { IsShareOfOne result }
{
    let by_breadth = line.is_exact_beside() || first.all_match;
    match weighed {
        None => {
            if by_breadth {
                return first.broadest.value;
            }
            greater(first.even.value, first.weighted.value)
        }
        Some(pass) => {
            if by_breadth {
                return pass.broadest.value;
            }
            pass.claim.value
        }
    }
}

/// The breadth of a group whose children need this.
#[tactic(auto, unfolding(view_model::specs::LinearLayout::resolved_breadth))]
fn resolved_breadth(least: i32, padding: i64, needed: i64, spec: Spec) -> i32
    requires padding_low { IsNoLessThanTwo padding }
    requires padding_high { IsNoMoreThanTwo padding }
    requires needed_low { pos 0 ≤ℤ needed }
    requires needed_high { needed ≤ℤ pos (2 ^ 33) }
    ensures value { result ≡ resolved_breadth least padding needed spec }
    ensures side { IsSide result }
{
    resolve(i64::from(least).max(padding + needed), spec)
}

/// The specs of a child of this size in the uniform pass of a group of this breadth, or `None` if it does not want to
/// be as broad as the group.
pub fn ask_uniform(line: &Line, breadth: i32, kid: &Facts, size: Size) -> Option<(Spec, Spec)>
    ensures { result ≡ option_map pair_of (uniform_pass (own_in line.now) breadth (kid_with kid.now size)) }
{
    if !line.matches(kid) {
        return None;
    }
    let beside = !line.vertical();
    Some(pair_by(
        line.vertical(),
        exactly(size_on(line.vertical(), size)),
        exact_rest(breadth, line.padding_on(beside), margins_on(beside, kid)),
    ))
}

/// The spec of exactly what padding and margins leave of a breadth.
fn exact_rest(breadth: i32, padding: i64, margins: i64) -> Spec
    requires padding_low { IsNoLessThanTwo padding }
    requires padding_high { IsNoMoreThanTwo padding }
    requires margins_low { IsNoLessThanTwo margins }
    requires margins_high { IsNoMoreThanTwo margins }
    ensures { result ≡ record { mode = Exactly; size = remaining_of breadth (padding +ℤ margins) } }
{
    Spec {
        mode: Mode::Exactly,
        size: remaining(breadth, padding + margins),
    }
}
