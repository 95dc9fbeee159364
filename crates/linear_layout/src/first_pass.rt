//! The first pass: every child is measured, except those that get their length by weight alone. Lengths are in pixels.
ghost use Rattle.std.specs.Prelude.{◌≡◌, ◌<◌, ◌≤◌, ◌≤ℤ◌, ◌+◌, ◌+ℤ◌, ◌^◌, pos, unsigned_abs, [], ◌∷◌, ◌++◌, List, length};
ghost use Rattle.std.specs.Option.{option_map};
ghost use Rattle.geom_core.specs.Limits.{IsSide};
ghost use Rattle.geom_core.specs.Spec.{child_spec_of};
ghost use Rattle.view_model.specs.declared.facts.Facts.{Facts as FactsValue};
ghost use Rattle.view_model.specs.declared.limits.TheConstants.{MAX_VIEWS};
ghost use Rattle.view_model.specs.Facts.{layout_facts};
ghost use Rattle.view_model.specs.LinearLayout.{first_along, first_dim, first_pass, full_length, has_weight_pass, margins_on, own_length, spare_of, spec_beside, specs_by, used_before, whole_weight};
ghost use Rattle.view_model.specs.Measuring.{Measured, Specs, pair_of};
ghost use Rattle.view_model.specs.Sums.{IsNoLessThanTwo, IsNoMoreThanTwo};

use crate::axis::{dim_on, is_sized, margins_by, own_specs, pair_by, spec_on};
use crate::line::{Line, even_claim, weighted_claim};
use crate::running::{Greatest, Total, Weights, greater};
use geom_core::{Size, Spec, WRAP, child_spec, resolve};
use view_model::Facts;

/// The sums and maxima of the children of the first pass.
#[derive(Clone, Copy)]
pub struct FirstPass {
    /// What they take of the length.
    pub extents: Total,
    pub weights: Weights,
    /// The greatest breadth of a child with its margins.
    pub broadest: Greatest,
    /// The greatest claim of a child without a weight.
    pub even: Greatest,
    /// The greatest claim of a child with a weight.
    pub weighted: Greatest,
    /// Whether every child wants to be as broad as the group.
    pub all_match: bool,
    /// Whether a child wants to be as broad as the group.
    pub any_match: bool,
    /// Whether a child was left out.
    pub any_skipped: bool,
}

impl FirstPass {
    ghost use Rattle.linear_layout.specs.Line.{kid_with, own_in, specs_in};
    ghost use Rattle.linear_layout.specs.Passes.{IsFirstPass};

    /// Before the first child.
    pub fn new() -> FirstPass
        ensures { (own : FactsValue) (specs : Specs) → IsFirstPass result own specs [] }
    {
        FirstPass {
            extents: Total::new(),
            weights: Weights::new(),
            broadest: Greatest::new(),
            even: Greatest::new(),
            weighted: Greatest::new(),
            all_match: true,
            any_match: false,
            any_skipped: false,
        }
    }

    /// With one child more, which counts with this size.
    #[inline(always)]
    pub fn with(&self, line: &Line, kid: &Facts, size: Size) -> FirstPass
        ensures { (kids : List Measured)
            → length kids < MAX_VIEWS
            → IsFirstPass self.now (own_in line.now) (specs_in line.now) kids
            → IsFirstPass result (own_in line.now) (specs_in line.now) (kids ++ kid_with kid.now size ∷ []) }
    {
        let taken = line.taken_by(kid, size);
        FirstPass {
            extents: self.extents.add(taken.extent),
            weights: self.weights.add(kid.weight),
            broadest: self.broadest.with(taken.breadth),
            even: self.even.with(even_claim(kid.weight, taken.claim)),
            weighted: self.weighted.with(weighted_claim(kid.weight, taken.claim)),
            all_match: self.all_match & line.matches(kid),
            any_match: self.any_match | line.matches(kid),
            any_skipped: self.any_skipped | line.skips(kid),
        }
    }

    /// The specs of a child, or `None` if it is left out. Many children have a number of pixels on both axes and no
    /// weight, and then nothing else is read.
    #[inline(always)]
    pub fn ask(&self, line: &Line, kid: &Facts, size: Size) -> Option<(Spec, Spec)>
        ensures { (kids : List Measured)
            → IsFirstPass self.now (own_in line.now) (specs_in line.now) kids
            → result ≡ option_map pair_of
            (first_pass (own_in line.now) (specs_in line.now) kids (kid_with kid.now size)) }
    {
        if is_sized(kid) {
            return Some(own_specs(kid));
        }
        self.ask_unsized(line, kid, size)
    }

    /// The same of any child.
    #[inline(always)]
    fn ask_unsized(&self, line: &Line, kid: &Facts, size: Size) -> Option<(Spec, Spec)>
        ensures { (kids : List Measured)
            → IsFirstPass self.now (own_in line.now) (specs_in line.now) kids
            → result ≡ option_map pair_of
            (first_pass (own_in line.now) (specs_in line.now) kids (kid_with kid.now size)) }
    {
        if line.skips(kid) {
            return None;
        }
        if line.vertical() {
            return Some(self.specs_on(true, line, kid));
        }
        Some(self.specs_on(false, line, kid))
    }

    /// The specs of a child that is not left out, in a line on this axis, which is a constant where it is called: each axis
    /// has code of its own.
    #[inline(always)]
    fn specs_on(&self, vertical: bool, line: &Line, kid: &Facts) -> (Spec, Spec)
        requires { vertical ≡ line.now.vertical }
        ensures { (kids : List Measured)
            → IsFirstPass self.now (own_in line.now) (specs_in line.now) kids
            → result ≡ pair_of (specs_by line.now.vertical
            (first_along (own_in line.now) (specs_in line.now) kids (layout_facts kid.now))
            (spec_beside (own_in line.now) (specs_in line.now) (layout_facts kid.now))) }
    {
        let margins = margins_by(vertical, kid);
        pair_by(
            vertical,
            self.spec_along(vertical, line, kid, margins.along),
            line.kid_spec_beside(vertical, kid, margins.beside),
        )
    }

    /// The spec of a child with these margins along a line on this axis.
    #[inline(always)]
    fn spec_along(&self, vertical: bool, line: &Line, kid: &Facts, margins: i64) -> Spec
        requires axis { vertical ≡ line.now.vertical }
        requires margins { margins ≡ margins_on line.now.vertical (layout_facts kid.now) }
        requires low { IsNoLessThanTwo margins }
        requires high { IsNoMoreThanTwo margins }
        ensures { (kids : List Measured)
            → IsFirstPass self.now (own_in line.now) (specs_in line.now) kids
            → result ≡ first_along (own_in line.now) (specs_in line.now) kids (layout_facts kid.now) }
    {
        spec_after(
            spec_on(vertical, line.ws, line.hs),
            line.padding_on(vertical),
            margins,
            self.used_before(kid),
            first_dim(dim_on(vertical, kid), kid.weight),
        )
    }

    /// What counts as used of the line before a child.
    #[tactic(auto, unfolding(view_model::specs::LinearLayout::used_before))]
    fn used_before(&self, kid: &Facts) -> i64
        ensures value { result ≡ used_before self.now.weights.sum kid.now.weight self.now.extents.sum }
        ensures low { pos 0 ≤ℤ result }
        ensures high { result ≤ℤ pos (2 ^ 45) }
    {
        if self.weights.sum == 0 && kid.weight == 0 {
            return self.extents.sum;
        }
        0
    }

    /// What the children and the padding take of the length.
    pub fn full_length(&self, line: &Line) -> i64
        ensures value { (kids : List Measured)
            → IsFirstPass self.now (own_in line.now) (specs_in line.now) kids
            → result ≡ full_length (own_in line.now) kids }
        ensures low { IsNoLessThanTwo result }
        ensures high { result ≤ℤ pos (2 ^ 45 + 2 ^ 32) }
    {
        self.extents.sum + line.padding_on(line.vertical())
    }

    /// The length of the group.
    pub fn own_length(&self, line: &Line) -> i32
        ensures value { (kids : List Measured)
            → IsFirstPass self.now (own_in line.now) (specs_in line.now) kids
            → result ≡ own_length (own_in line.now) (specs_in line.now) kids }
        ensures side { IsSide result }
    {
        let least = i64::from(line.min_on(line.vertical()));
        resolve(greater(self.full_length(line), least), line.spec_along())
    }

    /// What is left of it; below 0 if the children take more.
    pub fn spare(&self, line: &Line) -> i64
        ensures value { (kids : List Measured)
            → IsFirstPass self.now (own_in line.now) (specs_in line.now) kids
            → result ≡ spare_of (own_in line.now) (specs_in line.now) kids }
        ensures near { unsigned_abs result ≤ 2 ^ 46 }
    {
        i64::from(self.own_length(line)) - self.full_length(line)
    }

    /// What weights are counted against, in 256ths.
    #[tactic(auto, unfolding(view_model::specs::LinearLayout::whole_weight))]
    pub fn whole_weight(&self, line: &Line) -> i64
        ensures value { result ≡ whole_weight line.now.weight_sum self.now.weights.sum }
        ensures low { pos 0 ≤ℤ result }
        ensures high { result ≤ℤ pos (2 ^ 44) }
    {
        if line.weight_sum > 0 {
            return i64::from(line.weight_sum);
        }
        self.weights.sum as i64
    }

    /// Whether the weight pass follows.
    pub fn leads_to_weight_pass(&self, line: &Line) -> bool
        ensures { (kids : List Measured)
            → IsFirstPass self.now (own_in line.now) (specs_in line.now) kids
            → result ≡ has_weight_pass (own_in line.now) (specs_in line.now) kids }
    {
        self.any_skipped || (self.spare(line) != 0 && self.weights.sum > 0)
    }
}

/// The spec of a child of this dimension after others that count as `used`.
fn spec_after(spec: Spec, padding: i64, margins: i64, used: i64, dim: i32) -> Spec
    requires padding_low { IsNoLessThanTwo padding }
    requires padding_high { IsNoMoreThanTwo padding }
    requires margins_low { IsNoLessThanTwo margins }
    requires margins_high { IsNoMoreThanTwo margins }
    requires used_low { pos 0 ≤ℤ used }
    requires used_high { used ≤ℤ pos (2 ^ 45) }
    ensures { result ≡ child_spec_of spec (padding +ℤ margins +ℤ used) dim }
{
    child_spec(spec, padding + margins + used, dim)
}

/// The dimension by which a child is measured: one without length, but with a weight, by its content.
#[tactic(auto, unfolding(view_model::specs::LinearLayout::first_dim))]
fn first_dim(dim: i32, weight: u32) -> i32
    ensures { result ≡ first_dim dim weight }
{
    if dim == 0 && weight > 0 {
        return WRAP;
    }
    dim
}
