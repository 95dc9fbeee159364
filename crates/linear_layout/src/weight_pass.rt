//! The weight pass: what is left of the line is shared by weight. Lengths are in pixels.
//!
//! A child that the first pass leaves out has no length until this pass, whatever an earlier frame left with it.
ghost use Rattle.std.specs.Prelude.{◌≡◌, ◌<◌, ◌≤◌, ◌+◌, ◌+ℤ◌, ◌^◌, unsigned_abs, [], ◌∷◌, ◌++◌, List, length};
ghost use Rattle.std.specs.Option.{option_map};
ghost use Rattle.view_model.specs.declared.limits.TheConstants.{MAX_VIEWS};
ghost use Rattle.view_model.specs.LinearLayout.{exactly, first_length, full_length, shared_length, weight_pass};
ghost use Rattle.view_model.specs.Measuring.{Measured, pair_of};

use crate::axis::{margins_on, pair_by, size_on};
use crate::first_pass::FirstPass;
use crate::line::Line;
use crate::running::{Greatest, Total};
use crate::sharing::Sharing;
use crate::wide::wide_to_size;
use geom_core::{Mode, Size, Spec};
use view_model::Facts;

/// The sums and maxima of the children of the weight pass.
#[derive(Clone, Copy)]
pub struct WeightPass {
    pub sharing: Sharing,
    /// What they take of the length.
    pub extents: Total,
    /// The greatest breadth of a child with its margins, in both passes.
    pub broadest: Greatest,
    /// The greatest claim of a child, in both passes; in the first only of one without a weight.
    pub claim: Greatest,
    /// Whether a child wants to be as broad as the group.
    pub any_match: bool,
}

impl WeightPass {
    ghost use Rattle.linear_layout.specs.Line.{kid_with, own_in, specs_in};
    ghost use Rattle.linear_layout.specs.Passes.{IsFirstPass, IsWeightPass};

    /// Before the first child.
    pub fn start(line: &Line, first: &FirstPass) -> WeightPass
        ensures { (kids : List Measured)
            → IsFirstPass first.now (own_in line.now) (specs_in line.now) kids
            → IsWeightPass result (own_in line.now) (specs_in line.now) kids [] }
    {
        WeightPass {
            sharing: Sharing::new(first.whole_weight(line), first.spare(line)),
            extents: Total::new(),
            broadest: first.broadest,
            claim: first.even,
            any_match: false,
        }
    }

    /// With one child more, of this size.
    #[inline(always)]
    pub fn with(&self, line: &Line, kid: &Facts, size: Size) -> WeightPass
        ensures { (first kids : List Measured)
            → length kids < MAX_VIEWS
            → IsWeightPass self.now (own_in line.now) (specs_in line.now) first kids
            → IsWeightPass result (own_in line.now) (specs_in line.now) first (kids ++ kid_with kid.now size ∷ []) }
    {
        let taken = line.taken_by(kid, size);
        WeightPass {
            sharing: self.sharing.give(kid.weight),
            extents: self.extents.add(taken.extent),
            broadest: self.broadest.with(taken.breadth),
            claim: self.claim.with(taken.claim),
            any_match: self.any_match | line.matches(kid),
        }
    }

    /// The specs of a child of this size, or `None` if it has no weight.
    #[inline(never)]
    pub fn ask(&self, line: &Line, kid: &Facts, size: Size) -> Option<(Spec, Spec)>
        ensures { (first kids : List Measured)
            → IsWeightPass self.now (own_in line.now) (specs_in line.now) first kids
            → result ≡ option_map pair_of
            (weight_pass (own_in line.now) (specs_in line.now) first kids (kid_with kid.now size)) }
    {
        if kid.weight == 0 {
            return None;
        }
        Some(pair_by(
            line.vertical(),
            self.spec_along(line, kid, size),
            line.kid_spec_beside(line.vertical(), kid, margins_on(!line.vertical(), kid)),
        ))
    }

    /// The spec of a child of this size along the line: what it had, and its share.
    fn spec_along(&self, line: &Line, kid: &Facts, size: Size) -> Spec
        ensures { (first kids : List Measured)
            → IsWeightPass self.now (own_in line.now) (specs_in line.now) first kids
            → result ≡ exactly
            (shared_length (own_in line.now) (specs_in line.now) first kids (kid_with kid.now size)) }
    {
        let length = first_length(line.skips(kid), size_on(line.vertical(), size));
        let share = self.sharing.share(kid.weight);
        spec_with_share(length, share)
    }

    /// What the children and the padding take of the length.
    pub fn full_length(&self, line: &Line) -> i64
        ensures { (first kids : List Measured)
            → IsWeightPass self.now (own_in line.now) (specs_in line.now) first kids
            → result ≡ full_length (own_in line.now) kids }
    {
        self.extents.sum + line.padding_on(line.vertical())
    }
}

/// The length of a child after the first pass.
#[tactic(auto, unfolding(view_model::specs::LinearLayout::first_length))]
fn first_length(skipped: bool, length: i32) -> i32
    ensures { result ≡ first_length skipped length }
{
    if skipped {
        return 0;
    }
    length
}

/// The spec for exactly the length of a child and its share, which may be negative, brought into the range of sizes.
fn spec_with_share(length: i32, share: i128) -> Spec
    requires { unsigned_abs share ≤ 2 ^ 79 }
    ensures { result ≡ exactly (length +ℤ share) }
{
    Spec {
        mode: Mode::Exactly,
        size: wide_to_size(i128::from(length) + share),
    }
}
