//! A group whose children form a line, under its specs, and what a child takes of it. Lengths are in pixels.
ghost use Rattle.std.specs.Prelude.{◌≡◌, ◌≤ℤ◌, ◌+ℤ◌, ◌^◌, pos, not};
ghost use Rattle.view_model.specs.Facts.{is_match, layout_facts};
ghost use Rattle.view_model.specs.LinearLayout.{breadth_of, claim, claim_of, dim_on, extent, extent_of, is_exact_beside, is_skipped, margins_on, min_on, padding_on, skips, spec_beside, spec_on, where_even, where_weighted};
ghost use Rattle.view_model.specs.Sums.{IsNoLessThanTwo, IsNoMoreThanTwo};
ghost use Rattle.linear_layout.specs.Shares.{IsShareOfOne};

use crate::axis::{dim_on, margins_by, size_on, spec_on};
use geom_core::{Insets, MATCH, Size, Spec};
use view_model::{Facts, child_spec_within, is_exact};

/// What is read of a group's facts, and the specs for its width and for its height. It is a small part of the facts, so
/// that a plan takes little room while what is below is measured.
#[derive(Clone, Copy)]
pub struct Line {
    /// On each side, the one that applies.
    pub padding: Insets,
    pub min: Size,
    pub weight_sum: u32,
    pub vertical: bool,
    pub ws: Spec,
    pub hs: Spec,
}

/// What a child with its margins takes of a line.
#[derive(Clone, Copy)]
pub struct Taken {
    /// Of the length.
    pub extent: i64,
    /// Of the breadth.
    pub breadth: i64,
    /// Of the breadth of a group that is as broad as its children are.
    pub claim: i64,
    ghost extent_low: { pos 0 ≤ℤ extent },
    ghost extent_high: { extent ≤ℤ pos (2 ^ 33) },
    ghost breadth_high: { breadth ≤ℤ pos (2 ^ 33) },
    ghost claim_high: { claim ≤ℤ pos (2 ^ 33) },
}

impl Line {
    ghost use Rattle.linear_layout.specs.Line.{kid_with, lined, own_in, specs_in};

    /// The line of a group with these facts under these specs.
    #[inline(always)]
    pub fn of(own: &Facts, ws: Spec, hs: Spec) -> Line
        ensures own { own_in result ≡ lined own.now }
        ensures specs { specs_in result ≡ record { across = ws; down = hs } }
    {
        Line {
            padding: Insets {
                left: own.padding_left(),
                top: own.padding.top,
                right: own.padding_right(),
                bottom: own.padding.bottom,
            },
            min: own.min,
            weight_sum: own.weight_sum,
            vertical: own.vertical,
            ws,
            hs,
        }
    }

    /// Both paddings of the group on an axis.
    #[tactic(auto, unfolding(view_model::specs::LinearLayout::padding_on))]
    pub fn padding_on(&self, vertical: bool) -> i64
        ensures value { result ≡ padding_on vertical (own_in self.now) }
        ensures low { IsNoLessThanTwo result }
        ensures high { IsNoMoreThanTwo result }
    {
        if vertical {
            return i64::from(self.padding.top) + i64::from(self.padding.bottom);
        }
        i64::from(self.padding.left) + i64::from(self.padding.right)
    }

    /// The least size of the group on an axis.
    #[tactic(auto, unfolding(view_model::specs::LinearLayout::min_on))]
    pub fn min_on(&self, vertical: bool) -> i32
        ensures { result ≡ min_on vertical (own_in self.now) }
    {
        if vertical { self.min.h } else { self.min.w }
    }

    /// Whether the line runs from top to bottom.
    pub fn vertical(&self) -> bool
        ensures { result ≡ self.now.vertical }
    {
        self.vertical
    }

    /// The spec of the group along the line.
    pub fn spec_along(&self) -> Spec
        ensures { result ≡ spec_on self.now.vertical (specs_in self.now) }
    {
        spec_on(self.vertical(), self.ws, self.hs)
    }

    /// The spec of the group across the line.
    pub fn spec_beside(&self) -> Spec
        ensures { result ≡ spec_on (not self.now.vertical) (specs_in self.now) }
    {
        spec_on(!self.vertical(), self.ws, self.hs)
    }

    /// Whether the breadth of the group is given.
    pub fn is_exact_beside(&self) -> bool
        ensures { result ≡ is_exact_beside (own_in self.now) (specs_in self.now) }
    {
        is_exact(self.spec_beside())
    }

    /// Whether the first pass leaves a child out.
    pub fn skips(&self, kid: &Facts) -> bool
        ensures { result ≡ skips (own_in self.now) (specs_in self.now) (layout_facts kid.now) }
    {
        is_skipped(self.spec_along(), dim_on(self.vertical(), kid), kid.weight)
    }

    /// Whether a child wants to be as broad as the group.
    pub fn matches(&self, kid: &Facts) -> bool
        ensures { result ≡ is_match (dim_on (not self.now.vertical) (layout_facts kid.now)) }
    {
        dim_on(!self.vertical(), kid) == MATCH
    }

    /// The spec of a child with these margins across a line on this axis.
    #[inline(always)]
    pub fn kid_spec_beside(&self, vertical: bool, kid: &Facts, margins: i64) -> Spec
        requires axis { vertical ≡ self.now.vertical }
        requires margins { margins ≡ margins_on (not self.now.vertical) (layout_facts kid.now) }
        requires low { IsNoLessThanTwo margins }
        requires high { IsNoMoreThanTwo margins }
        ensures { result ≡ spec_beside (own_in self.now) (specs_in self.now) (layout_facts kid.now) }
    {
        let beside = !vertical;
        child_spec_within(
            spec_on(beside, self.ws, self.hs),
            self.padding_on(beside),
            margins,
            dim_on(beside, kid),
        )
    }

    /// What a child of this size takes of the line.
    #[inline(always)]
    pub fn taken_by(&self, kid: &Facts, size: Size) -> Taken
        ensures extent { result.extent ≡ extent_of self.now.vertical (kid_with kid.now size) }
        ensures breadth { result.breadth ≡ breadth_of self.now.vertical (kid_with kid.now size) }
        ensures claim { result.claim ≡ claim_of self.now.vertical
            (is_exact_beside (own_in self.now) (specs_in self.now)) (kid_with kid.now size) }
    {
        if self.vertical() {
            return self.taken_on(true, kid, size);
        }
        self.taken_on(false, kid, size)
    }

    /// The same of a line on this axis, which is a constant where it is called: each axis has code of its own.
    #[inline(always)]
    fn taken_on(&self, vertical: bool, kid: &Facts, size: Size) -> Taken
        requires { vertical ≡ self.now.vertical }
        ensures extent { result.extent ≡ extent_of self.now.vertical (kid_with kid.now size) }
        ensures breadth { result.breadth ≡ breadth_of self.now.vertical (kid_with kid.now size) }
        ensures claim { result.claim ≡ claim_of self.now.vertical
            (is_exact_beside (own_in self.now) (specs_in self.now)) (kid_with kid.now size) }
    {
        let margins = margins_by(vertical, kid);
        let beside = size_on(!vertical, size);
        Taken {
            extent: extent(size_on(vertical, size), margins.along),
            breadth: breadth(beside, margins.beside),
            claim: self.claim(vertical, kid, beside, margins.beside),
        }
    }

    /// What a child of this breadth with these margins takes of the breadth of a group that is as broad as its children are.
    #[tactic(auto, unfolding(view_model::specs::LinearLayout::claim))]
    #[inline(always)]
    fn claim(&self, vertical: bool, kid: &Facts, size: i32, margins: i64) -> i64
        requires axis { vertical ≡ self.now.vertical }
        requires low { IsNoLessThanTwo margins }
        requires high { IsNoMoreThanTwo margins }
        ensures value { result ≡ claim (is_exact_beside (own_in self.now) (specs_in self.now))
            (dim_on (not self.now.vertical) (layout_facts kid.now)) size margins }
        ensures high { IsShareOfOne result }
    {
        if !is_exact(spec_on(!vertical, self.ws, self.hs)) && dim_on(!vertical, kid) == MATCH {
            return margins;
        }
        breadth(size, margins)
    }
}

/// The breadth of a child with its margins.
#[inline(always)]
fn breadth(size: i32, margins: i64) -> i64
    requires low { IsNoLessThanTwo margins }
    requires high { IsNoMoreThanTwo margins }
    ensures value { result ≡ size +ℤ margins }
    ensures high { IsShareOfOne result }
{
    i64::from(size) + margins
}

/// The claim of a child without a weight, and 0 for the others.
#[tactic(auto, unfolding(view_model::specs::LinearLayout::where_even))]
#[inline(always)]
pub fn even_claim(weight: u32, claim: i64) -> i64
    requires { IsShareOfOne claim }
    ensures value { result ≡ where_even weight claim }
    ensures high { IsShareOfOne result }
{
    if weight == 0 {
        return claim;
    }
    0
}

/// The claim of a child with a weight, and 0 for the others.
#[tactic(auto, unfolding(view_model::specs::LinearLayout::where_weighted))]
#[inline(always)]
pub fn weighted_claim(weight: u32, claim: i64) -> i64
    requires { IsShareOfOne claim }
    ensures value { result ≡ where_weighted weight claim }
    ensures high { IsShareOfOne result }
{
    if weight == 0 {
        return 0;
    }
    claim
}

/// The length of a child with its margins, or 0 where these make it negative.
#[tactic(auto, unfolding(view_model::specs::LinearLayout::extent))]
fn extent(size: i32, margins: i64) -> i64
    requires low { IsNoLessThanTwo margins }
    requires high { IsNoMoreThanTwo margins }
    ensures value { result ≡ extent size margins }
    ensures low { pos 0 ≤ℤ result }
    ensures high { IsShareOfOne result }
{
    (i64::from(size) + margins).max(0)
}

/// Whether a child of this dimension gets its length by weight alone.
#[tactic(auto, unfolding(view_model::specs::LinearLayout::is_skipped))]
fn is_skipped(along: Spec, dim: i32, weight: u32) -> bool
    ensures { result ≡ is_skipped along dim weight }
{
    is_exact(along) && dim == 0 && weight > 0
}
