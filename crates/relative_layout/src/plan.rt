//! The measuring of one relative layout.
//!
//! While a child's width is measured, its height is asked at most, even if it is a number. A side that a rule sets
//! stays: the other follows from the length, also if the near side is cut to its limit, and a far side that follows is
//! not cut again; centre counts only if no side is set. In a group whose size was not given, each child in the centre
//! moves in the end, whatever its sides, and otherwise each at the far side of its parent, without its margin; they
//! move by the group's measured size and their own of the second phase. A far side before the near one counts as the
//! near one already there.
ghost use Rattle.std.specs.Prelude.{◌≡◌, ◌+◌, [], ◌∷◌, ◌++◌, List};
ghost use Rattle.geom_core.specs.Limits.{IsSide};
ghost use Rattle.view_model.specs.declared.facts.Facts.{Facts as FactsValue};
ghost use Rattle.view_model.specs.Facts.{layout_facts};
ghost use Rattle.view_model.specs.Measuring.{Specs, pair_of};
ghost use Rattle.view_model.specs.RelativeLayout.{Spanned, across_specs, down_specs, final_rect, phase_specs, relative_size, span_or_none};

pub mod extent;
pub mod sides;
pub mod spans;

use crate::plan::extent::AxisExtent;
use crate::plan::sides::{loose_spec, reported_spec};
use crate::plan::spans::rect_between;
use geom_core::{Rect, Size, Spec};
use view_model::{Anchors, Axis, Edges, Facts};

/// The measuring of one relative layout, on the horizontal axis and then on the vertical one. In each of the two phases
/// every child that takes part in layout is passed once, after its anchors on that axis: `ask`, measuring, `take`.
/// `edges` is what `take` returned last for that child, and none on either axis before; `anchors` are those of the
/// phase's axis, with the sides that they have there.
#[derive(Clone, Copy)]
pub struct RelativePlan {
    axis: Axis,
    /// Whether the group runs from right to left.
    rtl: bool,
    across: AxisExtent,
    down: AxisExtent,
}

impl RelativePlan {
    ghost use Rattle.relative_layout.specs.plan.RelativePlan.{RepresentsRelative, TurnsRelative, edges_as, spanned_as};

    /// The plan of a group with these facts under these specs, before its first child.
    pub fn start(own: &Facts, ws: Spec, hs: Spec) -> RelativePlan
        ensures { RepresentsRelative result (layout_facts own.now) (record { across = ws; down = hs }) [] [] }
    {
        RelativePlan {
            axis: Axis::Horizontal,
            rtl: own.rtl,
            across: AxisExtent::start(Axis::Horizontal.group(own, ws, hs)),
            down: AxisExtent::start(Axis::Vertical.group(own, ws, hs)),
        }
    }

    /// Whether the group runs from right to left, by which the anchors of its children are found.
    pub fn is_rtl(&self) -> bool
        ensures { (own : FactsValue) (specs : Specs) (past : List (List Spanned)) (taken : List Spanned)
            → RepresentsRelative self.now own specs past taken
            → result ≡ own.rtl }
    {
        self.rtl
    }

    /// The specs of a child in this phase.
    #[inline(never)]
    pub fn ask(&self, kid: &Facts, edges: Edges, anchors: &Anchors) -> (Spec, Spec)
        ensures { (own : FactsValue) (specs : Specs) (past : List (List Spanned)) (taken : List Spanned)
            → RepresentsRelative self.now own specs past taken
            → result ≡ pair_of (phase_specs own specs past (layout_facts kid.now) edges anchors.now) }
    {
        match self.axis {
            Axis::Horizontal => self.across_specs(kid, anchors),
            Axis::Vertical => self.down_specs(kid, edges, anchors),
        }
    }

    /// Takes the size that a child has got, and returns its sides that are known then.
    #[inline(never)]
    pub fn take(&mut self, kid: &Facts, edges: Edges, anchors: &Anchors, size: Size) -> Edges
        requires width { IsSide size.w }
        requires height { IsSide size.h }
        ensures edges { (own : FactsValue) (specs : Specs) (past : List (List Spanned)) (taken : List Spanned)
            → RepresentsRelative self.old own specs past taken
            → result ≡ edges_as past (spanned_as own specs past (layout_facts kid.now) anchors.now size) edges }
        ensures taken { (own : FactsValue) (specs : Specs) (past : List (List Spanned)) (taken : List Spanned)
            → RepresentsRelative self.old own specs past taken
            → RepresentsRelative self.new own specs past
            (taken ++ spanned_as own specs past (layout_facts kid.now) anchors.now size ∷ []) }
    {
        match self.axis {
            Axis::Horizontal => {
                let span = self
                    .across
                    .take(&Axis::Horizontal.child(self.rtl, kid), anchors, size.w);
                Edges {
                    across: Some(span),
                    down: edges.down,
                }
            }
            Axis::Vertical => {
                let span = self
                    .down
                    .take(&Axis::Vertical.child(self.rtl, kid), anchors, size.h);
                Edges {
                    across: edges.across,
                    down: Some(span),
                }
            }
        }
    }

    /// Ends a phase: true if another follows.
    pub fn turn(&mut self) -> bool
        ensures { (own : FactsValue) (specs : Specs) (past : List (List Spanned)) (taken : List Spanned)
            → RepresentsRelative self.old own specs past taken
            → TurnsRelative self.new own specs past taken result }
    {
        match self.axis {
            Axis::Horizontal => {
                self.axis = Axis::Vertical;
                true
            }
            Axis::Vertical => false,
        }
    }

    /// The own size, once every child of the second phase is taken.
    pub fn finish(&self) -> Size
        ensures value { (own : FactsValue) (specs : Specs) (first second : List Spanned)
            → RepresentsRelative self.now own specs (first ∷ []) second
            → result ≡ relative_size own specs first second }
        ensures width { IsSide result.w }
        ensures height { IsSide result.h }
    {
        Size {
            w: self.across.own_length(),
            h: self.down.own_length(),
        }
    }

    /// The rectangle of a child of this size that has these sides after the second phase, in the group's coordinates.
    pub fn settle(&self, kid: &Facts, edges: Edges, size: Size) -> Rect
        requires width { IsSide size.w }
        requires height { IsSide size.h }
        ensures { (own : FactsValue) (specs : Specs) (first second : List Spanned)
            → RepresentsRelative self.now own specs (first ∷ []) second
            → result ≡ final_rect own specs (relative_size own specs first second) (layout_facts kid.now) edges size }
    {
        rect_between(
            self.across.final_span(&Axis::Horizontal.child(self.rtl, kid), edges.across, size.w),
            self.down
                .final_span(&Axis::Vertical.child(self.rtl, kid), edges.down, size.h),
        )
    }

    /// The specs of a child in the first phase.
    fn across_specs(&self, kid: &Facts, anchors: &Anchors) -> (Spec, Spec)
        ensures { (own : FactsValue) (specs : Specs) (taken : List Spanned)
            → RepresentsRelative self.now own specs [] taken
            → result ≡ pair_of (across_specs own specs kid.now anchors.now) }
    {
        (
            self.across
                .spec(&Axis::Horizontal.child(self.rtl, kid), anchors),
            loose_spec(&self.down.group, &Axis::Vertical.child(self.rtl, kid)),
        )
    }

    /// The specs of a child in the second phase, in which its sides from left to right are known.
    fn down_specs(&self, kid: &Facts, edges: Edges, anchors: &Anchors) -> (Spec, Spec)
        ensures { (own : FactsValue) (specs : Specs) (first taken : List Spanned)
            → RepresentsRelative self.now own specs (first ∷ []) taken
            → result ≡ pair_of (down_specs own specs kid.now (span_or_none edges.across) anchors.now) }
    {
        (
            reported_spec(edges.across.unwrap_or((0, 0))),
            self.down
                .spec(&Axis::Vertical.child(self.rtl, kid), anchors),
        )
    }
}
