//! The measuring of one frame layout.
//!
//! A child matches if it is shown and has `match` on at least one axis. If one of the group's specs is not `Exactly`,
//! whichever it is, both axes of such a child are looked at in the second phase. The group's own size is that of the
//! first.
//!
//! The plan has three numbers an axis and a count, and no list of the children's sizes: so it is proved for every order
//! and size, and its memory does not grow.
ghost use Rattle.std.specs.Prelude.{◌≡◌, ◌+◌, [], ◌∷◌, ◌++◌, List, None, if◌then◌else◌, min};
ghost use Rattle.std.specs.Option.{option_map};
ghost use Rattle.geom_core.specs.Limits.{IsSide};
ghost use Rattle.view_model.specs.declared.facts.Facts.{Facts as FactsValue};
ghost use Rattle.view_model.specs.Facts.{layout_facts};
ghost use Rattle.view_model.specs.FrameLayout.{first_specs, frame_rule, has_second_phase, second_specs};
ghost use Rattle.view_model.specs.Measuring.{Specs, Measured, pair_of, taken_as};

use crate::axis::Axis;
use geom_core::{Size, Spec};
use view_model::{Facts, is_exact};

/// The measuring of one frame layout. In its first phase every child that takes part in layout is measured once; in the
/// second, if there is one, those that match their parent are measured again. In each phase the children are passed in
/// order: `ask`, measuring, `take`.
#[derive(Clone, Copy)]
pub struct FramePlan {
    across: Axis,
    down: Axis,
    /// How many children of the first phase match their parent; two means two or more.
    matching: u8,
    /// The own size, in the second phase.
    own_size: Option<Size>,
}

impl FramePlan {
    ghost use Rattle.frame_layout.specs.FramePlan.{HasMeasured, InFirst, RepresentsFrame, TurnsFrame};

    /// The plan of a group with these facts under these specs, before its first child.
    #[inline(always)]
    pub fn start(own: &Facts, ws: Spec, hs: Spec) -> FramePlan
        ensures { RepresentsFrame result (layout_facts own.now) (record { across = ws; down = hs }) [] [] }
    {
        FramePlan {
            across: Axis::start(ws, own.min.w, own.padding_across()),
            down: Axis::start(hs, own.min.h, own.padding_down()),
            matching: 0,
            own_size: None,
        }
    }

    /// The specs of a child in this phase, or `None` if it is not measured in it. The size is the child's present
    /// measured size; a frame layout has no use for it.
    #[inline(always)]
    pub fn ask(&self, kid: &Facts, size: Size) -> Option<(Spec, Spec)>
        ensures { (own : FactsValue) (specs : Specs) (past : List (List Measured)) (taken : List Measured)
            → RepresentsFrame self.now own specs past taken
            → result ≡ option_map pair_of
            ((frame_rule own specs).ask past taken (record { facts = layout_facts kid.now; size = size })) }
    {
        match self.own_size {
            None => Some(self.first_specs(kid)),
            Some(room) => {
                if kid.matches_parent() {
                    Some(self.second_specs(kid, room))
                } else {
                    None
                }
            }
        }
    }

    /// Takes the size that a child has got; if `ask` returned `None`, the one that was passed to it.
    #[inline(always)]
    pub fn take(&mut self, kid: &Facts, size: Size)
        ensures { (own : FactsValue) (specs : Specs) (past : List (List Measured)) (taken : List Measured)
            → RepresentsFrame self.old own specs past taken
            → RepresentsFrame self.new own specs past
            (taken ++ taken_as (frame_rule own specs) past taken (layout_facts kid.now) size ∷ []) }
    {
        if self.own_size.is_some() {
            return;
        }
        self.across.take(size.w, kid.margins_across());
        self.down.take(size.h, kid.margins_down());
        self.matching = count_to_two(self.matching, kid.matches_parent());
    }

    /// Ends a phase: true if another follows.
    pub fn turn(&mut self) -> bool
        ensures { (own : FactsValue) (specs : Specs) (past : List (List Measured)) (taken : List Measured)
            → RepresentsFrame self.old own specs past taken
            → TurnsFrame self.new own specs past taken result }
    {
        if self.own_size.is_some() || !self.measures_again() {
            return false;
        }
        self.own_size = Some(self.finish());
        true
    }

    /// The own size, once every child of the last phase is taken.
    pub fn finish(&self) -> Size
        ensures value { (own : FactsValue) (specs : Specs) (past : List (List Measured)) (taken : List Measured)
            → RepresentsFrame self.now own specs past taken
            → result ≡ (frame_rule own specs).size (past ++ taken ∷ []) }
        ensures width { IsSide result.w }
        ensures height { IsSide result.h }
    {
        Size {
            w: self.across.own_size(),
            h: self.down.own_size(),
        }
    }

    /// The specs of a child's first measuring.
    #[inline(always)]
    fn first_specs(&self, kid: &Facts) -> (Spec, Spec)
        ensures { (own : FactsValue) (specs : Specs) (first : List Measured)
            → HasMeasured self.now own specs first
            → result ≡ pair_of (first_specs own specs kid.now) }
    {
        (
            self.across.first_spec(kid.width, kid.margins_across()),
            self.down.first_spec(kid.height, kid.margins_down()),
        )
    }

    /// The specs of a child's second measuring in a group of this size.
    fn second_specs(&self, kid: &Facts, room: Size) -> (Spec, Spec)
        ensures { (own : FactsValue) (specs : Specs) (first : List Measured)
            → HasMeasured self.now own specs first
            → result ≡ pair_of (second_specs own specs room kid.now) }
    {
        (
            self.across
                .second_spec(kid.width, kid.margins_across(), room.w),
            self.down
                .second_spec(kid.height, kid.margins_down(), room.h),
        )
    }

    /// Whether a second phase follows on the first.
    fn measures_again(&self) -> bool
        ensures { (own : FactsValue) (specs : Specs) (taken : List Measured)
            → InFirst self.now own specs taken
            → result ≡ has_second_phase specs taken }
    {
        self.matching >= 2 && !(is_exact(self.across.spec) && is_exact(self.down.spec))
    }
}

/// A count of matching children that ends at two, with one child more.
fn count_to_two(count: u8, matches: bool) -> u8
    ensures { result ≡ (if matches then min 2 (count + 1) else count) }
{
    if matches {
        count.saturating_add(1).min(2)
    } else {
        count
    }
}
