//! The measuring of one scroll view.
ghost use Rattle.std.specs.Prelude.{◌≡◌, ◌+ℤ◌, ◌-ℤ◌, int_lt, [], ◌∷◌, ◌++◌, List};
ghost use Rattle.std.specs.Option.{option_map};
ghost use Rattle.geom_core.specs.Limits.{IsSide};
ghost use Rattle.view_model.specs.declared.facts.Facts.{Facts as FactsValue};
ghost use Rattle.view_model.specs.Facts.{layout_facts, padding_across, padding_down};
ghost use Rattle.view_model.specs.Measuring.{Specs, Measured, pair_of, taken_as};
ghost use Rattle.view_model.specs.ScrollView.{filling_specs, free_specs, is_filled, is_short, scroll_rule, is_unspecified};
ghost use Rattle.view_model.specs.Sums.{IsNoLessThanTwo, IsNoMoreThanTwo};

use frame_layout::FramePlan;
use geom_core::{Insets, Mode, Size, Spec, remaining};
use view_model::{Facts, child_spec_within};

/// The measuring of one scroll view. In its first phase a child is measured with any height; in the second, if it is to
/// fill the group, once more, if it is too short for that. In each phase the children are passed in order: `ask`,
/// measuring, `take`.
#[derive(Clone, Copy)]
pub struct ScrollPlan {
    /// On each side, the one that applies.
    padding: Insets,
    /// Whether a child is to fill the group.
    fill: bool,
    ws: Spec,
    hs: Spec,
    /// What a frame layout makes of the sizes of the first phase.
    frame: FramePlan,
    /// Whether it is in the second phase.
    filling: bool,
}

impl ScrollPlan {
    ghost use Rattle.scroll_view.specs.ScrollPlan.{RepresentsScroll, TurnsScroll, own_in, specs_in};

    /// The plan of a group with these facts under these specs, before its first child.
    #[inline(always)]
    pub fn start(own: &Facts, ws: Spec, hs: Spec) -> ScrollPlan
        ensures { RepresentsScroll result (layout_facts own.now) (record { across = ws; down = hs }) [] [] }
    {
        ScrollPlan {
            padding: Insets {
                left: own.padding_left(),
                top: own.padding.top,
                right: own.padding_right(),
                bottom: own.padding.bottom,
            },
            fill: own.fill,
            ws,
            hs,
            frame: FramePlan::start(own, ws, hs),
            filling: false,
        }
    }

    /// The specs of a child in this phase, or `None` if it is not measured in it. The size is the child's present
    /// measured size, which the first phase ignores.
    pub fn ask(&self, kid: &Facts, size: Size) -> Option<(Spec, Spec)>
        ensures { (own : FactsValue) (specs : Specs) (past : List (List Measured)) (taken : List Measured)
            → RepresentsScroll self.now own specs past taken
            → result ≡ option_map pair_of
            ((scroll_rule own specs).ask past taken (record { facts = layout_facts kid.now; size = size })) }
    {
        if !self.filling {
            return Some(self.free_specs(kid));
        }
        let room = self.frame.finish();
        if self.is_short(room, kid, size) {
            Some(self.filling_specs(room, kid))
        } else {
            None
        }
    }

    /// Takes the size that a child has got; if `ask` returned `None`, the one that was passed to it.
    pub fn take(&mut self, kid: &Facts, size: Size)
        ensures { (own : FactsValue) (specs : Specs) (past : List (List Measured)) (taken : List Measured)
            → RepresentsScroll self.old own specs past taken
            → RepresentsScroll self.new own specs past
            (taken ++ taken_as (scroll_rule own specs) past taken (layout_facts kid.now) size ∷ []) }
    {
        if !self.filling {
            self.frame.take(kid, size);
        }
    }

    /// Ends a phase: true if another follows.
    pub fn turn(&mut self) -> bool
        ensures { (own : FactsValue) (specs : Specs) (past : List (List Measured)) (taken : List Measured)
            → RepresentsScroll self.old own specs past taken
            → TurnsScroll self.new own specs past taken result }
    {
        if self.filling || !self.is_filled() {
            return false;
        }
        self.filling = true;
        true
    }

    /// The own size, once every child of the last phase is taken.
    pub fn finish(&self) -> Size
        ensures value { (own : FactsValue) (specs : Specs) (past : List (List Measured)) (taken : List Measured)
            → RepresentsScroll self.now own specs past taken
            → result ≡ (scroll_rule own specs).size (past ++ taken ∷ []) }
        ensures width { IsSide result.w }
        ensures height { IsSide result.h }
    {
        self.frame.finish()
    }

    /// Both paddings from left to right.
    fn padding_across(&self) -> i64
        ensures value { result ≡ padding_across (own_in self.now) }
        ensures low { IsNoLessThanTwo result }
        ensures high { IsNoMoreThanTwo result }
    {
        i64::from(self.padding.left) + i64::from(self.padding.right)
    }

    /// Both paddings from top to bottom.
    fn padding_down(&self) -> i64
        ensures value { result ≡ padding_down (own_in self.now) }
        ensures low { IsNoLessThanTwo result }
        ensures high { IsNoMoreThanTwo result }
    {
        i64::from(self.padding.top) + i64::from(self.padding.bottom)
    }

    /// The spec of a child's width, in both phases.
    fn width_spec(&self, kid: &Facts) -> Spec
        ensures { result ≡ (free_specs (own_in self.now) (specs_in self.now) (layout_facts kid.now)).across }
    {
        child_spec_within(
            self.ws,
            self.padding_across(),
            kid.margins_across(),
            kid.width,
        )
    }

    /// The specs of a child's first measuring.
    fn free_specs(&self, kid: &Facts) -> (Spec, Spec)
        ensures { result ≡ pair_of (free_specs (own_in self.now) (specs_in self.now) (layout_facts kid.now)) }
    {
        let height = Spec {
            mode: Mode::Unspecified,
            size: remaining(self.hs.size, self.padding_down() + kid.margins_down()),
        };
        (self.width_spec(kid), height)
    }

    /// The specs of a child that is to fill a group of this size.
    fn filling_specs(&self, room: Size, kid: &Facts) -> (Spec, Spec)
        ensures { result ≡ pair_of (filling_specs (own_in self.now) (specs_in self.now) room.h (layout_facts kid.now)) }
    {
        (self.width_spec(kid), self.full_height(room.h, kid))
    }

    /// The spec of the height of a child that is to fill a group of this height.
    fn full_height(&self, height: i32, kid: &Facts) -> Spec
        ensures { result ≡ (filling_specs (own_in self.now) (specs_in self.now) height (layout_facts kid.now)).down }
    {
        Spec {
            mode: Mode::Exactly,
            size: remaining(height, self.padding_down() + kid.margins_down()),
        }
    }

    /// Whether a child of this size leaves a part of the height of a group of the size `room` empty.
    #[tactic(auto, unfolding(view_model::specs::ScrollView::is_short))]
    fn is_short(&self, room: Size, kid: &Facts, size: Size) -> bool
        ensures { result ≡ is_short (own_in self.now) room.h (record { facts = layout_facts kid.now; size = size }) }
    {
        is_below(size.h, room.h, self.padding_down(), kid.margins_down())
    }

    /// Whether a child is to fill the group.
    fn is_filled(&self) -> bool
        ensures { result ≡ is_filled (own_in self.now) (specs_in self.now) }
    {
        self.fill && !is_unspecified(self.hs)
    }
}

/// Whether a length is below what is left of `room` after padding and margins.
fn is_below(length: i32, room: i32, padding: i64, margins: i64) -> bool
    requires padding_low { IsNoLessThanTwo padding }
    requires padding_high { IsNoMoreThanTwo padding }
    requires margins_low { IsNoLessThanTwo margins }
    requires margins_high { IsNoMoreThanTwo margins }
    ensures { result ≡ int_lt length (room -ℤ (padding +ℤ margins)) }
{
    i64::from(length) < i64::from(room) - (padding + margins)
}

/// Whether a spec has no limit.
fn is_unspecified(spec: Spec) -> bool
    ensures { result ≡ is_unspecified spec.mode }
{
    match spec.mode {
        Mode::Unspecified => true,
        Mode::Exactly | Mode::AtMost => false,
    }
}
