//! The measuring of one linear layout, over its passes.
ghost use Rattle.std.specs.Prelude.{◌≡◌, ◌<◌, pos, true, false, [], ◌∷◌, ◌++◌, List, length, Option, None, Some, if◌then◌else◌};
ghost use Rattle.std.specs.Option.{option_map};
ghost use Rattle.geom_core.specs.Limits.{IsSide};
ghost use Rattle.linear_layout.specs.declared.weight_pass.WeightPass.{WeightPass as WeightPassValue};
ghost use Rattle.view_model.specs.declared.facts.Facts.{Facts as FactsValue};
ghost use Rattle.view_model.specs.declared.limits.TheConstants.{MAX_VIEWS};
ghost use Rattle.view_model.specs.Facts.{layout_facts};
ghost use Rattle.view_model.specs.LinearLayout.{breadth_for, breadth_once, breadth_twice, is_exact_beside, linear_rule};
ghost use Rattle.view_model.specs.Measuring.{Measured, Specs, pair_of, taken_as};

use crate::axis::size_by;
use crate::breadth::{ask_uniform, own_breadth};
use crate::first_pass::FirstPass;
use crate::line::Line;
use crate::weight_pass::WeightPass;
use geom_core::{Size, Spec};
use view_model::Facts;

/// The phase of a measuring.
#[derive(Clone, Copy)]
pub enum Phase {
    First,
    Weight(WeightPass),
    /// After the weight pass, if that ran.
    Uniform(Option<WeightPass>),
}

/// The measuring of one linear layout. In each phase the children that take part in layout are passed in order: `ask`,
/// measuring, `take`; `turn` ends it. What is long and rare in these three has functions of its own, whose locals leave
/// the stack before what is below is measured.
#[derive(Clone, Copy)]
pub struct LinearPlan {
    line: Line,
    first: FirstPass,
    phase: Phase,
}

impl LinearPlan {
    ghost use Rattle.linear_layout.specs.Line.{own_in, specs_in};
    ghost use Rattle.linear_layout.specs.LinearPlan.{LeavesAll, RepresentsLinear, TurnsLinear, leaves_all, weighed_by};
    ghost use Rattle.linear_layout.specs.declared.plan.Phase.TheVariants.{Uniform, Weight};
    ghost use Rattle.linear_layout.specs.Passes.{IsFirstPass, IsWeightPass};

    /// The plan of a group with these facts under these specs, before its first child.
    #[inline(always)]
    pub fn start(own: &Facts, ws: Spec, hs: Spec) -> LinearPlan
        ensures { RepresentsLinear result (layout_facts own.now) (record { across = ws; down = hs }) [] [] }
    {
        LinearPlan {
            line: Line::of(own, ws, hs),
            first: FirstPass::new(),
            phase: Phase::First,
        }
    }

    /// The specs of a child in this phase, or `None` if it is not measured in it. The size is the child's present
    /// measured size, which the first phase ignores.
    #[inline(always)]
    pub fn ask(&self, kid: &Facts, size: Size) -> Option<(Spec, Spec)>
        ensures { (own : FactsValue) (specs : Specs) (past : List (List Measured)) (taken : List Measured)
            → RepresentsLinear self.now own specs past taken
            → result ≡ option_map pair_of
            ((linear_rule own specs).ask past taken (record { facts = layout_facts kid.now; size = size })) }
    {
        match &self.phase {
            Phase::First => self.first.ask(&self.line, kid, size),
            Phase::Weight(pass) => pass.ask(&self.line, kid, size),
            Phase::Uniform(_) => self.ask_uniform(kid, size),
        }
    }

    /// The same in the uniform phase.
    #[inline(never)]
    fn ask_uniform(&self, kid: &Facts, size: Size) -> Option<(Spec, Spec)>
        ensures { (weighed : Option WeightPassValue)
            (own : FactsValue) (specs : Specs) (past : List (List Measured)) (taken : List Measured)
            → self.now.phase ≡ Uniform weighed
            → RepresentsLinear self.now own specs past taken
            → result ≡ option_map pair_of
            ((linear_rule own specs).ask past taken (record { facts = layout_facts kid.now; size = size })) }
    {
        ask_uniform(&self.line, self.own_breadth(), kid, size)
    }

    /// Takes the size that a child has got; if `ask` returned `None`, the one that was passed to it.
    #[inline(always)]
    pub fn take(&mut self, kid: &Facts, size: Size)
        ensures { (own : FactsValue) (specs : Specs) (past : List (List Measured)) (taken : List Measured)
            → RepresentsLinear self.old own specs past taken
            → length taken < MAX_VIEWS
            → RepresentsLinear self.new own specs past
            (taken ++ taken_as (linear_rule own specs) past taken (layout_facts kid.now) size ∷ []) }
    {
        match &self.phase {
            Phase::First => {
                let counted = counted(self.line.skips(kid), size);
                self.first = self.first.with(&self.line, kid, counted);
            }
            Phase::Weight(_) => self.take_weighed(kid, size),
            Phase::Uniform(_) => (),
        }
    }

    /// The same in the weight pass, and nothing in the others.
    #[inline(never)]
    fn take_weighed(&mut self, kid: &Facts, size: Size)
        ensures { (pass : WeightPassValue)
            → (own : FactsValue) (specs : Specs) (past : List (List Measured)) (taken : List Measured)
            → self.old.phase ≡ Weight pass
            → RepresentsLinear self.old own specs past taken
            → length taken < MAX_VIEWS
            → RepresentsLinear self.new own specs past
            (taken ++ taken_as (linear_rule own specs) past taken (layout_facts kid.now) size ∷ []) }
    {
        if let Phase::Weight(pass) = self.phase {
            self.phase = Phase::Weight(pass.with(&self.line, kid, size));
        }
    }

    /// Whether the uniform pass has come and asks no child, since none wants to be as broad as the group. It is the last
    /// phase, and what it takes changes nothing, so its owner may leave it out.
    #[inline(always)]
    pub fn leaves_all(&self) -> bool
        ensures value { result ≡ leaves_all self.now }
        ensures leaves { result ≡ true → (own : FactsValue) (specs : Specs) → LeavesAll self.now own specs }
    {
        match &self.phase {
            Phase::First | Phase::Weight(_) => false,
            Phase::Uniform(weighed) => match weighed {
                None => !self.first.any_match,
                Some(pass) => !pass.any_match,
            },
        }
    }

    /// Ends a phase: true if another follows.
    #[inline(never)]
    pub fn turn(&mut self) -> bool
        ensures { (own : FactsValue) (specs : Specs) (past : List (List Measured)) (taken : List Measured)
            → RepresentsLinear self.old own specs past taken
            → TurnsLinear self.new own specs past taken result }
    {
        match self.phase {
            Phase::First => {
                if self.first.leads_to_weight_pass(&self.line) {
                    self.phase = Phase::Weight(WeightPass::start(&self.line, &self.first));
                    return true;
                }
                self.turn_uniform(None)
            }
            Phase::Weight(pass) => self.turn_uniform(Some(pass)),
            Phase::Uniform(_) => false,
        }
    }

    /// Goes on to the uniform pass, if that follows.
    fn turn_uniform(&mut self, weighed: Option<WeightPass>) -> bool
        ensures reported { is_exact_beside (own_in self.old.line) (specs_in self.old.line) ≡ true
            → (result ≡ false) × (self.new ≡ self.old) }
        ensures unreported { is_exact_beside (own_in self.old.line) (specs_in self.old.line) ≡ false
            → (result ≡ true) × (self.new ≡ record self.old { phase = Uniform weighed }) }
    {
        if self.line.is_exact_beside() {
            return false;
        }
        self.phase = Phase::Uniform(weighed);
        true
    }

    /// The own size, once every child of the last phase is taken.
    pub fn finish(&self) -> Size
        ensures value { (own : FactsValue) (specs : Specs) (past : List (List Measured)) (taken : List Measured)
            → RepresentsLinear self.now own specs past taken
            → result ≡ (linear_rule own specs).size (past ++ taken ∷ []) }
        ensures width { IsSide result.w }
        ensures height { IsSide result.h }
    {
        size_by(
            self.line.vertical(),
            self.first.own_length(&self.line),
            self.own_breadth(),
        )
    }

    /// What the children and the padding of the group take of its length, once every child of the last phase is taken.
    pub fn total(&self) -> i64
        ensures { (own : FactsValue) (specs : Specs) (past : List (List Measured)) (taken : List Measured)
            → RepresentsLinear self.now own specs past taken
            → result ≡ (linear_rule own specs).total (past ++ taken ∷ []) }
    {
        match self.weighed() {
            Some(pass) => pass.full_length(&self.line),
            None => self.first.full_length(&self.line),
        }
    }

    /// The breadth of the group.
    fn own_breadth(&self) -> i32
        ensures once { (kids : List Measured)
            → weighed_by self.now.phase ≡ None
            → IsFirstPass self.now.first (own_in self.now.line) (specs_in self.now.line) kids
            → result ≡ breadth_for (own_in self.now.line) (specs_in self.now.line)
            (breadth_once (own_in self.now.line) (specs_in self.now.line) kids) }
        ensures twice { (pass : WeightPassValue) (kids second : List Measured)
            → weighed_by self.now.phase ≡ Some pass
            → IsFirstPass self.now.first (own_in self.now.line) (specs_in self.now.line) kids
            → IsWeightPass pass (own_in self.now.line) (specs_in self.now.line) kids second
            → result ≡ breadth_for (own_in self.now.line) (specs_in self.now.line)
            (breadth_twice (own_in self.now.line) (specs_in self.now.line) kids second) }
        ensures side { IsSide result }
    {
        own_breadth(&self.line, &self.first, self.weighed())
    }

    /// The weight pass, once it has begun.
    fn weighed(&self) -> Option<WeightPass>
        ensures { result ≡ weighed_by self.now.phase }
    {
        match self.phase {
            Phase::First => None,
            Phase::Weight(pass) => Some(pass),
            Phase::Uniform(weighed) => weighed,
        }
    }
}

/// The size that counts for a child in the first pass.
fn counted(skipped: bool, size: Size) -> Size
    ensures { result ≡ (if skipped then record { w = pos 0; h = pos 0 } else size) }
{
    if skipped {
        return Size { w: 0, h: 0 };
    }
    size
}
