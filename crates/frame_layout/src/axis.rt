//! One axis of a frame layout's measuring. Lengths are in pixels.
ghost use Rattle.std.specs.Prelude.{◌≡◌, negsuc, pos, ◌+ℤ◌, ◌≤ℤ◌};
ghost use Rattle.std.specs.Int.{int_max};
ghost use Rattle.geom_core.specs.Limits.{IsSide};
ghost use Rattle.geom_core.specs.Spec.{child_spec_of, resolve_of};
ghost use Rattle.view_model.specs.FrameLayout.{second_spec};
ghost use Rattle.view_model.specs.Sums.{IsNoLessThanTwo, IsNoMoreThanTwo};

use geom_core::{MATCH, Mode, Spec, remaining};
use view_model::{child_spec_within, greater_need, own_side};

/// What a group has on an axis, and what its children need of it.
#[derive(Clone, Copy)]
pub struct Axis {
    pub spec: Spec,
    /// The least size of the group.
    pub min: i32,
    /// Both paddings.
    pub padding: i64,
    /// The greatest need so far of a child with its margins, at least 0.
    pub most: i64,
    ghost padding_low: { negsuc 4294967295 ≤ℤ padding },
    ghost padding_high: { padding ≤ℤ pos 4294967294 },
}

impl Axis {
    /// The axis before its first child.
    pub fn start(spec: Spec, min: i32, padding: i64) -> Axis
        requires low { IsNoLessThanTwo padding }
        requires high { IsNoMoreThanTwo padding }
        ensures spec { result.spec ≡ spec }
        ensures min { result.min ≡ min }
        ensures padding { result.padding ≡ padding }
        ensures most { result.most ≡ pos 0 }
    {
        Axis {
            spec,
            min,
            padding,
            most: 0,
        }
    }

    /// Takes in a child of this size.
    pub fn take(&mut self, size: i32, margins: i64)
        requires low { IsNoLessThanTwo margins }
        requires high { IsNoMoreThanTwo margins }
        ensures spec { self.new.spec ≡ self.old.spec }
        ensures min { self.new.min ≡ self.old.min }
        ensures padding { self.new.padding ≡ self.old.padding }
        ensures most { self.new.most ≡ int_max self.old.most (size +ℤ margins) }
    {
        self.most = greater_need(self.most, size, margins);
    }

    /// The spec of a child's first measuring.
    pub fn first_spec(&self, dim: i32, margins: i64) -> Spec
        requires low { IsNoLessThanTwo margins }
        requires high { IsNoMoreThanTwo margins }
        ensures { result ≡ child_spec_of self.now.spec (self.now.padding +ℤ margins) dim }
    {
        child_spec_within(self.spec, self.padding, margins, dim)
    }

    /// The spec of a child's second measuring, in a group of this size.
    #[tactic(auto, unfolding(view_model::specs::FrameLayout::second_spec))]
    pub fn second_spec(&self, dim: i32, margins: i64, size: i32) -> Spec
        requires low { IsNoLessThanTwo margins }
        requires high { IsNoMoreThanTwo margins }
        ensures { result ≡ second_spec
            (child_spec_of self.now.spec (self.now.padding +ℤ margins) dim) dim size (self.now.padding +ℤ margins) }
    {
        if dim == MATCH {
            return Spec {
                mode: Mode::Exactly,
                size: remaining(size, self.padding + margins),
            };
        }
        self.first_spec(dim, margins)
    }

    /// The group's own size.
    pub fn own_size(&self) -> i32
        ensures value { result ≡ resolve_of (int_max self.now.min (self.now.most +ℤ self.now.padding)) self.now.spec }
        ensures side { IsSide result }
    {
        own_side(self.min, self.most, self.padding, self.spec)
    }
}
