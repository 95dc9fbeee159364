//! What groups compute on one axis while they measure. Lengths are in pixels.
ghost use Rattle.std.specs.Prelude.{◌≡◌, ◌+ℤ◌};
ghost use Rattle.std.specs.Int.{int_max};
ghost use Rattle.geom_core.specs.Limits.{IsSide};
ghost use Rattle.geom_core.specs.Spec.{child_spec_of, resolve_of};
ghost use Rattle.view_model.specs.FrameLayout.{is_exactly};
ghost use Rattle.view_model.specs.Sums.{IsNoLessThanTwo, IsNoMoreThanTwo};

use geom_core::{Mode, Spec, child_spec, resolve};

/// Whether a spec gives the size.
pub fn is_exact(spec: Spec) -> bool
    ensures { result ≡ is_exactly spec.mode }
{
    match spec.mode {
        Mode::Exactly => true,
        Mode::Unspecified | Mode::AtMost => false,
    }
}

/// The spec of a child of this dimension on an axis of which the group's padding and the child's margins take a part.
pub fn child_spec_within(spec: Spec, padding: i64, margins: i64, dim: i32) -> Spec
    requires padding_low { IsNoLessThanTwo padding }
    requires padding_high { IsNoMoreThanTwo padding }
    requires margins_low { IsNoLessThanTwo margins }
    requires margins_high { IsNoMoreThanTwo margins }
    ensures { result ≡ child_spec_of spec (padding +ℤ margins) dim }
{
    child_spec(spec, padding + margins, dim)
}

/// The greater of what was needed so far and what a child of this size needs with its margins.
pub fn greater_need(most: i64, size: i32, margins: i64) -> i64
    requires low { IsNoLessThanTwo margins }
    requires high { IsNoMoreThanTwo margins }
    ensures { result ≡ int_max most (size +ℤ margins) }
{
    most.max(i64::from(size) + margins)
}

/// A side of a group whose children need at most `most` of it besides its padding.
pub fn own_side(min: i32, most: i64, padding: i64, spec: Spec) -> i32
    ensures value { result ≡ resolve_of (int_max min (most +ℤ padding)) spec }
    ensures side { IsSide result }
{
    resolve(i64::from(min).max(most.saturating_add(padding)), spec)
}
