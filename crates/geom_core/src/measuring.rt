//! Specs and dimensions: what a parent asks of a child on one axis, and what size a view makes of it.
ghost use Rattle.std.specs.Prelude.{◌≡◌};
ghost use Rattle.geom_core.specs.Limits.{IsSide};
ghost use Rattle.geom_core.specs.Spec.{remaining_of, wrap_mode, child_spec_of, default_size_of, resolve_of};

use crate::limits::to_size;

/// What the size in a spec means for the view that is measured.
#[derive(Clone, Copy, PartialEq, Eq)]
pub enum Mode {
    /// The view may have any size; the size in the spec is a hint.
    Unspecified,
    /// The view gets that size.
    Exactly,
    /// The view may have any size up to that size.
    AtMost,
}

/// What a parent asks of a child on one axis. The size is in pixels.
#[derive(Clone, Copy, PartialEq, Eq)]
pub struct Spec {
    pub mode: Mode,
    pub size: i32,
}

/// The dimension of a view that wants to be as large as its parent.
pub const MATCH: i32 = -1;

/// The dimension of a view that wants to be as large as its content.
pub const WRAP: i32 = -2;

/// What is left of a parent's size where `used` pixels are taken.
#[tactic(auto, unfolding(crate::specs::Spec::remaining_of))]
pub fn remaining(size: i32, used: i64) -> i32
    ensures value { result ≡ remaining_of size used }
    ensures side { IsSide result }
{
    to_size(i64::from(size).saturating_sub(used))
}

/// The mode of a child that wants to be as large as its content.
fn wrapped(mode: Mode) -> Mode
    ensures { result ≡ wrap_mode mode }
{
    match mode {
        Mode::Unspecified => Mode::Unspecified,
        Mode::Exactly | Mode::AtMost => Mode::AtMost,
    }
}

/// The spec for a child of this dimension in a parent with this spec, of which padding and margins take `used` pixels.
/// A dimension from 0 upward is a number of pixels; a negative one that is not `MATCH` counts as `WRAP`.
#[tactic(auto, unfolding(crate::specs::Spec::child_spec_of))]
pub fn child_spec(spec: Spec, used: i64, dim: i32) -> Spec
    ensures value { result ≡ child_spec_of spec used dim }
    ensures side { IsSide result.size }
{
    if dim >= 0 {
        Spec {
            mode: Mode::Exactly,
            size: to_size(i64::from(dim)),
        }
    } else if dim == MATCH {
        Spec {
            mode: spec.mode,
            size: remaining(spec.size, used),
        }
    } else {
        Spec {
            mode: wrapped(spec.mode),
            size: remaining(spec.size, used),
        }
    }
}

/// The size of a view that wants `want` pixels and takes all that it is offered.
#[tactic(auto, unfolding(crate::specs::Spec::default_size_of))]
pub fn default_size(want: i32, spec: Spec) -> i32
    ensures value { result ≡ default_size_of want spec }
    ensures side { IsSide result }
{
    to_size(match spec.mode {
        Mode::Unspecified => i64::from(want),
        Mode::Exactly | Mode::AtMost => i64::from(spec.size),
    })
}

/// The size of a view that wants `want` pixels and takes no more than that unless its parent requires it.
#[tactic(auto, unfolding(crate::specs::Spec::resolve_of))]
pub fn resolve(want: i64, spec: Spec) -> i32
    ensures value { result ≡ resolve_of want spec }
    ensures side { IsSide result }
{
    to_size(match spec.mode {
        Mode::Unspecified => want,
        Mode::Exactly => i64::from(spec.size),
        Mode::AtMost => want.min(i64::from(spec.size)),
    })
}
