//! Both sides of a child on an axis, once it is measured. Lengths are in pixels.
ghost use Rattle.std.specs.Prelude.{◌≡◌, ◌+ℤ◌, ◌-ℤ◌, ◌≤ℤ◌, IfSome, negsuc, pos};
ghost use Rattle.geom_core.specs.Limits.{IsCoordinate, IsSide};
ghost use Rattle.view_model.specs.RelativeLayout.{centered_in, far_inset, free_near, moved_span, rect_between, rest_near, span_at, span_of};
ghost use Rattle.view_model.specs.Sums.{IsNoLessThanTwo, IsNoMoreThanApart};

use crate::plan::sides::{far_inset, near_inset};
use geom_core::{Rect, to_coordinate};
use view_model::{ChildAxis, GroupAxis, is_exact};

/// The sides of a child of this length that begins here.
fn span_at(near: i64, length: i32) -> (i32, i32)
    requires { IsSide length }
    ensures { result ≡ span_at near length }
{
    let edge = to_coordinate(near);
    (edge, edge + length)
}

/// The near side of a child of this length in the middle of a group of this size.
fn centered_in(room: i32, length: i32) -> i64
    ensures { result ≡ centered_in room length }
{
    (i64::from(room) - i64::from(length)) / 2
}

/// What a child of this length takes before the far side, with its margin.
fn rest_share(group: &GroupAxis, kid: &ChildAxis, length: i32) -> i64
    ensures value { result ≡ far_inset group.now kid.now +ℤ length }
    ensures low { negsuc 8589934591 ≤ℤ result }
    ensures high { result ≤ℤ pos 8589934591 }
{
    far_inset(group, kid) + i64::from(length)
}

/// The near side of a child of this length that rests at the far side of a group of this size.
fn rest_near(group: &GroupAxis, kid: &ChildAxis, room: i32, length: i32) -> i64
    ensures { result ≡ rest_near group.now kid.now room length }
{
    i64::from(room) - rest_share(group, kid, length)
}

/// The near side of a child of which no rule sets a side.
#[tactic(auto, unfolding(view_model::specs::RelativeLayout::free_near))]
fn free_near(group: &GroupAxis, kid: &ChildAxis, length: i32) -> i64
    ensures { result ≡ free_near group.now kid.now length }
{
    if is_exact(group.spec) {
        if kid.centered {
            return centered_in(group.spec.size, length);
        }
        if kid.rests_far {
            return rest_near(group, kid, group.spec.size, length);
        }
    }
    near_inset(group, kid)
}

/// The sides of a child of this length of which rules have set these.
#[tactic(auto, unfolding(view_model::specs::RelativeLayout::span_of))]
pub fn span_of(
    group: &GroupAxis,
    kid: &ChildAxis,
    near: Option<i32>,
    far: Option<i32>,
    length: i32,
) -> (i32, i32)
    requires near { IfSome near (λ side. IsCoordinate side) }
    requires length { IsSide length }
    ensures { result ≡ span_of group.now kid.now near far length }
{
    match (near, far) {
        (None, None) => span_at(free_near(group, kid, length), length),
        (Some(near), None) => (near, near + length),
        (None, Some(far)) => (to_coordinate(i64::from(far) - i64::from(length)), far),
        (Some(near), Some(far)) => (near, far),
    }
}

/// What a child of this length takes before the far side.
fn far_share(group: &GroupAxis, length: i32) -> i64
    ensures value { result ≡ group.now.padding_far +ℤ length }
    ensures low { IsNoLessThanTwo result }
    ensures high { IsNoMoreThanApart result }
{
    i64::from(group.padding_far) + i64::from(length)
}

/// Where a child of this length begins that ends at the far side of a group of this size.
fn at_far_side(group: &GroupAxis, own: i32, length: i32) -> i64
    ensures { result ≡ own -ℤ (group.now.padding_far +ℤ length) }
{
    i64::from(own) - far_share(group, length)
}

/// The final sides of a child, once the group has this size.
#[tactic(auto, unfolding(view_model::specs::RelativeLayout::moved_span))]
pub fn moved_span(
    group: &GroupAxis,
    kid: &ChildAxis,
    own: i32,
    span: (i32, i32),
    length: i32,
) -> (i32, i32)
    requires { IsSide length }
    ensures { result ≡ moved_span group.now kid.now own span length }
{
    if is_exact(group.spec) {
        span
    } else if kid.centered {
        span_at(centered_in(own, length), length)
    } else if kid.at_far {
        span_at(at_far_side(group, own, length), length)
    } else if kid.rests_far {
        span_at(rest_near(group, kid, own, length), length)
    } else {
        span
    }
}

/// The rectangle between these sides, from left to right and from top to bottom.
pub fn rect_between(across: (i32, i32), down: (i32, i32)) -> Rect
    ensures { result ≡ rect_between across down }
{
    Rect {
        left: across.0,
        top: down.0,
        right: across.0.max(across.1),
        bottom: down.0.max(down.1),
    }
}
