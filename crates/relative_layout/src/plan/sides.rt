//! The sides of a child on an axis, and the spec under which it is measured there. Lengths are in pixels.
ghost use Rattle.std.specs.Prelude.{◌≡◌, ◌-ℤ◌, ◌≤ℤ◌, IfSome, negsuc, pos, unwrap_or};
ghost use Rattle.std.specs.Option.{option_map};
ghost use Rattle.geom_core.specs.Limits.{IsCoordinate};
ghost use Rattle.view_model.specs.RelativeLayout.{after_anchor, at_most, available_to, before_anchor, begins_at_parent, begins_with, both_insets, bounded_spec, ends_at_parent, ends_with, exactly, far_inset, far_side, loose_spec, loose_spec_in, near_inset, near_side, outer_far, outer_near, room_of, side_spec, spec_in, unbounded_spec, width_of};
ghost use Rattle.view_model.specs.Sums.{IsNoLessThanTwo, IsNoMoreThanApart};

use geom_core::{MATCH, Mode, Spec, to_coordinate, to_size};
use view_model::{Anchor, Anchors, ChildAxis, GroupAxis};

/// The size that a group's spec gives it.
pub fn room(group: &GroupAxis) -> Option<i32>
    ensures { result ≡ room_of group.now }
{
    match group.spec.mode {
        Mode::Unspecified => None,
        Mode::Exactly | Mode::AtMost => Some(group.spec.size),
    }
}

/// The near side of an anchor with its margin.
fn outer_near(anchor: &Anchor) -> i64
    ensures value { result ≡ outer_near anchor.now }
    ensures low { IsNoLessThanTwo result }
    ensures high { IsNoMoreThanApart result }
{
    i64::from(anchor.near) - i64::from(anchor.margin_near)
}

/// The far side of an anchor with its margin.
fn outer_far(anchor: &Anchor) -> i64
    ensures value { result ≡ outer_far anchor.now }
    ensures low { IsNoLessThanTwo result }
    ensures high { IsNoMoreThanApart result }
{
    i64::from(anchor.far) + i64::from(anchor.margin_far)
}

/// What the padding and the child's margin take on the near side.
pub fn near_inset(group: &GroupAxis, kid: &ChildAxis) -> i64
    ensures value { result ≡ near_inset group.now kid.now }
    ensures low { IsNoLessThanTwo result }
    ensures high { IsNoMoreThanApart result }
{
    i64::from(group.padding_near) + i64::from(kid.margin_near)
}

/// What the padding and the child's margin take on the far side.
pub fn far_inset(group: &GroupAxis, kid: &ChildAxis) -> i64
    ensures value { result ≡ far_inset group.now kid.now }
    ensures low { IsNoLessThanTwo result }
    ensures high { IsNoMoreThanApart result }
{
    i64::from(group.padding_far) + i64::from(kid.margin_far)
}

/// The near side of a child that begins after an anchor, with both margins between them, brought into the range of
/// edges.
fn after(kid: &ChildAxis, anchor: &Anchor) -> i32
    ensures value { result ≡ after_anchor kid.now anchor.now }
    ensures edge { IsCoordinate result }
{
    to_coordinate(outer_far(anchor) + i64::from(kid.margin_near))
}

/// The near side of a child that begins with an anchor, after its own margin, brought into the range of edges.
fn begins_with(kid: &ChildAxis, anchor: &Anchor) -> i32
    ensures value { result ≡ begins_with kid.now anchor.now }
    ensures edge { IsCoordinate result }
{
    to_coordinate(i64::from(anchor.near) + i64::from(kid.margin_near))
}

/// The near side of a child that begins where its group does, after padding and margin, brought into the range of
/// edges.
fn begins_at_parent(group: &GroupAxis, kid: &ChildAxis) -> i32
    ensures value { result ≡ begins_at_parent group.now kid.now }
    ensures edge { IsCoordinate result }
{
    to_coordinate(near_inset(group, kid))
}

/// The far side of a child that ends before an anchor, with both margins between them, brought into the range of edges.
fn before(kid: &ChildAxis, anchor: &Anchor) -> i32
    ensures value { result ≡ before_anchor kid.now anchor.now }
    ensures edge { IsCoordinate result }
{
    to_coordinate(outer_near(anchor) - i64::from(kid.margin_far))
}

/// The far side of a child that ends with an anchor, before its own margin, brought into the range of edges.
fn ends_with(kid: &ChildAxis, anchor: &Anchor) -> i32
    ensures value { result ≡ ends_with kid.now anchor.now }
    ensures edge { IsCoordinate result }
{
    to_coordinate(i64::from(anchor.far) - i64::from(kid.margin_far))
}

/// The far side of a child that ends where its group does, before padding and margin, brought into the range of edges;
/// `None` if the group's spec gives no size.
fn ends_at_parent(group: &GroupAxis, kid: &ChildAxis) -> Option<i32>
    ensures value { result ≡ option_map (ends_at_parent group.now kid.now) (room_of group.now) }
    ensures edge { IfSome result (λ side. IsCoordinate side) }
{
    let room = room(group)?;
    Some(to_coordinate(i64::from(room) - far_inset(group, kid)))
}

/// The near side of a child as its rules set it.
#[tactic(auto, unfolding(view_model::specs::RelativeLayout::near_side))]
pub fn near_side(group: &GroupAxis, kid: &ChildAxis, anchors: &Anchors) -> Option<i32>
    ensures value { result ≡ near_side group.now kid.now anchors.now }
    ensures edge { IfSome result (λ side. IsCoordinate side) }
{
    if kid.at_near {
        return Some(begins_at_parent(group, kid));
    }
    match (anchors.align_near, anchors.after) {
        (Some(anchor), _) => Some(begins_with(kid, &anchor)),
        (None, Some(anchor)) => Some(after(kid, &anchor)),
        (None, None) => None,
    }
}

/// The far side of a child as its rules set it.
#[tactic(auto, unfolding(view_model::specs::RelativeLayout::far_side))]
pub fn far_side(group: &GroupAxis, kid: &ChildAxis, anchors: &Anchors) -> Option<i32>
    ensures value { result ≡ far_side group.now kid.now anchors.now }
    ensures edge { IfSome result (λ side. IsCoordinate side) }
{
    if kid.at_far {
        if let Some(side) = ends_at_parent(group, kid) {
            return Some(side);
        }
    }
    match (anchors.align_far, anchors.before) {
        (Some(anchor), _) => Some(ends_with(kid, &anchor)),
        (None, Some(anchor)) => Some(before(kid, &anchor)),
        (None, None) => None,
    }
}

const ANYTHING: Spec = Spec {
    mode: Mode::Unspecified,
    size: 0,
};

/// The spec for exactly this size, brought into the range of sizes.
fn exactly(size: i64) -> Spec
    ensures { result ≡ exactly size }
{
    Spec {
        mode: Mode::Exactly,
        size: to_size(size),
    }
}

/// The spec for at most this size, brought into the range of sizes.
fn at_most(size: i64) -> Spec
    ensures { result ≡ at_most size }
{
    Spec {
        mode: Mode::AtMost,
        size: to_size(size),
    }
}

/// The spec of a child of which no side is known.
#[tactic(auto, unfolding(view_model::specs::RelativeLayout::unbounded_spec))]
fn unbounded_spec(dim: i32) -> Spec
    ensures { result ≡ unbounded_spec dim }
{
    if dim < 0 {
        return ANYTHING;
    }
    exactly(i64::from(dim))
}

/// The spec of a child between whose sides, or those of its group, `available` pixels are.
#[tactic(auto, unfolding(view_model::specs::RelativeLayout::bounded_spec, view_model::specs::RelativeLayout::unbounded_spec))]
fn bounded_spec(available: i64, dim: i32) -> Spec
    ensures { result ≡ bounded_spec available dim }
{
    if dim == MATCH {
        exactly(available)
    } else if available < 0 {
        unbounded_spec(dim)
    } else if dim < 0 {
        at_most(available)
    } else {
        exactly(i64::from(dim).min(available))
    }
}

/// Where a child may begin at the earliest.
fn near_limit(group: &GroupAxis, kid: &ChildAxis, near: Option<i32>) -> i64
    ensures value { result ≡ unwrap_or near (near_inset group.now kid.now) }
    ensures low { IsNoLessThanTwo result }
    ensures high { IsNoMoreThanApart result }
{
    match near {
        Some(near) => i64::from(near),
        None => near_inset(group, kid),
    }
}

/// Where a child of a group of this size may end at the latest.
fn far_limit(group: &GroupAxis, kid: &ChildAxis, far: Option<i32>, room: i32) -> i64
    ensures value { result ≡ unwrap_or far (room -ℤ far_inset group.now kid.now) }
    ensures low { negsuc 8589934591 ≤ℤ result }
    ensures high { result ≤ℤ pos 8589934591 }
{
    match far {
        Some(far) => i64::from(far),
        None => i64::from(room) - far_inset(group, kid),
    }
}

/// How much is between the sides of a child, if they are set, and otherwise between those of a group of this size.
#[tactic(auto, unfolding(view_model::specs::RelativeLayout::available_to))]
fn available(
    group: &GroupAxis,
    kid: &ChildAxis,
    near: Option<i32>,
    far: Option<i32>,
    room: i32,
) -> i64
    ensures { result ≡ available_to group.now kid.now near far room }
{
    far_limit(group, kid, far, room) - near_limit(group, kid, near)
}

/// The spec of a child by those of its sides that are set; without a size of the group, they do not count.
fn spec_in(group: &GroupAxis, kid: &ChildAxis, near: Option<i32>, far: Option<i32>) -> Spec
    ensures { result ≡ spec_in group.now kid.now near far (room_of group.now) }
{
    match room(group) {
        None => unbounded_spec(kid.dim),
        Some(room) => bounded_spec(available(group, kid, near, far, room), kid.dim),
    }
}

/// The spec of a child with these sides.
pub fn side_spec(group: &GroupAxis, kid: &ChildAxis, near: Option<i32>, far: Option<i32>) -> Spec
    ensures { result ≡ side_spec group.now kid.now near far }
{
    match (near, far) {
        (Some(near), Some(far)) => exactly(i64::from(far) - i64::from(near)),
        (None, _) => spec_in(group, kid, near, far),
        (Some(_), None) => spec_in(group, kid, near, far),
    }
}

/// What the padding and the child's margins take on both sides.
fn both_insets(group: &GroupAxis, kid: &ChildAxis) -> i64
    ensures value { result ≡ both_insets group.now kid.now }
    ensures low { negsuc 8589934591 ≤ℤ result }
    ensures high { result ≤ℤ pos 8589934591 }
{
    near_inset(group, kid) + far_inset(group, kid)
}

/// What is left for a child of a group of this size.
fn inner_room(group: &GroupAxis, kid: &ChildAxis, room: i32) -> i64
    ensures { result ≡ room -ℤ both_insets group.now kid.now }
{
    i64::from(room) - both_insets(group, kid)
}

/// The spec of a child in a group of this size, while nothing is known of its siblings.
#[tactic(auto, unfolding(view_model::specs::RelativeLayout::loose_spec))]
fn loose_spec_within(group: &GroupAxis, kid: &ChildAxis, room: i32) -> Spec
    ensures { result ≡ loose_spec group.now kid.now room }
{
    let available = inner_room(group, kid, room);
    if kid.dim == MATCH {
        return exactly(available);
    }
    at_most(available)
}

/// The spec of a child while nothing is known of its siblings.
pub fn loose_spec(group: &GroupAxis, kid: &ChildAxis) -> Spec
    ensures { result ≡ loose_spec_in group.now kid.now (room_of group.now) }
{
    match room(group) {
        None => unbounded_spec(kid.dim),
        Some(room) => loose_spec_within(group, kid, room),
    }
}

/// The spec of a child that gets what is between its sides.
#[tactic(auto, unfolding(view_model::specs::RelativeLayout::width_of))]
pub fn reported_spec(span: (i32, i32)) -> Spec
    ensures { result ≡ exactly (width_of span) }
{
    exactly(i64::from(span.1) - i64::from(span.0))
}
