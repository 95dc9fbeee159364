//! One axis of a relative layout while it is measured. Lengths are in pixels.
ghost use Rattle.std.specs.Prelude.{◌≡◌, ◌+ℤ◌, pos};
ghost use Rattle.std.specs.Int.{int_max};
ghost use Rattle.geom_core.specs.Limits.{IsSide};
ghost use Rattle.geom_core.specs.Spec.{resolve_of};
ghost use Rattle.view_model.specs.RelativeLayout.{far_side, moved_span, near_side, settled_span, side_spec, span_or_none};

use crate::plan::sides::{far_side, near_side, side_spec};
use crate::plan::spans::{moved_span, span_of};
use geom_core::Spec;
use view_model::{Anchors, ChildAxis, GroupAxis, greater_need, own_side};

/// A group on an axis, and how far its children extend there.
#[derive(Clone, Copy)]
pub struct AxisExtent {
    pub group: GroupAxis,
    /// The farthest extent so far of a child with its margin, at least 0.
    pub most: i64,
}

impl AxisExtent {
    /// The axis before its first child.
    pub fn start(group: GroupAxis) -> AxisExtent
        ensures group { result.group ≡ group }
        ensures most { result.most ≡ pos 0 }
    {
        AxisExtent { group, most: 0 }
    }

    /// Takes in a child with these anchors that was measured with this length, and returns its sides.
    pub fn take(&mut self, kid: &ChildAxis, anchors: &Anchors, length: i32) -> (i32, i32)
        requires { IsSide length }
        ensures group { self.new.group ≡ self.old.group }
        ensures span { result ≡ settled_span self.old.group kid.now anchors.now length }
        ensures most { self.new.most ≡ int_max self.old.most (result.1 +ℤ kid.now.margin_far) }
    {
        let span = self.span(kid, anchors, length);
        self.most = greater_need(self.most, span.1, i64::from(kid.margin_far));
        span
    }

    /// The group's own length.
    pub fn own_length(&self) -> i32
        ensures value { result ≡ resolve_of
            (int_max self.now.group.min (self.now.most +ℤ self.now.group.padding_far)) self.now.group.spec }
        ensures side { IsSide result }
    {
        own_side(
            self.group.min,
            self.most,
            i64::from(self.group.padding_far),
            self.group.spec,
        )
    }

    /// The spec of a child with these anchors.
    pub fn spec(&self, kid: &ChildAxis, anchors: &Anchors) -> Spec
        ensures { result ≡ side_spec self.now.group kid.now (near_side self.now.group kid.now anchors.now)
            (far_side self.now.group kid.now anchors.now) }
    {
        let near = near_side(&self.group, kid, anchors);
        let far = far_side(&self.group, kid, anchors);
        side_spec(&self.group, kid, near, far)
    }

    /// The sides of a child with these anchors that was measured with this length.
    fn span(&self, kid: &ChildAxis, anchors: &Anchors, length: i32) -> (i32, i32)
        requires { IsSide length }
        ensures { result ≡ settled_span self.now.group kid.now anchors.now length }
    {
        let near = near_side(&self.group, kid, anchors);
        let far = far_side(&self.group, kid, anchors);
        span_of(&self.group, kid, near, far, length)
    }

    /// The final sides of a child of this length, which had these after it was measured.
    pub fn final_span(&self, kid: &ChildAxis, span: Option<(i32, i32)>, length: i32) -> (i32, i32)
        requires { IsSide length }
        ensures { result ≡ moved_span self.now.group kid.now
            (resolve_of (int_max self.now.group.min (self.now.most +ℤ self.now.group.padding_far)) self.now.group.spec)
            (span_or_none span) length }
    {
        moved_span(
            &self.group,
            kid,
            self.own_length(),
            span.unwrap_or((0, 0)),
            length,
        )
    }
}
