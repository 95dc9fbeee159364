//! What a relative layout looks at on an axis: the group, a child, and the siblings to which it is tied. Lengths are in
//! pixels.
ghost use Rattle.std.specs.Prelude.{◌≡◌};
ghost use Rattle.view_model.specs.SiblingRules.{form_of, is_free};

use crate::facts::{Facts, Rules};
use crate::placing::{left_of_two, right_of_two};
use crate::verbs::{
    ABOVE, ALIGN_BOTTOM, ALIGN_END, ALIGN_LEFT, ALIGN_RIGHT, ALIGN_START, ALIGN_TOP, BELOW, CENTER,
    CENTER_H, CENTER_V, END_OF, LEFT_OF, PARENT_BOTTOM, PARENT_END, PARENT_LEFT, PARENT_RIGHT,
    PARENT_START, PARENT_TOP, RIGHT_OF, START_OF,
};
use geom_core::Spec;

/// An axis of a layout. Its near side is left or top, its far side right or bottom.
#[derive(Clone, Copy)]
pub enum Axis {
    Horizontal,
    Vertical,
}

/// How a child is tied to a sibling on an axis.
#[derive(Clone, Copy)]
pub enum Tie {
    /// It ends before it: by left_of or above.
    Before,
    /// It begins after it: by right_of or below.
    After,
    /// It begins with it: by align_left or align_top.
    AlignNear,
    /// It ends with it: by align_right or align_bottom.
    AlignFar,
}

/// What the order of a relative layout's children depends on: a child's id, and the ids that it names.
#[derive(Clone, Copy)]
pub struct Link {
    pub id: u32,
    pub rules: Rules,
}

/// The near and the far side of a child on each axis, in the coordinates of its group, once they are known.
#[derive(Clone, Copy)]
pub struct Edges {
    pub across: Option<(i32, i32)>,
    pub down: Option<(i32, i32)>,
}

/// A sibling that was measured on an axis: its sides there, and its margins.
#[derive(Clone, Copy)]
pub struct Anchor {
    pub near: i32,
    pub far: i32,
    pub margin_near: i32,
    pub margin_far: i32,
}

/// The siblings to which a child is tied on an axis.
#[derive(Clone, Copy)]
pub struct Anchors {
    /// The one that it ends before: by left_of or above.
    pub before: Option<Anchor>,
    /// The one that it begins after: by right_of or below.
    pub after: Option<Anchor>,
    /// The one with which it begins: by align_left or align_top.
    pub align_near: Option<Anchor>,
    /// The one with which it ends: by align_right or align_bottom.
    pub align_far: Option<Anchor>,
}

/// A relative layout on an axis.
#[derive(Clone, Copy)]
pub struct GroupAxis {
    pub spec: Spec,
    pub padding_near: i32,
    pub padding_far: i32,
    /// The least size.
    pub min: i32,
}

/// A child of a relative layout on an axis, apart from its siblings.
#[derive(Clone, Copy)]
pub struct ChildAxis {
    /// The width or the height that it wants.
    pub dim: i32,
    pub margin_near: i32,
    pub margin_far: i32,
    /// Whether it begins where its parent does.
    pub at_near: bool,
    /// Whether it ends where its parent does.
    pub at_far: bool,
    pub centered: bool,
    /// Whether it lies at the far side since no rule of the axis is set: from left to right in a group that runs from
    /// right to left.
    pub rests_far: bool,
}

impl Axis {
    ghost use Rattle.view_model.specs.RelativeLayout.{group_on, far_margin, near_margin, child_on};

    /// A group with these facts under these specs.
    pub fn group(self, own: &Facts, ws: Spec, hs: Spec) -> GroupAxis
        ensures { result ≡ group_on self own.now (record { across = ws; down = hs }) }
    {
        match self {
            Axis::Horizontal => GroupAxis {
                spec: ws,
                padding_near: own.padding_left(),
                padding_far: own.padding_right(),
                min: own.min.w,
            },
            Axis::Vertical => GroupAxis {
                spec: hs,
                padding_near: own.padding.top,
                padding_far: own.padding.bottom,
                min: own.min.h,
            },
        }
    }

    /// A child with these facts, in a group that runs from right to left or not.
    pub fn child(self, rtl: bool, kid: &Facts) -> ChildAxis
        ensures { result ≡ child_on rtl self kid.now }
    {
        let rules = kid.rules.values;
        match self {
            Axis::Horizontal => ChildAxis {
                dim: kid.width,
                margin_near: kid.margin_left(),
                margin_far: kid.margin_right(),
                at_near: rules[PARENT_LEFT] != 0
                    || left_of_two(rtl, rules[PARENT_START], rules[PARENT_END]) != 0,
                at_far: rules[PARENT_RIGHT] != 0
                    || right_of_two(rtl, rules[PARENT_START], rules[PARENT_END]) != 0,
                centered: rules[CENTER] != 0 || rules[CENTER_H] != 0,
                rests_far: rtl && is_free(&kid.rules),
            },
            Axis::Vertical => ChildAxis {
                dim: kid.height,
                margin_near: kid.margins.top,
                margin_far: kid.margins.bottom,
                at_near: rules[PARENT_TOP] != 0,
                at_far: rules[PARENT_BOTTOM] != 0,
                centered: rules[CENTER] != 0 || rules[CENTER_V] != 0,
                rests_far: false,
            },
        }
    }

    /// The margins of a child with these facts, at its near and at its far side.
    pub fn margins(self, kid: &Facts) -> (i32, i32)
        ensures { result ≡ (near_margin self kid.now, far_margin self kid.now) }
    {
        match self {
            Axis::Horizontal => (kid.margin_left(), kid.margin_right()),
            Axis::Vertical => (kid.margins.top, kid.margins.bottom),
        }
    }
}

impl Tie {
    ghost use Rattle.view_model.specs.SiblingRules.{anchor_id};

    /// The id of the sibling to which rules tie a child on an axis, or 0; its group runs from right to left or not.
    #[inline(always)]
    pub fn anchor_id(self, rtl: bool, axis: Axis, rules: &Rules) -> u32
        ensures { result ≡ anchor_id rtl axis self rules.now }
    {
        let values = rules.values;
        match (axis, self) {
            (Axis::Horizontal, Tie::Before) => form_of(
                left_of_two(rtl, values[START_OF], values[END_OF]),
                values[LEFT_OF],
            ),
            (Axis::Horizontal, Tie::After) => form_of(
                right_of_two(rtl, values[START_OF], values[END_OF]),
                values[RIGHT_OF],
            ),
            (Axis::Horizontal, Tie::AlignNear) => form_of(
                left_of_two(rtl, values[ALIGN_START], values[ALIGN_END]),
                values[ALIGN_LEFT],
            ),
            (Axis::Horizontal, Tie::AlignFar) => form_of(
                right_of_two(rtl, values[ALIGN_START], values[ALIGN_END]),
                values[ALIGN_RIGHT],
            ),
            (Axis::Vertical, Tie::Before) => values[ABOVE],
            (Axis::Vertical, Tie::After) => values[BELOW],
            (Axis::Vertical, Tie::AlignNear) => values[ALIGN_TOP],
            (Axis::Vertical, Tie::AlignFar) => values[ALIGN_BOTTOM],
        }
    }
}

/// Whether no rule is set that speaks of left and right.
fn is_free(rules: &Rules) -> bool
    ensures { result ≡ is_free rules.now }
{
    let values = rules.values;
    values[LEFT_OF] == 0
        && values[RIGHT_OF] == 0
        && values[ALIGN_LEFT] == 0
        && values[ALIGN_RIGHT] == 0
        && values[START_OF] == 0
        && values[END_OF] == 0
        && values[ALIGN_START] == 0
        && values[ALIGN_END] == 0
        && values[PARENT_LEFT] == 0
        && values[PARENT_RIGHT] == 0
        && values[PARENT_START] == 0
        && values[PARENT_END] == 0
        && values[CENTER] == 0
        && values[CENTER_H] == 0
}

/// A start or end form, if it is set, replaces the left or right form.
fn form_of(start: u32, left: u32) -> u32
    ensures { result ≡ form_of start left }
{
    if start == 0 { left } else { start }
}
