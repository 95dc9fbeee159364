//! The facts of a view.
//!
//! `Facts` has the fields of all classes, used by a class or not, so that a line that sets one more thing changes no
//! caller. Margins and weights may be whatever their types hold: sums of 4096 lengths fit 64 bits, and a weight times
//! what is left of a line uses 128.
ghost use Rattle.std.specs.Prelude.{◌≡◌, false};
ghost use Rattle.view_model.specs.Sums.{IsNoLessThanTwo, IsNoMoreThanTwo};

use crate::answer::Answer;
use crate::placing::{Across, Direction, Down, Gravity, left_of_two, right_of_two};
use crate::visibility::Visibility;
use geom_core::{Argb, Insets, MATCH, Size};

/// The rules that tie a child of a relative layout to its siblings and its parent. The verbs are, in this order:
/// left_of, right_of, above, below, align_left, align_top, align_right, align_bottom, start_of, end_of, align_start,
/// align_end, which name a sibling's id (0 names none), and parent_left, parent_top, parent_right, parent_bottom,
/// parent_start, parent_end, center, center_h, center_v, which are 1 for yes and 0 for no.
#[derive(Clone, Copy)]
pub struct Rules {
    pub values: [u32; 21],
}

/// All that is set of a view besides its class and its text. Lengths are in pixels.
#[derive(Clone, Copy)]
pub struct Facts {
    /// The number by which other views name it; 0 is none.
    pub id: u32,
    /// A number of pixels from 0 upward, `MATCH` or `WRAP`.
    pub width: i32,
    /// A number of pixels from 0 upward, `MATCH` or `WRAP`.
    pub height: i32,
    /// `MIN_MARGIN`..`MAX_INSET` on each side.
    pub margins: Insets,
    /// If given, it is used in place of the left margin, under `rtl` of the right one.
    pub margin_start: Option<i32>,
    /// If given, it is used in place of the right margin, under `rtl` of the left one.
    pub margin_end: Option<i32>,
    /// 0..`MAX_INSET` on each side.
    pub padding: Insets,
    /// If given, it is used in place of the left padding, under `rtl` of the right one.
    pub padding_start: Option<i32>,
    /// If given, it is used in place of the right padding, under `rtl` of the left one.
    pub padding_end: Option<i32>,
    /// The least size that the view wants.
    pub min: Size,
    /// The share of a linear layout's room that is left, in 256ths.
    pub weight: u32,
    /// What the shares of a linear layout's children are counted against, in 256ths; 0 is their sum.
    pub weight_sum: u32,
    /// Where the view is placed in its parent.
    pub layout_gravity: Gravity,
    /// Where a group places its children.
    pub gravity: Gravity,
    /// Whether a linear layout runs from top to bottom.
    pub vertical: bool,
    pub visibility: Visibility,
    pub background: Argb,
    /// The colour of text.
    pub ink: Argb,
    pub answer: Answer,
    /// The actions that a group takes away from its children: bit k is the k-th of down, up, move, cancel, pdown, pup.
    pub intercept: u8,
    /// Whether a group's padding cuts off its children.
    pub clip: bool,
    /// Whether a scroll view's child fills it.
    pub fill: bool,
    /// Whether a group passes pointers to its children one by one.
    pub split: bool,
    /// How far a scroll view has moved its child up.
    pub offset: i32,
    pub rules: Rules,
    /// What is set of its direction.
    pub direction: Direction,
    /// Whether it runs from right to left: by its own direction, or where that is not set, as its parent does.
    pub rtl: bool,
}

impl Facts {
    ghost use Rattle.view_model.specs.Facts.{new_facts, is_shown, matches_parent, margin_left, margin_right, padding_left, padding_right, margins_across, margins_down, padding_across, padding_down};

    /// The facts of a new view of these dimensions: everything else has its default.
    pub fn new(width: i32, height: i32) -> Facts
        ensures { result ≡ new_facts width height }
    {
        let none = Insets {
            left: 0,
            top: 0,
            right: 0,
            bottom: 0,
        };
        let unset = Gravity {
            given: false,
            across: Across::Unset,
            down: Down::Unset,
        };
        Facts {
            id: 0,
            width,
            height,
            margins: none,
            margin_start: None,
            margin_end: None,
            padding: none,
            padding_start: None,
            padding_end: None,
            min: Size { w: 0, h: 0 },
            weight: 0,
            weight_sum: 0,
            layout_gravity: unset,
            gravity: unset,
            vertical: false,
            visibility: Visibility::Visible,
            background: Argb(0),
            ink: Argb(0xffff_ffff),
            answer: Answer::Off,
            intercept: 0,
            clip: true,
            fill: false,
            split: true,
            offset: 0,
            rules: Rules { values: [0; 21] },
            direction: Direction::Inherit,
            rtl: false,
        }
    }

    /// Whether the view takes part in layout.
    pub fn is_shown(&self) -> bool
        ensures { result ≡ is_shown self.now }
    {
        match self.visibility {
            Visibility::Gone => false,
            Visibility::Visible | Visibility::Invisible => true,
        }
    }

    /// Whether the view wants to be as large as its parent on either axis.
    pub fn matches_parent(&self) -> bool
        ensures { result ≡ matches_parent self.now }
    {
        self.width == MATCH || self.height == MATCH
    }

    /// The margin on the left, a start value in the place of a left one, or under `rtl` an end value.
    #[inline(always)]
    pub fn margin_left(&self) -> i32
        ensures { result ≡ margin_left self.now }
    {
        if self.has_directed_margins() {
            return self.directed_margin_left();
        }
        self.margins.left
    }

    /// The margin on the right, an end value in the place of a right one, or under `rtl` a start value.
    #[inline(always)]
    pub fn margin_right(&self) -> i32
        ensures { result ≡ margin_right self.now }
    {
        if self.has_directed_margins() {
            return self.directed_margin_right();
        }
        self.margins.right
    }

    /// The padding on the left, a start value in the place of a left one, or under `rtl` an end value.
    #[inline(always)]
    pub fn padding_left(&self) -> i32
        ensures { result ≡ padding_left self.now }
    {
        if self.has_directed_padding() {
            return self.directed_padding_left();
        }
        self.padding.left
    }

    /// The padding on the right, an end value in the place of a right one, or under `rtl` a start value.
    #[inline(always)]
    pub fn padding_right(&self) -> i32
        ensures { result ≡ padding_right self.now }
    {
        if self.has_directed_padding() {
            return self.directed_padding_right();
        }
        self.padding.right
    }

    /// Whether a start or an end margin is given. Without one, the margins on the left and on the right are the plain ones
    /// in either direction; most views have none.
    #[inline(always)]
    fn has_directed_margins(&self) -> bool
        ensures left { result ≡ false → margin_left self.now ≡ self.now.margins.left }
        ensures right { result ≡ false → margin_right self.now ≡ self.now.margins.right }
    {
        match (self.margin_start, self.margin_end) {
            (None, None) => false,
            _ => true,
        }
    }

    /// Whether a start or an end padding is given. Without one, the padding on the left and on the right is the plain one
    /// in either direction; most views have none.
    #[inline(always)]
    fn has_directed_padding(&self) -> bool
        ensures left { result ≡ false → padding_left self.now ≡ self.now.padding.left }
        ensures right { result ≡ false → padding_right self.now ≡ self.now.padding.right }
    {
        match (self.padding_start, self.padding_end) {
            (None, None) => false,
            _ => true,
        }
    }

    /// The margin on the left of a view that may have a start or an end margin; the plain one if none is set for this
    /// side.
    #[inline(never)]
    fn directed_margin_left(&self) -> i32
        ensures { result ≡ margin_left self.now }
    {
        left_of_two(self.rtl, self.margin_start, self.margin_end).unwrap_or(self.margins.left)
    }

    /// The margin on the right of a view that may have a start or an end margin; the plain one if none is set for this
    /// side.
    #[inline(never)]
    fn directed_margin_right(&self) -> i32
        ensures { result ≡ margin_right self.now }
    {
        right_of_two(self.rtl, self.margin_start, self.margin_end).unwrap_or(self.margins.right)
    }

    /// The padding on the left of a view that may have a start or an end padding; the plain one if none is set for this
    /// side.
    #[inline(never)]
    fn directed_padding_left(&self) -> i32
        ensures { result ≡ padding_left self.now }
    {
        left_of_two(self.rtl, self.padding_start, self.padding_end).unwrap_or(self.padding.left)
    }

    /// The padding on the right of a view that may have a start or an end padding; the plain one if none is set for
    /// this side.
    #[inline(never)]
    fn directed_padding_right(&self) -> i32
        ensures { result ≡ padding_right self.now }
    {
        right_of_two(self.rtl, self.padding_start, self.padding_end).unwrap_or(self.padding.right)
    }

    /// Both margins from left to right.
    #[inline(always)]
    pub fn margins_across(&self) -> i64
        ensures value { result ≡ margins_across self.now }
        ensures low { IsNoLessThanTwo result }
        ensures high { IsNoMoreThanTwo result }
    {
        i64::from(self.margin_left()) + i64::from(self.margin_right())
    }

    /// Both margins from top to bottom.
    pub fn margins_down(&self) -> i64
        ensures value { result ≡ margins_down self.now }
        ensures low { IsNoLessThanTwo result }
        ensures high { IsNoMoreThanTwo result }
    {
        i64::from(self.margins.top) + i64::from(self.margins.bottom)
    }

    /// Both paddings from left to right.
    #[inline(always)]
    pub fn padding_across(&self) -> i64
        ensures value { result ≡ padding_across self.now }
        ensures low { IsNoLessThanTwo result }
        ensures high { IsNoMoreThanTwo result }
    {
        i64::from(self.padding_left()) + i64::from(self.padding_right())
    }

    /// Both paddings from top to bottom.
    pub fn padding_down(&self) -> i64
        ensures value { result ≡ padding_down self.now }
        ensures low { IsNoLessThanTwo result }
        ensures high { IsNoMoreThanTwo result }
    {
        i64::from(self.padding.top) + i64::from(self.padding.bottom)
    }
}
