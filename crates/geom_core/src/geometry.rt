//! Sizes, rectangles and insets; the pixels that two rectangles have in common, and the smallest rectangle around both.
ghost use Rattle.std.specs.Prelude.{◌≡◌};
ghost use Rattle.geom_core.specs.Rects.{around_of, hull_of, is_empty, larger_of, meet_of, overlap_of, smaller_of};

/// A width and a height, in pixels.
#[derive(Clone, Copy, PartialEq, Eq)]
pub struct Size {
    pub w: i32,
    pub h: i32,
}

/// The edges of a rectangle, in pixels, in the coordinates of the view's parent. Right and bottom are exclusive.
#[derive(Clone, Copy, PartialEq, Eq)]
pub struct Rect {
    pub left: i32,
    pub top: i32,
    pub right: i32,
    pub bottom: i32,
}

/// A width for each of four sides, in pixels: margins, which may be negative, or padding.
#[derive(Clone, Copy, PartialEq, Eq)]
pub struct Insets {
    pub left: i32,
    pub top: i32,
    pub right: i32,
    pub bottom: i32,
}

/// The rectangle without a pixel that `meet` and `hull` return.
const EMPTY: Rect = Rect {
    left: 0,
    top: 0,
    right: 0,
    bottom: 0,
};

impl Rect {
    /// Whether it has no pixel: its right edge isn't right of its left one, or its bottom not below its top.
    pub fn is_empty(self) -> bool
        ensures { result ≡ is_empty self }
    {
        self.left >= self.right || self.top >= self.bottom
    }
}

/// The larger of two edges.
#[tactic(auto, unfolding(crate::specs::Rects::larger_of))]
fn larger(a: i32, b: i32) -> i32
    ensures { result ≡ larger_of a b }
{
    a.max(b)
}

/// The smaller of two edges.
#[tactic(auto, unfolding(crate::specs::Rects::smaller_of))]
fn smaller(a: i32, b: i32) -> i32
    ensures { result ≡ smaller_of a b }
{
    a.min(b)
}

/// The edges of the intersection of both rectangles. They may be swapped.
fn overlap(a: Rect, b: Rect) -> Rect
    ensures { result ≡ overlap_of a b }
{
    Rect {
        left: larger(a.left, b.left),
        top: larger(a.top, b.top),
        right: smaller(a.right, b.right),
        bottom: smaller(a.bottom, b.bottom),
    }
}

/// The edges around both rectangles.
fn around(a: Rect, b: Rect) -> Rect
    ensures { result ≡ around_of a b }
{
    Rect {
        left: smaller(a.left, b.left),
        top: smaller(a.top, b.top),
        right: larger(a.right, b.right),
        bottom: larger(a.bottom, b.bottom),
    }
}

/// The common pixels of two rectangles in the same coordinates, or 0 0 0 0 if there are none.
#[tactic(auto, unfolding(crate::specs::Rects::meet_of))]
pub fn meet(a: Rect, b: Rect) -> Rect
    ensures { result ≡ meet_of a b }
{
    let both = overlap(a, b);
    if both.is_empty() { EMPTY } else { both }
}

/// The smallest rectangle around two in the same coordinates. One without a pixel is ignored; if neither has one, the
/// result is 0 0 0 0.
#[tactic(auto, unfolding(crate::specs::Rects::hull_of))]
pub fn hull(a: Rect, b: Rect) -> Rect
    ensures { result ≡ hull_of a b }
{
    match (a.is_empty(), b.is_empty()) {
        (true, true) => EMPTY,
        (true, false) => b,
        (false, true) => a,
        (false, false) => around(a, b),
    }
}
