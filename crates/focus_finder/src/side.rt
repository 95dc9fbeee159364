//! The sides to which the focus moves, and how rectangles lie to each other on the way there.

ghost use Rattle.std.specs.Prelude.{◌≡◌};
ghost use Rattle.focus_finder.specs.Focus.{in_beam, is_low, lies_high, lies_low, lies_on, turned};

use geom_core::Rect;

/// The side of a view to which the focus moves.
#[derive(Clone, Copy)]
pub enum Side {
    Left,
    Right,
    Up,
    Down,
}

/// A rectangle, with its axes exchanged if the focus moves up or down: then up is left, and down is right.
pub fn turned(side: Side, rect: Rect) -> Rect
    ensures { result ≡ turned side rect }
{
    match side {
        Side::Left | Side::Right => rect,
        Side::Up | Side::Down => Rect {
            left: rect.top,
            top: rect.left,
            right: rect.bottom,
            bottom: rect.right,
        },
    }
}

/// Whether the focus moves to lower coordinates.
pub fn is_low(side: Side) -> bool
    ensures { result ≡ is_low side }
{
    match side {
        Side::Left | Side::Up => true,
        Side::Right | Side::Down => false,
    }
}

/// Whether a rectangle lies on the low or on the high side of another.
pub fn lies_on(low: bool, from: Rect, to: Rect) -> bool
    ensures { result ≡ lies_on low from to }
{
    if low {
        lies_low(from, to)
    } else {
        lies_high(from, to)
    }
}

/// Whether a rectangle lies to the left of another. The two may overlap.
fn lies_low(from: Rect, to: Rect) -> bool
    ensures { result ≡ lies_low from to }
{
    to.left < from.left && (to.right < from.right || to.right <= from.left)
}

/// Whether a rectangle lies to the right of another. The two may overlap.
fn lies_high(from: Rect, to: Rect) -> bool
    ensures { result ≡ lies_high from to }
{
    from.right < to.right && (from.left < to.left || from.right <= to.left)
}

/// Whether a rectangle lies in the beam of another: some row of pixels goes through both.
pub fn in_beam(from: Rect, to: Rect) -> bool
    ensures { result ≡ in_beam from to }
{
    to.top < from.bottom && from.top < to.bottom
}
