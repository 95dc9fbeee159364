//! The part of a picture that a rectangle covers.
ghost use Rattle.std.specs.Prelude.{◌≡◌, ◌≤◌, ◌<◌, ◌^◌};
ghost use Rattle.pixel_raster.specs.Cuts.{area_of, cut_of, edge_within, from_zero};

use geom_core::Rect;

/// The pixels between these columns and rows of a picture; right and bottom are exclusive. If an edge is before the
/// opposite one there is no pixel.
#[derive(Clone, Copy)]
pub struct Cut {
    pub left: usize,
    pub top: usize,
    pub right: usize,
    pub bottom: usize,
}

/// A number of pixels, or 0 if it is negative.
#[tactic(auto, unfolding(crate::specs::Cuts::from_zero))]
pub fn from_zero(number: i32) -> usize
    ensures value { result ≡ from_zero number }
    ensures bound { result < 2 ^ 31 }
{
    if number < 0 { 0 } else { number as usize }
}

/// An edge in window coordinates, brought into 0..limit.
#[tactic(auto, unfolding(crate::specs::Cuts::edge_within))]
fn edge_within(limit: usize, edge: i32) -> usize
    ensures value { result ≡ edge_within limit edge }
    ensures bound { result ≤ limit }
{
    limit.min(from_zero(edge))
}

impl Cut {
    /// The part of a picture of this many columns and rows that a rectangle covers, in window coordinates.
    #[tactic(auto, unfolding(crate::specs::Cuts::cut_of))]
    pub fn of(width: usize, height: usize, rect: Rect) -> Cut
        ensures value { result ≡ cut_of width height rect }
        ensures right { result.right ≤ width }
        ensures bottom { result.bottom ≤ height }
    {
        Cut {
            left: edge_within(width, rect.left),
            top: edge_within(height, rect.top),
            right: edge_within(width, rect.right),
            bottom: edge_within(height, rect.bottom),
        }
    }

    /// How many pixels there are in it.
    pub fn area(self) -> u64
        requires right { self.right < 2 ^ 31 }
        requires bottom { self.bottom < 2 ^ 31 }
        ensures { result ≡ area_of self }
    {
        (self.right.saturating_sub(self.left) * self.bottom.saturating_sub(self.top)) as u64
    }
}
