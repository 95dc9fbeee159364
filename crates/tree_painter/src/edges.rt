//! Edges in window coordinates, brought into a clip and into a picture.
ghost use Rattle.std.specs.Prelude.{◌≡◌, ◌≤◌};
ghost use Rattle.std.specs.Int.{int_max, int_min};
ghost use Rattle.pixel_raster.specs.Cuts.{from_zero};
ghost use Rattle.tree_painter.specs.Areas.{edge_at};

/// A number of pixels, or a place in window coordinates, either of which may be negative.
#[derive(Clone, Copy)]
pub struct Length {
    pub pixels: i64,
}

/// A number of pixels, or 0 if it is negative.
#[tactic(auto, unfolding(pixel_raster::specs::Cuts::from_zero))]
pub fn from_zero(length: Length) -> usize
    ensures { result ≡ from_zero length.pixels }
{
    if length.pixels < 0 {
        0
    } else {
        length.pixels as usize
    }
}

/// A place that is brought between two edges of a clip.
fn clipped(low: i32, high: i32, at: Length) -> Length
    ensures { result.pixels ≡ int_max low (int_min high at.pixels) }
{
    Length {
        pixels: i64::from(low).max(i64::from(high).min(at.pixels)),
    }
}

/// The same, brought into a picture of this many columns or rows too.
#[tactic(auto, unfolding(crate::specs::Areas::edge_at, pixel_raster::specs::Cuts::edge_within))]
pub fn edge_at(limit: usize, low: i32, high: i32, at: Length) -> usize
    ensures value { result ≡ edge_at limit low high at.pixels }
    ensures bound { result ≤ limit }
{
    limit.min(from_zero(clipped(low, high, at)))
}
