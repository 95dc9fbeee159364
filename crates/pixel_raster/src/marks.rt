//! Rows of one opaque colour, which are kept as a mark in the place of their first pixel: the colour with the alpha 0,
//! which no pixel has. What the other pixels of such a row hold is not seen.
ghost use Rattle.std.specs.Prelude.{◌≡◌, ◌<◌, ◌≤◌, ◌*◌, ℕ, ◌&&◌, ◌==◌, length, map, slice_index_or, if◌then◌else◌};
ghost use Rattle.geom_core.specs.Color.{alpha_of};
ghost use Rattle.geom_core.specs.Numbers.{unpainted};
ghost use Rattle.pixel_raster.specs.Cuts.{is_between};
ghost use Rattle.pixel_raster.specs.Marks.{AreWritten, mark_of, seen_at, seen_of};
ghost use Rattle.pixel_raster.specs.Raster.{pixel_at};

use crate::runs::cover_run;
use geom_core::Argb;

/// The rows of a picture from `top` on and before `bottom`.
#[derive(Clone, Copy)]
pub struct RowRange {
    pub top: usize,
    pub bottom: usize,
}

/// The colour that is seen of a pixel in a row that begins with this one.
#[inline(always)]
#[tactic(auto, unfolding(geom_core::specs::Color::alpha_of, crate::specs::Marks::seen_of))]
pub fn seen_of(first: Argb, pixel: Argb) -> Argb
    ensures { result ≡ seen_of first pixel }
{
    if first.alpha() == 0 {
        Argb(first.0 + 0xff00_0000)
    } else {
        pixel
    }
}

/// Gives rows of a picture whose rows have this many pixels one opaque colour.
pub fn mark_rows(pixels: &mut [Argb], width: usize, top: usize, bottom: usize, color: Argb)
    requires across { 0 < width }
    requires down { top ≤ bottom }
    requires rows { bottom * width ≤ length pixels.old }
    ensures marks { (x y : ℕ) → x < width
        → pixel_at width pixels.new x y
        ≡ (if (x == 0) && is_between top bottom y then mark_of color else pixel_at width pixels.old x y) }
{
    for y in top..bottom {
        pixels[y * width] = Argb(color.0 % 0x100_0000);
    }
}

/// Writes out those of these rows that are marked: each pixel gets the colour that is seen of it.
pub fn write_rows(pixels: &mut [Argb], width: usize, top: usize, bottom: usize)
    requires down { top ≤ bottom }
    requires rows { bottom * width ≤ length pixels.old }
    ensures seen { (x y : ℕ) → x < width
        → pixel_at width pixels.new x y
        ≡ (if is_between top bottom y then seen_at width pixels.old x y else pixel_at width pixels.old x y) }
{
    for y in top..bottom {
        write_row(&mut pixels[y * width..(y + 1) * width]);
    }
}

/// Writes out the marked rows of a range, unless it lies in another one, where none is. Returns a range where none is
/// marked then.
pub fn write_range(
    pixels: &mut [Argb],
    width: usize,
    range: RowRange,
    written: RowRange,
) -> RowRange
    requires across { 0 < width }
    requires down { range.top ≤ range.bottom }
    requires rows { range.bottom * width ≤ length pixels.old }
    requires unmarked { AreWritten width written pixels.old }
    ensures seen { (x y : ℕ) → x < width
        → pixel_at width pixels.new x y ≡ (if is_between range.top range.bottom y
        then seen_at width pixels.old x y
        else pixel_at width pixels.old x y) }
    ensures unmarked { AreWritten width result pixels.new }
{
    if written.top <= range.top && range.bottom <= written.bottom {
        return written;
    }
    write_rows(pixels, width, range.top, range.bottom);
    range
}

/// Writes out a row if it is marked.
fn write_row(row: &mut [Argb])
    ensures { row.new ≡ map (seen_of (slice_index_or row.old 0 unpainted)) row.old }
{
    if row.is_empty() {
        return;
    }
    let first = row[0];
    if first.alpha() == 0 {
        cover_run(row, seen_of(first, first));
    }
}
