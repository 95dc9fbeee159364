//! How a colour is blended over the rows of a part of a picture.
ghost use Rattle.std.specs.Prelude.{◌≡◌, ◌<◌, ◌≤◌, ◌*◌, ℕ, IsOk, OnErr, OnOk, length, replicate, if◌then◌else◌};
ghost use Rattle.geom_core.specs.Numbers.{unpainted};
ghost use Rattle.geom_core.specs.Color.{blend_of};
ghost use Rattle.pixel_raster.specs.Cuts.{has_pixel};
ghost use Rattle.pixel_raster.specs.Marks.{seen_at};
ghost use Rattle.pixel_raster.specs.Raster.{pixel_at};

use crate::cut::Cut;
use crate::marks::{mark_rows, write_rows};
use crate::runs::fill_run;
use geom_core::{Argb, BLACK};
use std::alloc::AllocError;

/// Turns the buffer into this many black pixels. It takes memory only if there are more of them than before.
pub fn cover_black(pixels: &mut Vec<Argb>, count: usize) -> Result<(), AllocError>
    ensures black { OnOk result (pixels.new.items ≡ replicate count unpainted) }
    ensures unchanged { OnErr result (pixels.new.items ≡ pixels.old.items) }
    ensures fits { count ≤ length pixels.old.items → IsOk result }
{
    pixels.reserve_exact(count.saturating_sub(pixels.len()))?;
    pixels.clear();
    let _fits = pixels.resize(count, BLACK);
    Ok(())
}

/// Blends a colour over a part of a picture whose rows have this many pixels and are not marked.
fn fill_rows(pixels: &mut [Argb], width: usize, cut: Cut, color: Argb)
    requires across { cut.left ≤ cut.right }
    requires inside { cut.right ≤ width }
    requires down { cut.top ≤ cut.bottom }
    requires rows { cut.bottom * width ≤ length pixels.old }
    ensures colors { (x y : ℕ) → x < width
        → pixel_at width pixels.new x y ≡ (if has_pixel cut x y
        then blend_of color (pixel_at width pixels.old x y)
        else pixel_at width pixels.old x y) }
{
    for y in cut.top..cut.bottom {
        let start = y * width;
        fill_run(&mut pixels[start + cut.left..start + cut.right], color);
    }
}

/// Blends a colour over a part of a picture whose rows have this many pixels. Whole rows of an opaque one are marked.
pub fn fill_part(pixels: &mut [Argb], width: usize, cut: Cut, color: Argb)
    requires across { cut.left < cut.right }
    requires inside { cut.right ≤ width }
    requires down { cut.top ≤ cut.bottom }
    requires rows { cut.bottom * width ≤ length pixels.old }
    ensures colors { (x y : ℕ) → x < width
        → seen_at width pixels.new x y
        ≡ (if has_pixel cut x y then blend_of color (seen_at width pixels.old x y) else seen_at width pixels.old x y) }
{
    if color.alpha() == 255 && cut.left == 0 && cut.right == width {
        mark_rows(pixels, width, cut.top, cut.bottom, color);
    } else {
        write_rows(pixels, width, cut.top, cut.bottom);
        fill_rows(pixels, width, cut, color);
    }
}
