//! The part of a column of a picture, whose pixels are set or not as the bits of a number are.
ghost use Rattle.std.specs.Prelude.{◌≡◌, ◌<◌, ◌≤◌, ◌+◌, ◌-◌, ◌*◌, ℕ, length, if◌then◌else◌};
ghost use Rattle.geom_core.specs.Color.{blend_of};
ghost use Rattle.view_model.specs.Glyphs.{has_bit};
ghost use Rattle.pixel_raster.specs.Marks.{AreWritten, seen_at};
ghost use Rattle.pixel_raster.specs.Raster.{pixel_at};
ghost use Rattle.pixel_raster.specs.Strips.{is_set, set_bits};

use crate::blending::blend;
use crate::marks::{RowRange, write_range};
use geom_core::Argb;

/// The pixels of a column from its row `top` on and before its row `bottom`.
#[derive(Clone, Copy)]
pub struct Strip {
    pub column: usize,
    pub top: usize,
    pub bottom: usize,
}

/// A colour, and a bit for each pixel of a strip over which it may be blended; the lowest bit is that of its top row.
#[derive(Clone, Copy)]
pub struct Ink {
    pub bits: u8,
    pub color: Argb,
}

/// Whether a bit is set, the lowest being the bit 0.
fn has_bit(bits: u8, k: u8) -> bool
    requires { k < 8 }
    ensures { result ≡ has_bit bits k }
{
    (bits >> k) % 2 == 1
}

/// 1 for what is so, 0 for what isn't.
#[inline(always)]
fn one_if(set: bool) -> u64
    ensures value { result ≡ (if set then 1 else 0) }
    ensures bound { result ≤ 1 }
{
    if set { 1 } else { 0 }
}

/// What is seen of a pixel over which a colour is blended if its bit is set. An opaque colour needn't look at what was
/// there.
#[inline(always)]
fn inked(set: bool, color: Argb, under: Argb) -> Argb
    ensures { result ≡ (if set then blend_of color under else under) }
{
    if !set {
        return under;
    }
    if color.alpha() == 255 {
        return color;
    }
    blend(color, under)
}

/// Blends a colour over the set pixels of a strip of a picture whose rows have this many pixels. Returns how many they
/// are. `written` is a range without a marked row, before and after.
pub fn ink_strip(
    pixels: &mut [Argb],
    width: usize,
    strip: Strip,
    ink: Ink,
    written: &mut RowRange,
) -> u64
    requires column { strip.column < width }
    requires down { strip.top ≤ strip.bottom }
    requires rows { strip.bottom * width ≤ length pixels.old }
    requires few { strip.bottom ≤ strip.top + 8 }
    requires unmarked { AreWritten width written.old pixels.old }
    ensures count { result ≡ set_bits ink.bits (strip.bottom - strip.top) }
    ensures colors { (x y : ℕ) → x < width
        → seen_at width pixels.new x y ≡ (if is_set strip ink.bits x y
        then blend_of ink.color (seen_at width pixels.old x y)
        else seen_at width pixels.old x y) }
    ensures unmarked { AreWritten width written.new pixels.new }
{
    let range = RowRange {
        top: strip.top,
        bottom: strip.bottom,
    };
    *written = write_range(pixels, width, range, *written);
    ink_written(pixels, width, strip, ink.bits, ink.color)
}

/// The same of a strip whose rows are not marked.
fn ink_written(pixels: &mut [Argb], width: usize, strip: Strip, bits: u8, color: Argb) -> u64
    requires column { strip.column < width }
    requires down { strip.top ≤ strip.bottom }
    requires rows { strip.bottom * width ≤ length pixels.old }
    requires few { strip.bottom ≤ strip.top + 8 }
    ensures count { result ≡ set_bits bits (strip.bottom - strip.top) }
    ensures colors { (x y : ℕ) → x < width
        → pixel_at width pixels.new x y ≡ (if is_set strip bits x y
        then blend_of color (pixel_at width pixels.old x y)
        else pixel_at width pixels.old x y) }
{
    let mut count = 0;
    for y in strip.top..strip.bottom {
        let set = has_bit(bits, (y - strip.top) as u8);
        let place = y * width + strip.column;
        pixels[place] = inked(set, color, pixels[place]);
        count += one_if(set);
    }
    count
}
