//! A picture in memory.
//!
//! A pixel is a word of 32 bits with the alpha 255, and not three bytes: a fill writes words. A fill counts the pixels
//! that it goes over, and not those that it changes: so work follows from rectangles, not from colours.
ghost use Rattle.std.specs.Prelude.{◌≡◌, ◌<◌, ◌≤◌, ◌+◌, ◌-◌, ◌*◌, ◌^◌, IfOk, IsOk, OnOk, length, min, replicate, true};
ghost use Rattle.geom_core.specs.Numbers.{unpainted};
ghost use Rattle.pixel_raster.specs.Bytes.{digest_of};
ghost use Rattle.pixel_raster.specs.Cuts.{area_within, from_zero};
ghost use Rattle.pixel_raster.specs.Raster.{Blends, Fills, FillsUnlessClear, IsPointOf, IsRaster, black_raster, color_at, empty_raster, size_of};
ghost use Rattle.pixel_raster.specs.Strips.{InksStrip, set_bits};
ghost use Rattle.view_model.specs.Failing.{KeepsOnErr};
ghost use Rattle.view_model.specs.Works.{KeepsPainted};

use crate::cut::{Cut, from_zero};
use crate::digest::digest_of;
use crate::marks::{RowRange, seen_of};
use crate::rows::{cover_black, fill_part};
use crate::strip::{Ink, Strip, ink_strip};
use geom_core::{Argb, BLACK, Rect, Size};
use std::alloc::{AllocError, Global};
use std::marker::Model;
use view_model::Work;

/// The picture of a window, which contracts see as a `Raster`. Every pixel is opaque. The point 0 0 is the left one of
/// the top row.
#[derive(Drop)]
pub struct Surface {
    width: usize,
    height: usize,
    /// Row by row, from the top.
    pixels: Vec<Argb>,
    /// Rows that aren't marked, such as those of the last strip if nothing was filled since.
    written: RowRange,
    filled: u64,
    /// The digest of the pixels, if it was taken since the last of them was painted.
    digest: Option<[u8; 32]>,
    /// Set if no pixel was painted since all were made black.
    black: bool,
}

impl Model for Surface {
    ghost use Rattle.pixel_raster.specs.Raster.{Raster};

    ghost Value = { Raster };

    ghost use Rattle.pixel_raster.specs.Surfaces.{IsSurface, raster_of};

    ghost view = { raster_of };

    ghost invariant = { IsSurface };
}

/// Whether there are this many pixels, none of which was painted since all were made black.
fn is_black(black: bool, pixels: &[Argb], count: usize) -> bool
    ensures { result ≡ true → (black ≡ true) × (length pixels.now ≡ count) }
{
    black && pixels.len() == count
}

impl Surface {
    /// A black picture of this size in pixels. A side below 0 counts as 0.
    pub fn new(alloc: Global, size: Size) -> Result<Surface, AllocError>
        ensures value { IfOk result (λ s. s ≡ black_raster size) }
        ensures raster { IfOk result IsRaster }
    {
        let mut surface = Surface::empty(alloc);
        surface.reset(size)?;
        Ok(surface)
    }

    /// A picture without a pixel, for a window that is not there yet.
    pub fn empty(alloc: Global) -> Surface
        ensures { result ≡ empty_raster }
    {
        Surface {
            width: 0,
            height: 0,
            pixels: Vec::new(alloc),
            written: RowRange { top: 0, bottom: 0 },
            filled: 0,
            digest: None,
            black: true,
        }
    }

    /// Makes the picture black again, as a new one of this size is. It takes memory only if there are more pixels than
    /// before, and no time if they are as many and still black.
    pub fn reset(&mut self, size: Size) -> Result<(), AllocError>
        ensures value { OnOk result (self.new ≡ black_raster size) }
        ensures unchanged { KeepsOnErr result self.old self.new }
        ensures fits { from_zero size.w * from_zero size.h ≤ length self.old.pixels → IsOk result }
        ensures raster { IsRaster self.new }
    {
        let width = from_zero(size.w);
        let height = from_zero(size.h);
        if !is_black(self.black, &self.pixels, width * height) {
            cover_black(&mut self.pixels, width * height)?;
            self.digest = None;
            self.black = true;
        }
        self.width = width;
        self.height = height;
        self.written = RowRange { top: 0, bottom: 0 };
        self.filled = 0;
        Ok(())
    }

    /// The size of the window whose picture it is, in pixels.
    pub fn size(&self) -> Size
        ensures value { result ≡ size_of self.now }
        ensures raster { IsRaster self.now }
    {
        Size {
            w: self.width as i32,
            h: self.height as i32,
        }
    }

    /// How many columns of pixels there are.
    pub fn columns(&self) -> usize
        ensures value { result ≡ self.now.width }
        ensures bound { result < 2 ^ 31 }
    {
        self.width
    }

    /// How many rows of pixels there are.
    pub fn rows(&self) -> usize
        ensures value { result ≡ self.now.height }
        ensures bound { result < 2 ^ 31 }
    {
        self.height
    }

    /// Whether a colour leaves each pixel as it is: it is black, and so are they all.
    fn stays_black(&self, color: Argb) -> bool
        ensures { result ≡ true
            → (color ≡ unpainted) × (self.now.pixels ≡ replicate (self.now.width * self.now.height) unpainted) }
    {
        self.black && color.0 == BLACK.0
    }

    /// Blends a colour over the pixels of a rectangle, in window coordinates, that are in the picture. Both counts rise
    /// by the number of these pixels, also if the colour covers nothing of them.
    pub fn fill(&mut self, rect: Rect, color: Argb, work: &mut Work)
        ensures fills { Fills rect color self.old self.new }
        ensures raster { IsRaster self.new }
        ensures counted { work.new ≡ record work.old {
          painted = min (work.old.painted + area_within self.old.width self.old.height rect) (2 ^ 64 - 1);
        } }
        ensures grew { KeepsPainted work.old work.new }
    {
        let stays = self.stays_black(color);
        let cut = Cut::of(self.width, self.height, rect);
        let area = cut.area();
        self.filled = self.filled.saturating_add(area);
        work.painted = work.painted.saturating_add(area);
        if area == 0 {
            return;
        }
        if color.alpha() == 0 {
            return;
        }
        if stays {
            return;
        }
        self.digest = None;
        self.black = false;
        self.written = RowRange { top: 0, bottom: 0 };
        fill_part(&mut self.pixels, self.width, cut, color);
    }

    /// Blends a colour over the pixels of a rectangle as `fill` does, and counts them, unless it covers nothing of them.
    #[inline]
    pub fn blend(&mut self, rect: Rect, color: Argb, work: &mut Work)
        ensures blends { Blends rect color self.old self.new }
        ensures raster { IsRaster self.new }
        ensures counted { FillsUnlessClear rect color self.old self.new work.old work.new }
        ensures grew { work.old.painted ≤ work.new.painted }
    {
        let _ = &self.width;
        if color.alpha() == 0 {
            return;
        }
        self.fill(rect, color, work);
    }

    /// Blends a colour over those pixels of a strip whose bits are set; the lowest bit is that of its top row. Both counts
    /// rise by the number of these pixels.
    pub fn ink(&mut self, strip: Strip, bits: u8, color: Argb, work: &mut Work)
        requires column { strip.column < self.old.width }
        requires down { strip.top ≤ strip.bottom }
        requires rows { strip.bottom ≤ self.old.height }
        requires few { strip.bottom ≤ strip.top + 8 }
        ensures inks { InksStrip strip bits color self.old self.new }
        ensures raster { IsRaster self.new }
        ensures counted { work.new ≡ record work.old {
          painted = min (work.old.painted + set_bits bits (strip.bottom - strip.top)) (2 ^ 64 - 1);
        } }
        ensures grew { KeepsPainted work.old work.new }
    {
        self.digest = None;
        self.black = false;
        let ink = Ink { bits, color };
        let count = ink_strip(&mut self.pixels, self.width, strip, ink, &mut self.written);
        self.filled = self.filled.saturating_add(count);
        work.painted = work.painted.saturating_add(count);
    }

    /// How many pixels were filled since the picture was made, one that was filled twice counting twice. It stays at the
    /// greatest number.
    pub fn filled(&self) -> u64
        ensures { result ≡ self.now.filled }
    {
        self.filled
    }

    /// The colour of a pixel, which is opaque, by its window coordinates.
    pub fn pixel(&self, x: i32, y: i32) -> Argb
        requires { IsPointOf self.now x y }
        ensures { result ≡ color_at self.now (from_zero x) (from_zero y) }
    {
        self.color_at(from_zero(x), from_zero(y))
    }

    /// The colour of a pixel, which is opaque, by its column and its row.
    pub fn color_at(&self, column: usize, row: usize) -> Argb
        requires column { column < self.now.width }
        requires row { row < self.now.height }
        ensures { result ≡ color_at self.now column row }
    {
        let start = row * self.width;
        seen_of(self.pixels[start], self.pixels[start + column])
    }

    /// The SHA-256 of the red, green and blue of each pixel, row by row from the top. It is computed only if pixels
    /// were painted since it was kept.
    pub fn digest(&self) -> [u8; 32]
        ensures { result ≡ digest_of self.now.pixels }
    {
        match self.digest {
            Some(digest) => digest,
            None => digest_of(&self.pixels, self.width, self.height),
        }
    }

    /// Keeps the digest until a pixel is painted.
    pub fn keep_digest(&mut self)
        ensures { self.new ≡ self.old }
    {
        self.digest = Some(self.digest());
    }
}
