//! Blending one colour over another without a division, red and blue at once in the two halves of a number.
ghost use Rattle.std.specs.Prelude.{◌≡◌, ◌+◌, ◌*◌, ◌/◌, ◌%◌, ◌≤◌};
ghost use Rattle.geom_core.specs.Color.{blend_of, blue_of, green_of, mixed, red_of};
ghost use Rattle.pixel_raster.specs.Shares.{part_of, share_of};

use geom_core::Argb;

/// Red in the upper half of a number, blue in the lower half.
#[inline(always)]
fn pair_of(color: Argb) -> u32
    ensures { result ≡ red_of color * 0x1_0000 + blue_of color }
{
    u32::from(color.red()) * 0x1_0000 + u32::from(color.blue())
}

/// 255 times red and blue of what is seen of a colour with this alpha over another one, as a pair, and 128 more in each
/// half, so that what is cut off later is rounded.
#[inline(always)]
fn pair_shares(alpha: u8, over: Argb, under: Argb) -> u32
    ensures { result ≡ share_of alpha (red_of over) (red_of under) * 0x1_0000
        + share_of alpha (blue_of over) (blue_of under) }
{
    let alpha = u32::from(alpha);
    pair_of(under) * (255 - alpha) + (pair_of(over) * alpha + 0x80_0080)
}

/// A 255th part of each half of a pair.
#[inline(always)]
fn pair_parts(pair: u32) -> u32
    requires upper { pair / 0x1_0000 ≤ 65153 }
    requires lower { pair % 0x1_0000 ≤ 65153 }
    ensures { result ≡ part_of (pair / 0x1_0000) * 0x1_0000 + part_of (pair % 0x1_0000) }
{
    let sums = pair + (pair / 0x100_0000 * 0x1_0000 + pair / 0x100 % 0x100);
    sums / 0x100_0000 * 0x1_0000 + sums / 0x100 % 0x100
}

/// Red and blue of what is seen of a colour with this alpha over another one, as a pair.
#[inline(always)]
fn pair_seen(alpha: u8, over: Argb, under: Argb) -> u32
    ensures value { result ≡ mixed alpha (red_of over) (red_of under) * 0x1_0000
        + mixed alpha (blue_of over) (blue_of under) }
    ensures bound { result ≤ 0xff_00ff }
{
    pair_parts(pair_shares(alpha, over, under))
}

/// Green of what is seen of a colour with this alpha over another one, in its place in a colour.
#[inline(always)]
fn green_seen(alpha: u8, over: Argb, under: Argb) -> u32
    ensures value { result ≡ mixed alpha (green_of over) (green_of under) * 0x100 }
    ensures bound { result ≤ 0xff00 }
{
    let alpha = u32::from(alpha);
    let shares = u32::from(under.green()) * (255 - alpha)
        + (u32::from(over.green()) * alpha + 0x80);
    (shares + shares / 0x100) / 0x100 * 0x100
}

/// What is seen of a colour over another one, which counts as opaque.
#[inline(always)]
#[tactic(auto, unfolding(geom_core::specs::Color::blend_of, geom_core::specs::Color::opaque_of))]
pub fn blend(over: Argb, under: Argb) -> Argb
    ensures { result ≡ blend_of over under }
{
    let alpha = over.alpha();
    Argb(0xff00_0000 + green_seen(alpha, over, under) + pair_seen(alpha, over, under))
}
