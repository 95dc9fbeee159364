//! How a colour is blended over a run of pixels.
ghost use Rattle.std.specs.Prelude.{◌≡◌, map};
ghost use Rattle.geom_core.specs.Color.{blend_of};

use crate::blending::blend;
use geom_core::Argb;

/// Replaces each pixel of a run by a colour.
pub fn cover_run(run: &mut [Argb], color: Argb)
    ensures { run.new ≡ map (λ _. color) run.old }
{
    for pixel in run.iter_mut() {
        *pixel = color;
    }
}

/// Blends a colour over each pixel of a run, one by one.
fn blend_run(run: &mut [Argb], color: Argb)
    ensures { run.new ≡ map (blend_of color) run.old }
{
    for pixel in run.iter_mut() {
        *pixel = blend(color, *pixel);
    }
}

/// Blends a colour over each pixel of a run. An opaque one needn't look at what was there.
pub fn fill_run(run: &mut [Argb], color: Argb)
    ensures { run.new ≡ map (blend_of color) run.old }
{
    if color.alpha() == 255 {
        cover_run(run, color);
    } else {
        blend_run(run, color);
    }
}
