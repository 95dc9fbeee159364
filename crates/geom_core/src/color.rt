//! Colours, and what is seen where one is painted over another.
ghost use Rattle.std.specs.Prelude.{◌≡◌};
ghost use Rattle.geom_core.specs.Color.{alpha_of, blend_of, blue_of, green_of, mixed, opaque_of, red_of};

/// A colour: alpha in the highest byte, then red, green and blue.
#[derive(Clone, Copy, PartialEq, Eq)]
pub struct Argb(pub u32);

/// The colour of a window on which nothing was painted; it is opaque.
pub const BLACK: Argb = Argb(0xff00_0000);

impl Argb {
    /// How much the colour covers of what is below it: nothing at 0, all of it at 255.
    #[inline(always)]
    #[tactic(auto, unfolding(crate::specs::Color::alpha_of))]
    pub fn alpha(self) -> u8
        ensures { result ≡ alpha_of self }
    {
        (self.0 / 0x100_0000) as u8
    }

    /// The red channel, 0..255.
    #[inline(always)]
    #[tactic(auto, unfolding(crate::specs::Color::red_of))]
    pub fn red(self) -> u8
        ensures { result ≡ red_of self }
    {
        (self.0 / 0x1_0000 % 256) as u8
    }

    /// The green channel, 0..255.
    #[inline(always)]
    #[tactic(auto, unfolding(crate::specs::Color::green_of))]
    pub fn green(self) -> u8
        ensures { result ≡ green_of self }
    {
        (self.0 / 0x100 % 256) as u8
    }

    /// The blue channel, 0..255.
    #[inline(always)]
    #[tactic(auto, unfolding(crate::specs::Color::blue_of))]
    pub fn blue(self) -> u8
        ensures { result ≡ blue_of self }
    {
        (self.0 % 256) as u8
    }
}

/// One channel of a colour with this alpha over the same channel of another colour, rounded to the nearest number.
#[inline(always)]
#[tactic(auto, unfolding(crate::specs::Color::mixed), using(crate::proofs::ColorLaws::mix_fits))]
fn mix(alpha: u8, over: u8, under: u8) -> u8
    ensures { result ≡ mixed alpha over under }
{
    let alpha = u32::from(alpha);
    ((u32::from(over) * alpha + u32::from(under) * (255 - alpha) + 127) / 255) as u8
}

/// The opaque colour of these channels.
#[inline(always)]
#[tactic(auto, unfolding(crate::specs::Color::opaque_of))]
fn opaque(red: u8, green: u8, blue: u8) -> Argb
    ensures { result ≡ opaque_of red green blue }
{
    Argb(0xff00_0000 + u32::from(red) * 0x1_0000 + u32::from(green) * 0x100 + u32::from(blue))
}

/// What is seen of a colour over another one, which counts as opaque: its alpha isn't looked at.
#[inline(always)]
#[tactic(auto, unfolding(crate::specs::Color::blend_of))]
pub fn blend(over: Argb, under: Argb) -> Argb
    ensures { result ≡ blend_of over under }
{
    let alpha = over.alpha();
    opaque(
        mix(alpha, over.red(), under.red()),
        mix(alpha, over.green(), under.green()),
        mix(alpha, over.blue(), under.blue()),
    )
}
