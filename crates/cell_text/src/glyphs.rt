//! The glyphs of characters.
ghost use Rattle.std.specs.Prelude.{◌≡◌};
ghost use Rattle.view_model.specs.Glyphs.{columns_of, glyph_of};

use view_model::font::{FIRST_GLYPH, FONT, OTHER_GLYPH};

/// A column of a character's cell, from 0 on the left: bit r is its pixel in row r, row 0 on top. The glyph has five
/// columns, and every one right of them is empty.
#[tactic(auto, unfolding(view_model::specs::Glyphs::glyph_of))]
pub fn glyph(c: char, column: u8) -> u8
    ensures { result ≡ glyph_of c column }
{
    columns_of(c).get(usize::from(column)).copied().unwrap_or(0)
}

/// The five columns of a character.
#[tactic(auto, unfolding(view_model::specs::Font::font))]
fn columns_of(c: char) -> [u8; 5]
    ensures { result ≡ columns_of c }
{
    let code = c as u32;
    if code < FIRST_GLYPH {
        return OTHER_GLYPH;
    }
    FONT.get((code - FIRST_GLYPH) as usize)
        .copied()
        .unwrap_or(OTHER_GLYPH)
}
