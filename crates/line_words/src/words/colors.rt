//! The colour that a word gives.

ghost use Rattle.std.specs.Prelude.{◌≡◌};
ghost use Rattle.line_words.specs.words.Colors.{color_of, last_color};
ghost use Rattle.line_words.specs.words.Words.{words};

use crate::fault::LineFault;
use crate::words::naming::hex;
use crate::words::{end, word};
use geom_core::Argb;

/// The colour that a word gives.
#[tactic(auto, unfolding(crate::specs::words::Colors::color_of))]
fn read_color(word: &[u8]) -> Result<Argb, LineFault>
    ensures { result ≡ color_of word.now }
{
    if word.len() != 9 || word[0] != b'#' {
        return Err(LineFault::Syntax);
    }
    match hex(&word[1..]) {
        None => Err(LineFault::Syntax),
        Some(color) => Ok(Argb(color)),
    }
}

/// The colour that ends a line.
#[tactic(auto, unfolding(crate::specs::words::Colors::last_color))]
pub fn last_color(bytes: &[u8]) -> Result<Argb, LineFault>
    ensures { result ≡ last_color (words bytes.now) }
{
    let (word, rest) = word(bytes)?;
    let color = read_color(word)?;
    end(rest)?;
    Ok(color)
}
