//! The dimensions of a view.

ghost use Rattle.std.specs.Prelude.{◌≡◌, IfOk};
ghost use Rattle.line_words.specs.words.Dimensions.{IsExtent, dimension_in, dimension_of, extent_of, extents_of};
ghost use Rattle.line_words.specs.words.Words.{map_ok, words};

use crate::fault::LineFault;
use crate::words::number::{integer, within};
use crate::words::{end, is, word};
use geom_core::{MATCH, WRAP};
use view_model::limits::MAX_SIZE;

/// A dimension as a word gives it, its number not yet within its bounds.
#[derive(Clone, Copy)]
enum Dimension {
    Match,
    Wrap,
    Pixels(i64),
}

/// The dimension that a word gives.
#[tactic(auto, unfolding(crate::specs::words::Dimensions::dimension_of))]
fn read_dimension(word: &[u8]) -> Result<Dimension, LineFault>
    ensures { result ≡ dimension_of word.now }
{
    if is(word, b"match") {
        return Ok(Dimension::Match);
    }
    if is(word, b"wrap") {
        return Ok(Dimension::Wrap);
    }
    Ok(Dimension::Pixels(integer(word)?))
}

/// The dimension that the first word gives, and what comes after it.
fn dimension_word(bytes: &[u8]) -> Result<(Dimension, &[u8]), LineFault>
    ensures { map_ok (λ r. (r.0, words r.1.now)) result ≡ dimension_in (words bytes.now) }
{
    let (word, rest) = word(bytes)?;
    Ok((read_dimension(word)?, rest))
}

/// A dimension within its bounds, as facts keep it.
fn extent(dimension: Dimension) -> Result<i32, LineFault>
    ensures value { result ≡ extent_of dimension }
    ensures bounds { IfOk result IsExtent }
{
    match dimension {
        Dimension::Match => Ok(MATCH),
        Dimension::Wrap => Ok(WRAP),
        Dimension::Pixels(n) => within(0, MAX_SIZE, n),
    }
}

/// The two dimensions that end a line, width and height, as facts keep them.
#[tactic(auto, unfolding(crate::specs::words::Dimensions::extents_of))]
pub fn extents(bytes: &[u8]) -> Result<(i32, i32), LineFault>
    ensures value { result ≡ extents_of (words bytes.now) }
    ensures bounds { IfOk result (λ r. IsExtent r.0 × IsExtent r.1) }
{
    let (w, rest) = dimension_word(bytes)?;
    let (h, rest) = dimension_word(rest)?;
    end(rest)?;
    let width = extent(w)?;
    let height = extent(h)?;
    Ok((width, height))
}
