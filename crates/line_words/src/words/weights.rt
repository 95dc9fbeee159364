//! A weight, or a sum of weights, as a line gives it.

ghost use Rattle.std.specs.Prelude.{◌≡◌, ◌≤◌, IfOk};
ghost use Rattle.view_model.specs.Numbers.{max_weight};
ghost use Rattle.line_words.specs.words.Weights.{last_number, weight_of};
ghost use Rattle.line_words.specs.words.Words.{words};

use crate::fault::LineFault;
use crate::words::end;
use crate::words::number::{natural_within, number};
use view_model::limits::MAX_WEIGHT;

/// The most whole ones of a weight.
pub const MAX_WHOLE: u32 = 65535;
/// The most 256ths besides the whole ones.
pub const MAX_PARTS: u32 = 255;

/// The number that ends a line; 0 if none does.
#[tactic(auto, unfolding(crate::specs::words::Weights::last_number))]
fn last_number(bytes: &[u8]) -> Result<i64, LineFault>
    ensures { result ≡ last_number (words bytes.now) }
{
    if end(bytes).is_ok() {
        return Ok(0);
    }
    let (n, rest) = number(bytes)?;
    end(rest)?;
    Ok(n)
}

/// The weight that ends a line, in 256ths.
#[tactic(auto, unfolding(crate::specs::words::Weights::weight_of))]
pub fn read_weight(bytes: &[u8]) -> Result<u32, LineFault>
    ensures value { result ≡ weight_of (words bytes.now) }
    ensures bounds { IfOk result (λ weight. weight ≤ max_weight) }
{
    let (n, rest) = number(bytes)?;
    let k = last_number(rest)?;
    let whole = natural_within(0, MAX_WHOLE, n)?;
    let parts = natural_within(0, MAX_PARTS, k)?;
    natural_within(0, MAX_WEIGHT, i64::from(whole * 256 + parts))
}
