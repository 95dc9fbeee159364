//! How a line ties a child of a relative layout.

ghost use Rattle.std.specs.Prelude.{◌≡◌, ◌<◌, IfOk, IfSome, length, position};
ghost use Rattle.std.specs.Str.{bytes_eq};
ghost use Rattle.script_lines.specs.reading.Changes.{IsActInBounds};
ghost use Rattle.script_lines.specs.reading.Rules.{answer_in, rule_of, rule_value_in, verb_of};
ghost use Rattle.line_words.specs.words.Words.{map_ok, words};

use line_words::LineFault;
use line_words::words::naming::id_word;
use line_words::words::{end, read_on, word};
use view_model::Act;
use view_model::verbs::PARENT_LEFT;

/// The words of the verbs, by their places in `Rules.values`.
pub const VERBS: [&str; 21] = [
    "left_of",
    "right_of",
    "above",
    "below",
    "align_left",
    "align_top",
    "align_right",
    "align_bottom",
    "start_of",
    "end_of",
    "align_start",
    "align_end",
    "parent_left",
    "parent_top",
    "parent_right",
    "parent_bottom",
    "parent_start",
    "parent_end",
    "center",
    "center_h",
    "center_v",
];

/// The place of a word among names.
fn place_in(names: &[&str], word: &[u8]) -> Option<usize>
    ensures place { result ≡ position (λ name. bytes_eq name.now word.now) names.now }
    ensures within { IfSome result (λ place. place < length names.now) }
{
    names.iter().position(|name| name.as_bytes() == word)
}

/// The place of a verb.
#[tactic(auto, unfolding(crate::specs::reading::Rules::verb_of))]
fn read_verb(word: &[u8]) -> Result<u8, LineFault>
    ensures value { result ≡ verb_of word.now }
    ensures below { IfOk result (λ verb. verb < 21) }
{
    match place_in(&VERBS, word) {
        Some(verb) => Ok(verb as u8),
        None => Err(LineFault::Syntax),
    }
}

/// Whether a rule on the parent counts, as 1 or 0, and what comes after it.
fn answer_word(bytes: &[u8]) -> Result<(u32, &[u8]), LineFault>
    ensures { map_ok (λ r. (r.0, words r.1.now)) result ≡ answer_in (words bytes.now) }
{
    let (answer, rest) = word(bytes)?;
    let on = read_on(answer)?;
    Ok((u32::from(on), rest))
}

/// The id of a sibling, or whether a rule on the parent counts; and what comes after it.
#[tactic(auto, unfolding(crate::specs::reading::Rules::rule_value_in))]
fn rule_value(verb: u8, bytes: &[u8]) -> Result<(u32, &[u8]), LineFault>
    ensures { map_ok (λ r. (r.0, words r.1.now)) result ≡ rule_value_in verb (words bytes.now) }
{
    if usize::from(verb) < PARENT_LEFT {
        return id_word(bytes);
    }
    answer_word(bytes)
}

/// A verb, and the sibling or the answer that goes with it.
#[tactic(auto, unfolding(crate::specs::reading::Rules::rule_of))]
pub fn rule(bytes: &[u8]) -> Result<Act, LineFault>
    ensures value { result ≡ rule_of (words bytes.now) }
    ensures bounds { IfOk result IsActInBounds }
{
    let (name, rest) = word(bytes)?;
    let verb = read_verb(name)?;
    let (value, rest) = rule_value(verb, rest)?;
    end(rest)?;
    Ok(Act::Rule { verb, value })
}
