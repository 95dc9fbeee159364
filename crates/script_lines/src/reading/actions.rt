//! The actions that a group takes away from its children.

ghost use Rattle.std.specs.Prelude.{◌≡◌, ◌≤◌, ◌<◌, length, drop, IfOk};
ghost use Rattle.script_lines.specs.reading.Actions.{action_in, action_of, actions_of, with_actions};
ghost use Rattle.line_words.specs.words.Words.{map_ok, words};

use line_words::LineFault;
use line_words::words::{end, is, word};

/// The bit of the action that a word names.
#[tactic(auto, unfolding(crate::specs::reading::Actions::action_of))]
fn read_action(word: &[u8]) -> Result<u8, LineFault>
    ensures value { result ≡ action_of word.now }
    ensures below { IfOk result (λ action. action < 64) }
{
    if is(word, b"down") {
        return Ok(1);
    }
    if is(word, b"up") {
        return Ok(2);
    }
    if is(word, b"move") {
        return Ok(4);
    }
    if is(word, b"cancel") {
        return Ok(8);
    }
    if is(word, b"pdown") {
        return Ok(16);
    }
    if is(word, b"pup") {
        return Ok(32);
    }
    Err(LineFault::Syntax)
}

/// The bit of the action that the first word from here on names, and the place after that word.
#[tactic(auto, using(line_words::proofs::texts::AfterLaws::shorter))]
fn next_action(bytes: &[u8], at: usize) -> Result<(u8, usize), LineFault>
    requires { at ≤ length bytes.now }
    ensures value { map_ok (λ r. (r.0, words (drop r.1 bytes.now))) result ≡ action_in (words (drop at bytes.now)) }
    ensures below { IfOk result (λ r. r.0 < 64) }
    ensures forward { IfOk result (λ r. at < r.1) }
    ensures within { IfOk result (λ r. r.1 ≤ length bytes.now) }
{
    let (name, rest) = word(&bytes[at..])?;
    let action = read_action(name)?;
    Ok((action, bytes.len() - rest.len()))
}

/// The bits of the actions that words name.
#[tactic(auto, using(crate::proofs::readings::ActionLaws::actions_go, crate::proofs::readings::ActionLaws::both_below))]
fn named_actions(bytes: &[u8]) -> Result<u8, LineFault>
    ensures value { result ≡ with_actions 0 (words bytes.now) }
    ensures below { IfOk result (λ actions. actions < 64) }
{
    let mut actions = 0u8;
    let mut at = 0;
    while end(&bytes[at..]).is_err() {
        let (action, following) = next_action(bytes, at)?;
        actions |= action;
        at = following;
    }
    Ok(actions)
}

/// The bits of no action, or of one or more.
#[tactic(auto, unfolding(crate::specs::reading::Actions::actions_of))]
pub fn read_actions(bytes: &[u8]) -> Result<u8, LineFault>
    ensures value { result ≡ actions_of (words bytes.now) }
    ensures below { IfOk result (λ actions. actions < 64) }
{
    let (first, rest) = word(bytes)?;
    if is(first, b"none") {
        end(rest)?;
        return Ok(0);
    }
    named_actions(bytes)
}
