//! The gravity that a word gives.
//!
//! Two words for one axis are no gravity, not even equal ones; neither is `none` beside a word, or an empty part.
//! `none` leaves a view as one that was never given a gravity.

ghost use Rattle.std.specs.Prelude.{◌≡◌};
ghost use Rattle.line_words.specs.words.Gravities.{across_of, down_of, gravity_of, is_set_across, is_set_down, one_across, one_down, with_word, with_words};

use crate::fault::LineFault;
use crate::offsets::offset_of;
use crate::words::is;
use view_model::{Across, Down, Gravity};

/// No gravity.
const NONE: Gravity = Gravity {
    given: false,
    across: Across::Unset,
    down: Down::Unset,
};

/// A gravity that is given, before its words.
const BARE: Gravity = Gravity {
    given: true,
    across: Across::Unset,
    down: Down::Unset,
};

/// The place from left to right that a word gives; unset if it gives none.
#[tactic(auto, unfolding(crate::specs::words::Gravities::across_of))]
fn read_across(word: &[u8]) -> Across
    ensures { result ≡ across_of word.now }
{
    if is(word, b"left") {
        return Across::Left;
    }
    if is(word, b"right") {
        return Across::Right;
    }
    if is(word, b"start") {
        return Across::Start;
    }
    if is(word, b"end") {
        return Across::End;
    }
    if is(word, b"center_horizontal") {
        return Across::Center;
    }
    if is(word, b"center") {
        return Across::Center;
    }
    Across::Unset
}

/// The place from top to bottom that a word gives; unset if it gives none.
#[tactic(auto, unfolding(crate::specs::words::Gravities::down_of))]
fn read_down(word: &[u8]) -> Down
    ensures { result ≡ down_of word.now }
{
    if is(word, b"top") {
        return Down::Top;
    }
    if is(word, b"bottom") {
        return Down::Bottom;
    }
    if is(word, b"center_vertical") {
        return Down::Center;
    }
    if is(word, b"center") {
        return Down::Center;
    }
    Down::Unset
}

/// Whether a gravity with this place sets where a view is from left to right.
fn sets_across(across: Across) -> bool
    ensures { result ≡ is_set_across across }
{
    match across {
        Across::Unset => false,
        Across::Left | Across::Right | Across::Center | Across::Start | Across::End => true,
    }
}

/// Whether a gravity with this place sets where a view is from top to bottom.
fn sets_down(down: Down) -> bool
    ensures { result ≡ is_set_down down }
{
    match down {
        Down::Unset => false,
        Down::Top | Down::Bottom | Down::Center => true,
    }
}

/// What two words give from left to right: one of them at most.
#[tactic(auto, unfolding(crate::specs::words::Gravities::one_across))]
fn join_across(old: Across, new: Across) -> Result<Across, LineFault>
    ensures { result ≡ one_across old new }
{
    if !sets_across(new) {
        return Ok(old);
    }
    if sets_across(old) {
        return Err(LineFault::Syntax);
    }
    Ok(new)
}

/// What two words give from top to bottom: one of them at most.
#[tactic(auto, unfolding(crate::specs::words::Gravities::one_down))]
fn join_down(old: Down, new: Down) -> Result<Down, LineFault>
    ensures { result ≡ one_down old new }
{
    if !sets_down(new) {
        return Ok(old);
    }
    if sets_down(old) {
        return Err(LineFault::Syntax);
    }
    Ok(new)
}

/// A gravity and one word more.
#[tactic(auto, unfolding(crate::specs::words::Gravities::with_word))]
fn add_word(gravity: Gravity, word: &[u8]) -> Result<Gravity, LineFault>
    ensures { result ≡ with_word gravity word.now }
{
    let across = read_across(word);
    let down = read_down(word);
    if !sets_across(across) && !sets_down(down) {
        return Err(LineFault::Syntax);
    }
    let across = join_across(gravity.across, across)?;
    let down = join_down(gravity.down, down)?;
    Ok(Gravity {
        given: gravity.given,
        across,
        down,
    })
}

/// A gravity and the words that bars separate. Three words are too many, so the recursion goes no deeper than that.
#[tactic(auto, using(crate::proofs::texts::BarLaws::words_end, crate::proofs::texts::BarLaws::words_go, crate::proofs::texts::BarLaws::words_stop))]
fn add_words(gravity: Gravity, words: &[u8]) -> Result<Gravity, LineFault>
    ensures { result ≡ with_words gravity words.now }
{
    let len = offset_of(b'|', words);
    let more = add_word(gravity, &words[..len])?;
    if len == words.len() {
        return Ok(more);
    }
    add_words(more, &words[len + 1..])
}

/// The gravity that a word gives.
#[tactic(auto, unfolding(crate::specs::words::Gravities::gravity_of))]
pub fn read_gravity(word: &[u8]) -> Result<Gravity, LineFault>
    ensures { result ≡ gravity_of word.now }
{
    if is(word, b"none") {
        return Ok(NONE);
    }
    add_words(BARE, word)
}
