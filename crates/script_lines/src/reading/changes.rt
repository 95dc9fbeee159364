//! What a line sets of a view.

ghost use Rattle.std.specs.Prelude.{◌≡◌, negsuc, ◌≤ℤ◌, IfOk};
ghost use Rattle.script_lines.specs.reading.Changes.{IsActInBounds, IsChangeInBounds, act_by, answer_named, answer_of, background_of, change_by, direction_named, direction_of, flag_named, flag_of, gravity_change_of, ink_of, insets_of, intercept_of, kids_of, margins_of, min_of, new_id_of, orient_of, padding_of, scroll_of, sides_of, size_of, vertical_of, visibility_of, visible_of, weight_change_of, weight_sum_of};
ghost use Rattle.line_words.specs.words.Numbers.{IsWithin};
ghost use Rattle.line_words.specs.words.Words.{words};

use crate::reading::actions::read_actions;
use crate::reading::rules::rule;
use crate::verbs::{ActVerb, ChangeVerb};
use geom_core::{Insets, Size};
use line_words::LineFault;
use line_words::words::colors::last_color;
use line_words::words::dimension::extents;
use line_words::words::gravity::read_gravity;
use line_words::words::naming::id_word;
use line_words::words::number::{number, pair, within};
use line_words::words::weights::read_weight;
use line_words::words::{end, is, read_on, word};
use view_model::limits::{MAX_INSET, MAX_SIZE, MIN_MARGIN};
use view_model::{Act, Answer, Change, Direction, Flag, Visibility};

/// The sides of a view as words give them, the numbers not yet within their bounds.
#[derive(Clone, Copy)]
struct Sides {
    left: i64,
    top: i64,
    right: i64,
    bottom: i64,
}

/// The four sides that end a line.
#[tactic(auto, unfolding(crate::specs::reading::Changes::sides_of))]
fn read_sides(bytes: &[u8]) -> Result<Sides, LineFault>
    ensures { result ≡ sides_of (words bytes.now) }
{
    let (left, rest) = number(bytes)?;
    let (top, rest) = number(rest)?;
    let (right, rest) = number(rest)?;
    let (bottom, rest) = number(rest)?;
    end(rest)?;
    Ok(Sides {
        left,
        top,
        right,
        bottom,
    })
}

/// Sides within their bounds, each from `low` to `MAX_INSET`.
#[tactic(auto, unfolding(crate::specs::reading::Changes::insets_of))]
fn insets(low: i64, sides: Sides) -> Result<Insets, LineFault>
    requires { negsuc 2147483646 ≤ℤ low }
    ensures value { result ≡ insets_of low sides }
    ensures left { IfOk result (λ r. IsWithin low MAX_INSET r.left) }
    ensures top { IfOk result (λ r. IsWithin low MAX_INSET r.top) }
    ensures right { IfOk result (λ r. IsWithin low MAX_INSET r.right) }
    ensures bottom { IfOk result (λ r. IsWithin low MAX_INSET r.bottom) }
{
    let left = within(low, MAX_INSET, sides.left)?;
    let top = within(low, MAX_INSET, sides.top)?;
    let right = within(low, MAX_INSET, sides.right)?;
    let bottom = within(low, MAX_INSET, sides.bottom)?;
    Ok(Insets {
        left,
        top,
        right,
        bottom,
    })
}

/// The dimensions that a view gets.
fn size(bytes: &[u8]) -> Result<Change, LineFault>
    ensures value { result ≡ size_of (words bytes.now) }
    ensures bounds { IfOk result IsChangeInBounds }
{
    let (width, height) = extents(bytes)?;
    Ok(Change::Size { width, height })
}

/// The least size that a view gets.
fn min(bytes: &[u8]) -> Result<Change, LineFault>
    ensures value { result ≡ min_of (words bytes.now) }
    ensures bounds { IfOk result IsChangeInBounds }
{
    let (w, h) = pair(0, MAX_SIZE, bytes)?;
    Ok(Change::Min(Size { w, h }))
}

/// The margins that a view gets.
fn margins(bytes: &[u8]) -> Result<Change, LineFault>
    ensures value { result ≡ margins_of (words bytes.now) }
    ensures bounds { IfOk result IsChangeInBounds }
{
    let insets = insets(MIN_MARGIN, read_sides(bytes)?)?;
    Ok(Change::Margins(insets))
}

/// The padding that a view gets.
fn padding(bytes: &[u8]) -> Result<Change, LineFault>
    ensures value { result ≡ padding_of (words bytes.now) }
    ensures bounds { IfOk result IsChangeInBounds }
{
    let insets = insets(0, read_sides(bytes)?)?;
    Ok(Change::Padding(insets))
}

/// The weight that a view gets.
fn weight(bytes: &[u8]) -> Result<Change, LineFault>
    ensures value { result ≡ weight_change_of (words bytes.now) }
    ensures bounds { IfOk result IsChangeInBounds }
{
    let weight = read_weight(bytes)?;
    Ok(Change::Weight(weight))
}

/// Whether a gravity is that of a view's children and not its own.
#[tactic(auto, unfolding(crate::specs::reading::Changes::kids_of))]
fn read_kids(word: &[u8]) -> Result<bool, LineFault>
    ensures { result ≡ kids_of word.now }
{
    if is(word, b"self") {
        return Ok(false);
    }
    if is(word, b"kids") {
        return Ok(true);
    }
    Err(LineFault::Syntax)
}

/// The gravity that a view gets, of itself or of its children.
#[tactic(auto, unfolding(crate::specs::reading::Changes::gravity_change_of))]
fn gravity(bytes: &[u8]) -> Result<Change, LineFault>
    ensures value { result ≡ gravity_change_of (words bytes.now) }
    ensures bounds { IfOk result IsChangeInBounds }
{
    let (whose, rest) = word(bytes)?;
    let kids = read_kids(whose)?;
    let (word, rest) = word(rest)?;
    let gravity = read_gravity(word)?;
    end(rest)?;
    Ok(Change::Gravity { kids, gravity })
}

/// The colour of the background that a view gets.
fn background(bytes: &[u8]) -> Result<Change, LineFault>
    ensures value { result ≡ background_of (words bytes.now) }
    ensures bounds { IfOk result IsChangeInBounds }
{
    let color = last_color(bytes)?;
    Ok(Change::Background(color))
}

/// What is changed of a view, by what the first word of the line asks for and what comes after the view.
pub fn read_change(verb: ChangeVerb, bytes: &[u8]) -> Result<Change, LineFault>
    ensures value { result ≡ change_by verb (words bytes.now) }
    ensures bounds { IfOk result IsChangeInBounds }
{
    match verb {
        ChangeVerb::Size => size(bytes),
        ChangeVerb::Min => min(bytes),
        ChangeVerb::Margins => margins(bytes),
        ChangeVerb::Padding => padding(bytes),
        ChangeVerb::Weight => weight(bytes),
        ChangeVerb::Gravity => gravity(bytes),
        ChangeVerb::Background => background(bytes),
    }
}

/// The visibility that a word gives.
#[tactic(auto, unfolding(crate::specs::reading::Changes::visibility_of))]
fn read_visibility(word: &[u8]) -> Result<Visibility, LineFault>
    ensures { result ≡ visibility_of word.now }
{
    if is(word, b"visible") {
        return Ok(Visibility::Visible);
    }
    if is(word, b"invisible") {
        return Ok(Visibility::Invisible);
    }
    if is(word, b"gone") {
        return Ok(Visibility::Gone);
    }
    Err(LineFault::Syntax)
}

/// The visibility that a view gets.
#[tactic(auto, unfolding(crate::specs::reading::Changes::visible_of))]
fn visible(bytes: &[u8]) -> Result<Act, LineFault>
    ensures value { result ≡ visible_of (words bytes.now) }
    ensures bounds { IfOk result IsActInBounds }
{
    let (word, rest) = word(bytes)?;
    let visibility = read_visibility(word)?;
    end(rest)?;
    Ok(Act::Visible(visibility))
}

/// The id that a view gets.
#[tactic(auto, unfolding(crate::specs::reading::Changes::new_id_of))]
fn new_id(bytes: &[u8]) -> Result<Act, LineFault>
    ensures value { result ≡ new_id_of (words bytes.now) }
    ensures bounds { IfOk result IsActInBounds }
{
    let (id, rest) = id_word(bytes)?;
    end(rest)?;
    Ok(Act::Id(id))
}

/// The sum of weights that a view gets.
fn weight_sum(bytes: &[u8]) -> Result<Act, LineFault>
    ensures value { result ≡ weight_sum_of (words bytes.now) }
    ensures bounds { IfOk result IsActInBounds }
{
    let sum = read_weight(bytes)?;
    Ok(Act::WeightSum(sum))
}

/// Whether a word says that children are one below the other and not side by side.
#[tactic(auto, unfolding(crate::specs::reading::Changes::vertical_of))]
fn read_vertical(word: &[u8]) -> Result<bool, LineFault>
    ensures { result ≡ vertical_of word.now }
{
    if is(word, b"horizontal") {
        return Ok(false);
    }
    if is(word, b"vertical") {
        return Ok(true);
    }
    Err(LineFault::Syntax)
}

/// Whether the children of a view are one below the other from then on.
#[tactic(auto, unfolding(crate::specs::reading::Changes::orient_of))]
fn orient(bytes: &[u8]) -> Result<Act, LineFault>
    ensures value { result ≡ orient_of (words bytes.now) }
    ensures bounds { IfOk result IsActInBounds }
{
    let (word, rest) = word(bytes)?;
    let vertical = read_vertical(word)?;
    end(rest)?;
    Ok(Act::Orient { vertical })
}

/// The flag that a word names.
#[tactic(auto, unfolding(crate::specs::reading::Changes::flag_named))]
fn read_flag(word: &[u8]) -> Result<Flag, LineFault>
    ensures { result ≡ flag_named word.now }
{
    if is(word, b"clip") {
        return Ok(Flag::Clip);
    }
    if is(word, b"fill") {
        return Ok(Flag::Fill);
    }
    if is(word, b"split") {
        return Ok(Flag::Split);
    }
    Err(LineFault::Syntax)
}

/// A flag of a view, and whether it is on from then on.
#[tactic(auto, unfolding(crate::specs::reading::Changes::flag_of))]
fn flag(bytes: &[u8]) -> Result<Act, LineFault>
    ensures value { result ≡ flag_of (words bytes.now) }
    ensures bounds { IfOk result IsActInBounds }
{
    let (name, rest) = word(bytes)?;
    let flag = read_flag(name)?;
    let (answer, rest) = word(rest)?;
    let on = read_on(answer)?;
    end(rest)?;
    Ok(Act::Flag { flag, on })
}

/// The colour of the text that a view gets.
fn ink(bytes: &[u8]) -> Result<Act, LineFault>
    ensures value { result ≡ ink_of (words bytes.now) }
    ensures bounds { IfOk result IsActInBounds }
{
    let color = last_color(bytes)?;
    Ok(Act::Ink(color))
}

/// The offset to which a view scrolls.
#[tactic(auto, unfolding(crate::specs::reading::Changes::scroll_of))]
fn scroll(bytes: &[u8]) -> Result<Act, LineFault>
    ensures value { result ≡ scroll_of (words bytes.now) }
    ensures bounds { IfOk result IsActInBounds }
{
    let (offset, rest) = number(bytes)?;
    end(rest)?;
    let offset = within(0, i64::from(MAX_SIZE), offset)?;
    Ok(Act::Scroll(offset))
}

/// How a view answers events, by a word.
#[tactic(auto, unfolding(crate::specs::reading::Changes::answer_named))]
fn read_answer(word: &[u8]) -> Result<Answer, LineFault>
    ensures { result ≡ answer_named word.now }
{
    if is(word, b"off") {
        return Ok(Answer::Off);
    }
    if is(word, b"yes") {
        return Ok(Answer::Yes);
    }
    if is(word, b"click") {
        return Ok(Answer::Click);
    }
    Err(LineFault::Syntax)
}

/// How a view answers events from then on.
#[tactic(auto, unfolding(crate::specs::reading::Changes::answer_of))]
fn answer(bytes: &[u8]) -> Result<Act, LineFault>
    ensures value { result ≡ answer_of (words bytes.now) }
    ensures bounds { IfOk result IsActInBounds }
{
    let (word, rest) = word(bytes)?;
    let answer = read_answer(word)?;
    end(rest)?;
    Ok(Act::Answer(answer))
}

/// The actions that a view takes from its children, as the sum of their bits.
fn intercept(bytes: &[u8]) -> Result<Act, LineFault>
    ensures value { result ≡ intercept_of (words bytes.now) }
    ensures bounds { IfOk result IsActInBounds }
{
    let actions = read_actions(bytes)?;
    Ok(Act::Intercept(actions))
}

/// The direction in which a view is to run, by a word.
#[tactic(auto, unfolding(crate::specs::reading::Changes::direction_named))]
fn read_direction(word: &[u8]) -> Result<Direction, LineFault>
    ensures { result ≡ direction_named word.now }
{
    if is(word, b"ltr") {
        return Ok(Direction::Ltr);
    }
    if is(word, b"rtl") {
        return Ok(Direction::Rtl);
    }
    if is(word, b"inherit") {
        return Ok(Direction::Inherit);
    }
    Err(LineFault::Syntax)
}

/// The direction in which a view runs from then on.
#[tactic(auto, unfolding(crate::specs::reading::Changes::direction_of))]
fn direction(bytes: &[u8]) -> Result<Act, LineFault>
    ensures value { result ≡ direction_of (words bytes.now) }
    ensures bounds { IfOk result IsActInBounds }
{
    let (word, rest) = word(bytes)?;
    let direction = read_direction(word)?;
    end(rest)?;
    Ok(Act::Direction(direction))
}

/// What is set of a view, by what the first word of the line asks for and what comes after the view.
pub fn read_act(verb: ActVerb, bytes: &[u8]) -> Result<Act, LineFault>
    ensures value { result ≡ act_by verb (words bytes.now) }
    ensures bounds { IfOk result IsActInBounds }
{
    match verb {
        ActVerb::Change(change) => Ok(Act::Change(read_change(change, bytes)?)),
        ActVerb::WeightSum => weight_sum(bytes),
        ActVerb::Orient => orient(bytes),
        ActVerb::Direction => direction(bytes),
        ActVerb::Flag => flag(bytes),
        ActVerb::Visible => visible(bytes),
        ActVerb::Ink => ink(bytes),
        ActVerb::Id => new_id(bytes),
        ActVerb::Rule => rule(bytes),
        ActVerb::Answer => answer(bytes),
        ActVerb::Intercept => intercept(bytes),
        ActVerb::Scroll => scroll(bytes),
    }
}
