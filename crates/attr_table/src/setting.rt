//! What the value of an attribute sets.
ghost use Rattle.std.specs.Prelude.{◌≡◌};
ghost use Rattle.attr_table.specs.Setting.{across_of, answer_of, direction_of, down_of, drafted, gravity_of, visibility_of, with_given, with_margin, with_margins, with_padding, with_paddings, with_pixels, with_word, HasVerb};

use crate::draft::Draft;
use crate::given::Given;
use crate::table::{Side, Slot};
use geom_core::{Argb, Insets};
use view_model::{Across, Answer, Direction, Down, Facts, Gravity, Visibility};

/// The bit of a gravity's word that makes left start and right end.
const RELATIVE: u32 = 1 << 23;

/// Sets the meaning of a value. A margin or a padding for all sides is kept apart, since one side that comes later may
/// not count.
pub fn set(slot: Slot, given: Given, draft: &mut Draft)
    requires { HasVerb slot }
    ensures { draft.new ≡ with_given slot given draft.old }
{
    match given {
        Given::Pixels(n) => match slot {
            Slot::Margins => draft.margin = Some(n),
            Slot::Paddings => draft.padding = Some(n),
            _ => set_pixels(slot, n, &mut draft.facts),
        },
        Given::Word(word) => set_word(slot, word, &mut draft.facts),
        Given::Text(text) => draft.text = text,
    }
}

/// The facts that a draft results in.
pub fn drafted(draft: &Draft) -> Facts
    ensures { result ≡ drafted draft.now }
{
    let mut facts = draft.facts;
    spread_margin(draft.margin, &mut facts);
    spread_padding(draft.padding, &mut facts);
    facts
}

/// Sets all margins, if one for all sides is not negative.
#[tactic(auto, unfolding(crate::specs::Setting::with_margins))]
fn spread_margin(margin: Option<i32>, facts: &mut Facts)
    ensures { facts.new ≡ with_margins margin facts.old }
{
    if let Some(n) = margin {
        if 0 <= n {
            facts.margins = all_sides(n);
            facts.margin_start = None;
            facts.margin_end = None;
        }
    }
}

/// Sets the padding of the four sides.
#[tactic(auto, unfolding(crate::specs::Setting::with_paddings))]
fn spread_padding(padding: Option<i32>, facts: &mut Facts)
    ensures { facts.new ≡ with_paddings padding facts.old }
{
    if let Some(n) = padding {
        facts.padding = all_sides(n);
    }
}

/// The same number of pixels on each of the four sides.
const fn all_sides(n: i32) -> Insets
    ensures { result ≡ record { left = n; top = n; right = n; bottom = n } }
{
    Insets {
        left: n,
        top: n,
        right: n,
        bottom: n,
    }
}

/// Sets a number of pixels.
fn set_pixels(slot: Slot, n: i32, facts: &mut Facts)
    ensures { facts.new ≡ with_pixels slot n facts.old }
{
    match slot {
        Slot::Width => facts.width = n,
        Slot::Height => facts.height = n,
        Slot::Margin(side) => set_margin(side, n, facts),
        Slot::Padding(side) => set_padding(side, n, facts),
        Slot::MinWidth => facts.min.w = n,
        Slot::MinHeight => facts.min.h = n,
        _ => (),
    }
}

/// Sets the margin of one side, in pixels. A start or an end margin is kept beside the left and the right one.
fn set_margin(side: Side, n: i32, facts: &mut Facts)
    ensures { facts.new ≡ with_margin side n facts.old }
{
    match side {
        Side::Left => facts.margins.left = n,
        Side::Top => facts.margins.top = n,
        Side::Right => facts.margins.right = n,
        Side::Bottom => facts.margins.bottom = n,
        Side::Start => facts.margin_start = Some(n),
        Side::End => facts.margin_end = Some(n),
    }
}

/// Sets the padding of one side, in pixels. A start or an end padding is kept beside the left and the right one.
fn set_padding(side: Side, n: i32, facts: &mut Facts)
    ensures { facts.new ≡ with_padding side n facts.old }
{
    match side {
        Side::Left => facts.padding.left = n,
        Side::Top => facts.padding.top = n,
        Side::Right => facts.padding.right = n,
        Side::Bottom => facts.padding.bottom = n,
        Side::Start => facts.padding_start = Some(n),
        Side::End => facts.padding_end = Some(n),
    }
}

/// Sets a number of another kind.
fn set_word(slot: Slot, word: u32, facts: &mut Facts)
    requires { HasVerb slot }
    ensures { facts.new ≡ with_word slot word facts.old }
{
    match slot {
        Slot::Id => facts.id = word,
        Slot::Weight => facts.weight = word,
        Slot::WeightSum => facts.weight_sum = word,
        Slot::LayoutGravity => facts.layout_gravity = gravity(word),
        Slot::Gravity => facts.gravity = gravity(word),
        Slot::Vertical => facts.vertical = word == 1,
        Slot::Visibility => facts.visibility = visibility(word),
        Slot::Direction => facts.direction = direction(word),
        Slot::Background => facts.background = Argb(word),
        Slot::Ink => facts.ink = Argb(word),
        Slot::Click => facts.answer = answer(word),
        Slot::Clip => facts.clip = word == 1,
        Slot::Fill => facts.fill = word == 1,
        Slot::Split => facts.split = word == 1,
        Slot::Rule(verb) => facts.rules.values[usize::from(verb)] = word,
        _ => (),
    }
}

/// Where a word places a view, in the bits of Android's gravities.
#[tactic(auto, unfolding(crate::specs::Setting::gravity_of))]
fn gravity(word: u32) -> Gravity
    ensures { result ≡ gravity_of word }
{
    Gravity {
        given: true,
        across: across(word % 8, word / RELATIVE % 2 == 1),
        down: down(word / 16 % 8),
    }
}

/// How the three bits for the horizontal axis place a view; `relative` makes left start and right end.
#[tactic(auto, unfolding(crate::specs::Setting::across_of))]
fn across(bits: u32, relative: bool) -> Across
    ensures { result ≡ across_of bits relative }
{
    match (bits, relative) {
        (0, _) => Across::Unset,
        (1, _) => Across::Center,
        (5, true) => Across::End,
        (5, false) => Across::Right,
        (_, true) => Across::Start,
        (_, false) => Across::Left,
    }
}

/// How the three bits for the vertical axis place a view: those without a meaning of their own count as the top.
#[tactic(auto, unfolding(crate::specs::Setting::down_of))]
fn down(bits: u32) -> Down
    ensures { result ≡ down_of bits }
{
    match bits {
        0 => Down::Unset,
        1 => Down::Center,
        5 => Down::Bottom,
        _ => Down::Top,
    }
}

/// The visibility that a word means: 0 is visible, 1 is invisible, and any other number is gone.
#[tactic(auto, unfolding(crate::specs::Setting::visibility_of))]
fn visibility(word: u32) -> Visibility
    ensures { result ≡ visibility_of word }
{
    match word {
        0 => Visibility::Visible,
        1 => Visibility::Invisible,
        _ => Visibility::Gone,
    }
}

/// The direction of the locale counts as from left to right.
#[tactic(auto, unfolding(crate::specs::Setting::direction_of))]
fn direction(word: u32) -> Direction
    ensures { result ≡ direction_of word }
{
    match word {
        1 => Direction::Rtl,
        2 => Direction::Inherit,
        _ => Direction::Ltr,
    }
}

/// `Click` for the word 1, and `Off` for any other.
#[tactic(auto, unfolding(crate::specs::Setting::answer_of))]
fn answer(word: u32) -> Answer
    ensures { result ≡ answer_of word }
{
    if word == 1 {
        return Answer::Click;
    }
    Answer::Off
}
