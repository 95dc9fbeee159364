//! The words with which lines begin, and what a line asks for that begins with each: a row a word.

ghost use Rattle.std.specs.Prelude.{◌≡◌};
ghost use Rattle.script_lines.specs.reading.Verbs.{act_named, change_named, verb_named};

use line_words::words::is;

/// What a line changes of a view that a hook can change too.
#[derive(Clone, Copy)]
pub enum ChangeVerb {
    Size,
    Min,
    Margins,
    Padding,
    Weight,
    Gravity,
    Background,
}

/// What a line sets of a view.
#[derive(Clone, Copy)]
pub enum ActVerb {
    Change(ChangeVerb),
    WeightSum,
    Orient,
    Direction,
    Flag,
    Visible,
    Ink,
    Id,
    Rule,
    Answer,
    Intercept,
    Scroll,
}

/// What a line asks for.
#[derive(Clone, Copy)]
pub enum Verb {
    Window,
    Dpi,
    Res,
    Inflate,
    Add,
    Remove,
    Act(ActVerb),
    Text,
    Disallow,
    Hook,
    Down,
    Move,
    Up,
    Cancel,
    Frame,
    Bounds,
    Pixels,
    Digest,
    Save,
    Restore,
}

/// The change that the first word of its line names.
#[tactic(auto, unfolding(crate::specs::reading::Verbs::change_named))]
#[inline(always)]
pub fn named_change(word: &[u8]) -> Option<ChangeVerb>
    ensures { result ≡ change_named word.now }
{
    match word {
        _ if is(word, b"size") => Some(ChangeVerb::Size),
        _ if is(word, b"min") => Some(ChangeVerb::Min),
        _ if is(word, b"margins") => Some(ChangeVerb::Margins),
        _ if is(word, b"padding") => Some(ChangeVerb::Padding),
        _ if is(word, b"weight") => Some(ChangeVerb::Weight),
        _ if is(word, b"gravity") => Some(ChangeVerb::Gravity),
        _ if is(word, b"bg") => Some(ChangeVerb::Background),
        _ => None,
    }
}

/// What the first word of a line sets of a view.
#[tactic(auto, unfolding(crate::specs::reading::Verbs::act_named))]
#[inline(always)]
pub fn named_act(word: &[u8]) -> Option<ActVerb>
    ensures { result ≡ act_named word.now }
{
    if let Some(change) = named_change(word) {
        return Some(ActVerb::Change(change));
    }
    match word {
        _ if is(word, b"weightsum") => Some(ActVerb::WeightSum),
        _ if is(word, b"orient") => Some(ActVerb::Orient),
        _ if is(word, b"direction") => Some(ActVerb::Direction),
        _ if is(word, b"flag") => Some(ActVerb::Flag),
        _ if is(word, b"visible") => Some(ActVerb::Visible),
        _ if is(word, b"ink") => Some(ActVerb::Ink),
        _ if is(word, b"id") => Some(ActVerb::Id),
        _ if is(word, b"rule") => Some(ActVerb::Rule),
        _ if is(word, b"answer") => Some(ActVerb::Answer),
        _ if is(word, b"intercept") => Some(ActVerb::Intercept),
        _ if is(word, b"scroll") => Some(ActVerb::Scroll),
        _ => None,
    }
}

/// What a line asks for, by its first word.
#[tactic(auto, unfolding(crate::specs::reading::Verbs::verb_named))]
#[inline(always)]
pub fn named_verb(word: &[u8]) -> Option<Verb>
    ensures { result ≡ verb_named word.now }
{
    if let Some(act) = named_act(word) {
        return Some(Verb::Act(act));
    }
    match word {
        _ if is(word, b"window") => Some(Verb::Window),
        _ if is(word, b"dpi") => Some(Verb::Dpi),
        _ if is(word, b"res") => Some(Verb::Res),
        _ if is(word, b"inflate") => Some(Verb::Inflate),
        _ if is(word, b"add") => Some(Verb::Add),
        _ if is(word, b"remove") => Some(Verb::Remove),
        _ if is(word, b"text") => Some(Verb::Text),
        _ if is(word, b"disallow") => Some(Verb::Disallow),
        _ if is(word, b"hook") => Some(Verb::Hook),
        _ if is(word, b"down") => Some(Verb::Down),
        _ if is(word, b"move") => Some(Verb::Move),
        _ if is(word, b"up") => Some(Verb::Up),
        _ if is(word, b"cancel") => Some(Verb::Cancel),
        _ if is(word, b"frame") => Some(Verb::Frame),
        _ if is(word, b"bounds") => Some(Verb::Bounds),
        _ if is(word, b"pixels") => Some(Verb::Pixels),
        _ if is(word, b"digest") => Some(Verb::Digest),
        _ if is(word, b"save") => Some(Verb::Save),
        _ if is(word, b"restore") => Some(Verb::Restore),
        _ => None,
    }
}
