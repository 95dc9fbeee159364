//! The result of an act on the facts of a view.
ghost use Rattle.std.specs.Prelude.{◌≡◌, ◌<◌, slice_set};
ghost use Rattle.tree_edits.specs.Applied.{IsVerb};
ghost use Rattle.view_model.specs.Changes.{facts_after_act, facts_after_change, facts_with_flag};

use geom_core::Insets;
use view_model::{Act, Change, Facts, Flag, Rules};

/// Sets what an act sets of the facts of a view.
pub fn change_facts(act: Act, facts: &mut Facts)
    requires { IsVerb act }
    ensures { facts.new ≡ facts_after_act act facts.old }
{
    match act {
        Act::Change(change) => make_change(change, facts),
        Act::WeightSum(weight_sum) => facts.weight_sum = weight_sum,
        Act::Orient { vertical } => facts.vertical = vertical,
        Act::Flag { flag, on } => set_flag(flag, on, facts),
        Act::Visible(visibility) => facts.visibility = visibility,
        Act::Ink(ink) => facts.ink = ink,
        Act::Id(id) => facts.id = id,
        Act::Rule { verb, value } => set_rule(verb, value, &mut facts.rules),
        Act::Answer(answer) => facts.answer = answer,
        Act::Intercept(intercept) => facts.intercept = intercept,
        Act::Scroll(offset) => facts.offset = offset,
        Act::Direction(direction) => facts.direction = direction,
    }
}

/// Sets what a change sets.
fn make_change(change: Change, facts: &mut Facts)
    ensures { facts.new ≡ facts_after_change change facts.old }
{
    match change {
        Change::Size { width, height } => {
            facts.width = width;
            facts.height = height;
        }
        Change::Min(min) => facts.min = min,
        Change::Margins(margins) => set_margins(margins, facts),
        Change::Padding(padding) => set_padding(padding, facts),
        Change::Weight(weight) => facts.weight = weight,
        Change::Gravity { kids, gravity } => {
            if kids {
                facts.gravity = gravity;
            } else {
                facts.layout_gravity = gravity;
            }
        }
        Change::Background(background) => facts.background = background,
    }
}

/// Sets the margins; a start and an end value are dropped.
fn set_margins(margins: Insets, facts: &mut Facts)
    ensures { facts.new ≡ facts_after_change (Change.Margins margins) facts.old }
{
    facts.margins = margins;
    facts.margin_start = None;
    facts.margin_end = None;
}

/// Sets the padding; a start and an end value are dropped.
fn set_padding(padding: Insets, facts: &mut Facts)
    ensures { facts.new ≡ facts_after_change (Change.Padding padding) facts.old }
{
    facts.padding = padding;
    facts.padding_start = None;
    facts.padding_end = None;
}

/// Sets whether something is on.
fn set_flag(flag: Flag, on: bool, facts: &mut Facts)
    ensures { facts.new ≡ facts_with_flag flag on facts.old }
{
    match flag {
        Flag::Clip => facts.clip = on,
        Flag::Fill => facts.fill = on,
        Flag::Split => facts.split = on,
    }
}

/// Sets the value of a rule.
pub fn set_rule(verb: u8, value: u32, rules: &mut Rules)
    requires { verb < 21 }
    ensures { rules.new ≡ record { values = slice_set rules.old.values verb value } }
{
    rules.values[verb as usize] = value;
}
