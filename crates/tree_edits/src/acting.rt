//! Acts on a view of a tree.
ghost use Rattle.std.specs.Prelude.{◌≡◌, ℕ, true, false, None, OnOk};
ghost use Rattle.kept_views.specs.Kept.{StaysConsistent};
ghost use Rattle.tree_edits.specs.Applied.{IsVerb};
ghost use Rattle.tree_edits.specs.Asking.{LeavesUnasked};
ghost use Rattle.tree_edits.specs.Editing.{after_act, hides, names_views, turns};
ghost use Rattle.tree_edits.specs.Hiding.{held_hiding};
ghost use Rattle.tree_edits.specs.Keeping.{KeepsViews};
ghost use Rattle.tree_edits.specs.Scene.{scene_of};
ghost use Rattle.view_model.specs.Changes.{facts_after_act};
ghost use Rattle.view_model.specs.Cycles.{first_cycle};
ghost use Rattle.view_tree.specs.Faults.{IsRefusedOrCyclic};
ghost use Rattle.view_model.specs.PlainTree.{with_facts};
ghost use Rattle.view_model.specs.Failing.{KeepsOnErr};
ghost use Rattle.view_model.specs.RelativeCourse.{link_of};
ghost use Rattle.view_tree.specs.Views.{IsLive, IsTree, KeepsMeasures, SameTree, facts_of, held_of, number_of, plain_of};

use crate::asking::request_by;
use crate::changing::{change_facts, set_rule};
use crate::edits::Edit;
use crate::hiding::hide;
use view_model::{Act, Direction, Facet, Link, Member};
use view_tree::{AttachFault, Key, ViewTree};

/// Whether an act sets the name by which a view is found, or the names by which it finds others.
pub fn names_views(act: Act) -> bool
    ensures { result ≡ names_views act }
{
    matches!(act.facet(), Facet::Named | Facet::Tied { .. })
}

/// Sets the id or a rule of a view, unless children of a relative layout then name one another in a circle.
#[inline(never)]
pub fn set_names(tree: &mut ViewTree, view: Key, act: Act) -> Result<(), AttachFault>
    requires live { IsLive tree.old view }
    requires verb { IsVerb act }
    requires names { names_views act ≡ true }
    ensures scene { OnOk result (scene_of tree.new ≡ after_act (scene_of tree.old) (number_of tree.old view) act) }
    ensures kept { OnOk result (KeepsViews tree.old tree.new (Edit.Act view act)) }
    ensures refused { IsRefusedOrCyclic None (first_cycle Member.View
        (with_facts (number_of tree.old view) (facts_after_act act) (plain_of tree.old))) result }
    ensures unchanged { KeepsOnErr result tree.old tree.new }
    ensures consistent { StaysConsistent tree.old tree.new }
    ensures asked { LeavesUnasked tree.old tree.new (Edit.Act view act) }
    ensures measures { KeepsMeasures tree.old tree.new }
{
    let link = link_after(tree, view, act);
    match tree.set_rules(view, link.id, link.rules) {
        Err(fault) => Err(fault),
        Ok(()) => {
            tree.request(view);
            Ok(())
        }
    }
}

/// What rules read of a view after an act that sets its id or a rule.
fn link_after(tree: &ViewTree, view: Key, act: Act) -> Link
    requires live { IsLive tree.now view }
    requires verb { IsVerb act }
    requires names { names_views act ≡ true }
    ensures is_tree { IsTree tree.now }
    ensures link { result ≡ link_of (facts_after_act act (facts_of tree.now view)) }
{
    let facts = tree.facts(view);
    match act {
        Act::Id(id) => Link {
            id,
            rules: facts.rules,
        },
        Act::Rule { verb, value } => {
            let mut rules = facts.rules;
            set_rule(verb, value, &mut rules);
            Link {
                id: facts.id,
                rules,
            }
        }
        Act::Change(_) | Act::WeightSum(_) | Act::Orient { .. } | Act::Flag { .. } =>
            unreachable!(),
        Act::Visible(_) | Act::Ink(_) | Act::Answer(_) | Act::Intercept(_) => unreachable!(),
        Act::Scroll(_) | Act::Direction(_) => unreachable!(),
    }
}

/// Sets the direction of a view, and in which way it runs with all that inherits from it.
#[inline(never)]
pub fn set_direction(tree: &mut ViewTree, view: Key, direction: Direction)
    requires live { IsLive tree.old view }
    ensures scene { scene_of tree.new
        ≡ after_act (scene_of tree.old) (number_of tree.old view) (Act.Direction direction) }
    ensures kept { KeepsViews tree.old tree.new (Edit.Act view (Act.Direction direction)) }
    ensures consistent { StaysConsistent tree.old tree.new }
    ensures asked { LeavesUnasked tree.old tree.new (Edit.Act view (Act.Direction direction)) }
    ensures measures { KeepsMeasures tree.old tree.new }
{
    tree.set_direction(view, direction);
}

/// Sets everything else of a view. One that is gone from now on is taken out of layout at once, with all below it.
pub fn set_facts(tree: &mut ViewTree, view: Key, act: Act)
    requires live { IsLive tree.old view }
    requires verb { IsVerb act }
    requires names { names_views act ≡ false }
    requires turns { turns act ≡ false }
    ensures scene { scene_of tree.new ≡ after_act (scene_of tree.old) (number_of tree.old view) act }
    ensures kept { KeepsViews tree.old tree.new (Edit.Act view act) }
    ensures consistent { StaysConsistent tree.old tree.new }
    ensures asked { LeavesUnasked tree.old tree.new (Edit.Act view act) }
    ensures measures { KeepsMeasures tree.old tree.new }
{
    let mut facts = *tree.facts(view);
    change_facts(act, &mut facts);
    hide_by(tree, view, act);
    tree.set_facts(view, facts);
    request_by(tree, view, act);
}

/// Takes a view, and all below it, out of layout if an act does.
fn hide_by(tree: &mut ViewTree, view: Key, act: Act)
    requires { IsLive tree.old view }
    ensures same { SameTree tree.old tree.new }
    ensures held { (key : ℕ) → held_of tree.new key ≡ held_hiding (hides act) tree.old view key }
    ensures measures { KeepsMeasures tree.old tree.new }
{
    if hides(act) {
        hide(tree, view);
    }
}

/// Whether an act takes a view, and all below it, out of layout at once.
fn hides(act: Act) -> bool
    ensures { result ≡ hides act }
{
    match act.facet() {
        Facet::Visible { hides } => hides,
        Facet::Set(_) | Facet::Scrolled { .. } | Facet::Turned => false,
        Facet::Named | Facet::Tied { .. } => false,
    }
}
