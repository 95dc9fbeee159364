//! Edits of a tree, applied.

ghost use Rattle.std.specs.Prelude.{◌≡◌, ◌<◌, true, chars, Err, OnOk, None, Ok};
ghost use Rattle.std.specs.Option.{option_map};
ghost use Rattle.kept_views.specs.Kept.{StaysConsistent};
ghost use Rattle.tree_edits.specs.Applied.{AppliesEdit, IsAddable, IsEdit, IsVerb, MayWantMemory, numbered};
ghost use Rattle.tree_edits.specs.Asking.{LeavesUnasked};
ghost use Rattle.tree_edits.specs.Editing.{Add, ActOn, SetText, names_views, outcome_of_edit, outcome_of_remove};
ghost use Rattle.tree_edits.specs.Keeping.{KeepsViews};
ghost use Rattle.tree_edits.specs.Scene.{scene_of};
ghost use Rattle.view_model.specs.declared.fault.Fault.TheVariants.{NoMemory};
ghost use Rattle.view_tree.specs.Views.{IsLive, IsTree, number_of, KeepsMeasures};
ghost use Rattle.view_model.specs.Failing.{KeepsOnErr};
ghost use Rattle.view_model.specs.Texts.{IsShortText};

use crate::acting::{names_views, set_direction, set_facts, set_names};
use crate::asking::request_at;
use crate::edits::Edit;
use crate::fault::EditFault;
use std::alloc::Global;
use view_model::refusals::WRONG_CLASS;
use view_model::{Act, Class, Facts, Refusal, Text};
use view_tree::{Key, ViewTree};

/// Makes an edit, and requests layout if it may change. Returns the number of the view that it made.
#[inline(always)]
pub fn apply(alloc: Global, tree: &mut ViewTree, edit: Edit<'_>) -> Result<Option<u64>, EditFault>
    requires edit { IsEdit tree.old edit }
    ensures applied { AppliesEdit (outcome_of_edit (scene_of tree.old) (numbered tree.old edit.entry))
        (scene_of tree.new) result }
    ensures kept { OnOk result (KeepsViews tree.old tree.new edit.entry) }
    ensures unchanged { KeepsOnErr result tree.old tree.new }
    ensures memory { result ≡ Err NoMemory → MayWantMemory edit.entry }
    ensures consistent { StaysConsistent tree.old tree.new }
    ensures asked { LeavesUnasked tree.old tree.new edit.entry }
    ensures measures { KeepsMeasures tree.old tree.new }
{
    match edit {
        Edit::Add {
            parent,
            class,
            width,
            height,
        } => add(
            alloc,
            tree,
            Added {
                parent,
                class,
                width,
                height,
            },
        ),
        Edit::Remove(view) => {
            remove(tree, view);
            Ok(None)
        }
        Edit::Act { view, act } => act_on(tree, view, act),
        Edit::Text { view, text } => write(alloc, tree, view, text),
    }
}

/// A view that is to be made, the last child of its parent or the root. Its dimensions are those of `Edit::Add`.
#[derive(Clone, Copy)]
struct Added {
    parent: Option<Key>,
    class: Class,
    width: i32,
    height: i32,
}

/// Makes a view. Its facts are the default ones except for its dimensions.
#[inline(never)]
fn add(alloc: Global, tree: &mut ViewTree, added: Added) -> Result<Option<u64>, EditFault>
    requires addable { IsAddable tree.old added.parent }
    ensures applied { AppliesEdit (outcome_of_edit (scene_of tree.old)
        (Add (option_map (number_of tree.old) added.parent) added.class added.width added.height))
        (scene_of tree.new) result }
    ensures kept { OnOk result (KeepsViews tree.old tree.new
        (Edit.Add added.parent added.class added.width added.height)) }
    ensures unchanged { KeepsOnErr result tree.old tree.new }
    ensures consistent { StaysConsistent tree.old tree.new }
    ensures asked { LeavesUnasked tree.old tree.new (Edit.Add added.parent added.class added.width added.height) }
    ensures measures { KeepsMeasures tree.old tree.new }
{
    recall_tree(tree);
    let parent = added.parent;
    let number = tree.next_number();
    let width = added.width;
    let height = added.height;
    let facts = Facts::new(width, height);
    let class = added.class;
    tree.attach(parent, class, facts, Text::empty(alloc))?;
    request_at(tree, parent);
    Ok(Some(number))
}

/// The invariant of every tree, for contracts alone.
fn recall_tree(tree: &ViewTree)
    ensures { IsTree tree.now }
{
    let _root = tree.root();
}

/// Removes a view and all below it.
#[inline(never)]
fn remove(tree: &mut ViewTree, view: Key)
    requires live { IsLive tree.old view }
    ensures scene { outcome_of_remove (scene_of tree.old) (number_of tree.old view) ≡ Ok (scene_of tree.new, None) }
    ensures kept { KeepsViews tree.old tree.new (Edit.Remove view) }
    ensures consistent { StaysConsistent tree.old tree.new }
    ensures asked { LeavesUnasked tree.old tree.new (Edit.Remove view) }
    ensures measures { KeepsMeasures tree.old tree.new }
{
    let parent = tree.parent(view);
    tree.detach(view);
    request_at(tree, parent);
}

/// Makes an act on a view whose class has what the act sets.
fn act_on(tree: &mut ViewTree, view: Key, act: Act) -> Result<Option<u64>, EditFault>
    requires live { IsLive tree.old view }
    requires verb { IsVerb act }
    ensures applied { AppliesEdit (outcome_of_edit (scene_of tree.old) (ActOn (number_of tree.old view) act))
        (scene_of tree.new) result }
    ensures kept { OnOk result (KeepsViews tree.old tree.new (Edit.Act view act)) }
    ensures unchanged { KeepsOnErr result tree.old tree.new }
    ensures memory { result ≡ Err NoMemory → names_views act ≡ true }
    ensures consistent { StaysConsistent tree.old tree.new }
    ensures asked { LeavesUnasked tree.old tree.new (Edit.Act view act) }
    ensures measures { KeepsMeasures tree.old tree.new }
{
    if !tree.class(view).takes(act) {
        return Err(EditFault::Refused(Refusal::plain(WRONG_CLASS)));
    }
    if names_views(act) {
        set_names(tree, view, act)?;
    } else if let Act::Direction(direction) = act {
        set_direction(tree, view, direction);
    } else {
        set_facts(tree, view, act);
    }
    Ok(None)
}

/// Sets the text of a view whose class has one.
#[inline(never)]
fn write(
    alloc: Global,
    tree: &mut ViewTree,
    view: Key,
    text: &str,
) -> Result<Option<u64>, EditFault>
    requires live { IsLive tree.old view }
    requires short { IsShortText text.now }
    ensures applied { AppliesEdit (outcome_of_edit (scene_of tree.old)
        (SetText (number_of tree.old view) (chars text.now))) (scene_of tree.new) result }
    ensures kept { OnOk result (KeepsViews tree.old tree.new (Edit.Text view text.entry)) }
    ensures unchanged { KeepsOnErr result tree.old tree.new }
    ensures consistent { StaysConsistent tree.old tree.new }
    ensures asked { LeavesUnasked tree.old tree.new (Edit.Text view text.entry) }
    ensures measures { KeepsMeasures tree.old tree.new }
{
    if !tree.class(view).has_text() {
        return Err(EditFault::Refused(Refusal::plain(WRONG_CLASS)));
    }
    let text = Text::new(alloc, text)?;
    tree.set_text(view, text);
    tree.request(view);
    Ok(None)
}
