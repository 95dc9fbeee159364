//! The views that lines name.

ghost use Rattle.std.specs.Prelude.{◌≡◌, Err, IfSome};
ghost use Rattle.std.specs.Option.{option_map};
ghost use Rattle.view_tree.specs.Views.{IsLive, IsTree, number_of, plain_of};
ghost use Rattle.world_parts.specs.Given.{Gives, IsPlace, Resolved};
ghost use Rattle.world_parts.specs.Inflating.{place_in};
ghost use Rattle.world_parts.specs.Naming.{named};
ghost use Rattle.world_parts.specs.Faults.{HasFile, HasMemory};

use crate::fault::StepFault;
use line_words::Name;
use view_model::Refusal;
use view_model::refusals::{HAS_ROOT, NO_ROOT, NO_VIEW};
use view_tree::{Key, ViewTree};

/// The view that a name means, if there is one.
pub fn find(tree: &ViewTree, name: Name) -> Option<Key>
    ensures number { option_map (number_of tree.now) result ≡ named (plain_of tree.now) name }
    ensures live { IfSome result (IsLive tree.now) }
{
    match name {
        Name::Number(number) => tree.find(number),
        Name::Id(0) => None,
        Name::Id(id) => tree.by_id(id),
    }
}

/// The view that a line names, or why the line is refused.
pub fn resolve(tree: &ViewTree, name: Name) -> Result<Key, StepFault>
    ensures { Resolved tree.now name result }
{
    if tree.root().is_none() {
        return Err(StepFault::Refused(Refusal::plain(NO_ROOT)));
    }
    match find(tree, name) {
        Some(view) => Ok(view),
        None => Err(StepFault::Refused(Refusal::plain(NO_VIEW))),
    }
}

/// Where the tree of a file goes: below the view that a line names, or if none is named, as the root.
pub fn place_of(tree: &ViewTree, into: Option<Name>) -> Result<Option<Key>, StepFault>
    ensures place { Gives (IsPlace tree.now) (place_in (plain_of tree.now) into) result }
    ensures no_shelf { HasFile result }
    ensures no_memory { HasMemory result }
{
    let Some(name) = into else {
        if tree.root().is_some() {
            return Err(StepFault::Refused(Refusal::plain(HAS_ROOT)));
        }
        return Ok(None);
    };
    if tree.root().is_none() {
        return Err(StepFault::Refused(Refusal::plain(NO_ROOT)));
    }
    match find(tree, name) {
        Some(view) => Ok(Some(view)),
        None => Err(StepFault::Refused(Refusal::plain(NO_VIEW))),
    }
}

/// The invariant of every tree, for contracts alone.
pub fn recall_tree(tree: &ViewTree)
    ensures { IsTree tree.now }
{
    let _root = tree.root();
}
