//! The conditions on a hook that is to be armed.

ghost use Rattle.std.specs.Prelude.{◌≡◌, ◌≤◌, length};
ghost use Rattle.std.specs.List.{list_all};
ghost use Rattle.std.specs.Option.{option_map};
ghost use Rattle.traversal.specs.Changing.{FitAll};
ghost use Rattle.view_model.specs.PlainTree.{view_in};
ghost use Rattle.view_model.specs.declared.changes.NumEdit.{NumEdit as PlainEdit};
ghost use Rattle.view_model.specs.Numbers.{max_edits};
ghost use Rattle.view_tree.specs.Views.{IsLive, geometry_of, number_of, plain_of};
ghost use Rattle.view_world.specs.screen.KeyedScreen.{geometry_in};
ghost use Rattle.view_world.specs.world.Step.{may_change, numbered_edits, size_in};

use crate::screen::stage::Stage;
use arrayvec::ArrayVec;
use geom_core::Size;
use script_lines::Asked;
use traversal::near_size;
use view_model::NumEdit;
use view_model::limits::MAX_EDITS;
use view_tree::{Key, ViewTree};
use world_parts::find;

/// The size of a view that has no bounds.
const NOTHING: Size = Size { w: 0, h: 0 };

/// The edits of a hook, each with the number of its view, or `None` if a view is not there.
pub fn numbered_edits(tree: &ViewTree, asked: &[Asked]) -> Option<ArrayVec<NumEdit, MAX_EDITS>>
    requires { length asked.now ≤ max_edits }
    ensures { option_map (λ edits. edits.items) result ≡ numbered_edits (plain_of tree.now) asked.now }
{
    let mut edits = ArrayVec::new();
    for edit in asked {
        let view = find(tree, edit.view)?;
        edits.push(NumEdit {
            view: tree.number(view),
            change: edit.change,
        });
    }
    Some(edits)
}

/// Whether each view has what its edit changes.
pub fn may_change_all(tree: &ViewTree, edits: &[NumEdit]) -> bool
    ensures { result ≡ list_all
        (λ (edit : PlainEdit). may_change (view_in (plain_of tree.now) edit.view) edit.change) edits.now }
{
    for edit in edits {
        if !may_change(tree, *edit) {
            return false;
        }
    }
    true
}

/// Whether a view has what an edit changes.
fn may_change(tree: &ViewTree, edit: NumEdit) -> bool
    ensures { result ≡ may_change (view_in (plain_of tree.now) edit.view) edit.change }
{
    match tree.find(edit.view) {
        None => true,
        Some(view) => tree.class(view).takes_change(edit.change),
    }
}

/// The size of a view, and nothing if it has no bounds or the last frame has not settled.
pub fn size_at(tree: &ViewTree, stage: Stage, view: Key) -> Size
    requires live { IsLive tree.now view }
    requires narrow { FitAll (geometry_of tree.now) }
    ensures { result ≡ size_in (geometry_in stage tree.now) (number_of tree.now view) }
{
    match stage {
        Stage::NoWindow | Stage::NoFrame | Stage::Unsettled => NOTHING,
        Stage::Settled => present_size(tree, view),
    }
}

/// The size of a view if the last frame has settled, and nothing if it has no bounds.
fn present_size(tree: &ViewTree, view: Key) -> Size
    requires live { IsLive tree.now view }
    requires narrow { FitAll (geometry_of tree.now) }
    ensures { result ≡ size_in (geometry_of tree.now) (number_of tree.now view) }
{
    match tree.state(view).bounds {
        Some(rect) => near_size(rect),
        None => NOTHING,
    }
}
