//! Views that are taken out of layout.
ghost use Rattle.std.specs.Prelude.{◌≡◌, ℕ};
ghost use Rattle.tree_edits.specs.Hiding.{gone_one, hidden_at};
ghost use Rattle.view_tree.specs.Rows.{first_tree, part_from, count_of_key};
ghost use Rattle.view_tree.specs.Views.{IsLive, KeepsOthers, SameTree, held_of, KeepsMeasures};

use view_tree::{Key, ViewTree};

/// Takes a view and all below it out of layout: they are forced, have no bounds, and no size of theirs is known.
pub fn hide(tree: &mut ViewTree, view: Key)
    requires { IsLive tree.old view }
    ensures same { SameTree tree.old tree.new }
    ensures held { (key : ℕ)
        → held_of tree.new key ≡ hidden_at
        (count_of_key key (first_tree (part_from view tree.old.tree))) (held_of tree.old key) }
    ensures measures { KeepsMeasures tree.old tree.new }
{
    hide_one(tree, view);
    let mut next = tree.first(view);
    while let Some(kid) = next {
        hide(tree, kid);
        next = tree.next(kid);
    }
}

/// Takes one view out of layout.
fn hide_one(tree: &mut ViewTree, view: Key)
    requires { IsLive tree.old view }
    ensures same { SameTree tree.old tree.new }
    ensures held { held_of tree.new view ≡ gone_one (held_of tree.old view) }
    ensures others { KeepsOthers tree.old tree.new view }
    ensures measures { KeepsMeasures tree.old tree.new }
{
    tree.set_bounds(view, None);
    let mut state = tree.state(view);
    state.forced = true;
    tree.set_state(view, state);
    tree.forget(view);
}
