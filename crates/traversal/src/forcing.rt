//! Views that are forced with all above them.
//!
//! A root keeps its flags until the edits of a hook are made: a request in the middle of a pass would stop at a forced
//! view and be lost. So the views are recorded, and forced with all above them once the flags are removed.
ghost use Rattle.std.specs.Prelude.{◌≡◌, ℕ, true, []};
ghost use Rattle.kept_views.specs.Pressing.{all_pressed, path_of};
ghost use Rattle.view_tree.specs.tree.Requests.{among, forced_one, pressed};
ghost use Rattle.view_tree.specs.Rows.{ancestors};
ghost use Rattle.view_tree.specs.Views.{IsLive, KeepsOthers, SameTree, held_of, KeepsCounts};

use view_tree::{Key, ViewTree};

/// Forces each of these views, in order, and all above it, and empties the caches of all of them.
pub fn force_all(tree: &mut ViewTree, views: &[Key])
    requires { (key : ℕ) → among key views.now ≡ true → IsLive tree.old key }
    ensures same { SameTree tree.old tree.new }
    ensures held { (key : ℕ) → held_of tree.new key ≡ all_pressed (held_of tree.old) views.now tree.old.tree key }
    ensures counts { KeepsCounts tree.old tree.new }
    ensures still { views.now ≡ [] → tree.new ≡ tree.old }
{
    for view in views {
        force_path(tree, *view);
    }
}

/// Forces a view and all above it, whether they are forced already or not.
#[cycle(force)]
fn force_path(tree: &mut ViewTree, view: Key)
    requires { IsLive tree.old view }
    ensures same { SameTree tree.old tree.new }
    ensures held { (key : ℕ) → held_of tree.new key ≡ pressed (held_of tree.old) (path_of view tree.old.tree) key }
    ensures counts { KeepsCounts tree.old tree.new }
{
    force_above(tree, view);
    press(tree, view);
}

/// Forces all above a view.
#[cycle(force)]
fn force_above(tree: &mut ViewTree, view: Key)
    requires { IsLive tree.old view }
    ensures same { SameTree tree.old tree.new }
    ensures held { (key : ℕ) → held_of tree.new key ≡ pressed (held_of tree.old) (ancestors view tree.old.tree) key }
    ensures counts { KeepsCounts tree.old tree.new }
{
    if let Some(parent) = tree.parent(view) {
        force_path(tree, parent);
    }
}

/// Forces one view, and empties its cache.
fn press(tree: &mut ViewTree, view: Key)
    requires { IsLive tree.old view }
    ensures same { SameTree tree.old tree.new }
    ensures held { held_of tree.new view ≡ forced_one (held_of tree.old view) }
    ensures others { KeepsOthers tree.old tree.new view }
    ensures counts { KeepsCounts tree.old tree.new }
{
    let mut state = tree.state(view);
    state.forced = true;
    tree.set_state(view, state);
    tree.forget(view);
}
