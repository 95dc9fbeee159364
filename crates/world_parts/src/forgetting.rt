//! What is forgotten of views that go away.

ghost use Rattle.std.specs.Prelude.{◌≡◌, ◌&&◌, not, ℕ};
ghost use Rattle.touch_dispatch.specs.gesture.Kept.{gesture_of, is_open};
ghost use Rattle.view_model.specs.PlainTree.{numbers_of};
ghost use Rattle.view_tree.specs.Rows.{first_tree, part_from, views_of};
ghost use Rattle.view_tree.specs.Views.{IsLive};
ghost use Rattle.world_parts.specs.Places.{all_disarmed};
ghost use Rattle.world_parts.specs.Touching.{all_closed, is_among};

use size_hooks::Hooks;
use touch_dispatch::Gesture;
use view_tree::{Key, ViewTree};

/// Removes the hooks of a view and of all below it, and what is kept of them for touches.
pub fn forget(tree: &ViewTree, hooks: &mut Hooks, gesture: &mut Gesture, view: Key)
    requires { IsLive tree.now view }
    ensures hooks { hooks.new ≡ all_disarmed
        (numbers_of (views_of (first_tree (part_from view tree.now.tree)))) hooks.old }
    ensures gesture { gesture_of gesture.new
        ≡ all_closed (numbers_of (views_of (first_tree (part_from view tree.now.tree)))) (gesture_of gesture.old) }
    ensures opened { (other : ℕ)
        → is_open gesture.new other ≡ (is_open gesture.old other
        && not (is_among other (numbers_of (views_of (first_tree (part_from view tree.now.tree)))))) }
{
    let number = tree.number(view);
    hooks.disarm(number);
    gesture.close(number);
    let mut next = tree.first(view);
    while let Some(kid) = next {
        forget(tree, hooks, gesture, kid);
        next = tree.next(kid);
    }
}
