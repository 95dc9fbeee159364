//! One pass over the whole tree.
ghost use Rattle.std.specs.Prelude.{◌≡◌, ◌≤◌, ◌+◌, ℕ, Bool, [], None, Some, true, false};
ghost use Rattle.damage_rect.specs.Within.{LiesIn};
ghost use Rattle.geom_core.specs.declared.geometry.Rect.{Rect};
ghost use Rattle.kept_views.specs.Passes.{InPass, settled};
ghost use Rattle.measure_pass.specs.Caches.{Grew};
ghost use Rattle.measure_pass.specs.Measured.{current};
ghost use Rattle.measure_pass.specs.Sharing.{most};
ghost use Rattle.seen_parts.specs.Meeting.{KeepsSight};
ghost use Rattle.view_model.specs.Facts.{is_shown};
ghost use Rattle.view_model.specs.Visible.{whole_window};
ghost use Rattle.view_tree.specs.Rows.{first_key, head_view};
ghost use Rattle.view_tree.specs.tree.Requests.{among};
ghost use Rattle.kept_views.specs.Kept.{IsConsistent, IsKept};
ghost use Rattle.kept_views.specs.Laying.{differ};
ghost use Rattle.traversal.specs.Changing.{IsPassed, SameShape};
ghost use Rattle.traversal.specs.Counting.{IsMeasuringCounted};
ghost use Rattle.traversal.specs.Covering.{Covered};
ghost use Rattle.traversal.specs.Frames.{after_pass, fired_in};
ghost use Rattle.view_model.specs.Layout.{root_calls, root_specs};
ghost use Rattle.view_tree.specs.Views.{IsLive, SameTree, cache_of, geometry_of, held_of, number_of, plain_of, state_of, KeepsGeometry, KeepsCounts};
ghost use Rattle.traversal.specs.Growing.{IsMeasuredByPass, IsOffPaths, IsUnedited, pass_edits};
ghost use Rattle.traversal.specs.Requesters.{IsRootToLay};
ghost use Rattle.traversal.specs.Resting.{IsAtRest};
ghost use Rattle.traversal.specs.Unasked.{IsUnasked};

use crate::firing::{fire, fired};
use crate::forcing::force_all;
use crate::laying::{lay_root, settle};
use damage_rect::Damage;
use geom_core::Size;
use size_hooks::Hooks;
use view_model::Work;
use view_tree::{Key, ViewTree};

/// Lays the whole tree out in a window of this size, where it needs that, and makes the edits of the first hook that
/// fires; returns whether one did. The edits are made while a root that was forced still is. A request stops there, so
/// that each view that made one is forced with all above it once the root has settled. If no hook fired, what is seen
/// of the views that were moved or scrolled is damage.
pub fn pass(
    tree: &mut ViewTree,
    hooks: &mut Hooks,
    window: Size,
    damage: &mut Damage,
    work: &mut Work,
) -> bool
    requires consistent { IsConsistent tree.old }
    ensures quiet { result ≡ false → SameTree tree.old tree.new }
    ensures sight { result ≡ false
        → KeepsSight (whole_window window) damage.new.rect (held_of tree.old) (held_of tree.new) tree.old.tree }
    ensures within { result ≡ false
        → (box : Rect)
        → LiesIn damage.old.rect box
        → Covered (whole_window window) box (held_of tree.old) (held_of tree.new) tree.old.tree
        → LiesIn damage.new.rect box }
    ensures passed { IsPassed (after_pass (plain_of tree.old) hooks.old window) tree.new hooks.new }
    ensures fired { result ≡ (after_pass (plain_of tree.old) hooks.old window).fired }
    ensures shape { SameShape tree.old tree.new }
    ensures consistent { IsConsistent tree.new }
    ensures measured { work.new.measured ≤ work.old.measured + root_calls (plain_of tree.old) window }
    ensures laid { tree.new.counts.laid
        ≤ tree.old.counts.laid + differ (held_of tree.old) (held_of tree.new) tree.old.tree }
    ensures counted { IsMeasuringCounted tree.old tree.new work.old work.new }
    ensures idle { (root : ℕ)
        → first_key tree.old.tree ≡ Some root
        → current (state_of tree.old root) (root_specs window (head_view tree.old.tree).facts) ≡ true
        → work.new.measured ≤ work.old.measured }
    ensures few { (calm : ℕ → Bool)
        → ((key : ℕ) → IsLive tree.old key → calm key ≡ true → IsUnasked tree.old window key)
        → work.new.measured ≤ work.old.measured + most calm 1 tree.old.tree }
    ensures calm { IsAtRest tree.old window
        → fired_in hooks.old (geometry_of tree.old) ≡ None
        → (tree.new ≡ tree.old) × (result ≡ false) × (hooks.new ≡ hooks.old) × (work.new ≡ work.old) }
    ensures rest { result ≡ false → IsAtRest tree.new window }
    ensures caches { (key : ℕ)
        → IsLive tree.old key
        → IsUnedited tree.old.tree (pass_edits (plain_of tree.old) hooks.old window) key
        → Grew (IsMeasuredByPass (plain_of tree.old) window (number_of tree.old key))
        (cache_of tree.old key) (cache_of tree.new key) }
    ensures last { result ≡ false
        → (root : ℕ)
        → first_key tree.new.tree ≡ Some root
        → is_shown (head_view tree.new.tree).facts ≡ true
        → current (state_of tree.new root) (root_specs window (head_view tree.new.tree).facts) ≡ true }
{
    let _in_range = work.measured;
    let Some(root) = root_to_lay(tree) else {
        return false;
    };
    lay_root(tree, root, window, damage, work);
    let Some(view) = fired(tree, hooks) else {
        end_pass(tree, root, &[]);
        return false;
    };
    let requesters = fire(tree, hooks, view);
    end_pass(tree, root, requesters.as_slice());
    true
}

/// The root settles, and then each view that has made a request is forced, with all above it.
fn end_pass(tree: &mut ViewTree, root: Key, requesters: &[Key])
    requires live { IsLive tree.old root }
    requires requesters { (key : ℕ) → among key requesters.now ≡ true → IsLive tree.old key }
    ensures same { SameTree tree.old tree.new }
    ensures plain { plain_of tree.new ≡ plain_of tree.old }
    ensures geometry { KeepsGeometry tree.old tree.new }
    ensures bounds { (key : ℕ) → (state_of tree.new key).bounds ≡ (state_of tree.old key).bounds }
    ensures offsets { (key : ℕ) → (held_of tree.new key).offset ≡ (held_of tree.old key).offset }
    ensures own { requesters.now ≡ [] → held_of tree.new root ≡ settled (held_of tree.old root) }
    ensures caches { (key : ℕ)
        → IsOffPaths requesters.now tree.old.tree key
        → cache_of tree.new key ≡ cache_of tree.old key }
    ensures still { requesters.now ≡ []
        → (state_of tree.old root).forced ≡ false
        → (state_of tree.old root).layout_needed ≡ false
        → tree.new ≡ tree.old }
    ensures kept { InPass requesters.now root (held_of tree.old) tree.old.tree
        → IsKept (held_of tree.new) tree.old.tree }
    ensures counts { KeepsCounts tree.old tree.new }
{
    settle(tree, root);
    force_all(tree, requesters);
}

/// The root, if there is one and it is not gone.
fn root_to_lay(tree: &ViewTree) -> Option<Key>
    ensures { IsRootToLay tree.now result }
{
    let root = tree.root()?;
    if tree.facts(root).is_shown() {
        Some(root)
    } else {
        None
    }
}
