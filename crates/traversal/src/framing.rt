//! A frame: one pass, or two.
ghost use Rattle.std.specs.Prelude.{◌≡◌, ◌≤◌, ◌+◌, ◌*◌, ℕ, Bool, None, Some, true};
ghost use Rattle.measure_pass.specs.Caches.{Grew};
ghost use Rattle.measure_pass.specs.Measured.{current};
ghost use Rattle.measure_pass.specs.Sharing.{most};
ghost use Rattle.view_model.specs.Facts.{is_shown};
ghost use Rattle.view_model.specs.Layout.{root_specs};
ghost use Rattle.view_tree.specs.Rows.{first_key, head_view};
ghost use Rattle.kept_views.specs.Kept.{IsConsistent};
ghost use Rattle.kept_views.specs.Laying.{differ};
ghost use Rattle.view_model.specs.Forest.{count_of};
ghost use Rattle.traversal.specs.Counting.{IsMeasuringCounted};
ghost use Rattle.traversal.specs.Changing.{FitAll, IsDamage, IsFramed, SameShape};
ghost use Rattle.traversal.specs.Frames.{after_frame, fired_in, frame_calls};
ghost use Rattle.traversal.specs.Growing.{IsMeasuredByFrame, IsUnedited, frame_edits};
ghost use Rattle.traversal.specs.Reporting.{reported_over};
ghost use Rattle.traversal.specs.Resting.{IsAtRest};
ghost use Rattle.traversal.specs.Unasked.{IsUnasked};
ghost use Rattle.size_hooks.specs.Hooks.{IsMap};
ghost use Rattle.view_tree.specs.Views.{IsLive, IsTree, cache_of, geometry_of, held_of, number_of, plain_of, state_of};

use crate::outcome::Frame;
use crate::pass::pass;
use crate::reporting::report_all;
use damage_rect::Damage;
use geom_core::{Rect, Size};
use seen_parts::window_rect;
use size_hooks::Hooks;
use view_model::Work;
use view_tree::ViewTree;

/// Lays the whole tree out in a window of this size, where it needs that: one pass, and a second one if that fired a
/// hook. If the last pass fired none, the frame has settled: the views have the bounds that it gave them, and each
/// armed hook has the present size of its view reported. Then nothing is left to do, and another frame changes nothing
/// until something is asked of a view, a hook is armed or the window changes.
///
/// The damage is what has to be painted then: the bounding box of what was seen and what is seen of the views that have
/// other bounds or another offset, or the whole window if a hook fired.
///
/// If no hook fires, a view is passed over, with all below it, that is not forced and is asked for as it was last, or
/// that is not asked for. The root is measured once at most, and any other view three times for each time that the view
/// around it is.
pub fn frame(tree: &mut ViewTree, hooks: &mut Hooks, window: Size, work: &mut Work) -> Frame
    requires consistent { IsConsistent tree.old }
    ensures framed { IsFramed (after_frame (plain_of tree.old) hooks.old window) tree.new hooks.new result }
    ensures fits { FitAll (geometry_of tree.new) }
    ensures shape { SameShape tree.old tree.new }
    ensures consistent { IsConsistent tree.new }
    ensures damage { IsDamage tree.old tree.new window result }
    ensures measured { work.new.measured ≤ work.old.measured + frame_calls (plain_of tree.old) hooks.old window }
    ensures laid { result.fired ≡ 0
        → tree.new.counts.laid ≤ tree.old.counts.laid + differ (held_of tree.old) (held_of tree.new) tree.old.tree }
    ensures laid_twice { tree.new.counts.laid ≤ tree.old.counts.laid + 2 * count_of tree.old.tree }
    ensures counted { IsMeasuringCounted tree.old tree.new work.old work.new }
    ensures idle { result.fired ≡ 0
        → (root : ℕ)
        → first_key tree.old.tree ≡ Some root
        → current (state_of tree.old root) (root_specs window (head_view tree.old.tree).facts) ≡ true
        → work.new.measured ≤ work.old.measured }
    ensures few { result.fired ≡ 0
        → (calm : ℕ → Bool)
        → ((key : ℕ) → IsLive tree.old key → calm key ≡ true → IsUnasked tree.old window key)
        → work.new.measured ≤ work.old.measured + most calm 1 tree.old.tree }
    ensures calm { IsAtRest tree.old window
        → fired_in hooks.old (geometry_of tree.old) ≡ None
        → (tree.new ≡ tree.old)
        × (result.fired ≡ 0)
        × (result.settled ≡ true)
        × (work.new ≡ work.old)
        × (hooks.new ≡ hooks.old) }
    ensures rest { result.settled ≡ true
        → IsAtRest tree.new window × (fired_in hooks.new (geometry_of tree.new) ≡ None) }
    ensures caches { (key : ℕ)
        → IsLive tree.old key
        → IsUnedited tree.old.tree (frame_edits (plain_of tree.old) hooks.old window) key
        → Grew (IsMeasuredByFrame (plain_of tree.old) hooks.old window (number_of tree.old key))
        (cache_of tree.old key) (cache_of tree.new key) }
    ensures last { result.settled ≡ true
        → (root : ℕ)
        → first_key tree.new.tree ≡ Some root
        → is_shown (head_view tree.new.tree).facts ≡ true
        → current (state_of tree.new root) (root_specs window (head_view tree.new.tree).facts) ≡ true }
{
    let _in_range = work.measured;
    let mut damage = Damage::new();
    if !pass(tree, hooks, window, &mut damage, work) {
        return settle(tree, hooks, damage.rect(), 0);
    }
    if !pass(tree, hooks, window, &mut damage, work) {
        return settle(tree, hooks, window_rect(window), 1);
    }
    Frame {
        settled: false,
        fired: 2,
        damage: window_rect(window),
    }
}

/// Ends a frame whose last pass fired no hook, after `fired` that were fired before; `damage` has to be painted.
fn settle(tree: &ViewTree, hooks: &mut Hooks, damage: Rect, fired: u8) -> Frame
    ensures hooks { hooks.new ≡ reported_over (geometry_of tree.now) hooks.old }
    ensures is_tree { IsTree tree.now }
    ensures map { IsMap hooks.old }
    ensures settled { result.settled ≡ true }
    ensures fired { result.fired ≡ fired }
    ensures damage { result.damage ≡ damage }
{
    report_all(tree, hooks);
    Frame {
        settled: true,
        fired,
        damage,
    }
}
