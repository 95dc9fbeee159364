//! The layout of a whole tree.
ghost use Rattle.std.specs.Prelude.{◌≡◌, ◌≤◌, ◌+◌, pos, Some, [], true};
ghost use Rattle.damage_rect.specs.Within.{LiesIn};
ghost use Rattle.geom_core.specs.declared.geometry.Rect.{Rect};
ghost use Rattle.geom_core.specs.declared.measuring.Mode.TheVariants.{Exactly};
ghost use Rattle.kept_views.specs.Kept.{IsConsistent};
ghost use Rattle.kept_views.specs.Laying.{differ};
ghost use Rattle.kept_views.specs.Passes.{InPass};
ghost use Rattle.measure_pass.specs.Caches.{Grown};
ghost use Rattle.measure_pass.specs.Measured.{current};
ghost use Rattle.measure_pass.specs.Sharing.{SharesOut};
ghost use Rattle.seen_parts.specs.Meeting.{KeepsSight};
ghost use Rattle.view_model.specs.Facts.{is_shown};
ghost use Rattle.view_model.specs.Geometry.{rect_at};
ghost use Rattle.view_model.specs.Layout.{full_layout, root_calls, root_specs};
ghost use Rattle.view_model.specs.Measuring.{pair_of};
ghost use Rattle.view_model.specs.Offsets.{ranged};
ghost use Rattle.view_model.specs.Visible.{whole_window};
ghost use Rattle.view_tree.specs.Rows.{first_key, head_view};
ghost use Rattle.view_tree.specs.Views.{IsTree, SameTree, geometry_of, held_of, plain_of, specs_of, state_of};
ghost use Rattle.traversal.specs.Counting.{IsMeasuringCounted};
ghost use Rattle.traversal.specs.Covering.{Covered};
ghost use Rattle.traversal.specs.Resting.{IsRootAtRest};

use super::lay::{LayoutContext, lay_open};
use damage_rect::Damage;
use geom_core::{Mode, Size, Spec, child_spec};
use measure_pass::measure;
use seen_parts::window_canvas;
use view_model::{Facts, Work, rect_at};
use view_tree::{Key, ViewTree};

/// Measures the root, which is not gone, and lays it out in a window of this size, and all below it, where they need
/// that; the offset of each scroll view that has bounds is then in its range. What is seen of the views that this moves
/// or scrolls is damage. The root has not settled when this ends.
pub fn lay_root(tree: &mut ViewTree, root: Key, window: Size, damage: &mut Damage, work: &mut Work)
    requires root { first_key tree.old.tree ≡ Some root }
    requires shown { is_shown (head_view tree.old.tree).facts ≡ true }
    requires consistent { IsConsistent tree.old }
    ensures sight { KeepsSight (whole_window window) damage.new.rect (held_of tree.old)
        (held_of tree.new) tree.old.tree }
    ensures within { (box : Rect)
        → LiesIn damage.old.rect box
        → Covered (whole_window window) box (held_of tree.old) (held_of tree.new) tree.old.tree
        → LiesIn damage.new.rect box }
    ensures geometry { geometry_of tree.new ≡ full_layout (plain_of tree.old) window }
    ensures plain { plain_of tree.new ≡ ranged (full_layout (plain_of tree.old) window) (plain_of tree.old) }
    ensures same { SameTree tree.old tree.new }
    ensures is_tree { IsTree tree.old }
    ensures in_pass { InPass [] root (held_of tree.new) tree.old.tree }
    ensures last { specs_of (state_of tree.new root) ≡ root_specs window (head_view tree.old.tree).facts }
    ensures lies { (state_of tree.new root).bounds ≡ Some (rect_at (pos 0) (pos 0) (state_of tree.new root).measured) }
    ensures still { IsRootAtRest (state_of tree.old root) (head_view tree.old.tree).facts window
        → (tree.new ≡ tree.old) × (work.new ≡ work.old) }
    ensures idle { current (state_of tree.old root) (root_specs window (head_view tree.old.tree).facts) ≡ true
        → work.new.measured ≤ work.old.measured }
    ensures measured { work.new.measured ≤ work.old.measured + root_calls (plain_of tree.old) window }
    ensures laid { tree.new.counts.laid
        ≤ tree.old.counts.laid + differ (held_of tree.old) (held_of tree.new) tree.old.tree }
    ensures counted { IsMeasuringCounted tree.old tree.new work.old work.new }
    ensures caches { Grown (λ place other. other ≡ root_specs window (head_view tree.old.tree).facts) (held_of tree.old)
        (held_of tree.new) tree.old.tree }
    ensures shares { SharesOut (λ place other. other ≡ root_specs window (head_view tree.old.tree).facts) (λ place. 1)
        (held_of tree.old) (held_of tree.new) tree.old.tree work.old.measured work.new.measured }
{
    let (ws, hs) = specs_in(window, tree.facts(root));
    let size = measure(tree, root, ws, hs, work);
    let mut context = LayoutContext {
        damage: *damage,
        work: *work,
    };
    lay_open(
        tree,
        root,
        rect_at(0, 0, size),
        &Some(window_canvas(window)),
        &mut context,
    );
    *damage = context.damage;
    *work = context.work;
}

/// The specs of the root in a window of this size.
fn specs_in(window: Size, root: &Facts) -> (Spec, Spec)
    ensures { result ≡ pair_of (root_specs window root.now) }
{
    (
        child_spec(exactly(window.w), 0, root.width),
        child_spec(exactly(window.h), 0, root.height),
    )
}

/// The spec of exactly this size.
fn exactly(size: i32) -> Spec
    ensures { result ≡ record { mode = Exactly; size = size } }
{
    Spec {
        mode: Mode::Exactly,
        size,
    }
}
