//! Which hook fires, and the effect of its edits on the tree.
ghost use Rattle.std.specs.Prelude.{◌≡◌, ◌≤◌, ◌<◌, ◌+◌, ◌++◌, ◌∷◌, ◌-ℤ◌, ℕ, List, [], true, false, IfSome};
ghost use Rattle.arrayvec.specs.ArrayVec.{array_vec_len};
ghost use Rattle.kept_views.specs.Passes.{InPass};
ghost use Rattle.kept_views.specs.Pressing.{path_of};
ghost use Rattle.view_model.specs.declared.limits.TheConstants.{MAX_EDITS};
ghost use Rattle.view_tree.specs.tree.Requests.{among};
ghost use Rattle.traversal.specs.Growing.{IsOffPaths, IsUnedited};
ghost use Rattle.traversal.specs.Requesters.{listed, with_requester};
ghost use Rattle.std.specs.Ordering.{int_eq};
ghost use Rattle.size_hooks.specs.Hooks.{disarmed, hook_of};
ghost use Rattle.traversal.specs.Changing.{SameShape};
ghost use Rattle.traversal.specs.Frames.{edited_by, edits_of, fired_in, same_size};
ghost use Rattle.view_model.specs.Changes.{facts_after_change};
ghost use Rattle.view_model.specs.Geometry.{size_of_rect};
ghost use Rattle.view_model.specs.PlainTree.{with_facts};
ghost use Rattle.view_tree.specs.Rows.{first_tree, part_from};
ghost use Rattle.view_tree.specs.Views.{IsLive, cache_of, geometry_of, held_of, laid_at, laid_rows, number_of, plain_of, state_of, KeepsGeometry, KeepsCounts};

use arrayvec::ArrayVec;
use geom_core::{Rect, Size};
use size_hooks::Hooks;
use view_model::NumEdit;
use view_model::limits::MAX_EDITS;
use view_tree::{Key, ViewTree};

/// The number of the first view in preorder whose hook fires: it has bounds, its hook is armed, and its size is another
/// than the one reported. If no hook is armed, no view is looked at.
pub fn fired(tree: &ViewTree, hooks: &Hooks) -> Option<u64>
    ensures { result ≡ fired_in hooks.now (geometry_of tree.now) }
{
    if hooks.is_empty() {
        return None;
    }
    let root = tree.root()?;
    fired_from(tree, hooks, root)
}

/// The first of these among a view and all below it.
fn fired_from(tree: &ViewTree, hooks: &Hooks, view: Key) -> Option<u64>
    requires { IsLive tree.now view }
    ensures { result ≡ fired_in hooks.now (laid_rows (held_of tree.now) (first_tree (part_from view tree.now.tree))) }
{
    if let Some(found) = fired_at(tree, hooks, view) {
        return Some(found);
    }
    let mut next = tree.first(view);
    while let Some(kid) = next {
        if let Some(found) = fired_from(tree, hooks, kid) {
            return Some(found);
        }
        next = tree.next(kid);
    }
    None
}

/// The number of a view, if its hook fires.
fn fired_at(tree: &ViewTree, hooks: &Hooks, view: Key) -> Option<u64>
    requires { IsLive tree.now view }
    ensures { result ≡ fired_in hooks.now (laid_at (number_of tree.now view) (state_of tree.now view).bounds) }
{
    let rect = tree.state(view).bounds?;
    let number = tree.number(view);
    let reported = hooks.reported(number)?;
    if has_size(rect, reported) {
        None
    } else {
        Some(number)
    }
}

/// Whether a rectangle has this size.
fn has_size(rect: Rect, size: Size) -> bool
    ensures { result ≡ same_size (size_of_rect rect) size }
{
    has_side(rect.left, rect.right, size.w) && has_side(rect.top, rect.bottom, size.h)
}

/// Whether it is this far from one place to another.
fn has_side(from: i32, to: i32, side: i32) -> bool
    ensures { result ≡ int_eq (to -ℤ from) side }
{
    match to.checked_sub(from) {
        Some(length) => length == side,
        None => false,
    }
}

/// Makes the edits of the hook of a view, in order, and takes the hook away; returns the views whose layout they have
/// requested.
pub fn fire(tree: &mut ViewTree, hooks: &mut Hooks, view: u64) -> ArrayVec<Key, MAX_EDITS>
    ensures plain { plain_of tree.new ≡ edited_by (edits_of (hook_of hooks.old view)) (plain_of tree.old) }
    ensures geometry { KeepsGeometry tree.old tree.new }
    ensures shape { SameShape tree.old tree.new }
    ensures bounds { (key : ℕ) → (state_of tree.new key).bounds ≡ (state_of tree.old key).bounds }
    ensures in_pass { (root : ℕ)
        → InPass [] root (held_of tree.old) tree.old.tree
        → InPass result.items root (held_of tree.new) tree.new.tree }
    ensures live { (key : ℕ) → among key result.items ≡ true → IsLive tree.new key }
    ensures counts { KeepsCounts tree.old tree.new }
    ensures caches { (key : ℕ)
        → IsUnedited tree.old.tree (edits_of (hook_of hooks.old view)) key
        → (cache_of tree.new key ≡ cache_of tree.old key) × IsOffPaths result.items tree.old.tree key }
    ensures hooks { hooks.new ≡ disarmed view hooks.old }
{
    let mut requesters = ArrayVec::new();
    let mut k = 0;
    while let Some(edit) = hooks.edit(view, k) {
        let requester = make(tree, edit);
        note(&mut requesters, requester);
        k += 1;
    }
    hooks.disarm(view);
    requesters
}

/// Adds a requester, if there is one.
fn note(requesters: &mut ArrayVec<Key, MAX_EDITS>, requester: Option<Key>)
    requires { array_vec_len requesters.old < MAX_EDITS }
    ensures items { requesters.new.items ≡ requesters.old.items ++ listed requester }
    ensures few { array_vec_len requesters.new ≤ array_vec_len requesters.old + 1 }
{
    if let Some(view) = requester {
        requesters.push(view);
    }
}

/// Makes an edit, if its view is there, and requests the layout of that view, which it returns.
fn make(tree: &mut ViewTree, edit: NumEdit) -> Option<Key>
    ensures plain { plain_of tree.new ≡ with_facts edit.view (facts_after_change edit.change) (plain_of tree.old) }
    ensures geometry { KeepsGeometry tree.old tree.new }
    ensures shape { SameShape tree.old tree.new }
    ensures bounds { (key : ℕ) → (state_of tree.new key).bounds ≡ (state_of tree.old key).bounds }
    ensures in_pass { (keys : List ℕ) (root : ℕ)
        → InPass keys root (held_of tree.old) tree.old.tree
        → InPass (with_requester result keys) root (held_of tree.new) tree.new.tree }
    ensures live { IfSome result (λ view. IsLive tree.new view) }
    ensures counts { KeepsCounts tree.old tree.new }
    ensures caches { (key : ℕ)
        → IsUnedited tree.old.tree (edit ∷ []) key
        → (cache_of tree.new key ≡ cache_of tree.old key)
        × IfSome result (λ view. among key (path_of view tree.old.tree) ≡ false) }
{
    let Some(view) = tree.find(edit.view) else {
        return None;
    };
    let facts = edit.change.on(*tree.facts(view));
    tree.set_facts(view, facts);
    tree.request(view);
    Some(view)
}
