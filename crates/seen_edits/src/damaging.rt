//! Edits of a tree, and what has to be painted again after them.
//!
//! An edit damages what was seen of its view before it, a scroll what is seen after it, and an edit that layout alone
//! reads damages nothing: the next layout adds what it moves. Damage after each edit would be layout at each edit.
ghost use Rattle.std.specs.Prelude.{◌≡◌, ◌<◌, ◌≢◌, pos, true, Err, OnErr, OnOk, Ok};
ghost use Rattle.damage_rect.specs.Within.{LiesIn};
ghost use Rattle.geom_core.specs.Rects.{hull_of};
ghost use Rattle.geom_core.specs.declared.geometry.Rect.{Rect};
ghost use Rattle.kept_views.specs.Kept.{StaysConsistent};
ghost use Rattle.seen_edits.specs.Shown.{GrowsWithin, IsChange, KeepsShown, edited, is_unseen, act_is_unseen, seen_of};
ghost use Rattle.tree_edits.specs.Applied.{AppliesEdit, IsEdit, MayWantMemory, numbered};
ghost use Rattle.tree_edits.specs.Asking.{LeavesUnasked};
ghost use Rattle.tree_edits.specs.Editing.{outcome_of_edit};
ghost use Rattle.tree_edits.specs.Keeping.{KeepsViews};
ghost use Rattle.tree_edits.specs.Scene.{scene_of};
ghost use Rattle.view_model.specs.Geometry.{rect_at};
ghost use Rattle.view_model.specs.Visible.{whole_window};
ghost use Rattle.view_model.specs.declared.fault.Fault.TheVariants.{NoMemory};
ghost use Rattle.view_tree.specs.Views.{IsLive, KeepsMeasures};
ghost use Rattle.view_model.specs.Failing.{KeepsOnErr};

use crate::trees::recall_tree;
use damage_rect::Damage;
use geom_core::{Rect, Size};
use seen_parts::{is_seen_within, seen, window_rect};
use std::alloc::Global;
use tree_edits::{Edit, EditFault, apply};
use view_model::Act;
use view_tree::{Key, ViewTree};

/// Makes an edit that adds and removes no view. What was seen of its view in the window is damage, unless the edit
/// shows in no picture; no more is seen of it after. A refused edit damages nothing.
pub fn change(
    alloc: Global,
    tree: &mut ViewTree,
    window: Size,
    edit: Edit<'_>,
    damage: &mut Damage,
) -> Result<Option<u64>, EditFault>
    requires edit { IsEdit tree.old edit }
    requires leaves { IsChange edit }
    ensures shown { KeepsShown window damage.old.rect damage.new.rect tree.old tree.new }
    ensures within { GrowsWithin window (edited edit.entry) tree.old tree.new damage.old.rect damage.new.rect }
    ensures unseen { is_unseen edit.entry ≡ true → damage.new ≡ damage.old }
    ensures undamaged { OnErr result (damage.new ≡ damage.old) }
    ensures applied { AppliesEdit (outcome_of_edit (scene_of tree.old) (numbered tree.old edit.entry))
        (scene_of tree.new) result }
    ensures kept { OnOk result (KeepsViews tree.old tree.new edit.entry) }
    ensures unchanged { KeepsOnErr result tree.old tree.new }
    ensures memory { result ≡ Err NoMemory → MayWantMemory edit.entry }
    ensures consistent { StaysConsistent tree.old tree.new }
    ensures asked { LeavesUnasked tree.old tree.new edit.entry }
    ensures measures { KeepsMeasures tree.old tree.new }
{
    recall_tree(tree);
    if is_unseen(&edit) {
        let made = apply(alloc, tree, edit);
        recall_tree(tree);
        return made;
    }
    let view = edited(&edit);
    let before = part_left(tree, window, view, damage.rect());
    match apply(alloc, tree, edit) {
        Ok(made) => {
            recall_tree(tree);
            damage.add(before);
            Ok(made)
        }
        Err(fault) => Err(fault),
    }
}

/// The view that an edit changes.
fn edited(edit: &Edit<'_>) -> Key
    requires { IsChange edit.now }
    ensures { result ≡ edited edit.now }
{
    match edit {
        Edit::Act { view, .. } => *view,
        Edit::Text { view, .. } => *view,
        Edit::Add { .. } | Edit::Remove(_) => unreachable!(),
    }
}

/// Whether an edit shows in no picture.
fn is_unseen(edit: &Edit<'_>) -> bool
    ensures { result ≡ is_unseen edit.now }
{
    match edit {
        Edit::Act { act, .. } => act_is_unseen(*act),
        Edit::Add { .. } | Edit::Remove(_) | Edit::Text { .. } => false,
    }
}

/// Whether an act sets what layout alone reads, an id, or which views get events. The picture shows what layout reads once
/// the next layout has moved something.
fn act_is_unseen(act: Act) -> bool
    ensures { result ≡ act_is_unseen act }
{
    !act.facet().shows()
}

/// Removes a view and all below it. What was seen of it in the window is damage.
pub fn take(
    alloc: Global,
    tree: &mut ViewTree,
    window: Size,
    view: Key,
    damage: &mut Damage,
) -> Result<Option<u64>, EditFault>
    requires { IsLive tree.old view }
    ensures shown { KeepsShown window damage.old.rect damage.new.rect tree.old tree.new }
    ensures within { (box : Rect)
        → LiesIn damage.old.rect box
        → LiesIn (seen_of window tree.old view) box
        → LiesIn damage.new.rect box }
    ensures undamaged { OnErr result (damage.new ≡ damage.old) }
    ensures applied { AppliesEdit (outcome_of_edit (scene_of tree.old) (numbered tree.old (Edit.Remove view)))
        (scene_of tree.new) result }
    ensures kept { OnOk result (KeepsViews tree.old tree.new (Edit.Remove view)) }
    ensures unchanged { KeepsOnErr result tree.old tree.new }
    ensures memory { result ≢ Err NoMemory }
    ensures consistent { StaysConsistent tree.old tree.new }
    ensures asked { LeavesUnasked tree.old tree.new (Edit.Remove view) }
    ensures measures { KeepsMeasures tree.old tree.new }
{
    recall_tree(tree);
    let part = part_left(tree, window, view, damage.rect());
    match apply(alloc, tree, Edit::Remove(view)) {
        Ok(made) => {
            recall_tree(tree);
            damage.add(part);
            Ok(made)
        }
        Err(refused) => Err(refused),
    }
}

/// What of a view has yet to be damage: what is seen of it, or nothing if that is damage for sure.
fn part_left(tree: &ViewTree, window: Size, view: Key, damage: Rect) -> Rect
    requires { IsLive tree.now view }
    ensures seen { LiesIn result (seen_of window tree.now view) }
    ensures enough { LiesIn (seen_of window tree.now view) (hull_of damage result) }
{
    if is_damage(tree, window, view, damage) {
        return Damage::new().rect();
    }
    seen(tree, window, view)
}

/// Whether what is seen of a view is damage for sure, by what takes less time than `seen`.
fn is_damage(tree: &ViewTree, window: Size, view: Key, damage: Rect) -> bool
    requires { IsLive tree.now view }
    ensures { result ≡ true → LiesIn (seen_of window tree.now view) damage }
{
    if covers(damage, window) {
        return true;
    }
    is_seen_within(tree, view, damage)
}

/// Whether all of a window of this size is within a rectangle.
fn covers(rect: Rect, window: Size) -> bool
    ensures { result ≡ true → LiesIn (whole_window window).clip rect }
{
    if rect.left > 0 {
        return false;
    }
    if rect.top > 0 {
        return false;
    }
    if rect.right < window.w {
        return false;
    }
    rect.bottom >= window.h
}

/// All of the window is damage.
pub fn damage_all(damage: &mut Damage, window: Size)
    ensures grew { LiesIn damage.old.rect damage.new.rect }
    ensures whole { LiesIn (rect_at (pos 0) (pos 0) window) damage.new.rect }
    ensures within { (box : Rect)
        → LiesIn damage.old.rect box
        → LiesIn (rect_at (pos 0) (pos 0) window) box
        → LiesIn damage.new.rect box }
{
    damage.add(window_rect(window));
}
