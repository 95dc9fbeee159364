//! What has to be painted again once a state is restored.
ghost use Rattle.std.specs.Prelude.{◌≡◌, ℕ, true, false, is_some, OnErr, OnOk};
ghost use Rattle.damage_rect.specs.Within.{LiesIn};
ghost use Rattle.geom_core.specs.declared.geometry.Rect.{Rect};
ghost use Rattle.kept_views.specs.Kept.{StaysConsistent};
ghost use Rattle.saved_state.specs.Answers.{RestoredUnless};
ghost use Rattle.saved_state.specs.Restored.{Restates, all_given, on_paths, set_by, wanted};
ghost use Rattle.saved_state.specs.Restoring.{is_for_other_class, restored};
ghost use Rattle.saved_state.specs.Saving.{OffsetsFit};
ghost use Rattle.seen_edits.specs.Scrolled.{GivenIn, IsIn, NotesGiven};
ghost use Rattle.seen_edits.specs.Shown.{KeepsShown, seen_of};
ghost use Rattle.view_model.specs.Forest.{rows};
ghost use Rattle.view_tree.specs.Views.{IsLive, IsTree, held_of, plain_of, KeepsCounts, KeepsGeometry};
ghost use Rattle.view_model.specs.Failing.{KeepsOnErr};

use crate::trees::recall_tree;
use damage_rect::Damage;
use geom_core::Size;
use saved_state::{StateFault, States, is_given, restore};
use seen_parts::seen;
use std::alloc::Global;
use view_tree::{Key, ViewTree};

/// Sets the offset of each scroll view and the text of each text view for which a state has one, and requests layout there.
/// What is seen of each of them in the window is damage: the outermost of them lie where they lay, and what was seen of the
/// others before lies within these. Where it is refused, or there is no memory, nothing is damaged.
pub fn restore_views(
    alloc: Global,
    tree: &mut ViewTree,
    window: Size,
    states: &States,
    damage: &mut Damage,
) -> Result<(), StateFault>
    ensures shown { KeepsShown window damage.old.rect damage.new.rect tree.old tree.new }
    ensures within { (box : Rect)
        → LiesIn damage.old.rect box
        → GivenIn states.now window box tree.new
        → LiesIn damage.new.rect box }
    ensures undamaged { OnErr result (damage.new ≡ damage.old) }
    ensures plain { OnOk result (plain_of tree.new ≡ restored states.now (plain_of tree.old)) }
    ensures refused { RestoredUnless (is_for_other_class states.now (rows (plain_of tree.old))) result }
    ensures unchanged { KeepsOnErr result tree.old tree.new }
    ensures restates { OnOk result (Restates states.now tree.old tree.new) }
    ensures is_tree { IsTree tree.new }
    ensures counts { KeepsCounts tree.old tree.new }
    ensures geometry { KeepsGeometry tree.old tree.new }
    ensures consistent { StaysConsistent tree.old tree.new }
    ensures held { OnOk result ((key : ℕ) → held_of tree.new key
        ≡ all_given states.now tree.old.tree (set_by states.now tree.old.tree) (held_of tree.old) key) }
    ensures asked { (key : ℕ)
        → on_paths key (set_by states.now tree.old.tree) tree.old.tree ≡ false
        → held_of tree.new key ≡ held_of tree.old key }
    ensures fits { OffsetsFit (plain_of tree.old) → OffsetsFit (plain_of tree.new) }
{
    recall_tree(tree);
    match restore(alloc, tree, states) {
        Ok(()) => {
            recall_tree(tree);
            note_given(tree, window, states, damage);
            Ok(())
        }
        Err(fault) => Err(fault),
    }
}

/// Adds what is seen of each view that a state gives something: of none if it has no entry.
#[tactic(auto, using(saved_state::proofs::NoEntryLaws::wants_none))]
fn note_given(tree: &ViewTree, window: Size, states: &States, damage: &mut Damage)
    ensures grew { LiesIn damage.old.rect damage.new.rect }
    ensures noted { NotesGiven states.now window damage.new.rect tree.now }
    ensures within { (box : Rect)
        → LiesIn damage.old.rect box
        → GivenIn states.now window box tree.now
        → LiesIn damage.new.rect box }
{
    if !states.is_empty() {
        note_all(tree, window, states, damage);
    }
}

/// The same of any state.
#[inline(never)]
fn note_all(tree: &ViewTree, window: Size, states: &States, damage: &mut Damage)
    ensures grew { LiesIn damage.old.rect damage.new.rect }
    ensures noted { NotesGiven states.now window damage.new.rect tree.now }
    ensures within { (box : Rect)
        → LiesIn damage.old.rect box
        → GivenIn states.now window box tree.now
        → LiesIn damage.new.rect box }
{
    let mut next = tree.root();
    while let Some(view) = next {
        next = tree.next_in_preorder(view);
        note_view(tree, window, states, view, damage);
    }
}

/// Adds what is seen of a view, if a state gives it something.
fn note_view(tree: &ViewTree, window: Size, states: &States, view: Key, damage: &mut Damage)
    requires { IsLive tree.now view }
    ensures grew { LiesIn damage.old.rect damage.new.rect }
    ensures noted { is_some (wanted states.now tree.now.tree view) ≡ true → IsIn window damage.new.rect tree.now view }
    ensures within { (box : Rect)
        → LiesIn damage.old.rect box
        → (is_some (wanted states.now tree.now.tree view) ≡ true → LiesIn (seen_of window tree.now view) box)
        → LiesIn damage.new.rect box }
{
    if is_given(tree, states, view) {
        damage.add(seen(tree, window, view));
    }
}
