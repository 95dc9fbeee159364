//! Whether a state fits a tree: its entries are marked for which there is a view that suits them.
ghost use Rattle.std.specs.Prelude.{◌≡◌, ◌≤◌, ◌<◌, ◌||◌, ℕ, false, length, slice_index_or};
ghost use Rattle.saved_state.specs.Restoring.{AreMarks, entry_at, is_for_other_class, is_unmet, meets};
ghost use Rattle.saved_state.specs.Numbers.{max_entries};
ghost use Rattle.view_model.specs.Forest.{rows};
ghost use Rattle.view_tree.specs.Views.{IsLive, plain_of, view_at};

use crate::format::MAX_ENTRIES;
use crate::states::States;
use crate::value::suits;
use view_tree::{Key, ViewTree};

/// The most entries of a state for which marks are few.
const FEW_ENTRIES: usize = 64;

/// Whether some view has the id of an entry, and no view that suits the entry has it.
#[tactic(auto, using(crate::proofs::NoEntryLaws::fits_all))]
pub fn is_for_other_class(tree: &ViewTree, states: &States) -> bool
    ensures { result ≡ is_for_other_class states.now (rows (plain_of tree.now)) }
{
    if states.is_empty() {
        return false;
    }
    if states.count() <= FEW_ENTRIES {
        few_are_for_other_class(tree, states)
    } else {
        many_are_for_other_class(tree, states)
    }
}

/// The same of a state of few entries.
#[inline(never)]
fn few_are_for_other_class(tree: &ViewTree, states: &States) -> bool
    requires { length states.now ≤ FEW_ENTRIES }
    ensures { result ≡ is_for_other_class states.now (rows (plain_of tree.now)) }
{
    let mut marks = [false; FEW_ENTRIES];
    mark_all(&mut marks, tree, states);
    has_unmarked(&marks, tree, states)
}

/// The same of any state. Its marks are many, and clearing them takes time.
#[inline(never)]
fn many_are_for_other_class(tree: &ViewTree, states: &States) -> bool
    requires { length states.now ≤ max_entries }
    ensures { result ≡ is_for_other_class states.now (rows (plain_of tree.now)) }
{
    let mut marks = [false; MAX_ENTRIES];
    mark_all(&mut marks, tree, states);
    has_unmarked(&marks, tree, states)
}

/// Marks each entry whose id a view has that suits it.
fn mark_all(marks: &mut [bool], tree: &ViewTree, states: &States)
    requires sized { length states.now ≤ length marks.old }
    requires none { (place : ℕ) → slice_index_or marks.old place false ≡ false }
    ensures sized { length states.now ≤ length marks.new }
    ensures marks { AreMarks states.now (rows (plain_of tree.now)) marks.new }
{
    let mut next = tree.root();
    while let Some(view) = next {
        next = tree.next_in_preorder(view);
        mark_one(marks, tree, states, view);
    }
}

/// Marks the entry whose id a view has, if the view suits it.
fn mark_one(marks: &mut [bool], tree: &ViewTree, states: &States, view: Key)
    requires live { IsLive tree.now view }
    requires sized { length states.now ≤ length marks.old }
    ensures sized { length states.now ≤ length marks.new }
    ensures marks { (place : ℕ)
        → place < length states.now
        → slice_index_or marks.new place false
        ≡ (slice_index_or marks.old place false || meets (entry_at states.now place) (view_at tree.now view)) }
{
    let Some(place) = states.place_of(tree.facts(view).id) else {
        return;
    };
    if suits(states.value_at(place), tree.class(view)) {
        marks[place] = true;
    }
}

/// Whether some view has the id of an entry that is not marked.
fn has_unmarked(marks: &[bool], tree: &ViewTree, states: &States) -> bool
    requires sized { length states.now ≤ length marks.now }
    requires marks { AreMarks states.now (rows (plain_of tree.now)) marks.now }
    ensures { result ≡ is_for_other_class states.now (rows (plain_of tree.now)) }
{
    let mut next = tree.root();
    while let Some(view) = next {
        next = tree.next_in_preorder(view);
        if is_unmarked(marks, tree, states, view) {
            return true;
        }
    }
    false
}

/// Whether a view has the id of an entry that is not marked.
fn is_unmarked(marks: &[bool], tree: &ViewTree, states: &States, view: Key) -> bool
    requires live { IsLive tree.now view }
    requires sized { length states.now ≤ length marks.now }
    requires marks { AreMarks states.now (rows (plain_of tree.now)) marks.now }
    ensures { result ≡ is_unmet states.now (rows (plain_of tree.now)) (view_at tree.now view) }
{
    match states.place_of(tree.facts(view).id) {
        None => false,
        Some(place) => !marks[place],
    }
}
