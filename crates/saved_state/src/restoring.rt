//! Restoring of offsets and texts.
//!
//! Layout is requested at each view whose offset or text is set. What is restored does not become the state that is
//! kept, and an offset is brought into its range by the next frame.
ghost use Rattle.std.specs.Prelude.{◌≡◌, ℕ, ◌++◌, All, Some, false, fold, is_some, IfOk, IfSome, OnOk};
ghost use Rattle.std.specs.Option.{option_map};
ghost use Rattle.kept_views.specs.Kept.{StaysConsistent};
ghost use Rattle.saved_state.specs.Answers.{RestoredUnless};
ghost use Rattle.saved_state.specs.Restored.{Restates, all_given, all_set, given_held, given_values, moved_one, on_paths, paired, set_by, wanted, with_text_at};
ghost use Rattle.saved_state.specs.Restoring.{given, is_for_other_class, restored};
ghost use Rattle.saved_state.specs.Saving.{OffsetsFit};
ghost use Rattle.saved_state.specs.State.{IsValue};
ghost use Rattle.view_model.specs.Forest.{rows};
ghost use Rattle.view_tree.specs.Views.{IsLive, IsTree, SameTree, held_of, plain_of, view_at, KeepsCounts, KeepsGeometry, KeepsNext};
ghost use Rattle.view_model.specs.Failing.{KeepsOnErr};

use crate::fault::{StateFault, other_class};
use crate::marking::is_for_other_class;
use crate::states::States;
use crate::value::{Value, suits};
use std::alloc::{AllocError, Global};
use view_model::Facts;
use view_tree::{Key, ViewTree};

/// Sets the offset of each scroll view and the text of each text view for which a state has one, and requests layout at each
/// of them, in preorder. It is refused where some view has the id of an entry, and no view that suits the entry has it.
/// All texts are made before anything changes.
pub fn restore(alloc: Global, tree: &mut ViewTree, states: &States) -> Result<(), StateFault>
    ensures plain { OnOk result (plain_of tree.new ≡ restored states.now (plain_of tree.old)) }
    ensures refused { RestoredUnless (is_for_other_class states.now (rows (plain_of tree.old))) result }
    ensures unchanged { KeepsOnErr result tree.old tree.new }
    ensures restates { OnOk result (Restates states.now tree.old tree.new) }
    ensures counts { KeepsCounts tree.old tree.new }
    ensures geometry { KeepsGeometry tree.old tree.new }
    ensures consistent { StaysConsistent tree.old tree.new }
    ensures held { OnOk result ((key : ℕ) → held_of tree.new key
        ≡ all_given states.now tree.old.tree (set_by states.now tree.old.tree) (held_of tree.old) key) }
    ensures asked { (key : ℕ)
        → on_paths key (set_by states.now tree.old.tree) tree.old.tree ≡ false
        → held_of tree.new key ≡ held_of tree.old key }
    ensures fits { OffsetsFit (plain_of tree.old) → OffsetsFit (plain_of tree.new) }
{
    states.recall();
    if is_for_other_class(tree, states) {
        return Err(other_class());
    }
    let values = copied_values(alloc, tree, states)?;
    set_values(tree, values);
    Ok(())
}

/// What a state gives the views of a tree, in preorder. A state without an entry gives nothing.
#[tactic(auto, using(crate::proofs::NoEntryLaws::gives_none))]
fn copied_values(
    alloc: Global,
    tree: &ViewTree,
    states: &States,
) -> Result<Vec<(Key, Value)>, AllocError>
    ensures values { IfOk result (λ values. values.items ≡ given_values states.now tree.now.tree (rows tree.now.tree)) }
    ensures fit { IfOk result (λ values. All (λ set. IsValue set.1) values.items) }
    ensures is_tree { IsTree tree.now }
{
    if states.is_empty() {
        // for what a look at the root says of the tree
        let _root = tree.root();
        return Ok(Vec::new(alloc));
    }
    values_of_all(alloc, tree, states)
}

/// The same of any state.
#[inline(never)]
fn values_of_all(
    alloc: Global,
    tree: &ViewTree,
    states: &States,
) -> Result<Vec<(Key, Value)>, AllocError>
    ensures values { IfOk result (λ values. values.items ≡ given_values states.now tree.now.tree (rows tree.now.tree)) }
    ensures fit { IfOk result (λ values. All (λ set. IsValue set.1) values.items) }
    ensures is_tree { IsTree tree.now }
{
    let mut values = Vec::new(alloc);
    let mut next = tree.root();
    while let Some(view) = next {
        next = tree.next_in_preorder(view);
        copy_value(alloc, &mut values, tree, states, view)?;
    }
    Ok(values)
}

/// Adds what a state gives a view, if it gives it something.
fn copy_value(
    alloc: Global,
    values: &mut Vec<(Key, Value)>,
    tree: &ViewTree,
    states: &States,
    view: Key,
) -> Result<(), AllocError>
    requires { IsLive tree.now view }
    ensures values { OnOk result (values.new.items
        ≡ values.old.items ++ paired view (wanted states.now tree.now.tree view)) }
    ensures fit { OnOk result (All (λ set. IsValue set.1) values.old.items
        → All (λ set. IsValue set.1) values.new.items) }
{
    if let Some(value) = given(tree, states, view) {
        let copy = value.copy(alloc)?;
        values.push((view, copy))?;
    }
    Ok(())
}

/// Gives each of these views its value, and requests layout there.
fn set_values(tree: &mut ViewTree, values: Vec<(Key, Value)>)
    requires live { All (λ set. IsLive tree.old set.0) values.items }
    requires fit { All (λ set. IsValue set.1) values.items }
    ensures tree { tree.new.tree ≡ fold with_text_at tree.old.tree values.items }
    ensures orders { tree.new.orders ≡ tree.old.orders }
    ensures next { KeepsNext tree.old tree.new }
    ensures counts { KeepsCounts tree.old tree.new }
    ensures held { (key : ℕ) → held_of tree.new key ≡ all_set tree.old.tree values.items (held_of tree.old) key }
{
    for (view, value) in values {
        set_value(tree, view, value);
    }
}

/// The same of a view alone.
#[inline(never)]
fn set_value(tree: &mut ViewTree, view: Key, value: Value)
    requires live { IsLive tree.old view }
    requires fits { IsValue value }
    ensures tree { tree.new.tree ≡ with_text_at tree.old.tree (view, value) }
    ensures orders { tree.new.orders ≡ tree.old.orders }
    ensures next { KeepsNext tree.old tree.new }
    ensures counts { KeepsCounts tree.old tree.new }
    ensures held { (key : ℕ)
        → held_of tree.new key ≡ given_held (Some value) view tree.old.tree (held_of tree.old) key }
{
    match value {
        Value::Offset(offset) => {
            set_offset(tree, view, offset as i32);
            tree.request(view);
        }
        Value::Text(text) => {
            tree.set_text(view, text);
            tree.request(view);
        }
    }
}

/// Sets the offset of a view, in pixels.
fn set_offset(tree: &mut ViewTree, view: Key, offset: i32)
    requires { IsLive tree.old view }
    ensures same { SameTree tree.old tree.new }
    ensures counts { KeepsCounts tree.old tree.new }
    ensures held { (key : ℕ) → held_of tree.new key ≡ moved_one view offset (held_of tree.old) key }
{
    let facts = moved(tree.facts(view), offset);
    tree.set_facts(view, facts);
}

/// These facts, with another offset, in pixels.
fn moved(facts: &Facts, offset: i32) -> Facts
    ensures { result ≡ record facts.now { offset = offset } }
{
    Facts { offset, ..*facts }
}

/// What a state gives a view, if it gives it something: what the entry of its id has, if that suits the view.
fn given<'a>(tree: &ViewTree, states: &'a States, view: Key) -> Option<&'a Value>
    requires { IsLive tree.now view }
    ensures value { option_map (λ value. value.now) result ≡ given states.now (view_at tree.now view) }
    ensures fits { IfSome result (λ value. IsValue value.now) }
{
    let place = states.place_of(tree.facts(view).id)?;
    let value = states.value_at(place);
    if suits(value, tree.class(view)) {
        Some(value)
    } else {
        None
    }
}

/// Whether a state gives a view something.
pub fn is_given(tree: &ViewTree, states: &States, view: Key) -> bool
    requires { IsLive tree.now view }
    ensures { result ≡ is_some (given states.now (view_at tree.now view)) }
{
    given(tree, states, view).is_some()
}
