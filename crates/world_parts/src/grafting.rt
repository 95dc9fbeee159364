//! Views that are added to a tree.
ghost use Rattle.std.specs.Prelude.{◌≡◌, ◌<◌, ◌≤◌, ◌+◌, ℕ, false, OnOk, None, IfSome};
ghost use Rattle.std.specs.Option.{option_map};
ghost use Rattle.kept_views.specs.Kept.{StaysConsistent};
ghost use Rattle.tree_edits.specs.Asking.{is_on_paths, listed};
ghost use Rattle.view_model.specs.Cycles.{graft_cycle};
ghost use Rattle.view_model.specs.Forest.{Nothing};
ghost use Rattle.view_model.specs.Grafts.{graft_refusal};
ghost use Rattle.view_model.specs.Sprouts.{seeds_of};
ghost use Rattle.view_model.specs.Numbers.{max_views, numbers_end};
ghost use Rattle.view_tree.specs.tree.Requests.{requested};
ghost use Rattle.view_tree.specs.Faults.{IsRefusedOrCyclic};
ghost use Rattle.view_tree.specs.Views.{IsLive, SameTree, held_of, number_of, plain_of, KeepsCounts};
ghost use Rattle.world_parts.specs.Places.{HasGained};
ghost use Rattle.view_model.specs.Failing.{KeepsOnErr};

use crate::naming::recall_tree;
use view_model::Sapling;
use view_tree::{AttachFault, Key, ViewTree};

/// Adds views under the next numbers, and requests layout at the view below which they are added.
pub fn graft(tree: &mut ViewTree, place: Option<Key>, sapling: Sapling) -> Result<(), AttachFault>
    requires live { IfSome place (λ view. IsLive tree.old view) }
    requires root { place ≡ None → tree.old.tree ≡ Nothing }
    requires numbers { tree.old.next < numbers_end }
    ensures gained { OnOk result (HasGained tree.old place (seeds_of sapling.sprouts.items) tree.new) }
    ensures refused { IsRefusedOrCyclic
        (graft_refusal (plain_of tree.old) (option_map (number_of tree.old) place) (seeds_of sapling.sprouts.items))
        (graft_cycle (plain_of tree.old) (option_map (number_of tree.old) place) tree.old.next
        (seeds_of sapling.sprouts.items)) result }
    ensures few { tree.new.next ≤ tree.old.next + max_views }
    ensures consistent { StaysConsistent tree.old tree.new }
    ensures unchanged { KeepsOnErr result tree.old tree.new }
    ensures counts { KeepsCounts tree.old tree.new }
    ensures asked { OnOk result ((key : ℕ) → IsLive tree.old key → is_on_paths (listed place) tree.old.tree key ≡ false
        → held_of tree.new key ≡ held_of tree.old key) }
{
    recall_tree(tree);
    tree.graft(place, sapling)?;
    recall_tree(tree);
    request_at(tree, place);
    Ok(())
}

/// Requests layout at a view, if there is one.
fn request_at(tree: &mut ViewTree, view: Option<Key>)
    requires { IfSome view (λ view. IsLive tree.old view) }
    ensures same { SameTree tree.old tree.new }
    ensures held { (key : ℕ) → held_of tree.new key ≡ requested (held_of tree.old) (listed view) tree.old.tree key }
    ensures counts { KeepsCounts tree.old tree.new }
{
    if let Some(view) = view {
        tree.request(view);
    }
}
