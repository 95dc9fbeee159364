//! States as they are read, and taken up.
ghost use Rattle.std.specs.Prelude.{◌≡◌, ℕ, false, Err, IfOk, OnErr, OnOk};
ghost use Rattle.damage_rect.specs.Within.{LiesIn};
ghost use Rattle.geom_core.specs.declared.geometry.Rect.{Rect};
ghost use Rattle.saved_state.specs.Restored.{Restates, on_paths, set_by};
ghost use Rattle.saved_state.specs.Restoring.{is_for_other_class, restored};
ghost use Rattle.saved_state.specs.Saving.{OffsetsFit};
ghost use Rattle.saved_state.specs.State.{decoded};
ghost use Rattle.seen_edits.specs.Scrolled.{GivenIn};
ghost use Rattle.seen_edits.specs.Shown.{KeepsShown};
ghost use Rattle.view_model.specs.Forest.{rows};
ghost use Rattle.kept_views.specs.Kept.{StaysConsistent};
ghost use Rattle.view_tree.specs.Views.{IsTree, held_of, plain_of, KeepsCounts, KeepsGeometry};
ghost use Rattle.world_replies.specs.Replies.{state_bytes};
ghost use Rattle.view_world.specs.saving.Stated.{ReadsState, TakesUp};
ghost use Rattle.view_model.specs.Failing.{KeepsOnErr};

use damage_rect::Damage;
use geom_core::Size;
use saved_state::{States, read};
use seen_edits::restore_views;
use std::alloc::Global;
use view_tree::ViewTree;
use world_parts::StepFault;
use world_replies::Response;

/// The bytes that hexadecimal digits write. A line has an even number of them, so only memory can run out.
pub fn bytes_of(alloc: Global, digits: &str) -> Result<Vec<u8>, StepFault>
    ensures bytes { IfOk result (λ bytes. bytes.items ≡ state_bytes digits.now) }
    ensures memory { OnErr result (result ≡ Err StepFault.NoMemory) }
{
    match hex::decode(alloc, digits.as_bytes()) {
        Ok(bytes) => Ok(bytes),
        Err(_) => Err(StepFault::NoMemory),
    }
}

/// The state that bytes represent.
pub fn state_of(alloc: Global, bytes: &[u8]) -> Result<States, StepFault>
    ensures { ReadsState (decoded bytes.now) result }
{
    Ok(read(alloc, bytes)?)
}

/// Sets the offsets and texts that a state has. Where they are seen in a window of this size is damage.
pub fn take_up(
    alloc: Global,
    tree: &mut ViewTree,
    window: Size,
    states: &States,
    damage: &mut Damage,
) -> Result<Response, StepFault>
    ensures shown { KeepsShown window damage.old.rect damage.new.rect tree.old tree.new }
    ensures undamaged { OnErr result (damage.new ≡ damage.old) }
    ensures within { (box : Rect)
        → LiesIn damage.old.rect box
        → GivenIn states.now window box tree.new
        → LiesIn damage.new.rect box }
    ensures taken { TakesUp (is_for_other_class states.now (rows (plain_of tree.old))) result }
    ensures plain { OnOk result (plain_of tree.new ≡ restored states.now (plain_of tree.old)) }
    ensures unchanged { KeepsOnErr result tree.old tree.new }
    ensures restates { OnOk result (Restates states.now tree.old tree.new) }
    ensures is_tree { IsTree tree.new }
    ensures counts { KeepsCounts tree.old tree.new }
    ensures asked { (key : ℕ)
        → on_paths key (set_by states.now tree.old.tree) tree.old.tree ≡ false
        → held_of tree.new key ≡ held_of tree.old key }
    ensures geometry { KeepsGeometry tree.old tree.new }
    ensures consistent { StaysConsistent tree.old tree.new }
    ensures fits { OffsetsFit (plain_of tree.old) → OffsetsFit (plain_of tree.new) }
{
    restore_views(alloc, tree, window, states, damage)?;
    Ok(Response::Nothing)
}
