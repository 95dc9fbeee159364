//! Which open views have a node, and where. A view gets its node when it first is a target, or a group with one.
ghost use Rattle.std.specs.Prelude.{◌≡◌, ◌<◌, ◌≤◌, ◌⊎◌, true, ℕ, if◌then◌else◌, Some, None, is_some, length, nat_eq};
ghost use Rattle.indexmap.specs.IndexMap.{get as get_key, insert_entry, spare, swap_remove_entry};
ghost use Rattle.touch_targets.specs.Pool.{IsSoundPool, slot_in, seats_in};

use crate::links;
use crate::node::Node;
use indexmap::IndexMap;
use slab::Slab;
use slab_link::Link;

/// The slot of a view's node, if the view is open and has one. As long as no view was closed, the index of a view's
/// entry is its number less one, so it is looked for there first.
pub fn slot_of(slots: &IndexMap<u64, Link>, view: u64) -> Option<usize>
    ensures { result ≡ slot_in slots.now view }
{
    let first = view.saturating_sub(1) as usize;
    match slots.get_index(first) {
        Some((other, slot)) if *other == view => slot.key(),
        _ => slots.get(&view)?.key(),
    }
}

/// The slot of an open view's node, which is made if there is none.
pub fn ensure_node(nodes: &mut Slab<Node>, slots: &mut IndexMap<u64, Link>, view: u64) -> usize
    requires sound { IsSoundPool nodes.old slots.old }
    requires open { is_some (get_key nat_eq slots.old view) ≡ true }
    ensures sound { IsSoundPool nodes.new slots.new }
    ensures seats { seats_in nodes.new slots.new ≡ seats_in nodes.old slots.old }
    ensures slot { slot_in slots.new view ≡ Some result }
    ensures kept { (other slot : ℕ)
        → slot_in slots.old other ≡ Some slot
        → slot_in slots.new other ≡ Some slot }
{
    match slot_of(slots, view) {
        Some(slot) => slot,
        None => {
            let slot = links::put_in(nodes, view);
            note_slot(slots, view, Link::to(slot));
            slot
        }
    }
}

/// Records where the node of a view is, if it has one. The view is open, or there is room for one more.
pub fn note_slot(slots: &mut IndexMap<u64, Link>, view: u64, slot: Link)
    requires { (is_some (get_key nat_eq slots.old view) ≡ true) ⊎ (0 < spare slots.old) }
    ensures entries { slots.new.entries ≡ insert_entry nat_eq slots.old.entries view slot }
    ensures noted { (other : ℕ)
        → get_key nat_eq slots.new other
        ≡ (if nat_eq view other then Some slot else get_key nat_eq slots.old other) }
{
    match slots.insert(view, slot) {
        Ok(_) => (),
        Err(_) => unreachable!(),
    }
}

/// Removes a view from those that are open, and returns the slot of its node, if it has one.
pub fn forget_slot(slots: &mut IndexMap<u64, Link>, view: u64) -> Option<usize>
    ensures value { result ≡ slot_in slots.old view }
    ensures entries { slots.new.entries ≡ swap_remove_entry (nat_eq view) slots.old.entries }
    ensures fewer { length slots.new.entries ≤ length slots.old.entries }
    ensures forgot { (other : ℕ)
        → get_key nat_eq slots.new other ≡ (if nat_eq view other then None else get_key nat_eq slots.old other) }
{
    slots.swap_remove(&view)?.key()
}
