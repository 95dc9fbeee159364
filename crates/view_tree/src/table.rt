//! The keys of views by their numbers, and the memory that more views take. A key is kept in four bytes, as links are.
//!
//! A table is beside the slab so that a line finds a view without a walk.
ghost use Rattle.std.specs.Prelude.{◌≡◌, ◌<◌, ◌≤◌, ◌+◌, ℕ, Some, None, OnOk, if◌then◌else◌, nat_eq};
ghost use Rattle.indexmap.specs.IndexMap.{get as key_of, spare};
ghost use Rattle.slab.specs.Slab.{HasRoomFor};
ghost use Rattle.slab_link.specs.Numbers.{links_end};
ghost use Rattle.view_model.specs.Refusals.{IsRefusedExactlyFor};

pub mod ids;

use crate::fault::AttachFault;
use crate::node::Node;
use crate::table::ids::Holders;
use indexmap::IndexMap;
use slab::Slab;
use slab_link::LINKS_END;

/// Records the key of a number, for which there is room.
pub fn note_key(keys: &mut IndexMap<u64, u32>, number: u64, key: usize)
    requires room { 0 < spare keys.old }
    requires small { key < links_end }
    ensures noted { (n : ℕ)
        → key_of nat_eq keys.new n ≡ (if nat_eq number n then Some key else key_of nat_eq keys.old n) }
    ensures spare { spare keys.old ≤ spare keys.new + 1 }
{
    match keys.insert(number, key as u32) {
        Ok(_) => (),
        Err(_) => unreachable!(),
    }
}

/// The key of a number. As long as no view was removed, the number's entry comes right after those of all numbers from 1
/// on below it, so it is looked for there first.
pub fn find_key(keys: &IndexMap<u64, u32>, number: u64) -> Option<usize>
    ensures { result ≡ key_of nat_eq keys.now number }
{
    match keys.get_index(number.saturating_sub(1) as usize) {
        Some((found, key)) if *found == number => Some(*key as usize),
        _ => hashed_key(keys, number),
    }
}

/// The same by its hash.
fn hashed_key(keys: &IndexMap<u64, u32>, number: u64) -> Option<usize>
    ensures { result ≡ key_of nat_eq keys.now number }
{
    match keys.get(&number) {
        None => None,
        Some(key) => Some(*key as usize),
    }
}

/// Removes a number and its key.
pub fn drop_key(keys: &mut IndexMap<u64, u32>, number: u64)
    ensures { (n : ℕ) → key_of nat_eq keys.new n ≡ (if nat_eq number n then None else key_of nat_eq keys.old n) }
{
    keys.swap_remove(&number);
}

/// Takes the memory for this many more views and their numbers, and for this many more ids, if links can name the views.
pub fn make_room(
    nodes: &mut Slab<Node>,
    keys: &mut IndexMap<u64, u32>,
    ids: &mut IndexMap<u32, Holders>,
    views: usize,
    names: usize,
) -> Result<(), AttachFault>
    ensures refused { IsRefusedExactlyFor None result }
    ensures nodes { nodes.new ≡ record nodes.old { capacity = nodes.new.capacity } }
    ensures keys { keys.new.entries ≡ keys.old.entries }
    ensures ids { ids.new.entries ≡ ids.old.entries }
    ensures room { OnOk result (HasRoomFor nodes.new views) }
    ensures small { OnOk result (nodes.new.capacity ≤ links_end) }
    ensures spare { OnOk result ((views ≤ spare keys.new) × (names ≤ spare ids.new)) }
{
    if nodes.reserve(views).is_err()
        || nodes.capacity() > LINKS_END
        || keys.reserve(views).is_err()
        || ids.reserve(names).is_err()
    {
        return Err(AttachFault::NoMemory);
    }
    Ok(())
}
