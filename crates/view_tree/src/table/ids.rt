//! The views that have each id, kept so that one that has an id alone is found without a walk.
//!
//! An id's entry is how many views have it and the sum of their keys: a view that gets or loses an id costs one step,
//! and the sum is the key where one view has the id. Of several views the first is found by a walk.
ghost use Rattle.std.specs.Prelude.{◌≡◌, ◌≢◌, ◌≤◌, ◌<◌, ◌+◌, ℕ, Some, None, IfSome, IsOk, OnErr, OnOk, nat_eq, option_map, slice_get, if◌then◌else◌};
ghost use Rattle.indexmap.specs.IndexMap.{get as holders_at, spare};
ghost use Rattle.view_model.specs.Numbers.{max_views};
ghost use Rattle.view_model.specs.Refusals.{IsRefusedExactlyFor};
ghost use Rattle.view_tree.specs.table.Holders.{dropped, noted, renamed, with_holder, without_holder};

use crate::fault::AttachFault;
use indexmap::IndexMap;

/// How many views have an id, and the sum of their keys modulo 2 ^ 64, which is the key if it is one view.
#[derive(Clone, Copy)]
pub struct Holders {
    pub count: u32,
    pub sum: usize,
}

/// These views and the one of a key.
fn one_more(held: Option<Holders>, key: usize) -> Holders
    requires { IfSome held (λ holders. holders.count ≤ max_views) }
    ensures { result ≡ with_holder held key }
{
    match held {
        None => Holders { count: 1, sum: key },
        Some(holders) => Holders {
            count: holders.count + 1,
            sum: holders.sum.wrapping_add(key),
        },
    }
}

/// These views without the one of a key; `None` if it was the only one.
fn one_less(holders: Holders, key: usize) -> Option<Holders>
    ensures { result ≡ without_holder (Some holders) key }
{
    if holders.count > 1 {
        return Some(Holders {
            count: holders.count - 1,
            sum: holders.sum.wrapping_sub(key),
        });
    }
    None
}

/// Records that the view of this key has an id; 0 names nothing and has no entry.
pub fn note_id(ids: &mut IndexMap<u32, Holders>, id: u32, key: usize) -> Result<(), AttachFault>
    requires { IfSome (holders_at nat_eq ids.old id) (λ holders. holders.count ≤ max_views) }
    ensures refused { IsRefusedExactlyFor None result }
    ensures noted { OnOk result ((i : ℕ) → holders_at nat_eq ids.new i ≡ noted (holders_at nat_eq ids.old i) id key i) }
    ensures unchanged { OnErr result (ids.new.entries ≡ ids.old.entries) }
    ensures succeeds { (id ≢ 0 → 0 < spare ids.old) → IsOk result }
    ensures spare { spare ids.old ≤ spare ids.new + 1 }
{
    if id == 0 {
        return Ok(());
    }
    match ids.insert(id, one_more(None, key)) {
        Ok(None) => Ok(()),
        Ok(held) => {
            set_holders(ids, id, one_more(held, key));
            Ok(())
        }
        Err(_) => Err(AttachFault::NoMemory),
    }
}

/// Sets the views of an id that has some.
fn set_holders(ids: &mut IndexMap<u32, Holders>, id: u32, holders: Holders)
    requires { holders_at nat_eq ids.old id ≢ None }
    ensures set { (i : ℕ)
        → holders_at nat_eq ids.new i ≡ (if nat_eq id i then Some holders else holders_at nat_eq ids.old i) }
    ensures spare { spare ids.old ≤ spare ids.new }
{
    match ids.get_mut(&id) {
        None => unreachable!(),
        Some(held) => {
            *held = holders;
        }
    }
}

/// Records that the view of this key no longer has an id.
pub fn drop_id(ids: &mut IndexMap<u32, Holders>, id: u32, key: usize)
    ensures { (i : ℕ) → holders_at nat_eq ids.new i ≡ dropped (holders_at nat_eq ids.old i) id key i }
{
    if id == 0 {
        return;
    }
    let Some((place, holders)) = find_holders(ids, id) else {
        return;
    };
    match one_less(holders, key) {
        None => {
            ids.swap_remove_index(place);
        }
        Some(rest) => set_holders(ids, id, rest),
    }
}

/// The views of an id, and the place of its entry: one look-up serves to read it and to remove it.
fn find_holders(ids: &IndexMap<u32, Holders>, id: u32) -> Option<(usize, Holders)>
    ensures views { option_map (λ found. found.1) result ≡ holders_at nat_eq ids.now id }
    ensures place { IfSome result (λ found. slice_get ids.now.entries found.0 ≡ Some (id, found.1)) }
{
    let (place, _, holders) = ids.get_full(&id)?;
    Some((place, *holders))
}

/// Records that the view of this key has another id than before.
pub fn rename(
    ids: &mut IndexMap<u32, Holders>,
    key: usize,
    old: u32,
    new: u32,
) -> Result<(), AttachFault>
    requires { IfSome (holders_at nat_eq ids.old new) (λ holders. holders.count ≤ max_views) }
    ensures refused { IsRefusedExactlyFor None result }
    ensures renamed { OnOk result ((i : ℕ)
        → holders_at nat_eq ids.new i ≡ renamed (holders_at nat_eq ids.old i) old new key i) }
    ensures unchanged { OnErr result (ids.new.entries ≡ ids.old.entries) }
{
    if new == old {
        return Ok(());
    }
    note_id(ids, new, key)?;
    drop_id(ids, old, key);
    Ok(())
}
