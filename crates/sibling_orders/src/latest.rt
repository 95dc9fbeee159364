//! The last children that have each id, by their numbers. A relative layout keeps for each id a number that those of its
//! children with the id do not exceed: most often it is that of the last one, which is found without a walk then.
ghost use Rattle.std.specs.Prelude.{◌≡◌, ◌≢◌, ◌<◌, ◌≤◌, ◌+◌, ◌*◌, IfOk, OnOk, length, true};
ghost use Rattle.indexmap.specs.IndexMap.{spare};
ghost use Rattle.sibling_orders.specs.Latest.{AreReached, HasNoted, IsAllOrNone};

use indexmap::IndexMap;
use std::alloc::{AllocError, Global};
use view_model::Link;

/// The higher of two numbers.
fn later(first: u64, second: u64) -> u64
    ensures first { first ≤ result }
    ensures second { second ≤ result }
{
    if first < second { second } else { first }
}

/// Records that the child of a number has an id, for which there is room; 0 names nothing and has no entry.
fn note_latest(latest: &mut IndexMap<u32, u64>, id: u32, number: u64)
    requires { id ≢ 0 → 0 < spare latest.old }
    ensures { HasNoted id number latest.old.entries latest.new.entries }
{
    if id == 0 {
        return;
    }
    let last = match latest.get(&id) {
        None => number,
        Some(held) => later(*held, number),
    };
    match latest.insert(id, last) {
        Ok(_) => (),
        Err(_) => unreachable!(),
    }
}

/// The same in a table that is complete or not, and returns whether it is then. One with four times as many ids as this
/// number of children, most of which no child has any longer, is given up.
pub fn note_kid(
    latest: &mut IndexMap<u32, u64>,
    complete: bool,
    kids: usize,
    id: u32,
    number: u64,
) -> bool
    requires { id ≢ 0 → 0 < spare latest.old }
    ensures noted { result ≡ true → (complete ≡ true) × HasNoted id number latest.old.entries latest.new.entries }
    ensures few { IsAllOrNone complete latest.old.entries → length latest.new.entries ≤ 4 * kids + 4 }
    ensures given_up { IsAllOrNone complete latest.old.entries → IsAllOrNone result latest.new.entries }
{
    if !complete {
        return false;
    }
    if latest.len() / 4 > kids {
        latest.clear();
        return false;
    }
    note_latest(latest, id, number);
    true
}

/// Takes the memory for an id; 0 has no entry.
pub fn reserve_id(latest: &mut IndexMap<u32, u64>, id: u32) -> Result<(), AllocError>
    ensures same { latest.new.entries ≡ latest.old.entries }
    ensures room { OnOk result (id ≢ 0 → 0 < spare latest.new) }
{
    if id == 0 {
        return Ok(());
    }
    latest.reserve(1)
}

/// For each id of some children a number that those of the children with the id do not exceed. It takes memory for
/// these ids alone.
pub fn latest_of(
    alloc: Global,
    links: &[Link],
    numbers: &[u64],
) -> Result<IndexMap<u32, u64>, AllocError>
    requires { length numbers.now ≡ length links.now }
    ensures reached { IfOk result (λ latest. AreReached latest.entries links.now numbers.now) }
    ensures few { IfOk result (λ latest. length latest.entries ≤ length links.now) }
{
    let mut latest = IndexMap::new(alloc);
    for (place, link) in links.iter().enumerate() {
        reserve_id(&mut latest, link.id)?;
        note_latest(&mut latest, link.id, numbers[place]);
    }
    Ok(latest)
}
