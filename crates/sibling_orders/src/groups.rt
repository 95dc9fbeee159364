//! What is kept of the children of relative layouts, by the numbers of these.
ghost use Rattle.std.specs.Prelude.{◌≡◌, ◌≢◌, ◌≤◌, ◌<◌, ◌+◌, ◌^◌, ℕ, length, true, None, Some, IfSome, OnOk, option_map, if◌then◌else◌, nat_eq};
ghost use Rattle.indexmap.specs.IndexMap.{get as held_at, spare};
ghost use Rattle.view_model.specs.Refusals.{IsRefusedExactlyFor};
ghost use Rattle.view_model.specs.Classes.{is_relative};
ghost use Rattle.sibling_orders.specs.Ordering.{HasIdRoom, HasKidRoom, IsRuled, IsRuledAt, IsTaken, IsTakenAt, group_at, no_group, noted, orders_in, place_in, plain_group, plain_orders, with_kid};

use crate::highest::{higher, highest_in};
use crate::indexes::{add_index, is_straight, remove_index};
use crate::latest::{note_kid, reserve_id};
use indexmap::IndexMap;
use relative_layout::Orders;
use std::alloc::{AllocError, Global};
use view_model::{Class, Fault, Link};

/// What is kept of the children of a relative layout: the orders in which they are measured, as places among the
/// children, and the children's numbers in list order. This list turns the places of the orders into views without a
/// walk, and is part of the kept orders; no other view has a list of its children. The rules of no child name an id above
/// `highest`. If `latest` is `complete`, no child with an id that is not 0 has a number above that of the id in it. An
/// order that `straight_across` or `straight_down` marks is the list.
#[derive(Drop)]
pub struct SiblingOrders {
    pub orders: Orders,
    pub kids: Vec<u64>,
    pub highest: u32,
    pub latest: IndexMap<u32, u64>,
    pub complete: bool,
    pub straight_across: bool,
    pub straight_down: bool,
}

/// Takes the memory for one more child.
fn reserve_kid(group: &mut SiblingOrders) -> Result<(), AllocError>
    ensures same { plain_group group.new ≡ plain_group group.old }
    ensures room { OnOk result (HasKidRoom group.new) }
{
    group.orders.across.reserve(1)?;
    group.orders.down.reserve(1)?;
    group.kids.reserve(1)
}

/// Takes the memory for one more child of a relative layout.
pub fn make_kid_room(groups: &mut IndexMap<u64, SiblingOrders>, parent: u64) -> Result<(), Fault>
    ensures refused { IsRefusedExactlyFor None result }
    ensures same { orders_in groups.new.entries ≡ orders_in groups.old.entries }
    ensures groups { (k : ℕ) → group_at groups.new k ≡ group_at groups.old k }
    ensures spare { spare groups.new ≡ spare groups.old }
    ensures room { OnOk result (IfSome (held_at nat_eq groups.new parent) HasKidRoom) }
{
    let Some(group) = groups.get_mut(&parent) else {
        return Ok(());
    };
    match reserve_kid(group) {
        Ok(()) => Ok(()),
        Err(_) => Err(Fault::NoMemory),
    }
}

/// A new child comes after the others; it is tied to none of them.
fn push_kid(group: &mut SiblingOrders, kid: u64)
    requires room { HasKidRoom group.old }
    requires few { length group.old.kids.items < 2 ^ 32 }
    ensures { plain_group group.new ≡ with_kid kid (plain_group group.old) }
{
    let place = group.kids.len() as u32;
    add_index(&mut group.orders.across, place);
    add_index(&mut group.orders.down, place);
    group.kids.push_reserved(kid);
}

/// The same in a table.
pub fn add_kid(groups: &mut IndexMap<u64, SiblingOrders>, parent: u64, kid: u64)
    requires room { IfSome (held_at nat_eq groups.old parent) HasKidRoom }
    requires few { IfSome (group_at groups.old parent) (λ group. length group.kids < 2 ^ 32) }
    ensures groups { (k : ℕ)
        → group_at groups.new k
        ≡ (if nat_eq parent k then option_map (with_kid kid) (group_at groups.old k) else group_at groups.old k) }
    ensures spare { spare groups.new ≡ spare groups.old }
{
    if let Some(group) = groups.get_mut(&parent) {
        push_kid(group, kid);
    }
}

/// Where a child is in its group, or past the end.
fn place_of_kid(kids: &[u64], kid: u64) -> usize
    ensures { result ≡ place_in kid kids.now }
{
    for (place, other) in kids.iter().enumerate() {
        if *other == kid {
            return place;
        }
    }
    kids.len()
}

/// A child is removed, and its place is removed from both orders; no other view is a child.
fn take_kid(group: &mut SiblingOrders, kid: u64)
    ensures { IsTaken kid (plain_group group.old) (plain_group group.new) }
{
    let place = place_of_kid(&group.kids, kid);
    if place < group.kids.len() {
        group.kids.remove(place);
        remove_index(&mut group.orders.across, place);
        remove_index(&mut group.orders.down, place);
    }
}

/// The same in a table, if the child had a parent.
pub fn remove_kid(groups: &mut IndexMap<u64, SiblingOrders>, parent: Option<u64>, kid: u64)
    ensures own { (k : ℕ) → parent ≡ Some k → IsTakenAt kid (group_at groups.old k) (group_at groups.new k) }
    ensures others { (k : ℕ) → parent ≢ Some k → group_at groups.new k ≡ group_at groups.old k }
{
    let Some(parent) = parent else {
        return;
    };
    if let Some(group) = groups.get_mut(&parent) {
        take_kid(group, kid);
    }
}

/// Takes the memory for added views. So many of them are relative layouts, and one is another child of their parent, if
/// that is a relative layout.
pub fn make_group_room(
    groups: &mut IndexMap<u64, SiblingOrders>,
    parent: Option<u64>,
    count: usize,
) -> Result<(), Fault>
    ensures refused { IsRefusedExactlyFor None result }
    ensures same { orders_in groups.new.entries ≡ orders_in groups.old.entries }
    ensures groups { (k : ℕ) → group_at groups.new k ≡ group_at groups.old k }
    ensures spare { OnOk result (count ≤ spare groups.new) }
    ensures room { OnOk result ((k : ℕ) → parent ≡ Some k → IfSome (held_at nat_eq groups.new k) HasKidRoom) }
{
    if groups.reserve(count).is_err() {
        return Err(Fault::NoMemory);
    }
    match parent {
        None => Ok(()),
        Some(parent) => make_kid_room(groups, parent),
    }
}

/// Inserts a group under its number.
pub fn note_group(groups: &mut IndexMap<u64, SiblingOrders>, number: u64, group: SiblingOrders)
    requires { 0 < spare groups.old }
    ensures groups { (k : ℕ)
        → group_at groups.new k ≡ (if nat_eq number k then Some (plain_group group) else group_at groups.old k) }
    ensures spare { spare groups.old ≤ spare groups.new + 1 }
{
    match groups.insert(number, group) {
        Ok(_) => (),
        Err(_) => unreachable!(),
    }
}

/// Inserts groups under their numbers.
pub fn note_groups(groups: &mut IndexMap<u64, SiblingOrders>, entries: Vec<(u64, SiblingOrders)>)
    requires { length entries.items ≤ spare groups.old }
    ensures { (k : ℕ) → group_at groups.new k ≡ noted entries.items k (group_at groups.old k) }
{
    for (number, group) in entries {
        note_group(groups, number, group);
    }
}

/// A group without children.
fn empty_group(alloc: Global) -> SiblingOrders
    ensures { plain_group result ≡ no_group }
{
    SiblingOrders {
        orders: Orders {
            across: Vec::new(alloc),
            down: Vec::new(alloc),
        },
        kids: Vec::new(alloc),
        highest: 0,
        latest: IndexMap::new(alloc),
        complete: true,
        straight_across: true,
        straight_down: true,
    }
}

/// Records an added view. It has no children, is the last child of the relative layout of the number `parent`, if there
/// is one, and is tied to none of its siblings.
pub fn join_group(
    groups: &mut IndexMap<u64, SiblingOrders>,
    parent: Option<u64>,
    number: u64,
    class: Class,
)
    requires spare { 0 < spare groups.old }
    requires room { (k : ℕ) → parent ≡ Some k → IfSome (held_at nat_eq groups.old k) HasKidRoom }
    requires few { (k : ℕ) → parent ≡ Some k → IfSome (group_at groups.old k) (λ group. length group.kids < 2 ^ 32) }
    ensures own { is_relative class ≡ true → group_at groups.new number ≡ Some no_group }
    ensures parent { (k : ℕ)
        → parent ≡ Some k
        → k ≢ number
        → group_at groups.new k ≡ option_map (with_kid number) (group_at groups.old k) }
    ensures others { (k : ℕ) → parent ≢ Some k → k ≢ number → group_at groups.new k ≡ group_at groups.old k }
    ensures unused { (k : ℕ)
        → (is_relative class ≡ true → k ≢ number)
        → group_at groups.old k ≡ None
        → group_at groups.new k ≡ None }
{
    if let Some(parent) = parent {
        add_kid(groups, parent, number);
    }
    if class.is_relative() {
        let group = empty_group(*groups.allocator());
        note_group(groups, number, group);
    }
}

/// Records a removed view. It was a child of the view of the number `parent`, if it had a parent.
pub fn leave_group(groups: &mut IndexMap<u64, SiblingOrders>, parent: Option<u64>, number: u64)
    ensures own { (k : ℕ)
        → parent ≡ Some k
        → k ≢ number
        → IsTakenAt number (group_at groups.old k) (group_at groups.new k) }
    ensures others { (k : ℕ) → parent ≢ Some k → k ≢ number → group_at groups.new k ≡ group_at groups.old k }
    ensures unused { group_at groups.new number ≡ None }
{
    remove_kid(groups, parent, number);
    groups.swap_remove(&number);
}

/// Takes the memory for an id. A child of the relative layout of the number gets it.
pub fn make_id_room(
    groups: &mut IndexMap<u64, SiblingOrders>,
    number: Option<u64>,
    id: u32,
) -> Result<(), Fault>
    ensures refused { IsRefusedExactlyFor None result }
    ensures same { orders_in groups.new.entries ≡ orders_in groups.old.entries }
    ensures groups { (k : ℕ) → group_at groups.new k ≡ group_at groups.old k }
    ensures room { OnOk result ((k : ℕ) → number ≡ Some k → IfSome (held_at nat_eq groups.new k) (HasIdRoom id)) }
{
    let Some(number) = number else {
        return Ok(());
    };
    let Some(group) = groups.get_mut(&number) else {
        return Ok(());
    };
    match reserve_id(&mut group.latest, id) {
        Ok(()) => Ok(()),
        Err(_) => Err(Fault::NoMemory),
    }
}

/// Records a child's other rules. The orders are those of its relative layout, which has the number, for these rules; if
/// none are given, those that are kept stay. There is room for the child's id.
pub fn set_orders(
    groups: &mut IndexMap<u64, SiblingOrders>,
    number: Option<u64>,
    orders: Option<Orders>,
    kid: u64,
    link: &Link,
)
    requires { (k : ℕ)
        → number ≡ Some k
        → IfSome (held_at nat_eq groups.old k) (HasIdRoom link.now.id) }
    ensures own { (k : ℕ)
        → number ≡ Some k
        → IsRuledAt (option_map plain_orders orders) kid link.now (group_at groups.old k) (group_at groups.new k) }
    ensures others { (k : ℕ) → number ≢ Some k → group_at groups.new k ≡ group_at groups.old k }
    ensures unused { (k : ℕ) → group_at groups.old k ≡ None → group_at groups.new k ≡ None }
{
    let Some(number) = number else {
        return;
    };
    if let Some(group) = groups.get_mut(&number) {
        rule_kid(group, orders, kid, link);
    }
}

/// The same in the group.
fn rule_kid(group: &mut SiblingOrders, orders: Option<Orders>, kid: u64, link: &Link)
    requires { HasIdRoom link.now.id group.old }
    ensures { IsRuled (option_map plain_orders orders) kid link.now (plain_group group.old) (plain_group group.new) }
{
    group.highest = higher(group.highest, highest_in(&link.rules));
    group.complete = note_kid(
        &mut group.latest,
        group.complete,
        group.kids.len(),
        link.id,
        kid,
    );
    if let Some(orders) = orders {
        group.straight_across = is_straight(&orders.across);
        group.straight_down = is_straight(&orders.down);
        group.orders = orders;
    }
}
