//! What is kept of the relative layouts of a sapling.
//!
//! Of a file's views, the children of the group that takes them are looked at for cycles first, those that are there
//! before those of the file; then each relative layout of the file in preorder, the horizontal axis first.
ghost use Rattle.std.specs.Prelude.{◌≡◌, ◌<◌, ◌≤◌, ◌+◌, ◌^◌, ◌++◌, ◌∷◌, [], None, suc, length, IfOk};
ghost use Rattle.view_model.specs.Cycles.{member_from};
ghost use Rattle.view_model.specs.Numbers.{max_views};
ghost use Rattle.view_tree.specs.tree.Grafting.{AreEntries, HasAdded, IsFollowing, cycle_after, cycle_in, links_following, numbers_following, sprout_link};
ghost use Rattle.sibling_orders.specs.Cycles.{IsGroupOrCycle, IsMadeUnless};

use crate::fault::AttachFault;
use sibling_orders::{Kids, SiblingOrders, group_of};
use std::alloc::{AllocError, Global};
use view_model::{Link, Sprout};

/// What rules read of a view that is added.
pub fn sprout_link(sprout: &Sprout) -> Link
    ensures { result ≡ sprout_link sprout.now }
{
    Link {
        id: sprout.facts.id,
        rules: sprout.facts.rules,
    }
}

/// The children of a view of this depth, by the views after it in preorder, the first of which gets this number.
fn kids_after(
    alloc: Global,
    depth: u32,
    number: u64,
    sprouts: &[Sprout],
) -> Result<Kids, AllocError>
    requires { number + length sprouts.now < 2 ^ 64 }
    ensures links { IfOk result (λ kids. kids.links.items ≡ links_following depth number sprouts.now) }
    ensures numbers { IfOk result (λ kids. kids.numbers.items ≡ numbers_following depth number sprouts.now) }
{
    let mut kids = Kids::new(alloc);
    let mut number = number;
    let mut rest = sprouts;
    while let Some((sprout, more)) = rest.split_first() {
        if sprout.depth <= depth {
            return Ok(kids);
        }
        if sprout.depth - depth == 1 {
            kids.push(number, sprout_link(sprout))?;
        }
        number += 1;
        rest = more;
    }
    Ok(kids)
}

/// What is kept of a relative layout of this depth and number, by the views after it in preorder; the views of the
/// sapling have the numbers from `next` on.
fn group_after(
    alloc: Global,
    next: u64,
    depth: u32,
    number: u64,
    sprouts: &[Sprout],
) -> Result<SiblingOrders, AttachFault>
    requires few { number + 1 + length sprouts.now ≤ next + max_views }
    requires numbers { next + max_views < 2 ^ 64 }
    requires late { next ≤ number }
    ensures { IsGroupOrCycle (member_from next) (links_following depth (suc number) sprouts.now)
        (numbers_following depth (suc number) sprouts.now) result }
{
    match kids_after(alloc, depth, number + 1, sprouts) {
        Ok(kids) => group_of(alloc, kids, next),
        Err(_) => Err(AttachFault::NoMemory),
    }
}

/// Adds what is kept of an added view, if it is a relative layout; the others follow it in preorder.
fn add_entry(
    entries: &mut Vec<(u64, SiblingOrders)>,
    next: u64,
    number: u64,
    sprout: &Sprout,
    more: &[Sprout],
) -> Result<(), AttachFault>
    requires few { number + 1 + length more.now ≤ next + max_views }
    requires numbers { next + max_views < 2 ^ 64 }
    requires late { next ≤ number }
    ensures { IsMadeUnless (cycle_after (member_from next) number sprout.now more.now)
        (λ _. HasAdded entries.old.items entries.new.items (IsFollowing number sprout.now more.now)) result }
{
    if !sprout.class.is_relative() {
        return Ok(());
    }
    match group_after(*entries.allocator(), next, sprout.depth, number, more) {
        Err(fault) => Err(fault),
        Ok(group) => push_entry(entries, number, group),
    }
}

/// One more group, under its number.
pub fn push_entry(
    entries: &mut Vec<(u64, SiblingOrders)>,
    number: u64,
    group: SiblingOrders,
) -> Result<(), AttachFault>
    ensures { IsMadeUnless None (λ _. entries.new.items ≡ entries.old.items ++ (number, group) ∷ []) result }
{
    match entries.push((number, group)) {
        Ok(()) => Ok(()),
        Err(_) => Err(AttachFault::NoMemory),
    }
}

/// Adds what is kept of the relative layouts among the views of a sapling, which have the numbers from `next` on.
pub fn with_entries(
    entries: Vec<(u64, SiblingOrders)>,
    next: u64,
    sprouts: &[Sprout],
) -> Result<Vec<(u64, SiblingOrders)>, AttachFault>
    requires few { length sprouts.now ≤ max_views }
    requires numbers { next + max_views < 2 ^ 64 }
    ensures { IsMadeUnless (cycle_in (member_from next) next sprouts.now)
        (λ all. HasAdded entries.items all.items (AreEntries next sprouts.now)) result }
{
    let mut entries = entries;
    let mut number = next;
    let mut rest = sprouts;
    while let Some((sprout, more)) = rest.split_first() {
        match add_entry(&mut entries, next, number, sprout, more) {
            Ok(()) => (),
            Err(fault) => return Err(fault),
        }
        number += 1;
        rest = more;
    }
    Ok(entries)
}
