//! Saplings that are added to a tree.
ghost use Rattle.std.specs.Prelude.{◌≡◌, ◌≢◌, ◌≤◌, ◌+◌, ◌<◌, ◌∷◌, [], ℕ, true, false, length, None, Some, IfOk, IfSome};
ghost use Rattle.std.specs.Option.{option_map};
ghost use Rattle.view_model.specs.Numbers.{max_depth, max_views, numbers_end};
ghost use Rattle.view_model.specs.Cycles.{graft_cycle, member_from};
ghost use Rattle.view_model.specs.Forest.{Forest, Nothing, count_of};
ghost use Rattle.view_model.specs.Grafts.{at_element, graft_refusal, refusal_below};
ghost use Rattle.view_model.specs.Growth.{growth_refusal};
ghost use Rattle.view_model.specs.Sprouts.{IsPreorder, Seed, follows, preorder, seeds_of};
ghost use Rattle.view_model.specs.Refusals.{RefusesExactlyFor};
ghost use Rattle.view_tree.specs.Faults.{IsRefusedOrCyclic};
ghost use Rattle.view_tree.specs.tree.Grafted.{Grafted};
ghost use Rattle.view_tree.specs.tree.Grafting.{AreGrafted, IsParentEntry, entries_cycle, links_then, numbers_then, parent_cycle};
ghost use Rattle.sibling_orders.specs.Cycles.{IsGroupOrCycle, IsMadeUnless};
ghost use Rattle.view_tree.specs.Views.{IsLive, group_number, number_of, orders_under, plain_of, KeepsCounts, IsRelative};
ghost use Rattle.view_model.specs.Failing.{KeepsOnErr};

use super::attach::growth;
use super::bed::Bed;
use super::relatives::{push_entry, sprout_link, with_entries};
use super::{Key, ViewTree};
use crate::fault::AttachFault;
use crate::table::make_room;
use sibling_orders::{Kids, SiblingOrders, group_of, make_group_room, note_groups};
use std::alloc::{AllocError, Global};
use view_model::limits::MAX_DEPTH;
use view_model::{Class, Detail, Link, Refusal, Sapling, Sprout};

impl ViewTree {
    /// Makes the views of a sapling, its outermost one the last child of a parent, or the root if there is none, and
    /// returns the key of that. They have the next numbers in preorder, and no bounds. It takes time only for them, and
    /// for the children of a parent that is a relative layout.
    pub fn graft(&mut self, parent: Option<Key>, sapling: Sapling) -> Result<Key, AttachFault>
        requires live { IfSome parent (IsLive self.old) }
        requires root { parent ≡ None → self.old.tree ≡ Nothing }
        requires numbers { self.old.next < numbers_end }
        ensures grafted { IfOk result (λ key. Grafted self.old parent (seeds_of sapling.sprouts.items) key self.new) }
        ensures orders { (k : ℕ)
            → group_number self.old parent ≢ Some k
            → k < self.old.next
            → orders_under self.new k ≡ orders_under self.old k }
        ensures refused { IsRefusedOrCyclic (graft_refusal (plain_of self.old) (option_map (number_of self.old) parent)
            (seeds_of sapling.sprouts.items))
            (graft_cycle (plain_of self.old) (option_map (number_of self.old) parent) self.old.next
            (seeds_of sapling.sprouts.items)) result }
        ensures few { self.new.next ≤ self.old.next + max_views }
        ensures unchanged { KeepsOnErr result self.old self.new }
        ensures counts { KeepsCounts self.old self.new }
    {
        self.may_take(parent, &sapling.sprouts)?;
        let entries = match self.entries(parent, &sapling.sprouts) {
            Ok(entries) => entries,
            Err(fault) => return Err(fault),
        };
        let count = sapling.sprouts.len();
        make_room(&mut self.nodes, &mut self.keys, &mut self.ids, count, count)?;
        make_group_room(&mut self.groups, None, entries.len())?;
        let mut sprouts = sapling.sprouts.into_iter();
        let Some(outermost) = sprouts.next() else {
            unreachable!()
        };
        let mut bed = Bed {
            nodes: &mut self.nodes,
            keys: &mut self.keys,
            ids: &mut self.ids,
            root: &mut self.root,
            next: &mut self.next,
        };
        let key = bed.plant(parent, outermost);
        bed.sow(key, sprouts);
        note_groups(&mut self.groups, entries);
        Ok(key)
    }

    /// What is kept of the parent of a sapling and of the relative layouts of the sapling once it is added, by their
    /// numbers: of the parent first, if it is one, and then in preorder.
    fn entries(
        &self,
        parent: Option<Key>,
        sprouts: &[Sprout],
    ) -> Result<Vec<(u64, SiblingOrders)>, AttachFault>
        requires live { IfSome parent (IsLive self.now) }
        requires some { 0 < length sprouts.now }
        requires few { count_of self.now.tree + length sprouts.now ≤ max_views }
        requires numbers { self.now.next < numbers_end }
        ensures { IsMadeUnless (entries_cycle self.now parent sprouts.now)
            (λ entries. AreGrafted self.now parent sprouts.now entries.items) result }
    {
        match self.parent_entry(parent, &sprouts[0]) {
            Ok(entries) => with_entries(entries, self.next, sprouts),
            Err(fault) => Err(fault),
        }
    }

    /// What is kept of the parent below which a view is added, if it is a relative layout.
    fn parent_entry(
        &self,
        parent: Option<Key>,
        sprout: &Sprout,
    ) -> Result<Vec<(u64, SiblingOrders)>, AttachFault>
        requires live { IfSome parent (IsLive self.now) }
        requires few { count_of self.now.tree < max_views }
        requires numbers { self.now.next < numbers_end }
        ensures { IsMadeUnless (parent_cycle self.now parent sprout.now)
            (λ entries. IsParentEntry self.now parent sprout.now entries.items) result }
    {
        let alloc = *self.groups.allocator();
        let Some(parent) = parent else {
            return Ok(Vec::new(alloc));
        };
        if !self.class(parent).is_relative() {
            return Ok(Vec::new(alloc));
        }
        match self.group_then(parent, sprout_link(sprout)) {
            Err(fault) => Err(fault),
            Ok(group) => one_entry(alloc, self.number(parent), group),
        }
    }

    /// What is kept of a relative layout once a view with this link is added after its children.
    fn group_then(&self, parent: Key, link: Link) -> Result<SiblingOrders, AttachFault>
        requires live { IsLive self.now parent }
        requires relative { IsRelative self.now parent }
        requires few { count_of self.now.tree < max_views }
        requires numbers { self.now.next < numbers_end }
        ensures { IsGroupOrCycle (member_from self.now.next) (links_then self.now parent link)
            (numbers_then self.now parent) result }
    {
        match self.kids_then(parent, link) {
            Ok(kids) => group_of(*self.groups.allocator(), kids, self.next),
            Err(_) => Err(AttachFault::NoMemory),
        }
    }

    /// The children of a view, followed by one with this link that is added next.
    fn kids_then(&self, parent: Key, link: Link) -> Result<Kids, AllocError>
        requires { IsLive self.now parent }
        ensures links { IfOk result (λ kids. kids.links.items ≡ links_then self.now parent link) }
        ensures numbers { IfOk result (λ kids. kids.numbers.items ≡ numbers_then self.now parent) }
    {
        let mut kids = Kids::new(*self.groups.allocator());
        let mut next = self.first(parent);
        while let Some(kid) = next {
            kids.push(self.number(kid), self.link(kid))?;
            next = self.next(kid);
        }
        kids.push(self.next, link)?;
        Ok(kids)
    }

    /// Whether these views may be added below a parent, or as the whole tree.
    fn may_take(&self, parent: Option<Key>, sprouts: &[Sprout]) -> Result<(), Refusal>
        requires live { IfSome parent (IsLive self.now) }
        requires preorder { IsPreorder sprouts.now }
        ensures { RefusesExactlyFor
            (graft_refusal (plain_of self.now) (option_map (number_of self.now) parent) (seeds_of sprouts.now)) result }
    {
        let mut depth = 1;
        if let Some(parent) = parent {
            let class = self.class(parent);
            let occupied = self.first(parent).is_some();
            let above = self.depth(parent);
            growth_at(1, class, occupied, above, self.len())?;
            depth = above + 1;
        }
        growth_below(sprouts[0].class, depth, self.len() + 1, &sprouts[1..])
    }
}

/// One group, under its number.
fn one_entry(
    alloc: Global,
    number: u64,
    group: SiblingOrders,
) -> Result<Vec<(u64, SiblingOrders)>, AttachFault>
    ensures { IsMadeUnless None (λ entries. entries.items ≡ (number, group) ∷ []) result }
{
    let mut entries = Vec::new(alloc);
    match push_entry(&mut entries, number, group) {
        Ok(()) => Ok(entries),
        Err(fault) => Err(fault),
    }
}

/// Whether these views may be added below the outermost one of their sapling, which has this class and depth and no
/// child yet, in a tree of this many views. That is the first element, and they are the second and so on. The parent of
/// a sprout has a child if the sprout before it is as deep, or deeper.
fn growth_below(class: Class, depth: usize, count: usize, sprouts: &[Sprout]) -> Result<(), Refusal>
    requires follow { follows 1 sprouts.now ≡ true }
    requires depth { (1 ≤ depth) × (depth ≤ max_depth) }
    requires count { count ≤ max_views + 1 }
    ensures { (kids : Forest Seed)
        → preorder 2 kids ≡ sprouts.now
        → RefusesExactlyFor (refusal_below class false depth count 2 kids) result }
{
    let mut path = [class; MAX_DEPTH];
    let mut count = count;
    let mut element = 2;
    let mut before = 1;
    for sprout in sprouts {
        let above = sprout.depth as usize - 2;
        let occupied = sprout.depth <= before;
        growth_at(element, path[above], occupied, depth + above, count)?;
        path[above + 1] = sprout.class;
        before = sprout.depth;
        count += 1;
        element += 1;
    }
    Ok(())
}

/// Whether a view of this class and depth, which has a child or none, may get one more that is this element, in a tree
/// of this many views.
fn growth_at(
    element: u32,
    class: Class,
    occupied: bool,
    depth: usize,
    count: usize,
) -> Result<(), Refusal>
    ensures { RefusesExactlyFor (at_element element (growth_refusal class occupied depth count)) result }
{
    match growth(class, occupied, depth, count) {
        Ok(()) => Ok(()),
        Err(refusal) => Err(Refusal {
            number: refusal.number,
            detail: Detail::Element(element),
        }),
    }
}
