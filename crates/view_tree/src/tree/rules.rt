//! The ids and the rules of views, and the orders that depend on them.
ghost use Rattle.std.specs.Prelude.{◌≡◌, ◌≢◌, ◌<◌, ℕ, length, map, slice_get, slice_index, None, Some, IfOk, IfSome, OnOk};
ghost use Rattle.view_model.specs.PlainTree.{with_facts};
ghost use Rattle.view_tree.specs.tree.Sorted.{AreNewOrders};
ghost use Rattle.sibling_orders.specs.Cycles.{IsReportedFrom, view_member};
ghost use Rattle.view_tree.specs.Faults.{IsRefusedOrCyclic};
ghost use Rattle.view_model.specs.Cycles.{first_cycle, link_of, numbers_in};
ghost use Rattle.sibling_orders.specs.Ordering.{link_or, linked_in};
ghost use Rattle.view_tree.specs.Rows.{ancestors, changed_at_key, children_of_first, part_from, views_of};
ghost use Rattle.view_tree.specs.Views.{IsLive, group_number, held_of, number_of, orders_under, plain_of, view_at, KeepsNext, KeepsCounts, IsRelative};
ghost use Rattle.view_model.specs.Failing.{KeepsOnErr};

use super::{Key, ViewTree};
use crate::fault::AttachFault;
use crate::table::ids::rename;
use relative_layout::{OrderFault, Orders, order};
use sibling_orders::{make_id_room, set_orders};
use std::alloc::{AllocError, Global};
use view_model::refusals::CYCLE;
use view_model::{Detail, Link, Member, Refusal, Rules};

impl ViewTree {
    /// Sets the id and the rules of a view, unless its parent is a relative layout whose children then name one another
    /// in a circle. It takes time only for these children. It may need memory, for an id that no view or no child of the
    /// layout had and for the orders of the children.
    pub fn set_rules(&mut self, view: Key, id: u32, rules: Rules) -> Result<(), AttachFault>
        requires { IsLive self.old view }
        ensures tree { OnOk result (self.new.tree
            ≡ changed_at_key view (λ v. record v { facts = record v.facts { id = id; rules = rules } }) self.old.tree) }
        ensures plain { OnOk result (plain_of self.new ≡ with_facts (number_of self.old view)
            (λ facts. record facts { id = id; rules = rules }) (plain_of self.old)) }
        ensures orders { (k : ℕ)
            → group_number self.old (slice_get (ancestors view self.old.tree) 0) ≢ Some k
            → orders_under self.new k ≡ orders_under self.old k }
        ensures next { KeepsNext self.old self.new }
        ensures held { (key : ℕ) → held_of self.new key ≡ held_of self.old key }
        ensures refused { IsRefusedOrCyclic None (first_cycle Member.View (with_facts (number_of self.old view)
            (λ facts. record facts { id = id; rules = rules }) (plain_of self.old))) result }
        ensures unchanged { KeepsOnErr result self.old self.new }
        ensures counts { KeepsCounts self.old self.new }
    {
        let above = self.parent(view);
        let group = self.group_number(above);
        let number = self.number(view);
        let link = Link { id, rules };
        let orders = match self.new_orders(above, view, link) {
            Ok(orders) => orders,
            Err(fault) => return Err(fault),
        };
        make_id_room(&mut self.groups, group, id)?;
        let before = self.nodes[view].facts.id;
        rename(&mut self.ids, view, before, id)?;
        set_orders(&mut self.groups, group, orders, number, &link);
        let node = &mut self.nodes[view];
        node.facts.id = id;
        node.facts.rules = rules;
        Ok(())
    }

    /// The orders of a relative layout, once a child of it has another id and other rules; none if its parent is no
    /// relative layout, or if those that are kept stay right.
    fn new_orders(
        &self,
        above: Option<Key>,
        view: Key,
        link: Link,
    ) -> Result<Option<Orders>, AttachFault>
        requires live { IsLive self.now view }
        requires above { IfSome above (λ parent. IsLive self.now parent) }
        ensures { AreNewOrders self.now view link above result }
    {
        let Some(parent) = above else {
            return Ok(None);
        };
        if !self.class(parent).is_relative() {
            return Ok(None);
        }
        if self.stays_in_order(parent, view, &link) {
            return Ok(None);
        }
        let Ok(links) = self.links_with(parent, self.number(view), link) else {
            return Err(AttachFault::NoMemory);
        };
        match order(*self.groups.allocator(), &links) {
            Ok(orders) => Ok(Some(orders)),
            Err(OrderFault::NoMemory) => Err(AttachFault::NoMemory),
            Err(OrderFault::Cycle { down, members }) => Err(self.reported(parent, down, &members)),
        }
    }

    /// What rules read of the children of a view, once the one of this number is another.
    fn links_with(&self, parent: Key, number: u64, link: Link) -> Result<Vec<Link>, AllocError>
        requires { IsLive self.now parent }
        ensures { IfOk result (λ links. links.items ≡ linked_in number link
            (views_of (children_of_first (part_from parent self.now.tree)))) }
    {
        let mut links = Vec::new(*self.groups.allocator());
        let mut next = self.first(parent);
        while let Some(kid) = next {
            links.push(self.link_or(kid, number, link))?;
            next = self.next(kid);
        }
        Ok(links)
    }

    /// What rules read of a view; another if it is that of a number.
    fn link_or(&self, view: Key, number: u64, link: Link) -> Link
        requires { IsLive self.now view }
        ensures { result ≡ link_or number link (view_at self.now view) }
    {
        if self.number(view) == number {
            return link;
        }
        self.link(view)
    }

    /// What rules read of a view.
    pub fn link(&self, view: Key) -> Link
        requires { IsLive self.now view }
        ensures { result ≡ link_of (view_at self.now view) }
    {
        let facts = self.facts(view);
        Link {
            id: facts.id,
            rules: facts.rules,
        }
    }

    /// The refusal for a cycle among the children of a relative layout, with members at these places.
    fn reported(&self, parent: Key, down: bool, members: &[u32]) -> AttachFault
        requires live { IsLive self.now parent }
        requires relative { IsRelative self.now parent }
        requires inside { (p : ℕ)
            → p < length members.now
            → slice_index members.now p < length
            (numbers_in (views_of (children_of_first (part_from parent self.now.tree)))) }
        ensures { IsReportedFrom
            (view_member (views_of (children_of_first (part_from parent self.now.tree)))) down members.now result }
    {
        match self.groups.get(&self.number(parent)) {
            None => unreachable!(),
            Some(group) => match view_members(*self.groups.allocator(), &group.kids, members) {
                Ok(members) => AttachFault::Refused(Refusal {
                    number: CYCLE,
                    detail: Detail::Cycle { down, members },
                }),
                Err(_) => AttachFault::NoMemory,
            },
        }
    }
}

/// The views at some places among those of a list.
fn view_members(alloc: Global, kids: &[u64], places: &[u32]) -> Result<Vec<Member>, AllocError>
    requires { (p : ℕ) → p < length places.now → slice_index places.now p < length kids.now }
    ensures { IfOk result (λ members. members.items
        ≡ map (λ place. Member.View (slice_index kids.now place)) places.now) }
{
    let mut members = Vec::new(alloc);
    for place in places {
        members.push(Member::View(kids[*place as usize]))?;
    }
    Ok(members)
}
