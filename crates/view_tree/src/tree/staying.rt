//! Kept orders that stay right when a child of a relative layout gets another id or other rules.
//!
//! Another id or other rules make the orders anew only if a quick look cannot show that they stay right: the child
//! comes last, or each sibling that it newly names has its own place before it, and no child names the new id. Children
//! are set one after another, so making them anew each time would cost the square of their number. For the look an id
//! that no rule exceeds is kept, and of an id that several children have, the last one.
ghost use Rattle.std.specs.Prelude.{◌≡◌, ◌≢◌, ◌<◌, ℕ, ◌⊎◌, false, length, slice_index, true};
ghost use Rattle.view_model.specs.Cycles.{links_in, numbers_in};
ghost use Rattle.view_model.specs.SiblingRules.{names};
ghost use Rattle.view_model.specs.declared.relative.Axis.TheVariants.{Horizontal, Vertical};
ghost use Rattle.view_tree.specs.tree.Sorted.{links_below};
ghost use Rattle.sibling_orders.specs.Ordering.{AreOrders};
ghost use Rattle.view_tree.specs.Rows.{children_of_first, part_from, views_of};
ghost use Rattle.sibling_orders.specs.Highest.{IsAboveNamed};
ghost use Rattle.view_tree.specs.tree.Staying.{AreBefore, MayName, MayNameAll, NamesNone};
ghost use Rattle.sibling_orders.specs.Staying.{IsBefore, IsLastIn, IsMarkedOrder};
ghost use Rattle.view_tree.specs.Views.{IsLive, number_of, orders_of, view_at, IsRelative};

use super::{Key, ViewTree};
use relative_layout::named_ids;
use sibling_orders::{OrderedKid, SiblingOrders};
use view_model::{Axis, Link, Rules};

impl ViewTree {
    /// Whether a quick look shows that the kept orders of a relative layout stay right once a child of it has another id
    /// and other rules: it comes last or after all that it newly names, and no child names its new id.
    pub(crate) fn stays_in_order(&self, parent: Key, view: Key, link: &Link) -> bool
        requires live { IsLive self.now view }
        requires above { IsLive self.now parent }
        requires relative { IsRelative self.now parent }
        ensures { result ≡ true → AreOrders (links_below self.now parent (number_of self.now view) link.now)
            (orders_of self.now parent) }
    {
        let Some(group) = self.groups.get(&self.number(parent)) else {
            return false;
        };
        let own = self.link(view);
        if !self.is_unnamed(parent, group.highest, own.id, link.id) {
            return false;
        }
        let across = ordered_across(group, self.number(view));
        if !self.follows(
            parent,
            &across,
            named_ids(Axis::Horizontal, &own.rules),
            named_ids(Axis::Horizontal, &link.rules),
        ) {
            return false;
        }
        let down = ordered_down(group, self.number(view));
        self.follows(
            parent,
            &down,
            named_ids(Axis::Vertical, &own.rules),
            named_ids(Axis::Vertical, &link.rules),
        )
    }

    /// Whether an id is that of before, or no child names it; none names one above the highest.
    fn is_unnamed(&self, parent: Key, highest: u32, before: u32, id: u32) -> bool
        requires live { IsLive self.now parent }
        requires highest { IsAboveNamed highest
            (links_in (views_of (children_of_first (part_from parent self.now.tree)))) }
        ensures { result ≡ true
            → (id ≡ before) ⊎ NamesNone id (children_of_first (part_from parent self.now.tree)) }
    {
        if id == before {
            return true;
        }
        if id > highest {
            return true;
        }
        let mut next = self.first(parent);
        while let Some(kid) = next {
            if names_id(&self.facts(kid).rules, id) {
                return false;
            }
            next = self.next(kid);
        }
        true
    }

    /// Whether a child may name ids in place of those of before where it is in an order: at the end, or where each
    /// sibling that it newly names comes before it.
    fn follows(&self, parent: Key, kid: &OrderedKid, before: [u32; 8], ids: [u32; 8]) -> bool
        requires live { IsLive self.now parent }
        requires relative { IsRelative self.now parent }
        requires kid { IsMarkedOrder kid.now.straight kid.now.kids.now kid.now.order.now
            (numbers_in (views_of (children_of_first (part_from parent self.now.tree)))) }
        requires inside { (p : ℕ)
            → p < length kid.now.order.now
            → slice_index kid.now.order.now p < length kid.now.kids.now }
        ensures { result ≡ true → IsLastIn kid.now.number kid.now.kids.now kid.now.order.now
            ⊎ MayNameAll before ids kid.now.number kid.now.kids.now kid.now.order.now
            (children_of_first (part_from parent self.now.tree)) }
    {
        if kid.is_last() {
            return true;
        }
        for k in 0..8 {
            if !self.may_name(parent, kid, before[k], ids[k]) {
                return false;
            }
        }
        true
    }

    /// Whether a child may name an id in place of that of before where it is in an order; 0 names nothing.
    fn may_name(&self, parent: Key, kid: &OrderedKid, before: u32, id: u32) -> bool
        requires live { IsLive self.now parent }
        requires relative { IsRelative self.now parent }
        requires kid { IsMarkedOrder kid.now.straight kid.now.kids.now kid.now.order.now
            (numbers_in (views_of (children_of_first (part_from parent self.now.tree)))) }
        ensures { result ≡ true → MayName before id kid.now.number kid.now.kids.now kid.now.order.now
            (children_of_first (part_from parent self.now.tree)) }
    {
        let _ = &self.nodes;
        if id == 0 {
            return true;
        }
        if id == before {
            return true;
        }
        match self.only_holder(id) {
            Some(only) => kid.is_after(self.number(only)),
            None => self.is_after_all(parent, kid, id),
        }
    }

    /// Whether a child comes after all children with an id: without a walk if none has it, or if each place of the order
    /// is its own and the child has a number above that of the last one with the id.
    fn is_after_all(&self, parent: Key, kid: &OrderedKid, id: u32) -> bool
        requires live { IsLive self.now parent }
        requires relative { IsRelative self.now parent }
        requires kid { IsMarkedOrder kid.now.straight kid.now.kids.now kid.now.order.now
            (numbers_in (views_of (children_of_first (part_from parent self.now.tree)))) }
        requires named { id ≢ 0 }
        ensures { result ≡ true → AreBefore id kid.now.number kid.now.kids.now kid.now.order.now
            (children_of_first (part_from parent self.now.tree)) }
    {
        match self.latest_number(parent, id) {
            None => true,
            Some(number) => {
                if kid.is_past(number) {
                    true
                } else {
                    self.is_after_each(parent, kid, id)
                }
            }
        }
    }

    /// The same by a walk over the children.
    fn is_after_each(&self, parent: Key, kid: &OrderedKid, id: u32) -> bool
        requires { IsLive self.now parent }
        ensures { result ≡ true → AreBefore id kid.now.number kid.now.kids.now kid.now.order.now
            (children_of_first (part_from parent self.now.tree)) }
    {
        let mut next = self.first(parent);
        while let Some(sibling) = next {
            if !self.is_after_named(sibling, kid, id) {
                return false;
            }
            next = self.next(sibling);
        }
        true
    }

    /// Whether a child comes after a sibling, if that has an id.
    fn is_after_named(&self, sibling: Key, kid: &OrderedKid, id: u32) -> bool
        requires { IsLive self.now sibling }
        ensures { result ≡ true → (view_at self.now sibling).facts.id ≡ id
            → IsBefore (number_of self.now sibling) kid.now.number kid.now.kids.now kid.now.order.now }
    {
        if self.facts(sibling).id != id {
            return true;
        }
        kid.is_after(self.number(sibling))
    }
}

/// The child of a number in the order across.
fn ordered_across(group: &SiblingOrders, number: u64) -> OrderedKid<'_>
    ensures order { result.order.now ≡ group.now.orders.across.items }
    ensures straight { result.straight ≡ group.now.straight_across }
    ensures kids { result.kids.now ≡ group.now.kids.items }
    ensures number { result.number ≡ number }
{
    OrderedKid {
        order: &group.orders.across,
        straight: group.straight_across,
        kids: &group.kids,
        number,
    }
}

/// The child of a number in the order down.
fn ordered_down(group: &SiblingOrders, number: u64) -> OrderedKid<'_>
    ensures order { result.order.now ≡ group.now.orders.down.items }
    ensures straight { result.straight ≡ group.now.straight_down }
    ensures kids { result.kids.now ≡ group.now.kids.items }
    ensures number { result.number ≡ number }
{
    OrderedKid {
        order: &group.orders.down,
        straight: group.straight_down,
        kids: &group.kids,
        number,
    }
}

/// Whether rules name an id on either axis; 0 names nothing.
fn names_id(rules: &Rules, id: u32) -> bool
    ensures across { result ≡ false → names Horizontal rules.now id ≡ false }
    ensures down { result ≡ false → names Vertical rules.now id ≡ false }
{
    if id == 0 {
        return false;
    }
    if names_on(Axis::Horizontal, rules, id) {
        return true;
    }
    names_on(Axis::Vertical, rules, id)
}

/// Whether rules name an id on an axis.
fn names_on(axis: Axis, rules: &Rules, id: u32) -> bool
    ensures { result ≡ false → names axis rules.now id ≡ false }
{
    for named in named_ids(axis, rules).iter() {
        if *named == id {
            return true;
        }
    }
    false
}
