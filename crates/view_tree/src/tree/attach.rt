//! Views that are added to a tree.
ghost use Rattle.std.specs.Prelude.{◌≡◌, ◌≢◌, ◌+◌, ◌<◌, ℕ, length, replicate, None, Some, IfOk, IfSome, OnOk};
ghost use Rattle.std.specs.Option.{option_map};
ghost use Rattle.view_model.specs.Numbers.{max_depth, numbers_end};
ghost use Rattle.view_model.specs.Forest.{Nothing};
ghost use Rattle.view_model.specs.Growth.{growth_refusal, refusal_at};
ghost use Rattle.view_model.specs.PlainTree.{PlainView};
ghost use Rattle.view_tree.specs.tree.Attached.{Attached};
ghost use Rattle.view_tree.specs.tree.Directions.{running_below};
ghost use Rattle.view_model.specs.Refusals.{IsRefusedExactlyFor, RefusesExactlyFor};
ghost use Rattle.view_tree.specs.Rows.{ancestors};
ghost use Rattle.view_tree.specs.Views.{IsLive, group_number, number_of, orders_under, plain_of, KeepsCounts};
ghost use Rattle.view_model.specs.Failing.{KeepsOnErr};

use super::bed::Bed;
use super::{Key, ViewTree};
use crate::fault::AttachFault;
use crate::table::make_room;
use sibling_orders::{join_group, make_group_room};
use view_model::limits::{MAX_DEPTH, MAX_VIEWS};
use view_model::refusals::{DEPTH, NOT_GROUP, SCROLL_FULL, VIEWS};
use view_model::{Class, Facts, Refusal, Sprout, Text};

impl ViewTree {
    /// Makes a view, the last child of its parent, or the root where there is none. It has the next number, no bounds,
    /// and nothing below it. It runs as its direction says, or as its parent.
    pub fn attach(
        &mut self,
        parent: Option<Key>,
        class: Class,
        facts: Facts,
        text: Text,
    ) -> Result<Key, AttachFault>
        requires live { IfSome parent (IsLive self.old) }
        requires root { parent ≡ None → self.old.tree ≡ Nothing }
        requires unnamed { (facts.id ≡ 0) × (facts.rules.values ≡ replicate 21 0) }
        requires numbers { self.old.next < numbers_end }
        ensures attached { let view : PlainView =
            record { number = self.old.next; class = class; facts = facts; text = text } in
            IfOk result (λ key. Attached self.old parent (running_below parent self.old.tree view) key self.new) }
        ensures orders { OnOk result ((k : ℕ) → group_number self.old parent ≢ Some k → k ≢ self.old.next
            → orders_under self.new k ≡ orders_under self.old k) }
        ensures refused { IsRefusedExactlyFor
            (refusal_at (plain_of self.old) (option_map (number_of self.old) parent)) result }
        ensures unchanged { KeepsOnErr result self.old self.new }
        ensures counts { KeepsCounts self.old self.new }
    {
        self.may_grow(parent)?;
        let group = self.group_number(parent);
        let number = self.next;
        make_room(&mut self.nodes, &mut self.keys, &mut self.ids, 1, 0)?;
        make_group_room(&mut self.groups, group, 1)?;
        let sprout = Sprout {
            class,
            facts,
            text,
            depth: 1,
        };
        let mut bed = Bed {
            nodes: &mut self.nodes,
            keys: &mut self.keys,
            ids: &mut self.ids,
            root: &mut self.root,
            next: &mut self.next,
        };
        let key = bed.plant(parent, sprout);
        join_group(&mut self.groups, group, number, class);
        Ok(key)
    }

    /// The number of a parent that is a relative layout.
    pub fn group_number(&self, parent: Option<Key>) -> Option<u64>
        requires { IfSome parent (IsLive self.now) }
        ensures { result ≡ group_number self.now parent }
    {
        let parent = parent?;
        if !self.class(parent).is_relative() {
            return None;
        }
        Some(self.number(parent))
    }

    /// Whether a view may be added below this one, or as the root.
    fn may_grow(&self, parent: Option<Key>) -> Result<(), Refusal>
        requires { IfSome parent (IsLive self.now) }
        ensures { RefusesExactlyFor (refusal_at (plain_of self.now) (option_map (number_of self.now) parent)) result }
    {
        match parent {
            None => Ok(()),
            Some(parent) => {
                let class = self.class(parent);
                let occupied = self.first(parent).is_some();
                growth(class, occupied, self.depth(parent), self.len())
            }
        }
    }

    /// How deep a view is: 1 for the root.
    pub fn depth(&self, view: Key) -> usize
        requires live { IsLive self.now view }
        requires shallow { length (ancestors view self.now.tree) < max_depth }
        ensures { result ≡ length (ancestors view self.now.tree) + 1 }
    {
        let mut depth = 1;
        let mut above = self.parent(view);
        while let Some(key) = above {
            depth += 1;
            above = self.parent(key);
        }
        depth
    }
}

/// Whether a view of this class and depth, which has a child or none, may get one more in a tree of this many views.
#[tactic(auto, unfolding(view_model::specs::Growth::growth_refusal))]
pub fn growth(class: Class, occupied: bool, depth: usize, count: usize) -> Result<(), Refusal>
    ensures { RefusesExactlyFor (growth_refusal class occupied depth count) result }
{
    if !class.is_group() {
        return Err(Refusal::plain(NOT_GROUP));
    }
    if class.takes_one_child() && occupied {
        return Err(Refusal::plain(SCROLL_FULL));
    }
    if depth >= MAX_DEPTH {
        return Err(Refusal::plain(DEPTH));
    }
    if count >= MAX_VIEWS {
        return Err(Refusal::plain(VIEWS));
    }
    Ok(())
}
