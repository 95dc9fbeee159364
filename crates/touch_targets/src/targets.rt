//! The pool of targets.
ghost use Rattle.std.specs.Prelude.{◌≡◌, ◌==◌, ◌&&◌, ◌||◌, not, true, false, ℕ, if◌then◌else◌, List, [], None, OnErr, OnOk, length};
ghost use Rattle.touch_event.specs.PointerSets.{has_id};
ghost use Rattle.touch_targets.specs.Captures.{drop_pointers, first_child, first_ids, from_child, is_target, older, put_target, targets_from, without_child};
ghost use Rattle.touch_targets.specs.Seats.{Seat, is_open, targets_of, with_seat, KeepsOpen, HasPointers, no_seats};

use crate::links;
use crate::node::Node;
use crate::slots::{ensure_node, forget_slot, note_slot, slot_of};
use indexmap::IndexMap;
use slab::Slab;
use slab_link::Link;
use std::alloc::{AllocError, Global};
use std::marker::Model;

/// The open views, each with the children that it has captured, the newest first. Contracts see the list of these, whose
/// own order means nothing.
#[derive(Drop)]
pub struct Targets {
    nodes: Slab<Node>,
    /// The slot of each open view's node, by the number of the view; none for a view that has no node yet.
    slots: IndexMap<u64, Link>,
}

impl Model for Targets {
    ghost use Rattle.std.specs.Prelude.{List};
    ghost use Rattle.touch_targets.specs.Seats.{Seat, seats_code};

    ghost Value = { List Seat };

    ghost coded = { seats_code };

    ghost use Rattle.touch_targets.specs.Pool.{IsSoundPool, seats_in};

    ghost view = { λ inside. seats_in inside.nodes inside.slots };

    ghost invariant = { λ inside. IsSoundPool inside.nodes inside.slots };
}

impl Targets {
    /// No view is open. It takes no memory.
    pub fn new(alloc: Global) -> Targets
        ensures { result ≡ no_seats }
    {
        Targets {
            nodes: Slab::new(alloc),
            slots: IndexMap::new(alloc),
        }
    }

    /// Keeps a slot for a view, so that it may be a group or a target. No other call takes memory.
    pub fn open(&mut self, view: u64) -> Result<(), AllocError>
        ensures opened { OnOk result ((other : ℕ)
            → is_open self.new other ≡ (is_open self.old other || other == view)) }
        ensures targets { (group : ℕ) → targets_of self.new group ≡ targets_of self.old group }
        ensures added { OnOk result (is_open self.old view ≡ false → self.new ≡ with_seat view self.old) }
        ensures same { is_open self.old view ≡ true → self.new ≡ self.old }
        ensures unchanged { OnErr result (self.new ≡ self.old) }
    {
        if self.slots.contains_key(&view) {
            return Ok(());
        }
        links::make_room(&mut self.nodes, self.slots.len() + 1)?;
        self.slots.reserve(1)?;
        note_slot(&mut self.slots, view, Link::none());
        Ok(())
    }

    /// How many views are open.
    pub fn len(&self) -> usize
        ensures { result ≡ length self.now }
    {
        self.slots.len()
    }

    /// Removes the slot of a view, with all that names the view as a group or as a target.
    pub fn close(&mut self, view: u64)
        ensures opened { (other : ℕ) → is_open self.new other ≡ (is_open self.old other && not (other == view)) }
        ensures targets { (group : ℕ)
            → targets_of self.new group
            ≡ (if group == view then [] else without_child view (targets_of self.old group)) }
        ensures last { (before : List Seat)
            → self.old ≡ with_seat view before
            → is_open before view ≡ false
            → ((group : ℕ) → is_target view (targets_of before group) ≡ false)
            → self.new ≡ before }
    {
        self.release(view);
        if let Some(slot) = forget_slot(&mut self.slots, view) {
            links::take_out(&mut self.nodes, slot);
        }
    }

    /// Removes all targets of a view, and takes it away from the group that has captured it. Most views are removed while
    /// no view has captured another.
    fn release(&mut self, view: u64)
        ensures opened { KeepsOpen self.old self.new }
        ensures targets { (group : ℕ)
            → targets_of self.new group
            ≡ (if group == view then [] else without_child view (targets_of self.old group)) }
        ensures free { (group : ℕ) → is_target view (targets_of self.new group) ≡ false }
        ensures same { targets_of self.old view ≡ []
            → ((group : ℕ) → is_target view (targets_of self.old group) ≡ false)
            → self.new ≡ self.old }
    {
        if self.nodes.is_empty() {
            return;
        }
        self.clear(view);
        self.remove(view);
    }

    /// The newest target of a group.
    pub fn newest(&self, group: u64) -> Option<u64>
        ensures child { result ≡ first_child (targets_of self.now group) }
        ensures part { targets_from result (targets_of self.now group) ≡ targets_of self.now group }
    {
        let slot = slot_of(&self.slots, group)?;
        let newest = self.nodes[slot].newest.key()?;
        Some(self.nodes[newest].view)
    }

    /// The next older target of the group that has captured a view.
    pub fn next(&self, child: u64) -> Option<u64>
        ensures child { (group : ℕ)
            → is_target child (targets_of self.now group) ≡ true
            → result ≡ first_child (older (from_child child (targets_of self.now group))) }
        ensures part { (group : ℕ)
            → is_target child (targets_of self.now group) ≡ true
            → targets_from result (targets_of self.now group) ≡ older (from_child child (targets_of self.now group)) }
        ensures free { ((group : ℕ) → is_target child (targets_of self.now group) ≡ false) → result ≡ None }
    {
        let slot = slot_of(&self.slots, child)?;
        let next = self.nodes[slot].next.key()?;
        Some(self.nodes[next].view)
    }

    /// The pointers by which a view was captured, where bit `k` represents the id `k`; 0 for a view that is no target.
    pub fn ids(&self, child: u64) -> u32
        ensures ids { (group : ℕ)
            → is_target child (targets_of self.now group) ≡ true
            → has_id result ≡ first_ids (from_child child (targets_of self.now group)) }
        ensures free { ((group : ℕ) → is_target child (targets_of self.now group) ≡ false) → result ≡ 0 }
    {
        match slot_of(&self.slots, child) {
            None => 0,
            Some(slot) => self.nodes[slot].ids,
        }
    }

    /// A group captures a view by these pointers, in addition to those by which it already has. A view that was no
    /// target is then the newest target; it is no target of another group.
    pub fn put(&mut self, group: u64, child: u64, ids: u32)
        requires ids { HasPointers ids }
        requires group { is_open self.old group ≡ true }
        requires child { is_open self.old child ≡ true }
        requires only { (other : ℕ) → is_target child (targets_of self.old other) ≡ true → other ≡ group }
        ensures opened { KeepsOpen self.old self.new }
        ensures targets { (other : ℕ)
            → targets_of self.new other ≡ (if other == group
            then put_target child (has_id ids) (targets_of self.old other) else targets_of self.old other) }
    {
        let at = ensure_node(&mut self.nodes, &mut self.slots, group);
        let slot = ensure_node(&mut self.nodes, &mut self.slots, child);
        links::put(&mut self.nodes, at, slot, ids);
    }

    /// Takes pointers away from all targets of a group, and removes the targets that have no others.
    pub fn drop_ids(&mut self, group: u64, ids: u32)
        ensures opened { KeepsOpen self.old self.new }
        ensures targets { (other : ℕ)
            → targets_of self.new other ≡ (if other == group then drop_pointers (has_id ids) (targets_of self.old other)
            else targets_of self.old other) }
        ensures same { targets_of self.old group ≡ [] → self.new ≡ self.old }
    {
        if let Some(slot) = slot_of(&self.slots, group) {
            links::drop_ids(&mut self.nodes, slot, ids);
        }
    }

    /// Takes a view away from the group that has captured it, if one has.
    pub fn remove(&mut self, child: u64)
        ensures opened { KeepsOpen self.old self.new }
        ensures targets { (group : ℕ) → targets_of self.new group ≡ without_child child (targets_of self.old group) }
        ensures same { ((group : ℕ) → is_target child (targets_of self.old group) ≡ false) → self.new ≡ self.old }
    {
        if let Some(slot) = slot_of(&self.slots, child) {
            links::remove(&mut self.nodes, slot);
        }
    }

    /// Removes all targets of a group.
    pub fn clear(&mut self, group: u64)
        ensures opened { KeepsOpen self.old self.new }
        ensures targets { (other : ℕ)
            → targets_of self.new other ≡ (if other == group then [] else targets_of self.old other) }
        ensures same { targets_of self.old group ≡ [] → self.new ≡ self.old }
    {
        self.drop_ids(group, u32::MAX);
    }
}
