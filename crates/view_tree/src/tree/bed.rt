//! The fields of a tree to which views are added, whose memory was taken before.
ghost use Rattle.std.specs.Prelude.{◌≡◌, ℕ, ◌≢◌, ◌<◌, ◌≤◌, ◌^◌, ◌+◌, true, length, IfSome, Some, None};
ghost use Rattle.std.specs.Option.{option_map};
ghost use Rattle.std.specs.Vec.Iter.{into_iter_items};
ghost use Rattle.indexmap.specs.IndexMap.{spare};
ghost use Rattle.slab.specs.Slab.{ContainsKey, HasRoomFor, slab_len};
ghost use Rattle.slab_link.specs.Numbers.{links_end};
ghost use Rattle.view_model.specs.Directed.{directed};
ghost use Rattle.view_model.specs.Direction.{dir};
ghost use Rattle.view_model.specs.Forest.{Forest, Nothing};
ghost use Rattle.view_model.specs.Growth.{refusal_at};
ghost use Rattle.view_model.specs.PlainTree.{grown};
ghost use Rattle.view_model.specs.Sprouts.{Seed, follows, numbered, preorder, seed_of, view_of};
ghost use Rattle.view_tree.specs.tree.Attached.{Attached};
ghost use Rattle.view_tree.specs.tree.Bed.{KeepsReferences, fields_of, represented};
ghost use Rattle.view_tree.specs.tree.Directions.{is_rtl_at, running_below};
ghost use Rattle.view_tree.specs.node.Nodes.{IsPlanted, plain_node_at, replaced_if_none, runs_at};
ghost use Rattle.view_tree.specs.tree.Sowing.{FitsBelow, GainedBelow};
ghost use Rattle.view_tree.specs.Views.{IsLive, number_of, plain_of};

use super::Key;
use crate::node::Node;
use crate::node::linking::link_last;
use crate::table::ids::{Holders, note_id};
use crate::table::note_key;
use indexmap::IndexMap;
use slab::Slab;
use std::vec::IntoIter;
use view_model::limits::MAX_DEPTH;
use view_model::{Facts, Sprout};

/// The fields of a tree to which views are added.
#[derive(Drop)]
pub struct Bed<'a> {
    pub nodes: &'a mut Slab<Node>,
    pub keys: &'a mut IndexMap<u64, u32>,
    pub ids: &'a mut IndexMap<u32, Holders>,
    pub root: &'a mut Option<usize>,
    pub next: &'a mut u64,
}

impl Bed<'_> {
    /// Makes a view, the last child of its parent, or the root if there is none. How deep the sprout is does not
    /// matter.
    pub fn plant(&mut self, parent: Option<Key>, sprout: Sprout) -> Key
        requires sound { IsPlanted (fields_of self.old) }
        requires room { HasRoomFor self.old.nodes.now 1 }
        requires small { self.old.nodes.now.capacity ≤ links_end }
        requires spare { 0 < spare self.old.keys.now }
        requires named { sprout.facts.id ≢ 0 → 0 < spare self.old.ids.now }
        requires live { IfSome parent (λ parent. IsLive (represented self.old) parent) }
        requires empty { parent ≡ None → (represented self.old).tree ≡ Nothing }
        requires taken { let views = represented self.old in
            refusal_at (plain_of views) (option_map (number_of views) parent) ≡ None }
        requires numbers { self.old.next.now < 2 ^ 63 }
        ensures references { KeepsReferences self.old self.new }
        ensures sound { IsPlanted (fields_of self.new) }
        ensures attached { let old = represented self.old in
            Attached old parent (running_below parent old.tree (view_of old.next (seed_of sprout))) result
            (represented self.new) }
        ensures len { slab_len self.new.nodes.now ≡ slab_len self.old.nodes.now + 1 }
        ensures capacity { self.new.nodes.now.capacity ≡ self.old.nodes.now.capacity }
        ensures spare { (spare self.old.keys.now ≤ spare self.new.keys.now + 1)
            × (spare self.old.ids.now ≤ spare self.new.ids.now + 1) }
    {
        let number = *self.next;
        let id = sprout.facts.id;
        let facts = directed(self.nodes, parent, sprout.facts);
        let key = link_last(self.nodes, parent, number, Sprout { facts, ..sprout });
        note_key(self.keys, number, key);
        match note_id(self.ids, id, key) {
            Ok(()) => (),
            Err(_) => unreachable!(),
        }
        *self.root = root_with(*self.root, parent, key);
        *self.next = number + 1;
        key
    }

    /// Makes the views of a sapling below its outermost one, which was added: each the last child of the view that was
    /// added last of those one less deep.
    pub fn sow(&mut self, outermost: Key, sprouts: IntoIter<Sprout>)
        requires sound { IsPlanted (fields_of self.old) }
        requires room { HasRoomFor self.old.nodes.now (length (into_iter_items sprouts)) }
        requires small { self.old.nodes.now.capacity ≤ links_end }
        requires spare { (length (into_iter_items sprouts) ≤ spare self.old.keys.now)
            × (length (into_iter_items sprouts) ≤ spare self.old.ids.now) }
        requires live { IsLive (represented self.old) outermost }
        requires follow { follows 1 (into_iter_items sprouts) ≡ true }
        requires fits { FitsBelow (represented self.old) outermost (into_iter_items sprouts) }
        requires numbers { self.old.next.now + length (into_iter_items sprouts) < 2 ^ 63 }
        ensures references { KeepsReferences self.old self.new }
        ensures sound { IsPlanted (fields_of self.new) }
        ensures gained { GainedBelow (represented self.old) outermost (represented self.new) }
        ensures plain { (kids : Forest Seed)
            → preorder 2 kids ≡ into_iter_items sprouts
            → let old = represented self.old in
            plain_of (represented self.new) ≡ grown (number_of old outermost)
            (directed (is_rtl_at (Some outermost) old.tree) (numbered old.next kids)) (plain_of old) }
        ensures next { self.new.next.now ≡ self.old.next.now + length (into_iter_items sprouts) }
    {
        let mut sprouts = sprouts;
        let mut path = [outermost; MAX_DEPTH];
        while let Some(sprout) = sprouts.next() {
            let depth = sprout.depth as usize;
            let above = path[depth - 2];
            let key = self.plant(Some(above), sprout);
            path[depth - 1] = key;
        }
    }
}

/// The facts of a view that comes below this parent, or as the root: it runs in its own direction, or as the parent.
fn directed(nodes: &Slab<Node>, parent: Option<Key>, facts: Facts) -> Facts
    requires { (k : ℕ) → parent ≡ Some k → ContainsKey nodes.now k }
    ensures { result ≡ record facts { rtl = dir (runs_at (plain_node_at nodes.now) parent) facts.direction } }
{
    let above = match parent {
        None => false,
        Some(parent) => nodes[parent].facts.rtl,
    };
    Facts {
        rtl: facts.direction.is_rtl(above),
        ..facts
    }
}

/// The root once a view was added.
fn root_with(root: Option<Key>, parent: Option<Key>, key: Key) -> Option<Key>
    ensures { result ≡ replaced_if_none parent (Some key) root }
{
    match parent {
        None => Some(key),
        Some(_) => root,
    }
}
