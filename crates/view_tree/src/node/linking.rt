//! How nodes join and leave their neighbours. A key that is `None` means that there is no such neighbour.
ghost use Rattle.std.specs.Prelude.{◌≡◌, ◌≢◌, ◌<◌, ◌≤◌, ◌+◌, ℕ, Some, None, IfSome};
ghost use Rattle.slab.specs.Slab.{get, slab_len, ContainsKey, HasRoomFor};
ghost use Rattle.slab_link.specs.Numbers.{links_end};
ghost use Rattle.view_model.specs.Sprouts.{seed_of, view_of};
ghost use Rattle.view_tree.specs.node.Nodes.{PlainNode, IsAround, changed_at, held_in, linked, replaced_if_none, key_or, last_child, plain_node_at, unlinked, KeepsNodeCount, KeepsNodeRoom};
ghost use Rattle.view_tree.specs.Views.{fresh_held};

use crate::node::Node;
use crate::node::links::Links;
use crate::node::state::fresh_state;
use measure_cache::Cache;
use slab::Slab;
use slab_link::Link;
use view_model::Sprout;

/// Sets the next sibling of a node, if there is one.
fn set_next(nodes: &mut Slab<Node>, key: Option<usize>, next: Link)
    requires { (k : ℕ) → key ≡ Some k → ContainsKey nodes.old k }
    ensures links { (x : ℕ)
        → plain_node_at nodes.new x ≡ changed_at (plain_node_at nodes.old) key (λ node. record node { next = next }) x }
    ensures held { (x : ℕ) → held_in (get nodes.new x) ≡ held_in (get nodes.old x) }
    ensures len { KeepsNodeCount nodes.old nodes.new }
    ensures capacity { KeepsNodeRoom nodes.old nodes.new }
{
    if let Some(key) = key {
        let node = &mut nodes[key];
        node.links.next = next;
    }
}

/// Sets the previous sibling of a node, if there is one.
fn set_previous(nodes: &mut Slab<Node>, key: Option<usize>, previous: Link)
    requires { (k : ℕ) → key ≡ Some k → ContainsKey nodes.old k }
    ensures links { (x : ℕ)
        → plain_node_at nodes.new x
        ≡ changed_at (plain_node_at nodes.old) key (λ node. record node { previous = previous }) x }
    ensures held { (x : ℕ) → held_in (get nodes.new x) ≡ held_in (get nodes.old x) }
    ensures len { KeepsNodeCount nodes.old nodes.new }
    ensures capacity { KeepsNodeRoom nodes.old nodes.new }
{
    if let Some(key) = key {
        let node = &mut nodes[key];
        node.links.previous = previous;
    }
}

/// A child is added after the others.
fn set_last(nodes: &mut Slab<Node>, parent: Option<usize>, kid: usize)
    requires there { (k : ℕ) → parent ≡ Some k → ContainsKey nodes.old k }
    requires small { kid < links_end }
    ensures links { (x : ℕ)
        → plain_node_at nodes.new x ≡ changed_at (plain_node_at nodes.old) parent
        (λ node. record node { first = key_or node.first kid; last = Some kid }) x }
    ensures held { (x : ℕ) → held_in (get nodes.new x) ≡ held_in (get nodes.old x) }
    ensures len { KeepsNodeCount nodes.old nodes.new }
    ensures capacity { KeepsNodeRoom nodes.old nodes.new }
{
    if let Some(parent) = parent {
        let node = &mut nodes[parent];
        let kid = Link::to(kid);
        if node.links.first.key().is_none() {
            node.links.first = kid;
        }
        node.links.last = kid;
    }
}

/// Sets the first and the last child of a node, once a child between these is taken out.
fn set_ends(nodes: &mut Slab<Node>, parent: Option<usize>, previous: Link, next: Link)
    requires { (k : ℕ) → parent ≡ Some k → ContainsKey nodes.old k }
    ensures links { (x : ℕ)
        → plain_node_at nodes.new x ≡ changed_at (plain_node_at nodes.old) parent (λ node. record node {
          first = replaced_if_none previous next node.first;
          last = replaced_if_none next previous node.last;
        }) x }
    ensures held { (x : ℕ) → held_in (get nodes.new x) ≡ held_in (get nodes.old x) }
    ensures len { KeepsNodeCount nodes.old nodes.new }
    ensures capacity { KeepsNodeRoom nodes.old nodes.new }
{
    if let Some(parent) = parent {
        let node = &mut nodes[parent];
        if previous.key().is_none() {
            node.links.first = next;
        }
        if next.key().is_none() {
            node.links.last = previous;
        }
    }
}

/// The last child of a parent, if there is one.
fn last_of(nodes: &Slab<Node>, parent: Option<usize>) -> Link
    requires { (k : ℕ) → parent ≡ Some k → ContainsKey nodes.now k }
    ensures { result ≡ last_child (plain_node_at nodes.now) parent }
{
    match parent {
        None => Link::none(),
        Some(parent) => nodes[parent].links.last,
    }
}

/// Makes the node of a view with this number, the last child of its parent. How deep the sprout is does not matter.
pub fn link_last(
    nodes: &mut Slab<Node>,
    parent: Option<usize>,
    number: u64,
    sprout: Sprout,
) -> usize
    requires room { HasRoomFor nodes.old 1 }
    requires small { nodes.old.capacity ≤ links_end }
    requires linked { IfSome parent (λ k. k < links_end) }
    requires parent { (k : ℕ) → parent ≡ Some k → ContainsKey nodes.old k }
    requires last { (k : ℕ) → last_child (plain_node_at nodes.old) parent ≡ Some k → ContainsKey nodes.old k }
    ensures unused { get nodes.old result ≡ None }
    ensures small { result < links_end }
    ensures links { (x : ℕ)
        → plain_node_at nodes.new x ≡ linked (plain_node_at nodes.old) parent result (view_of number (seed_of sprout))
        (last_child (plain_node_at nodes.old) parent) x }
    ensures held { held_in (get nodes.new result) ≡ Some (fresh_held sprout.facts.offset) }
    ensures others { (x : ℕ) → x ≢ result → held_in (get nodes.new x) ≡ held_in (get nodes.old x) }
    ensures len { slab_len nodes.new ≡ slab_len nodes.old + 1 }
    ensures capacity { KeepsNodeRoom nodes.old nodes.new }
{
    let last = last_of(nodes, parent);
    let key = nodes.insert_reserved(Node {
        number,
        class: sprout.class,
        facts: sprout.facts,
        text: sprout.text,
        links: Links {
            parent: Link::of(parent),
            first: Link::none(),
            last: Link::none(),
            previous: last,
            next: Link::none(),
        },
        state: fresh_state(),
        cache: Cache::new(),
    });
    set_next(nodes, last.key(), Link::to(key));
    set_last(nodes, parent, key);
    key
}

/// Takes a node out from among its neighbours.
pub fn unlink(nodes: &mut Slab<Node>, key: usize) -> Node
    requires there { ContainsKey nodes.old key }
    requires around { (node : PlainNode) (k : ℕ)
        → plain_node_at nodes.old key ≡ Some node
        → IsAround node k
        → ContainsKey nodes.old k × (k ≢ key) }
    ensures node { get nodes.old key ≡ Some result }
    ensures links { (node : PlainNode)
        → plain_node_at nodes.old key ≡ Some node
        → (x : ℕ)
        → plain_node_at nodes.new x ≡ unlinked (plain_node_at nodes.old) key node x }
    ensures held { (x : ℕ) → x ≢ key → held_in (get nodes.new x) ≡ held_in (get nodes.old x) }
    ensures len { slab_len nodes.new + 1 ≡ slab_len nodes.old }
{
    let node = nodes.remove(key);
    let links = node.links;
    set_next(nodes, links.previous.key(), links.next);
    set_previous(nodes, links.next.key(), links.previous);
    set_ends(nodes, links.parent.key(), links.previous, links.next);
    node
}
