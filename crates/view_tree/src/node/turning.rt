//! How views turn with their parents.
ghost use Rattle.std.specs.Prelude.{◌≡◌, ◌≢◌, ℕ, option_map};
ghost use Rattle.slab.specs.Slab.{ContainsKey, get};
ghost use Rattle.view_tree.specs.node.Nodes.{plain_node_at, KeepsNodeCount};
ghost use Rattle.view_tree.specs.Rows.{count_of_key, first_tree};
ghost use Rattle.view_tree.specs.node.Turning.{HaveTurned, IsPart, part_at, running_node};

use crate::node::Node;
use slab::Slab;

/// Lets a view below a parent that runs from right to left or not, and all that inherits from it, run as their
/// directions say. Layout is requested at each that runs another way from now on. What is below a view that runs as before
/// stays. A view without children, as most are, takes no call.
#[cycle(turn)]
#[inline(always)]
pub fn turn(nodes: &mut Slab<Node>, view: usize, above: bool)
    requires { IsPart (plain_node_at nodes.old) view (part_at nodes.old view) }
    ensures turned { HaveTurned (get nodes.old) (get nodes.new) above (first_tree (part_at nodes.old view)) }
    ensures others { (key : ℕ)
        → count_of_key key (first_tree (part_at nodes.old view)) ≡ 0
        → get nodes.new key ≡ get nodes.old key }
    ensures len { KeepsNodeCount nodes.old nodes.new }
{
    let node = &nodes[view];
    if let Some(_kid) = node.links.first.key() {
        turn_group(nodes, view, above);
        return;
    }
    let rtl = node.facts.direction.is_rtl(above);
    if node.facts.rtl == rtl {
        return;
    }
    run(nodes, view, rtl);
}

/// The same of any view.
#[cycle(turn)]
#[inline(never)]
fn turn_group(nodes: &mut Slab<Node>, view: usize, above: bool)
    requires { IsPart (plain_node_at nodes.old) view (part_at nodes.old view) }
    ensures turned { HaveTurned (get nodes.old) (get nodes.new) above (first_tree (part_at nodes.old view)) }
    ensures others { (key : ℕ)
        → count_of_key key (first_tree (part_at nodes.old view)) ≡ 0
        → get nodes.new key ≡ get nodes.old key }
    ensures len { KeepsNodeCount nodes.old nodes.new }
{
    let facts = nodes[view].facts;
    let rtl = facts.direction.is_rtl(above);
    if facts.rtl == rtl {
        return;
    }
    let mut next = nodes[view].links.first.key();
    run(nodes, view, rtl);
    while let Some(kid) = next {
        next = nodes[kid].links.next.key();
        turn(nodes, kid, rtl);
    }
}

/// Lets one view run from right to left or not, and requests its layout.
fn run(nodes: &mut Slab<Node>, view: usize, rtl: bool)
    requires { ContainsKey nodes.old view }
    ensures own { get nodes.new view ≡ option_map (running_node rtl) (get nodes.old view) }
    ensures others { (key : ℕ) → key ≢ view → get nodes.new key ≡ get nodes.old key }
    ensures len { KeepsNodeCount nodes.old nodes.new }
{
    let node = &mut nodes[view];
    node.facts.rtl = rtl;
    node.state.forced = true;
    node.cache.clear();
}
