//! How nodes join and leave the targets of a group. A group and a target are named by the slots of their nodes.
ghost use Rattle.std.specs.Prelude.{◌≡◌, ◌≢◌, ◌==◌, ◌≤◌, ◌&&◌, true, if◌then◌else◌, ℕ, [], ◌∷◌, false, Some, None, OnErr, OnOk, ◌+◌};
ghost use Rattle.slab.specs.Slab.{get, ContainsKey, HasRoomFor, slab_len};
ghost use Rattle.slab_link.specs.Numbers.{links_end};
ghost use Rattle.touch_targets.specs.declared.node.Node.{Node};
ghost use Rattle.touch_targets.specs.Nodes.{AreLinked, IsFollowing, IsTarget, caught_at, caught_by, caught_in_slot, changed, fresh_node, has_slot, left_at, slots_by, relinked, view_at, view_of, without_slot, without_caught, KeepsCapacity, KeepsViewOfEach};
ghost use Rattle.touch_targets.specs.Seats.{drop_caught, is_caught, mask_with, mask_without, put_caught, HasPointers};

use crate::node::Node;
use slab::Slab;
use slab_link::{LINKS_END, Link};
use std::alloc::AllocError;

/// Sets the newest target of a group.
fn set_newest(nodes: &mut Slab<Node>, group: usize, newest: Link)
    requires { ContainsKey nodes.old group }
    ensures nodes { (x : ℕ)
        → get nodes.new x ≡ changed (get nodes.old) group (λ node. record node { newest = newest }) x }
    ensures capacity { KeepsCapacity nodes.old nodes.new }
{
    let node = &mut nodes[group];
    node.newest = newest;
}

/// Sets which target of its group comes after this one.
fn set_next(nodes: &mut Slab<Node>, slot: usize, next: Link)
    requires { ContainsKey nodes.old slot }
    ensures nodes { (x : ℕ) → get nodes.new x ≡ changed (get nodes.old) slot (λ node. record node { next = next }) x }
    ensures capacity { KeepsCapacity nodes.old nodes.new }
{
    let node = &mut nodes[slot];
    node.next = next;
}

/// Sets the pointers of a target, where bit `k` represents the id `k`.
fn write_ids(nodes: &mut Slab<Node>, slot: usize, ids: u32)
    requires { ContainsKey nodes.old slot }
    ensures nodes { (x : ℕ) → get nodes.new x ≡ changed (get nodes.old) slot (λ node. record node { ids = ids }) x }
    ensures capacity { KeepsCapacity nodes.old nodes.new }
{
    let node = &mut nodes[slot];
    node.ids = ids;
}

/// Sets what comes right after a target, or first if that is none.
fn set_following(nodes: &mut Slab<Node>, group: usize, previous: Option<usize>, next: Link)
    requires group { ContainsKey nodes.old group }
    requires previous { (p : ℕ) → previous ≡ Some p → ContainsKey nodes.old p }
    ensures nodes { (x : ℕ) → get nodes.new x ≡ relinked (get nodes.old) group previous next x }
    ensures capacity { KeepsCapacity nodes.old nodes.new }
{
    match previous {
        None => set_newest(nodes, group, next),
        Some(previous) => set_next(nodes, previous, next),
    }
}

/// Makes a node a target of a group, or of none.
fn set_target(nodes: &mut Slab<Node>, slot: usize, group: Link, next: Link, ids: u32)
    requires { ContainsKey nodes.old slot }
    ensures nodes { (x : ℕ)
        → get nodes.new x ≡ changed (get nodes.old) slot
        (λ node. record node { group = group; next = next; ids = ids }) x }
    ensures capacity { KeepsCapacity nodes.old nodes.new }
{
    let node = &mut nodes[slot];
    node.group = group;
    node.next = next;
    node.ids = ids;
}

/// Sets the pointers of a target, at least one.
pub fn set_ids(nodes: &mut Slab<Node>, slot: usize, ids: u32)
    requires linked { AreLinked nodes.old }
    requires target { IsTarget (get nodes.old slot) }
    requires ids { HasPointers ids }
    ensures linked { AreLinked nodes.new }
    ensures nodes { (x : ℕ) → get nodes.new x ≡ changed (get nodes.old) slot (λ node. record node { ids = ids }) x }
    ensures slots { (x : ℕ) → slots_by nodes.new x ≡ slots_by nodes.old x }
    ensures capacity { KeepsCapacity nodes.old nodes.new }
{
    write_ids(nodes, slot, ids);
}

/// Makes a node that is no target the newest target of a group, with these pointers, at least one.
pub fn link_newest(nodes: &mut Slab<Node>, group: usize, child: usize, ids: u32)
    requires linked { AreLinked nodes.old }
    requires group { ContainsKey nodes.old group }
    requires child { ContainsKey nodes.old child }
    requires free { (node : Node) → get nodes.old child ≡ Some node → node.group ≡ None }
    requires ids { HasPointers ids }
    ensures linked { AreLinked nodes.new }
    ensures caught { (x : ℕ)
        → caught_by nodes.new x ≡ (if x == group
        then caught_in_slot (get nodes.old child) ids ∷ caught_by nodes.old x else caught_by nodes.old x) }
    ensures views { KeepsViewOfEach nodes.old nodes.new }
    ensures capacity { KeepsCapacity nodes.old nodes.new }
{
    let next = nodes[group].newest;
    set_target(nodes, child, Link::to(group), next, ids);
    set_newest(nodes, group, Link::to(child));
}

/// Takes a target away from its group. `previous` is the target right before it, which is newer, if there is one.
pub fn unlink(nodes: &mut Slab<Node>, group: usize, previous: Option<usize>, slot: usize)
    requires linked { AreLinked nodes.old }
    requires group { ContainsKey nodes.old group }
    requires following { IsFollowing previous slot (slots_by nodes.old group) }
    ensures linked { AreLinked nodes.new }
    ensures slots { (x : ℕ)
        → slots_by nodes.new x
        ≡ (if x == group then without_slot slot (slots_by nodes.old x) else slots_by nodes.old x) }
    ensures others { (x : ℕ) → x ≢ slot → caught_at (get nodes.new x) ≡ caught_at (get nodes.old x) }
    ensures views { KeepsViewOfEach nodes.old nodes.new }
    ensures capacity { KeepsCapacity nodes.old nodes.new }
{
    let next = nodes[slot].next;
    set_following(nodes, group, previous, next);
    set_target(nodes, slot, Link::none(), Link::none(), 0);
}

/// The target right before one of a group, if there is one.
fn before(nodes: &Slab<Node>, group: usize, slot: usize) -> Option<usize>
    requires linked { AreLinked nodes.now }
    requires group { ContainsKey nodes.now group }
    requires there { has_slot slot (slots_by nodes.now group) ≡ true }
    ensures { IsFollowing result slot (slots_by nodes.now group) }
{
    let mut previous = None;
    let mut at = nodes[group].newest.key();
    while let Some(other) = at {
        if other == slot {
            return previous;
        }
        previous = at;
        at = nodes[other].next.key();
    }
    previous
}

/// Takes a target away from its group.
fn unlink_child(nodes: &mut Slab<Node>, group: usize, child: usize)
    requires linked { AreLinked nodes.old }
    requires target { (node : Node) → get nodes.old child ≡ Some node → node.group ≡ Some group }
    requires child { ContainsKey nodes.old child }
    ensures linked { AreLinked nodes.new }
    ensures caught { (x : ℕ)
        → caught_by nodes.new x ≡ without_caught (view_of (get nodes.old child)) (caught_by nodes.old x) }
    ensures views { KeepsViewOfEach nodes.old nodes.new }
    ensures capacity { KeepsCapacity nodes.old nodes.new }
{
    let previous = before(nodes, group, child);
    unlink(nodes, group, previous, child);
}

/// Takes a view away from the group that has captured it, if one has.
pub fn remove(nodes: &mut Slab<Node>, child: usize)
    requires linked { AreLinked nodes.old }
    requires child { ContainsKey nodes.old child }
    ensures linked { AreLinked nodes.new }
    ensures caught { (x : ℕ)
        → caught_by nodes.new x ≡ without_caught (view_of (get nodes.old child)) (caught_by nodes.old x) }
    ensures views { KeepsViewOfEach nodes.old nodes.new }
    ensures capacity { KeepsCapacity nodes.old nodes.new }
{
    match nodes[child].group.key() {
        None => (),
        Some(group) => unlink_child(nodes, group, child),
    }
}

/// Captures a view by these pointers, at least one, for a group. It is no target of another.
pub fn put(nodes: &mut Slab<Node>, group: usize, child: usize, ids: u32)
    requires linked { AreLinked nodes.old }
    requires group { ContainsKey nodes.old group }
    requires child { ContainsKey nodes.old child }
    requires only { (node : Node) (x : ℕ) → get nodes.old child ≡ Some node → node.group ≡ Some x → x ≡ group }
    requires ids { HasPointers ids }
    ensures linked { AreLinked nodes.new }
    ensures caught { (x : ℕ)
        → caught_by nodes.new x ≡ (if x == group
        then put_caught (view_at nodes.old child) ids (caught_by nodes.old x) else caught_by nodes.old x) }
    ensures views { KeepsViewOfEach nodes.old nodes.new }
    ensures capacity { KeepsCapacity nodes.old nodes.new }
{
    match nodes[child].group.key() {
        None => link_newest(nodes, group, child, ids),
        Some(_) => {
            let all = ids_with(nodes[child].ids, ids);
            set_ids(nodes, child, all);
        }
    }
}

/// Takes the node out of a view that is no target and has none.
pub fn take_out(nodes: &mut Slab<Node>, slot: usize)
    requires linked { AreLinked nodes.old }
    requires there { ContainsKey nodes.old slot }
    requires empty { caught_by nodes.old slot ≡ [] }
    requires free { (x : ℕ) → is_caught (view_at nodes.old slot) (caught_by nodes.old x) ≡ false }
    ensures linked { AreLinked nodes.new }
    ensures nodes { (x : ℕ) → get nodes.new x ≡ (if x == slot then None else get nodes.old x) }
    ensures caught { (x : ℕ) → caught_by nodes.new x ≡ caught_by nodes.old x }
    ensures len { slab_len nodes.new + 1 ≡ slab_len nodes.old }
    ensures capacity { KeepsCapacity nodes.old nodes.new }
{
    nodes.remove(slot);
}

/// Takes the memory for the nodes of this many views, if links can name their slots. A copy grows, so that nothing has
/// changed if they can't.
pub fn make_room(nodes: &mut Slab<Node>, views: usize) -> Result<(), AllocError>
    requires small { nodes.old.capacity ≤ links_end }
    ensures rest_kept { nodes.new ≡ record nodes.old { capacity = nodes.new.capacity } }
    ensures room { OnOk result (views ≤ nodes.new.capacity) }
    ensures small { nodes.new.capacity ≤ links_end }
    ensures unchanged { OnErr result (nodes.new ≡ nodes.old) }
{
    let capacity = nodes.capacity();
    if views <= capacity {
        return Ok(());
    }
    let wanted = views.max(LINKS_END.min(capacity * 2));
    let mut grown = nodes.clone()?;
    grown.reserve_exact(wanted - grown.len())?;
    if grown.capacity() > LINKS_END {
        return Err(AllocError);
    }
    *nodes = grown;
    Ok(())
}

/// Inserts the node of a view that has none yet, into free room. Returns its slot.
pub fn put_in(nodes: &mut Slab<Node>, view: u64) -> usize
    requires room { HasRoomFor nodes.old 1 }
    requires small { nodes.old.capacity ≤ links_end }
    requires linked { AreLinked nodes.old }
    requires unknown { (x : ℕ) (node : Node) → get nodes.old x ≡ Some node → node.view ≢ view }
    ensures linked { AreLinked nodes.new }
    ensures unused { get nodes.old result ≡ None }
    ensures nodes { (x : ℕ) → get nodes.new x ≡ (if x == result then Some (fresh_node view) else get nodes.old x) }
    ensures caught { (x : ℕ) → caught_by nodes.new x ≡ caught_by nodes.old x }
    ensures len { slab_len nodes.new ≡ slab_len nodes.old + 1 }
    ensures capacity { KeepsCapacity nodes.old nodes.new }
{
    nodes.insert_reserved(Node {
        view,
        newest: Link::none(),
        group: Link::none(),
        next: Link::none(),
        ids: 0,
    })
}

/// Takes pointers away from all targets of a group, and removes the targets that have no others.
pub fn drop_ids(nodes: &mut Slab<Node>, group: usize, ids: u32)
    requires linked { AreLinked nodes.old }
    requires group { ContainsKey nodes.old group }
    ensures linked { AreLinked nodes.new }
    ensures caught { (x : ℕ)
        → caught_by nodes.new x
        ≡ (if x == group then drop_caught ids (caught_by nodes.old x) else caught_by nodes.old x) }
    ensures views { KeepsViewOfEach nodes.old nodes.new }
    ensures capacity { KeepsCapacity nodes.old nodes.new }
{
    let mut previous = None;
    let mut at = nodes[group].newest.key();
    while let Some(slot) = at {
        at = nodes[slot].next.key();
        previous = drop_ids_at(nodes, group, previous, slot, ids);
    }
}

/// Takes pointers away from one target, which comes right after another, and removes the target if it has no others.
/// Returns the one after which the next target comes then.
fn drop_ids_at(
    nodes: &mut Slab<Node>,
    group: usize,
    previous: Option<usize>,
    slot: usize,
    ids: u32,
) -> Option<usize>
    requires linked { AreLinked nodes.old }
    requires group { ContainsKey nodes.old group }
    requires following { IsFollowing previous slot (slots_by nodes.old group) }
    ensures linked { AreLinked nodes.new }
    ensures previous { result ≡ (if left_at nodes.old slot ids == 0 then previous else Some slot) }
    ensures slots { (x : ℕ)
        → slots_by nodes.new x ≡ (if left_at nodes.old slot ids == 0 && x == group
        then without_slot slot (slots_by nodes.old x) else slots_by nodes.old x) }
    ensures others { (x : ℕ) → x ≢ slot → caught_at (get nodes.new x) ≡ caught_at (get nodes.old x) }
    ensures own { left_at nodes.old slot ids ≢ 0
        → caught_at (get nodes.new slot) ≡ caught_in_slot (get nodes.old slot) (left_at nodes.old slot ids) }
    ensures views { KeepsViewOfEach nodes.old nodes.new }
    ensures capacity { KeepsCapacity nodes.old nodes.new }
{
    let left = ids_without(nodes[slot].ids, ids);
    if left == 0 {
        unlink(nodes, group, previous, slot);
        previous
    } else {
        set_ids(nodes, slot, left);
        Some(slot)
    }
}

/// The pointers of two sets.
#[tactic(auto, unfolding(crate::specs::Seats::mask_with))]
fn ids_with(ids: u32, more: u32) -> u32
    ensures { result ≡ mask_with ids more }
{
    ids | more
}

/// The pointers of one set that are not in another.
#[tactic(auto, unfolding(crate::specs::Seats::mask_without))]
fn ids_without(ids: u32, others: u32) -> u32
    ensures { result ≡ mask_without ids others }
{
    ids & !others
}
