//! The node of a view that is a group or a target.

use slab_link::Link;

/// What is kept of a view that is a group or a target, or was one. Nodes name each other by their slots in the pool.
#[derive(Clone, Copy)]
pub struct Node {
    /// The number of the view.
    pub view: u64,
    /// As a group: its newest target.
    pub newest: Link,
    /// As a target: the group that captured it. None for a view that is no target.
    pub group: Link,
    /// As a target: the next older one of its group.
    pub next: Link,
    /// As a target: its pointers, at least one, where bit `k` represents the id `k`.
    pub ids: u32,
}
