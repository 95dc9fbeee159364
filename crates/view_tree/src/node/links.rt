//! The neighbours of a view.

use slab_link::Link;

/// The views around a view, by their keys, if there are any: its parent, its first and its last child, and the siblings
/// right before and right after it.
#[derive(Clone, Copy)]
pub struct Links {
    pub parent: Link,
    pub first: Link,
    pub last: Link,
    pub previous: Link,
    pub next: Link,
}
