//! The tree of views.
ghost use Rattle.std.specs.Prelude.{◌≡◌, IfSome, ◌≤◌};
ghost use Rattle.view_model.specs.Numbers.{max_views};
ghost use Rattle.view_model.specs.Forest.{count_of};
ghost use Rattle.view_tree.specs.Rows.{rest_from, first_key};
ghost use Rattle.view_tree.specs.Views.{IsLive, IsTree, no_views};

mod attach;
mod bed;
mod detach;
mod direct;
mod find;
mod graft;
mod look_up;
mod plain;
mod preorder;
mod relatives;
mod request;
mod rules;
mod setters;
mod staying;

use crate::counts::Counts;
use crate::node::Node;
use crate::table::ids::Holders;
use indexmap::IndexMap;
use sibling_orders::SiblingOrders;
use slab::Slab;
use std::alloc::Global;
use std::marker::Model;

/// What a live view is found by without a search. Each call that takes one requires it to be live.
pub type Key = usize;

/// A tree of views.
#[derive(Drop)]
pub struct ViewTree {
    nodes: Slab<Node>,
    /// The key of each view by its number, in four bytes: keys are below `LINKS_END`.
    keys: IndexMap<u64, u32>,
    /// The views of each id that some view has.
    ids: IndexMap<u32, Holders>,
    /// What is kept of the children of each relative layout, by the number of that.
    groups: IndexMap<u64, SiblingOrders>,
    root: Option<usize>,
    next: u64,
    counts: Counts,
}

impl Model for ViewTree {
    ghost use Rattle.view_tree.specs.Codes.{views_code};
    ghost use Rattle.view_tree.specs.Views.{Views};

    ghost Value = { Views };

    ghost coded = { views_code };

    ghost use Rattle.view_tree.specs.node.Nodes.{value_of, IsSoundTree};

    ghost view = { value_of };

    ghost invariant = { IsSoundTree };
}

impl ViewTree {
    /// A tree without a view. The first view has the number 1.
    pub fn new(alloc: Global) -> ViewTree
        ensures { result ≡ no_views }
    {
        ViewTree {
            nodes: Slab::new(alloc),
            keys: IndexMap::new(alloc),
            ids: IndexMap::new(alloc),
            groups: IndexMap::new(alloc),
            root: None,
            next: 1,
            counts: Counts {
                measures: 0,
                laid: 0,
            },
        }
    }

    /// The root, if there is a view.
    pub fn root(&self) -> Option<Key>
        ensures key { result ≡ first_key self.now.tree }
        ensures part { rest_from result self.now.tree ≡ self.now.tree }
        ensures live { IfSome result (IsLive self.now) }
        ensures is_tree { IsTree self.now }
    {
        self.root
    }

    /// The number of the view that is made next.
    pub fn next_number(&self) -> u64
        ensures { result ≡ self.now.next }
    {
        self.next
    }

    /// How often a view was measured since the tree was made.
    pub fn measures(&self) -> u64
        ensures { result ≡ self.now.counts.measures }
    {
        self.counts.measures
    }

    /// How often bounds were set since the tree was made.
    pub fn laid(&self) -> u64
        ensures { result ≡ self.now.counts.laid }
    {
        self.counts.laid
    }

    /// How many views there are.
    pub fn len(&self) -> usize
        ensures value { result ≡ count_of self.now.tree }
        ensures few { result ≤ max_views }
    {
        self.nodes.len()
    }
}
