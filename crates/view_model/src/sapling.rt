//! A view with all below it that is to be added to a tree.
ghost use Rattle.view_model.specs.Sprouts.{IsPreorder};

use crate::sprout::Sprout;

/// A view with all below it that is to be added to a tree: in preorder, with at least one view. The first has the depth
/// 1, and each later one a depth of at least 2 and of at most one more than the one before it.
#[derive(Drop)]
pub struct Sapling {
    pub sprouts: Vec<Sprout>,
    pub ghost preorder: { IsPreorder sprouts.items },
}
