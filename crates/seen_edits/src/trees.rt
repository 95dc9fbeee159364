//! What every tree keeps.
ghost use Rattle.view_tree.specs.Views.{IsTree};

use view_tree::ViewTree;

/// The invariant of every tree, for contracts alone.
pub fn recall_tree(tree: &ViewTree)
    ensures { IsTree tree.now }
{
    let _root = tree.root();
}
