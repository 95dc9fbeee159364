//! The views in preorder, one after the other.
ghost use Rattle.std.specs.Prelude.{◌≡◌, ◌<◌, [], ◌∷◌, Some, IfSome, drop, length};
ghost use Rattle.view_tree.specs.tree.Preorder.{first_row_key, rows_following, rows_from, views_from};
ghost use Rattle.view_tree.specs.Views.{IsLive, IsTree, view_at};

use super::{Key, ViewTree};

impl ViewTree {
    /// The view that comes after a view in preorder. All of them in turn take as many steps as there are views, twice.
    pub fn next_in_preorder(&self, view: Key) -> Option<Key>
        requires { IsLive self.now view }
        ensures rows { rows_from result self.now.tree ≡ drop 1 (rows_from (Some view) self.now.tree) }
        ensures views { views_from self.now (Some view) ≡ view_at self.now view ∷ views_from self.now result }
        ensures fewer { length (rows_from result self.now.tree) < length (rows_from (Some view) self.now.tree) }
        ensures live { IfSome result (IsLive self.now) }
    {
        match self.first(view) {
            Some(kid) => Some(kid),
            None => self.next_outside(view),
        }
    }

    /// The view that comes after a view and all below it.
    fn next_outside(&self, view: Key) -> Option<Key>
        requires live { IsLive self.now view }
        requires is_tree { IsTree self.now }
        ensures key { result ≡ first_row_key (rows_following [] view self.now.tree) }
        ensures live { IfSome result (IsLive self.now) }
    {
        if let Some(sibling) = self.next(view) {
            return Some(sibling);
        }
        match self.parent(view) {
            Some(parent) => self.next_outside(parent),
            None => None,
        }
    }
}
