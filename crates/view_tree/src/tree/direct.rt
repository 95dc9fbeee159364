//! The direction of a view, and what runs in it.
ghost use Rattle.std.specs.Prelude.{◌≡◌, false, ℕ};
ghost use Rattle.view_model.specs.Directed.{directed, with_direction as plain_with_direction};
ghost use Rattle.view_tree.specs.tree.Directions.{asked_by_direction, directed_rows, is_rtl_above, with_direction};
ghost use Rattle.view_tree.specs.tree.Requests.{requested};
ghost use Rattle.view_tree.specs.Rows.{changed_at_key};
ghost use Rattle.view_tree.specs.Views.{IsLive, IsTree, held_of, number_of, plain_of, KeepsNext, KeepsCounts};

use super::{Key, ViewTree};
use crate::node::turning::turn;
use view_model::Direction;

impl ViewTree {
    /// Sets the direction of a view, and in which way it runs with all that inherits from it. Layout is requested at the
    /// view, and at each view that runs another way from now on. It takes no memory, and time for what is below the view.
    pub fn set_direction(&mut self, view: Key, direction: Direction)
        requires { IsLive self.old view }
        ensures tree { self.new.tree ≡ directed_rows false
            (changed_at_key view (with_direction direction) self.old.tree) }
        ensures plain { plain_of self.new
            ≡ directed false (plain_with_direction (number_of self.old view) direction (plain_of self.old)) }
        ensures orders { self.new.orders ≡ self.old.orders }
        ensures next { KeepsNext self.old self.new }
        ensures held { (key : ℕ)
            → held_of self.new key ≡ requested (held_of self.old)
            (asked_by_direction view direction self.old.tree) self.old.tree key }
        ensures counts { KeepsCounts self.old self.new }
        ensures is_tree { IsTree self.old }
    {
        self.request(view);
        let above = self.runs_above(view);
        let node = &mut self.nodes[view];
        node.facts.direction = direction;
        turn(&mut self.nodes, view, above);
    }

    /// Whether what is around a view runs from right to left; around a root nothing does.
    fn runs_above(&self, view: Key) -> bool
        requires { IsLive self.now view }
        ensures { result ≡ is_rtl_above self.now view }
    {
        match self.parent(view) {
            None => false,
            Some(parent) => self.facts(parent).rtl,
        }
    }
}
