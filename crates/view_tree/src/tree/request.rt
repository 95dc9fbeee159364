//! Requests for layout.
ghost use Rattle.std.specs.Prelude.{◌≡◌, ℕ, if◌then◌else◌};
ghost use Rattle.view_tree.specs.tree.Requests.{among, asking, forced_one, unforced};
ghost use Rattle.view_tree.specs.Rows.{ancestors};
ghost use Rattle.view_tree.specs.Views.{IsLive, KeepsOthers, SameTree, held_of, KeepsCounts};

use super::{Key, ViewTree};

impl ViewTree {
    /// Requests the layout of a view: forces it and forgets its sizes, and does the same at its parent if that is not
    /// forced yet, and so on upwards. It takes as many steps as views are forced by it.
    #[cycle(request)]
    pub fn request(&mut self, view: Key)
        requires { IsLive self.old view }
        ensures same { SameTree self.old self.new }
        ensures held { (key : ℕ)
            → held_of self.new key ≡ (if among key (asking (held_of self.old) view self.old.tree)
            then forced_one (held_of self.old key) else held_of self.old key) }
        ensures counts { KeepsCounts self.old self.new }
    {
        self.request_above(view);
        self.press(view);
    }

    /// Requests the layout of the parent of a view, if there is one that is not forced yet.
    #[cycle(request)]
    fn request_above(&mut self, view: Key)
        requires { IsLive self.old view }
        ensures same { SameTree self.old self.new }
        ensures held { (key : ℕ)
            → held_of self.new key ≡ (if among key (unforced (held_of self.old) (ancestors view self.old.tree))
            then forced_one (held_of self.old key) else held_of self.old key) }
        ensures counts { KeepsCounts self.old self.new }
    {
        match self.parent(view) {
            None => {}
            Some(parent) => {
                if self.state(parent).forced {
                    return;
                }
                self.request(parent);
            }
        }
    }

    /// Forces one view, and forgets its sizes.
    fn press(&mut self, view: Key)
        requires { IsLive self.old view }
        ensures same { SameTree self.old self.new }
        ensures held { held_of self.new view ≡ forced_one (held_of self.old view) }
        ensures others { KeepsOthers self.old self.new view }
        ensures counts { KeepsCounts self.old self.new }
    {
        let mut state = self.state(view);
        state.forced = true;
        self.set_state(view, state);
        self.forget(view);
    }
}
