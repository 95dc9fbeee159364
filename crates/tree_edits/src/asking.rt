//! Requests for layout that go with edits.
//!
//! What asks for layout depends on the edit, not on what it changes: an act that sets what was set asks too, and
//! `visible V gone` even if V is gone, so that what a frame measures at most can be read off the script. Colours,
//! `clip`, `split`, `answer` and `intercept` never ask; `scroll` does, since the offset may leave its range. Of the
//! lines that are no edit, `hook`, `disallow` and those of touches never ask, `window` asks at no view, and `restore`
//! at each view that it sets.
ghost use Rattle.std.specs.Prelude.{◌≡◌, ℕ, IfSome};
ghost use Rattle.tree_edits.specs.Asking.{asked_by_act, listed, requests_layout};
ghost use Rattle.view_tree.specs.tree.Requests.{requested};
ghost use Rattle.view_tree.specs.Views.{IsLive, SameTree, held_of, KeepsCounts};

use view_model::Act;
use view_tree::{Key, ViewTree};

/// Whether an act may change the layout.
pub fn requests_layout(act: Act) -> bool
    ensures { result ≡ requests_layout act }
{
    act.facet().asks()
}

/// Requests layout at a view after an act, if the act may change it.
pub fn request_by(tree: &mut ViewTree, view: Key, act: Act)
    requires { IsLive tree.old view }
    ensures same { SameTree tree.old tree.new }
    ensures held { (key : ℕ)
        → held_of tree.new key ≡ requested (held_of tree.old) (asked_by_act view act) tree.old.tree key }
    ensures counts { KeepsCounts tree.old tree.new }
{
    if requests_layout(act) {
        tree.request(view);
    }
}

/// Requests layout at a view, if there is one.
pub fn request_at(tree: &mut ViewTree, view: Option<Key>)
    requires { IfSome view (λ view. IsLive tree.old view) }
    ensures same { SameTree tree.old tree.new }
    ensures held { (key : ℕ) → held_of tree.new key ≡ requested (held_of tree.old) (listed view) tree.old.tree key }
    ensures counts { KeepsCounts tree.old tree.new }
{
    if let Some(view) = view {
        tree.request(view);
    }
}
