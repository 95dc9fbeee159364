//! What is kept with a view when it is measured, and when its size is found.
ghost use Rattle.std.specs.Prelude.{◌≡◌, ◌+◌, ◌-◌, ◌^◌, min};
ghost use Rattle.measure_pass.specs.Caches.{pair_in};
ghost use Rattle.measure_pass.specs.Measured.{current, done_with, hit_with, made_up, resized_with};
ghost use Rattle.view_tree.specs.Views.{IsLive, KeepsOthers, SameTree, held_of, KeepsCounts};

use geom_core::{Size, Spec};
use measure_cache::{Entry, same_spec};
use view_model::Work;
use view_tree::{Key, State, ViewTree};

/// The result of a measuring: the view's size, and what its children took along its axis, with its padding, in pixels.
#[derive(Clone, Copy)]
pub struct Outcome {
    pub size: Size,
    pub total: i64,
}

/// Whether a view is not forced and was last measured under these specs.
pub fn is_current(state: &State, ws: Spec, hs: Spec) -> bool
    ensures { result ≡ current state.now (record { across = ws; down = hs }) }
{
    if state.forced {
        return false;
    }
    if !same_spec(state.ws, ws) {
        return false;
    }
    same_spec(state.hs, hs)
}

/// Takes the size of a view from its cache, and marks it: what is below it was measured for another pair.
#[inline(never)]
pub fn hit(tree: &mut ViewTree, view: Key, ws: Spec, hs: Spec, size: Size)
    requires { IsLive tree.old view }
    ensures same { SameTree tree.old tree.new }
    ensures held { held_of tree.new view ≡ hit_with (held_of tree.old view) (record { across = ws; down = hs }) size }
    ensures others { KeepsOthers tree.old tree.new view }
    ensures counts { KeepsCounts tree.old tree.new }
{
    let mut state = tree.state(view);
    state.measured = size;
    state.ws = ws;
    state.hs = hs;
    state.measure_first = true;
    state.layout_needed = true;
    tree.set_state(view, state);
}

/// Takes the size of a view from its cache, where what is below it is right for that as it is.
#[inline(never)]
pub fn resize(tree: &mut ViewTree, view: Key, ws: Spec, hs: Spec, size: Size)
    requires { IsLive tree.old view }
    ensures same { SameTree tree.old tree.new }
    ensures held { held_of tree.new view
        ≡ resized_with (held_of tree.old view) (record { across = ws; down = hs }) size }
    ensures others { KeepsOthers tree.old tree.new view }
    ensures counts { KeepsCounts tree.old tree.new }
{
    let mut state = tree.state(view);
    state.measured = size;
    state.ws = ws;
    state.hs = hs;
    tree.set_state(view, state);
}

/// Keeps the result of a measuring, its size under these specs and what the children took, remembers the size, and
/// counts it.
pub fn finish(tree: &mut ViewTree, view: Key, entry: Entry, total: i64, work: &mut Work)
    requires live { IsLive tree.old view }
    ensures same { SameTree tree.old tree.new }
    ensures held { held_of tree.new view
        ≡ done_with (held_of tree.old view) (pair_in entry) entry.size total }
    ensures others { KeepsOthers tree.old tree.new view }
    ensures counts { tree.new.counts
        ≡ record tree.old.counts { measures = min (tree.old.counts.measures + 1) (2 ^ 64 - 1) } }
    ensures counted { work.new ≡ record work.old { measured = min (work.old.measured + 1) (2 ^ 64 - 1) } }
{
    let mut state = tree.state(view);
    state.total = total;
    state.measure_first = false;
    state.layout_needed = true;
    tree.set_state(view, state);
    tree.set_measured(view, entry.size, entry.ws, entry.hs, work);
    tree.remember(view, entry.ws, entry.hs, entry.size);
}

/// Keeps the result of measuring a marked view's children, and counts it.
pub fn make_up(tree: &mut ViewTree, view: Key, outcome: Outcome, work: &mut Work)
    requires { IsLive tree.old view }
    ensures same { SameTree tree.old tree.new }
    ensures held { held_of tree.new view ≡ made_up (held_of tree.old view) outcome.size outcome.total }
    ensures others { KeepsOthers tree.old tree.new view }
    ensures counts { tree.new.counts
        ≡ record tree.old.counts { measures = min (tree.old.counts.measures + 1) (2 ^ 64 - 1) } }
    ensures counted { work.new ≡ record work.old { measured = min (work.old.measured + 1) (2 ^ 64 - 1) } }
{
    let mut state = tree.state(view);
    state.total = outcome.total;
    state.measure_first = false;
    tree.set_state(view, state);
    tree.set_measured(view, outcome.size, state.ws, state.hs, work);
}
