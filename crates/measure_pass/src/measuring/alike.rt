//! Whether what is below a view is right under any specs. Then a size from the cache leaves no mark: measuring the
//! children again would ask each for the size that it has.
ghost use Rattle.std.specs.Prelude.{◌≡◌, true};
ghost use Rattle.measure_pass.specs.Alike.{AreSized, AsksAlike, IsRightBelow};
ghost use Rattle.linear_layout.specs.Line.{is_sized};
ghost use Rattle.measure_pass.specs.Measured.{kids_from};
ghost use Rattle.view_model.specs.Facts.{is_shown};
ghost use Rattle.view_tree.specs.Views.{IsLive, class_of, facts_of};

use linear_layout::is_sized;
use view_model::Class;
use view_tree::{Key, ViewTree};

/// Whether what is below a view is right under any specs, as in a view without children, or in a linear layout of
/// children that have a number of pixels on both axes. It is not looked further than to the first child that has not.
pub fn is_right_below(tree: &ViewTree, view: Key) -> bool
    requires { IsLive tree.now view }
    ensures { result ≡ true → IsRightBelow tree.now view }
{
    let state = tree.state(view);
    if state.forced {
        return false;
    }
    if state.measure_first {
        return false;
    }
    asks_alike(tree, view)
}

/// Whether a view asks the same of its children under any specs.
fn asks_alike(tree: &ViewTree, view: Key) -> bool
    requires { IsLive tree.now view }
    ensures { result ≡ true → AsksAlike (class_of tree.now view) (kids_from view tree.now.tree) }
{
    let class = tree.class(view);
    if !class.is_group() {
        return true;
    }
    match class {
        Class::LinearLayout => are_sized(tree, view),
        _ => false,
    }
}

/// Whether each child of a view that takes part in layout has a number of pixels on both axes, and no weight.
fn are_sized(tree: &ViewTree, view: Key) -> bool
    requires { IsLive tree.now view }
    ensures { result ≡ true → AreSized (kids_from view tree.now.tree) }
{
    let mut next = tree.first(view);
    while let Some(kid) = next {
        if !is_sized_or_gone(tree, kid) {
            return false;
        }
        next = tree.next(kid);
    }
    true
}

/// Whether a view is gone, or has a number of pixels on both axes and no weight.
#[inline(always)]
fn is_sized_or_gone(tree: &ViewTree, view: Key) -> bool
    requires { IsLive tree.now view }
    ensures { result ≡ true → is_shown (facts_of tree.now view) ≡ true → is_sized (facts_of tree.now view) ≡ true }
{
    let facts = tree.facts(view);
    if facts.is_shown() {
        return is_sized(facts);
    }
    true
}
