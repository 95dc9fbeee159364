//! The sizes that are reported to hooks.
ghost use Rattle.std.specs.Prelude.{◌≡◌};
ghost use Rattle.size_hooks.specs.Hooks.{IsMap};
ghost use Rattle.traversal.specs.Reporting.{near_size, reported_over};
ghost use Rattle.view_tree.specs.Rows.{first_tree, part_from};
ghost use Rattle.view_tree.specs.Views.{IsLive, IsTree, geometry_of, held_of, laid_at, laid_rows, number_of, state_of};

use geom_core::{Rect, Size};
use size_hooks::Hooks;
use view_tree::{Key, ViewTree};

/// Each view that has bounds reports its size, if its hook is armed. If no hook is, no view is looked at.
pub fn report_all(tree: &ViewTree, hooks: &mut Hooks)
    ensures hooks { hooks.new ≡ reported_over (geometry_of tree.now) hooks.old }
    ensures is_tree { IsTree tree.now }
    ensures map { IsMap hooks.old }
{
    let root = tree.root();
    if hooks.is_empty() {
        return;
    }
    if let Some(root) = root {
        report_from(tree, hooks, root);
    }
}

/// So does a view, and then all below it.
fn report_from(tree: &ViewTree, hooks: &mut Hooks, view: Key)
    requires { IsLive tree.now view }
    ensures { hooks.new
        ≡ reported_over (laid_rows (held_of tree.now) (first_tree (part_from view tree.now.tree))) hooks.old }
{
    report_at(tree, hooks, view);
    let mut next = tree.first(view);
    while let Some(kid) = next {
        report_from(tree, hooks, kid);
        next = tree.next(kid);
    }
}

/// So does a view alone.
fn report_at(tree: &ViewTree, hooks: &mut Hooks, view: Key)
    requires { IsLive tree.now view }
    ensures { hooks.new ≡ reported_over (laid_at (number_of tree.now view) (state_of tree.now view).bounds) hooks.old }
{
    if let Some(rect) = tree.state(view).bounds {
        hooks.report(tree.number(view), near_size(rect));
    }
}

/// The size of a rectangle in pixels, or the nearest that there is.
pub fn near_size(rect: Rect) -> Size
    ensures { result ≡ near_size rect }
{
    Size {
        w: rect.right.saturating_sub(rect.left),
        h: rect.bottom.saturating_sub(rect.top),
    }
}
