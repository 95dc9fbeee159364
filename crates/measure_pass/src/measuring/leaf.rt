//! The size of a view without children: a plain one, or one that shows a text. Lengths are in pixels.
ghost use Rattle.std.specs.Prelude.{◌≡◌, ◌<◌, ◌≤◌, ◌*◌, pos};
ghost use Rattle.view_model.specs.Numbers.{cell_height};
ghost use Rattle.view_model.specs.Facts.{layout_facts};
ghost use Rattle.view_model.specs.Layout.{for_layout};
ghost use Rattle.view_model.specs.Leaf.{leaf_size, view_size};
ghost use Rattle.view_model.specs.TextView.{cells_across, cells_in, text_height, text_size, text_width};
ghost use Rattle.view_tree.specs.Rows.{head_view, part_from};
ghost use Rattle.view_tree.specs.Views.{IsLive, class_of};

use cell_text::{cells_in, count, widest};
use geom_core::{Size, Spec, default_size};
use view_model::limits::{CELL_HEIGHT, CELL_WIDTH};
use view_model::{Facts, Text, own_side};
use view_tree::{Key, ViewTree};

/// The size of a view that has no children, by its class, under these specs.
#[inline(always)]
pub fn leaf_size(tree: &ViewTree, view: Key, ws: Spec, hs: Spec) -> Size
    requires { IsLive tree.now view }
    ensures { result ≡ leaf_size (class_of tree.now view) (for_layout (head_view (part_from view tree.now.tree)))
        (record { across = ws; down = hs }) }
{
    let facts = tree.facts(view);
    if tree.class(view).has_text() {
        return text_size(facts, tree.text(view), ws, hs);
    }
    minimal_size(facts, ws, hs)
}

/// The size of a plain view under these specs.
fn minimal_size(facts: &Facts, ws: Spec, hs: Spec) -> Size
    ensures { result ≡ view_size (layout_facts facts.now) (record { across = ws; down = hs }) }
{
    Size {
        w: default_size(facts.min.w, ws),
        h: default_size(facts.min.h, hs),
    }
}

/// The size of a view with this text. How many lines the text takes depends on the width that results.
fn text_size(own: &Facts, text: &Text, ws: Spec, hs: Spec) -> Size
    ensures { result ≡ text_size (layout_facts own.now) text.now (record { across = ws; down = hs }) }
{
    let width = text_width(own, text, ws);
    Size {
        w: width,
        h: text_height(own, text, hs, width),
    }
}

/// The width of a view with this text under a spec: what its widest line and its padding need, within what the least
/// width and the spec allow.
#[tactic(auto, unfolding(view_model::specs::TextView::text_width))]
fn text_width(own: &Facts, text: &Text, spec: Spec) -> i32
    ensures { result ≡ text_width (layout_facts own.now) text.now spec }
{
    let most = length_of(CELL_WIDTH, widest(text));
    own_side(own.min.w, most, own.padding_across(), spec)
}

/// The height of a view with this text and of this width under a spec: what the lines and its padding need, within what
/// the least height and the spec allow.
#[tactic(auto, unfolding(view_model::specs::TextView::text_height))]
fn text_height(own: &Facts, text: &Text, spec: Spec, width: i32) -> i32
    ensures { result ≡ text_height (layout_facts own.now) text.now spec width }
{
    let lines = count(text, cells_across(own, width));
    let most = length_of(CELL_HEIGHT, lines);
    own_side(own.min.h, most, own.padding_down(), spec)
}

/// The length of this many cells on an axis on which each has this side.
fn length_of(side: u32, cells: u32) -> i64
    requires { side ≤ cell_height }
    ensures { result ≡ pos (side * cells) }
{
    (u64::from(side) * u64::from(cells)) as i64
}

/// How many cells a line has in a view of this width.
fn cells_across(own: &Facts, width: i32) -> u32
    ensures value { result ≡ cells_across (layout_facts own.now) width }
    ensures some { 0 < result }
{
    cells_in(i64::from(width) - own.padding_across())
}
