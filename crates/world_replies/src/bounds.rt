//! Where the views of a tree are, as text.

ghost use Rattle.std.specs.Prelude.{◌≡◌, IfSome};
ghost use Rattle.text_lines.specs.BufferedText.{Sends};
ghost use Rattle.view_tree.specs.Rows.{rest_from};
ghost use Rattle.view_tree.specs.Views.{IsLive, class_of, geometry_of, held_of, offset_of, plain_of, plain_rows, view_at};
ghost use Rattle.world_replies.specs.Bounds.{bounds_of, bounds_text, printed_offset};

use crate::replies::put_bounds;
use text_lines::TextBuffer;
use tool_io::Sink;
use view_tree::{Key, ViewTree};

/// The bounds of a view.
pub fn put_view<K: Sink>(tree: &ViewTree, view: Key, text: &mut TextBuffer, sink: &mut K)
    requires { IsLive tree.now view }
    ensures { Sends (K.state sink.old) (K.state sink.new) text.old text.new
        (bounds_of (geometry_of tree.now) (view_at tree.now view)) }
{
    let bounds = tree.state(view).bounds;
    let offset = printed_offset(tree, view);
    put_bounds(text, sink, tree.number(view), offset, bounds);
}

/// How far a view has moved its child up, if it can.
fn printed_offset(tree: &ViewTree, view: Key) -> Option<i32>
    requires { IsLive tree.now view }
    ensures { result ≡ printed_offset (class_of tree.now view) (offset_of tree.now view) }
{
    if !tree.class(view).scrolls() {
        return None;
    }
    Some(tree.facts(view).offset)
}

/// The bounds of a view, of all below it, and of its later siblings with all below them, in preorder.
fn put_from<K: Sink>(tree: &ViewTree, first: Option<Key>, text: &mut TextBuffer, sink: &mut K)
    requires { IfSome first (λ view. IsLive tree.now view) }
    ensures { Sends (K.state sink.old) (K.state sink.new) text.old text.new
        (bounds_text (geometry_of tree.now) (plain_rows (held_of tree.now) (rest_from first tree.now.tree))) }
{
    let mut next = first;
    while let Some(view) = next {
        put_view(tree, view, text, sink);
        put_from(tree, tree.first(view), text, sink);
        next = tree.next(view);
    }
}

/// The bounds of each view, in preorder.
pub fn put_all<K: Sink>(tree: &ViewTree, text: &mut TextBuffer, sink: &mut K)
    ensures { Sends (K.state sink.old) (K.state sink.new) text.old text.new
        (bounds_text (geometry_of tree.now) (plain_of tree.now)) }
{
    put_from(tree, tree.root(), text, sink);
}
