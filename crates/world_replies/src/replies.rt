//! The texts of replies.
#![tactic(auto, using(text_lines::proofs::Sending::sends_both))]

ghost use Rattle.std.specs.Prelude.{Some, codes, if◌then◌else◌};
ghost use Rattle.text_lines.specs.BufferedText.{Sends};
ghost use Rattle.world_replies.specs.Replies.{added_text, bounds_line, framed_text, inflated_text, place_text, scroll_text, side_text, sides_text, view_name};

use geom_core::Rect;
use text_lines::TextBuffer;
use tool_io::Sink;

/// The name of a view: `vN`.
pub fn put_name<K: Sink>(text: &mut TextBuffer, sink: &mut K, number: u64)
    ensures { Sends (K.state sink.old) (K.state sink.new) text.old text.new (view_name number) }
{
    text.put(sink, b"v");
    text.natural(sink, number);
}

/// The reply to a line that adds a view.
pub fn put_added<K: Sink>(text: &mut TextBuffer, sink: &mut K, number: u64)
    ensures { Sends (K.state sink.old) (K.state sink.new) text.old text.new (added_text number) }
{
    put_name(text, sink, number);
    text.put(sink, b"\n");
}

/// The reply to a line that adds the views of a file. `ignored` counts the attributes that are not known.
pub fn put_inflated<K: Sink>(
    text: &mut TextBuffer,
    sink: &mut K,
    first: u64,
    last: u64,
    ignored: u32,
)
    ensures { Sends (K.state sink.old) (K.state sink.new) text.old text.new (inflated_text first last ignored) }
{
    text.put(sink, b"inflated ");
    put_name(text, sink, first);
    text.put(sink, b" ");
    put_name(text, sink, last);
    text.put(sink, b" ignored ");
    text.natural(sink, u64::from(ignored));
    text.put(sink, b"\n");
}

/// A side after a space.
fn put_side<K: Sink>(text: &mut TextBuffer, sink: &mut K, side: i32)
    ensures { Sends (K.state sink.old) (K.state sink.new) text.old text.new (side_text side) }
{
    text.put(sink, b" ");
    text.number(sink, i64::from(side));
}

/// The sides of a rectangle, each after a space.
fn put_sides<K: Sink>(text: &mut TextBuffer, sink: &mut K, rect: Rect)
    ensures { Sends (K.state sink.old) (K.state sink.new) text.old text.new (sides_text rect) }
{
    put_side(text, sink, rect.left);
    put_side(text, sink, rect.top);
    put_side(text, sink, rect.right);
    put_side(text, sink, rect.bottom);
}

/// How far a view has moved its child up, in pixels, if it can.
fn put_scroll<K: Sink>(text: &mut TextBuffer, sink: &mut K, offset: Option<i32>)
    ensures { Sends (K.state sink.old) (K.state sink.new) text.old text.new (scroll_text offset) }
{
    match offset {
        None => {}
        Some(offset) => put_offset(text, sink, offset),
    }
}

/// A new offset, after its word.
pub fn put_offset<K: Sink>(text: &mut TextBuffer, sink: &mut K, offset: i32)
    ensures { Sends (K.state sink.old) (K.state sink.new) text.old text.new (scroll_text (Some offset)) }
{
    text.put(sink, b" scroll ");
    text.number(sink, i64::from(offset));
}

/// Where a view is: its sides and how far it has moved its child up, or none if it is not laid out.
fn put_place<K: Sink>(text: &mut TextBuffer, sink: &mut K, offset: Option<i32>, rect: Option<Rect>)
    ensures { Sends (K.state sink.old) (K.state sink.new) text.old text.new (place_text offset rect) }
{
    match rect {
        None => text.put(sink, b" none"),
        Some(rect) => {
            put_sides(text, sink, rect);
            put_scroll(text, sink, offset);
        }
    }
}

/// The bounds of a view, in its parent's coordinates.
pub fn put_bounds<K: Sink>(
    text: &mut TextBuffer,
    sink: &mut K,
    number: u64,
    offset: Option<i32>,
    rect: Option<Rect>,
)
    ensures { Sends (K.state sink.old) (K.state sink.new) text.old text.new (bounds_line number offset rect) }
{
    put_name(text, sink, number);
    put_place(text, sink, offset, rect);
    text.put(sink, b"\n");
}

/// The reply to a frame: whether it has settled, and how many hooks fired in it.
pub fn put_framed<K: Sink>(text: &mut TextBuffer, sink: &mut K, settled: bool, fired: u8)
    ensures { Sends (K.state sink.old) (K.state sink.new) text.old text.new (framed_text settled fired) }
{
    put_outcome(text, sink, settled);
    text.natural(sink, u64::from(fired));
    text.put(sink, b"\n");
}

/// How a frame has ended, before a space.
fn put_outcome<K: Sink>(text: &mut TextBuffer, sink: &mut K, settled: bool)
    ensures { Sends (K.state sink.old) (K.state sink.new) text.old text.new
        (if settled then codes "settled " else codes "again ") }
{
    if settled {
        text.put(sink, b"settled ");
    } else {
        text.put(sink, b"again ");
    }
}
