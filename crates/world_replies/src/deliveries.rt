//! The texts of deliveries.
#![tactic(auto, using(text_lines::proofs::Sending::sends_both))]

ghost use Rattle.std.specs.Fmt.{decimal, signed_decimal};
ghost use Rattle.text_lines.specs.BufferedText.{Sends};
ghost use Rattle.text_lines.specs.Joined.{◌⧺◌};
ghost use Rattle.world_replies.specs.Deliveries.{action_text, done_text, entries_text, entry_text, event_text, place_text, point_text, pointer_text, points_text, said_text, reported_text};
ghost use Rattle.world_replies.specs.Responses.{deliveries_text};

use crate::replies::{put_name, put_offset};
use text_lines::TextBuffer;
use tool_io::Sink;
use touch_dispatch::{Entry, Kind};
use touch_event::{Action, Event, Point};

/// The pointer that acts, if there are others.
fn put_pointer<K: Sink>(text: &mut TextBuffer, sink: &mut K, pointer: u8)
    ensures { Sends (K.state sink.old) (K.state sink.new) text.old text.new (pointer_text pointer) }
{
    text.put(sink, b"(");
    put_id(text, sink, pointer);
    text.put(sink, b")");
}

/// The id of a pointer in decimal.
fn put_id<K: Sink>(text: &mut TextBuffer, sink: &mut K, id: u8)
    ensures { Sends (K.state sink.old) (K.state sink.new) text.old text.new (decimal id) }
{
    text.natural(sink, u64::from(id));
}

/// The name of the action, and the pointer that goes down besides others.
fn put_pointer_down<K: Sink>(text: &mut TextBuffer, sink: &mut K, pointer: u8)
    ensures { Sends (K.state sink.old) (K.state sink.new) text.old text.new (action_text Action.PointerDown pointer) }
{
    text.put(sink, b"POINTER_DOWN");
    put_pointer(text, sink, pointer);
}

/// The name of the action, and the pointer that goes up and leaves others.
fn put_pointer_up<K: Sink>(text: &mut TextBuffer, sink: &mut K, pointer: u8)
    ensures { Sends (K.state sink.old) (K.state sink.new) text.old text.new (action_text Action.PointerUp pointer) }
{
    text.put(sink, b"POINTER_UP");
    put_pointer(text, sink, pointer);
}

/// The name of an action, with the pointer that acts if there are others.
fn put_action<K: Sink>(text: &mut TextBuffer, sink: &mut K, action: Action, pointer: u8)
    ensures { Sends (K.state sink.old) (K.state sink.new) text.old text.new (action_text action pointer) }
{
    match action {
        Action::Down => text.put(sink, b"DOWN"),
        Action::Up => text.put(sink, b"UP"),
        Action::Move => text.put(sink, b"MOVE"),
        Action::Cancel => text.put(sink, b"CANCEL"),
        Action::PointerDown => put_pointer_down(text, sink, pointer),
        Action::PointerUp => put_pointer_up(text, sink, pointer),
    }
}

/// Where a pointer is, after a space.
fn put_point<K: Sink>(text: &mut TextBuffer, sink: &mut K, point: Point)
    ensures { Sends (K.state sink.old) (K.state sink.new) text.old text.new (point_text point) }
{
    text.put(sink, b" ");
    put_id(text, sink, point.id);
    text.put(sink, b":");
    put_place(text, sink, point.x, point.y);
}

/// The two coordinates of a point in pixels, with a comma between them.
fn put_place<K: Sink>(text: &mut TextBuffer, sink: &mut K, x: i32, y: i32)
    ensures { Sends (K.state sink.old) (K.state sink.new) text.old text.new (place_text x y) }
{
    put_number(text, sink, x);
    text.put(sink, b",");
    put_number(text, sink, y);
}

/// A coordinate in decimal, with its sign if it is negative.
fn put_number<K: Sink>(text: &mut TextBuffer, sink: &mut K, number: i32)
    ensures { Sends (K.state sink.old) (K.state sink.new) text.old text.new (signed_decimal number) }
{
    text.number(sink, i64::from(number));
}

/// Where each pointer is, in the order of the points.
fn put_points<K: Sink>(text: &mut TextBuffer, sink: &mut K, points: &[Point])
    ensures { Sends (K.state sink.old) (K.state sink.new) text.old text.new (points_text points.now) }
{
    for point in points {
        put_point(text, sink, *point);
    }
}

/// What happened in an event, and where its pointers are.
fn put_event<K: Sink>(text: &mut TextBuffer, sink: &mut K, event: &Event)
    ensures { Sends (K.state sink.old) (K.state sink.new) text.old text.new (event_text event.now) }
{
    put_action(text, sink, event.action, event.pointer);
    put_points(text, sink, event.points.as_slice());
}

/// What was said to an event.
fn put_said<K: Sink>(text: &mut TextBuffer, sink: &mut K, yes: bool)
    ensures { Sends (K.state sink.old) (K.state sink.new) text.old text.new (said_text yes) }
{
    if yes {
        text.put(sink, b" yes\n");
    } else {
        text.put(sink, b" no\n");
    }
}

/// What an answered delivery prints after the word of its kind: the event and the answer.
fn put_answered<K: Sink>(text: &mut TextBuffer, sink: &mut K, entry: &Entry)
    ensures { Sends (K.state sink.old) (K.state sink.new) text.old text.new
        (event_text entry.now.event ⧺ said_text entry.now.yes) }
{
    put_event(text, sink, &entry.event);
    put_said(text, sink, entry.yes);
}

/// What an entry prints after the name of its view.
fn put_reported<K: Sink>(text: &mut TextBuffer, sink: &mut K, entry: &Entry)
    ensures { Sends (K.state sink.old) (K.state sink.new) text.old text.new (reported_text entry.now.kind entry.now) }
{
    match entry.kind {
        Kind::Ask => {
            text.put(sink, b" ask ");
            put_answered(text, sink, entry);
        }
        Kind::Touch => {
            text.put(sink, b" touch ");
            put_answered(text, sink, entry);
        }
        Kind::Click => text.put(sink, b" click\n"),
        Kind::Scroll => {
            put_offset(text, sink, entry.offset);
            text.put(sink, b"\n");
        }
    }
}

/// The line of a delivery: the name of its view, and what happened there.
fn put_entry<K: Sink>(text: &mut TextBuffer, sink: &mut K, entry: &Entry)
    ensures { Sends (K.state sink.old) (K.state sink.new) text.old text.new (entry_text entry.now) }
{
    put_name(text, sink, entry.view);
    put_reported(text, sink, entry);
}

/// The deliveries, one line each.
fn put_entries<K: Sink>(text: &mut TextBuffer, sink: &mut K, entries: &[Entry])
    ensures { Sends (K.state sink.old) (K.state sink.new) text.old text.new (entries_text entries.now) }
{
    for entry in entries {
        put_entry(text, sink, entry);
    }
}

/// What the root has said to an event.
fn put_done<K: Sink>(text: &mut TextBuffer, sink: &mut K, yes: bool)
    ensures { Sends (K.state sink.old) (K.state sink.new) text.old text.new (done_text yes) }
{
    text.put(sink, b"done");
    put_said(text, sink, yes);
}

/// The deliveries, and after those of an event what the root has said to it.
pub fn put_deliveries<K: Sink>(
    text: &mut TextBuffer,
    sink: &mut K,
    entries: &[Entry],
    done: Option<bool>,
)
    ensures { Sends (K.state sink.old) (K.state sink.new) text.old text.new (deliveries_text entries.now done) }
{
    put_entries(text, sink, entries);
    if let Some(yes) = done {
        put_done(text, sink, yes);
    }
}
