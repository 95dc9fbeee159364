//! The texts that report refusals.

ghost use Rattle.std.specs.Prelude.{◌≡◌, ◌≤◌, decimal, length};
ghost use Rattle.text_lines.specs.Delivered.{Delivered};
ghost use Rattle.text_lines.specs.BufferedText.{Sends};
ghost use Rattle.text_lines.specs.Joined.{◌⧺◌, texts_of};
ghost use Rattle.view_model.specs.Refusals.{reason_of, plain_refusal};
ghost use Rattle.tool_replies.specs.Refusals.{axis_text, member_text, reason_text, refused_line, refused_text};
ghost use Rattle.view_model.specs.RefusalNumbers.{IsFirstOrLater, IsLastOrEarlier};

use crate::names::name_of;
use text_lines::TextBuffer;
use tool_io::{Failed, Sink};
use view_model::{Detail, Member, Refusal};

/// Reports that the line of this number, counted from 1, is refused.
pub fn write_refusal<K: Sink>(
    reply: &mut TextBuffer,
    sink: &mut K,
    line: u64,
    refusal: &Refusal,
) -> Result<(), Failed>
    ensures { Delivered (K.state sink.old) (K.state sink.new) result (refused_line line (plain_refusal refusal.now)) }
{
    reply.restart();
    put_refusal(reply, sink, line, refusal);
    reply.finish(sink)
}

/// The line for a refusal, with the number of the line of the script that is refused.
fn put_refusal<K: Sink>(reply: &mut TextBuffer, sink: &mut K, line: u64, refusal: &Refusal)
    ensures { Sends (K.state sink.old) (K.state sink.new) reply.old reply.new
        (refused_line line (plain_refusal refusal.now)) }
{
    reply.put(sink, b"line ");
    reply.natural(sink, line);
    reply.put(sink, b": ");
    put_refused(reply, sink, refusal.number);
    put_detail(reply, sink, &refusal.detail);
    reply.put(sink, b"\n");
}

/// The number and the name of a refusal.
pub fn put_refused<K: Sink>(reply: &mut TextBuffer, sink: &mut K, number: u8)
    requires first { IsFirstOrLater number }
    requires last { IsLastOrEarlier number }
    ensures { Sends (K.state sink.old) (K.state sink.new) reply.old reply.new (refused_text number) }
{
    reply.put(sink, b"refused ");
    reply.natural(sink, number as u64);
    reply.put(sink, b" ");
    reply.put(sink, name_of(number));
}

/// What follows the name of a refusal: a place, an element, or the axis and the members of a cycle. Nothing if it is
/// plain.
fn put_detail<K: Sink>(reply: &mut TextBuffer, sink: &mut K, detail: &Detail)
    ensures { Sends (K.state sink.old) (K.state sink.new) reply.old reply.new (reason_text (reason_of detail.now)) }
{
    match detail {
        Detail::Plain => {}
        Detail::At(at) => put_counted(reply, sink, b" at ", *at as u64),
        Detail::Element(number) => put_counted(reply, sink, b" element ", *number as u64),
        Detail::Cycle { down, members } => {
            reply.put(sink, axis(*down));
            put_members(reply, sink, members.as_slice());
        }
    }
}

/// A word and a number after it.
pub fn put_counted<K: Sink>(reply: &mut TextBuffer, sink: &mut K, word: &[u8], number: u64)
    requires { length word.now ≤ 4096 }
    ensures { Sends (K.state sink.old) (K.state sink.new) reply.old reply.new (word.now ⧺ decimal number) }
{
    reply.put(sink, word);
    reply.natural(sink, number);
}

/// The word for an axis, after a space.
fn axis(down: bool) -> &'static [u8]
    ensures { result.now ≡ axis_text down }
{
    if down { b" vertical" } else { b" horizontal" }
}

/// The members of a cycle, in order.
fn put_members<K: Sink>(reply: &mut TextBuffer, sink: &mut K, members: &[Member])
    ensures { Sends (K.state sink.old) (K.state sink.new) reply.old reply.new (texts_of member_text members.now) }
{
    for member in members {
        put_member(reply, sink, *member);
    }
}

/// A member of a cycle after a space: `v` and the number of a view, or `e` and that of an element.
#[tactic(auto, unfolding(crate::specs::Refusals::member_text))]
fn put_member<K: Sink>(reply: &mut TextBuffer, sink: &mut K, member: Member)
    ensures { Sends (K.state sink.old) (K.state sink.new) reply.old reply.new (member_text member) }
{
    match member {
        Member::View(number) => put_counted(reply, sink, b" v", number),
        Member::Element(number) => put_counted(reply, sink, b" e", number as u64),
    }
}
