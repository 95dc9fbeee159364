//! The texts that report a refused file.

ghost use Rattle.text_lines.specs.Delivered.{Delivered};
ghost use Rattle.text_lines.specs.BufferedText.{Sends};
ghost use Rattle.tool_replies.specs.Dump.{fault_text, refused_file_text};
ghost use Rattle.view_model.specs.RefusalNumbers.{IsFirstOrLater, IsLastOrEarlier};

use crate::refusals::{put_counted, put_refused};
use axml_chunks::Fault;
use text_lines::TextBuffer;
use tool_io::{Failed, Sink};

/// Reports that a file is refused, by the number of the refusal.
pub fn write_refused_file<K: Sink>(sink: &mut K, number: u8) -> Result<(), Failed>
    requires first { IsFirstOrLater number }
    requires last { IsLastOrEarlier number }
    ensures { Delivered (K.state sink.old) (K.state sink.new) result (refused_file_text number) }
{
    let mut reply = TextBuffer::new();
    put_file(&mut reply, sink, number);
    reply.finish(sink)
}

/// The line for a file that is refused, by the number of the refusal.
fn put_file<K: Sink>(reply: &mut TextBuffer, sink: &mut K, number: u8)
    requires first { IsFirstOrLater number }
    requires last { IsLastOrEarlier number }
    ensures { Sends (K.state sink.old) (K.state sink.new) reply.old reply.new (refused_file_text number) }
{
    reply.put(sink, b"file: ");
    put_refused(reply, sink, number);
    reply.put(sink, b"\n");
}

/// Reports the first fault of a file.
pub fn write_fault<K: Sink>(sink: &mut K, fault: Fault) -> Result<(), Failed>
    ensures { Delivered (K.state sink.old) (K.state sink.new) result (fault_text fault) }
{
    let mut reply = TextBuffer::new();
    put_fault(&mut reply, sink, fault);
    reply.finish(sink)
}

/// The line for a fault: the number and the name of its cause, and at which byte of the file it is.
fn put_fault<K: Sink>(reply: &mut TextBuffer, sink: &mut K, fault: Fault)
    ensures { Sends (K.state sink.old) (K.state sink.new) reply.old reply.new (fault_text fault) }
{
    reply.put(sink, b"file: ");
    put_refused(reply, sink, fault.cause.number());
    put_counted(reply, sink, b" at ", fault.at as u64);
    reply.put(sink, b"\n");
}
