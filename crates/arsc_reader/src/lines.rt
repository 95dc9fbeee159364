//! The line of a resource that is asked for.
#![tactic(auto)]

ghost use Rattle.std.specs.Prelude.{◌≤◌, codes, length};
ghost use Rattle.axml_reader.specs.Dump.{escaped};
ghost use Rattle.text_lines.specs.BufferedText.{Sends};
ghost use Rattle.text_lines.specs.Hex.{hex_text};
ghost use Rattle.text_lines.specs.Joined.{◌⧺◌, texts_of};
ghost use Rattle.arsc_reader.specs.Lines.{held_text, plain_text, quoted_text, value_line};
ghost use Rattle.arsc_reader.specs.Table.{text_of, value_of};

use crate::held::Held;
use crate::table::Table;
use axml_reader::put_string;
use text_lines::TextBuffer;
use tool_io::Sink;

/// The type of a value that is a dimension.
const DIMENSION: u8 = 0x05;

/// The type of a value that is the number of a string.
const STRING: u8 = 0x03;

/// The first and the last of the types of values that are colours.
const FIRST_COLOR: u8 = 0x1c;

const LAST_COLOR: u8 = 0x1f;

/// Puts a word and a number in eight digits.
fn put_word<K: Sink>(reply: &mut TextBuffer, sink: &mut K, name: &[u8], word: u32)
    requires { length name.now ≤ 4096 }
    ensures { Sends (K.state sink.old) (K.state sink.new) reply.old reply.new (name.now ⧺ hex_text word 8) }
{
    reply.put(sink, name);
    reply.hex(sink, word, 8);
}

/// Puts a value of a type that has no form of its own.
fn put_other<K: Sink>(reply: &mut TextBuffer, sink: &mut K, kind: u8, word: u32)
    ensures { Sends (K.state sink.old) (K.state sink.new) reply.old reply.new
        (codes "other " ⧺ hex_text kind 2 ⧺ codes " " ⧺ hex_text word 8) }
{
    reply.put(sink, b"other ");
    reply.hex(sink, u32::from(kind), 2);
    reply.put(sink, b" ");
    reply.hex(sink, word, 8);
}

/// Puts a string in quotes, with its escapes.
fn put_quoted<K: Sink>(reply: &mut TextBuffer, sink: &mut K, text: &str)
    ensures { Sends (K.state sink.old) (K.state sink.new) reply.old reply.new
        (codes "\"" ⧺ texts_of escaped text.now ⧺ codes "\"") }
{
    reply.put(sink, b"\"");
    put_string(reply, sink, text);
    reply.put(sink, b"\"");
}

impl Table {
    /// Puts the string of a number in quotes, or that there is none.
    fn put_string_at<K: Sink>(&self, reply: &mut TextBuffer, sink: &mut K, word: u32)
        ensures { Sends (K.state sink.old) (K.state sink.new) reply.old reply.new
            (quoted_text (text_of self.now.pool word)) }
    {
        match self.text(word) {
            Some(text) => put_quoted(reply, sink, text),
            None => reply.put(sink, b"none"),
        }
    }

    /// Puts a value that is the number of a string.
    fn put_text<K: Sink>(&self, reply: &mut TextBuffer, sink: &mut K, word: u32)
        ensures { Sends (K.state sink.old) (K.state sink.new) reply.old reply.new
            (codes "text " ⧺ quoted_text (text_of self.now.pool word)) }
    {
        reply.put(sink, b"text ");
        self.put_string_at(reply, sink, word);
    }

    /// Puts a value of a type and a word.
    #[tactic(auto, unfolding(crate::specs::Lines::plain_text))]
    fn put_plain<K: Sink>(&self, reply: &mut TextBuffer, sink: &mut K, kind: u8, word: u32)
        ensures { Sends (K.state sink.old) (K.state sink.new) reply.old reply.new (plain_text self.now.pool kind word) }
    {
        if FIRST_COLOR <= kind && kind <= LAST_COLOR {
            put_word(reply, sink, b"color #", word);
        } else if kind == DIMENSION {
            put_word(reply, sink, b"dimen ", word);
        } else if kind == STRING {
            self.put_text(reply, sink, word);
        } else {
            put_other(reply, sink, kind, word);
        }
    }

    /// Puts what a resource holds.
    fn put_held<K: Sink>(&self, reply: &mut TextBuffer, sink: &mut K, held: Held)
        ensures { Sends (K.state sink.old) (K.state sink.new) reply.old reply.new (held_text self.now.pool held) }
    {
        match held {
            Held::None => reply.put(sink, b"none"),
            Held::Complex => reply.put(sink, b"complex"),
            Held::Plain { kind, word } => self.put_plain(reply, sink, kind, word),
        }
    }

    /// Puts what the resource with an id holds.
    fn put_held_by<K: Sink>(&self, reply: &mut TextBuffer, sink: &mut K, id: u32)
        ensures { Sends (K.state sink.old) (K.state sink.new) reply.old reply.new
            (held_text self.now.pool (value_of self.now.entries id)) }
    {
        let held = self.value(id);
        self.put_held(reply, sink, held);
    }

    /// Puts the line of the resource with an id.
    pub fn put_value<K: Sink>(&self, reply: &mut TextBuffer, sink: &mut K, id: u32)
        ensures { Sends (K.state sink.old) (K.state sink.new) reply.old reply.new (value_line self.now id) }
    {
        reply.hex(sink, id, 8);
        reply.put(sink, b" ");
        self.put_held_by(reply, sink, id);
        reply.put(sink, b"\n");
    }
}
