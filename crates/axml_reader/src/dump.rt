//! The text of a document.
#![tactic(auto, using(text_lines::proofs::Sending::sends_both))]

ghost use Rattle.std.specs.Prelude.{◌≡◌, ◌+◌, ◌<◌, ◌≤◌, decimal, length, slice_index_or, [], true};
ghost use Rattle.std.specs.List.{enumerate_from};
ghost use Rattle.text_lines.specs.Delivered.{Delivered};
ghost use Rattle.text_lines.specs.BufferedText.{Sends};
ghost use Rattle.text_lines.specs.Joined.{texts_of};
ghost use Rattle.axml_reader.specs.Dump.{encoding, string_mark, string_name, control_escape, name_field, number_field, hex_field, value_fields, escaped, pool_line, string_line, string_lines, id_line, namespace_line, attr_line, start_line, end_line, chars_line, node_lines, dump_text};
ghost use Rattle.axml_reader.specs.Sound.{AreWithin, is_within};
ghost use Rattle.axml_reader.specs.Meaning.{document};

use crate::doc::{Attr, Doc, NO_STRING, Node};
use axml_chunks::Pool;
use text_lines::TextBuffer;
use tool_io::{Failed, Sink};

/// The tag that begins an element: its line in the source, its string numbers, and how many
/// attributes it has.
#[derive(Clone, Copy)]
struct StartTag {
    line: u32,
    ns: u32,
    name: u32,
    count: u32,
}

/// Character data: its line in the source, its string number, and the type and the word of its
/// value.
#[derive(Clone, Copy)]
struct CharacterData {
    line: u32,
    string: u32,
    kind: u8,
    word: u32,
}

/// Sends a number.
fn put_number<K: Sink>(text: &mut TextBuffer, sink: &mut K, n: u32)
    ensures { Sends (K.state sink.old) (K.state sink.new) text.old text.new (decimal n) }
{
    text.number(sink, n as i64);
}

/// Sends the name of string `k`.
fn put_string_mark<K: Sink>(text: &mut TextBuffer, sink: &mut K, k: u32)
    ensures { Sends (K.state sink.old) (K.state sink.new) text.old text.new (string_mark k) }
{
    text.put(sink, b"s");
    put_number(text, sink, k);
}

/// Sends a string number, or `-` if it means none.
#[tactic(auto, unfolding(crate::specs::Dump::string_name))]
fn put_string_name<K: Sink>(text: &mut TextBuffer, sink: &mut K, n: u32)
    ensures { Sends (K.state sink.old) (K.state sink.new) text.old text.new (string_name n) }
{
    if n == NO_STRING {
        text.put(sink, b"-");
    } else {
        put_string_mark(text, sink, n);
    }
}

/// Sends a string number after a space.
fn put_name_field<K: Sink>(text: &mut TextBuffer, sink: &mut K, n: u32)
    ensures { Sends (K.state sink.old) (K.state sink.new) text.old text.new (name_field n) }
{
    text.put(sink, b" ");
    put_string_name(text, sink, n);
}

/// Sends a number after a space.
fn put_number_field<K: Sink>(text: &mut TextBuffer, sink: &mut K, n: u32)
    ensures { Sends (K.state sink.old) (K.state sink.new) text.old text.new (number_field n) }
{
    text.put(sink, b" ");
    put_number(text, sink, n);
}

/// Sends hexadecimal digits after a space.
fn put_hex_field<K: Sink>(text: &mut TextBuffer, sink: &mut K, n: u32, digits: u8)
    requires { digits ≤ 8 }
    ensures { Sends (K.state sink.old) (K.state sink.new) text.old text.new (hex_field n digits) }
{
    text.put(sink, b" ");
    text.hex(sink, n, digits);
}

/// Sends the type and the word of a value, and the line's end.
fn put_value_fields<K: Sink>(text: &mut TextBuffer, sink: &mut K, kind: u8, word: u32)
    ensures { Sends (K.state sink.old) (K.state sink.new) text.old text.new (value_fields kind word) }
{
    put_hex_field(text, sink, kind as u32, 2);
    put_hex_field(text, sink, word, 8);
    text.put(sink, b"\n");
}

/// Sends a byte below a space.
fn put_control_escape<K: Sink>(text: &mut TextBuffer, sink: &mut K, byte: u8)
    ensures { Sends (K.state sink.old) (K.state sink.new) text.old text.new (control_escape byte) }
{
    text.put(sink, b"\\x");
    text.hex(sink, byte as u32, 2);
}

/// Sends a byte of a string.
#[tactic(auto, unfolding(crate::specs::Dump::escaped))]
fn put_escaped<K: Sink>(text: &mut TextBuffer, sink: &mut K, byte: u8)
    ensures { Sends (K.state sink.old) (K.state sink.new) text.old text.new (escaped byte) }
{
    if byte == b'\\' {
        text.put(sink, b"\\\\");
    } else if byte == b'"' {
        text.put(sink, b"\\\"");
    } else if byte == b'\n' {
        text.put(sink, b"\\n");
    } else if byte < b' ' {
        put_control_escape(text, sink, byte);
    } else {
        text.put(sink, &[byte]);
    }
}

/// Sends the bytes of a string with their escapes.
fn put_escaped_bytes<K: Sink>(text: &mut TextBuffer, sink: &mut K, string: &[u8])
    ensures { Sends (K.state sink.old) (K.state sink.new) text.old text.new (texts_of escaped string.now) }
{
    for byte in string {
        put_escaped(text, sink, *byte);
    }
}

/// Sends a string with its escapes.
pub fn put_string<K: Sink>(text: &mut TextBuffer, sink: &mut K, string: &str)
    ensures { Sends (K.state sink.old) (K.state sink.new) text.old text.new (texts_of escaped string.now) }
{
    put_escaped_bytes(text, sink, string.as_bytes());
}

/// Sends the name of the encoding of a pool's strings.
#[tactic(auto, unfolding(crate::specs::Dump::encoding))]
fn put_encoding<K: Sink>(text: &mut TextBuffer, sink: &mut K, utf8: bool)
    ensures { Sends (K.state sink.old) (K.state sink.new) text.old text.new (encoding utf8) }
{
    if utf8 {
        text.put(sink, b"utf8");
    } else {
        text.put(sink, b"utf16");
    }
}

/// Sends the pool's line.
fn put_pool_line<K: Sink>(text: &mut TextBuffer, sink: &mut K, utf8: bool, count: u32)
    ensures { Sends (K.state sink.old) (K.state sink.new) text.old text.new (pool_line utf8 count) }
{
    text.put(sink, b"pool ");
    put_encoding(text, sink, utf8);
    put_number_field(text, sink, count);
    text.put(sink, b"\n");
}

/// Sends the line of string `k`.
fn put_string_line<K: Sink>(text: &mut TextBuffer, sink: &mut K, k: u32, string: &str)
    ensures { Sends (K.state sink.old) (K.state sink.new) text.old text.new (string_line (k, string.now)) }
{
    put_string_mark(text, sink, k);
    text.put(sink, b" \"");
    put_string(text, sink, string);
    text.put(sink, b"\"\n");
}

/// String `k` of a pool that has more.
fn string_of(pool: &Pool, k: u32) -> &str
    requires { k < length pool.now.texts }
    ensures { result.now ≡ slice_index_or pool.now.texts k [] }
{
    pool.text(k).unwrap_or("")
}

/// Sends the lines of all strings of a pool.
fn put_each_string<K: Sink>(text: &mut TextBuffer, sink: &mut K, pool: &Pool)
    ensures { Sends (K.state sink.old) (K.state sink.new) text.old text.new
        (texts_of string_line (enumerate_from 0 pool.now.texts)) }
{
    for k in 0..pool.len() {
        put_string_line(text, sink, k, string_of(pool, k));
    }
}

/// Sends the pool's line and those of its strings.
fn put_string_lines<K: Sink>(text: &mut TextBuffer, sink: &mut K, pool: &Pool)
    ensures { Sends (K.state sink.old) (K.state sink.new) text.old text.new (string_lines pool.now) }
{
    put_pool_line(text, sink, pool.utf8(), pool.len());
    put_each_string(text, sink, pool);
}

/// Sends an id's line.
fn put_id_line<K: Sink>(text: &mut TextBuffer, sink: &mut K, id: u32)
    ensures { Sends (K.state sink.old) (K.state sink.new) text.old text.new (id_line id) }
{
    text.put(sink, b"map");
    put_hex_field(text, sink, id, 8);
    text.put(sink, b"\n");
}

/// Sends the lines of the resource map.
fn put_id_lines<K: Sink>(text: &mut TextBuffer, sink: &mut K, ids: &[u32])
    ensures { Sends (K.state sink.old) (K.state sink.new) text.old text.new (texts_of id_line ids.now) }
{
    for id in ids {
        put_id_line(text, sink, *id);
    }
}

/// Sends a namespace's line.
fn put_namespace_line<K: Sink>(
    text: &mut TextBuffer,
    sink: &mut K,
    word: &[u8],
    prefix: u32,
    uri: u32,
)
    requires { length word.now ≤ 8 }
    ensures { Sends (K.state sink.old) (K.state sink.new) text.old text.new (namespace_line word.now prefix uri) }
{
    text.put(sink, word);
    put_name_field(text, sink, prefix);
    put_name_field(text, sink, uri);
    text.put(sink, b"\n");
}

/// Sends an attribute's line.
fn put_attr_line<K: Sink>(text: &mut TextBuffer, sink: &mut K, attr: &Attr)
    ensures { Sends (K.state sink.old) (K.state sink.new) text.old text.new (attr_line attr.now) }
{
    text.put(sink, b"attr");
    put_name_field(text, sink, attr.ns);
    put_name_field(text, sink, attr.name);
    put_name_field(text, sink, attr.raw);
    put_value_fields(text, sink, attr.kind, attr.word);
}

/// Sends the lines of attributes.
fn put_attr_lines<K: Sink>(text: &mut TextBuffer, sink: &mut K, attrs: &[Attr])
    ensures { Sends (K.state sink.old) (K.state sink.new) text.old text.new (texts_of attr_line attrs.now) }
{
    for attr in attrs {
        put_attr_line(text, sink, attr);
    }
}

/// Sends the line of an element that begins.
fn put_start_line<K: Sink>(text: &mut TextBuffer, sink: &mut K, tag: StartTag)
    ensures { Sends (K.state sink.old) (K.state sink.new) text.old text.new
        (start_line tag.line tag.ns tag.name tag.count) }
{
    text.put(sink, b"start");
    put_number_field(text, sink, tag.line);
    put_name_field(text, sink, tag.ns);
    put_name_field(text, sink, tag.name);
    put_number_field(text, sink, tag.count);
    text.put(sink, b"\n");
}

/// Sends the line of an element that ends.
fn put_end_line<K: Sink>(text: &mut TextBuffer, sink: &mut K, line: u32, ns: u32, name: u32)
    ensures { Sends (K.state sink.old) (K.state sink.new) text.old text.new (end_line line ns name) }
{
    text.put(sink, b"end");
    put_number_field(text, sink, line);
    put_name_field(text, sink, ns);
    put_name_field(text, sink, name);
    text.put(sink, b"\n");
}

/// Sends the line of character data.
fn put_chars_line<K: Sink>(text: &mut TextBuffer, sink: &mut K, chars: CharacterData)
    ensures { Sends (K.state sink.old) (K.state sink.new) text.old text.new
        (chars_line chars.line chars.string chars.kind chars.word) }
{
    text.put(sink, b"text");
    put_number_field(text, sink, chars.line);
    put_name_field(text, sink, chars.string);
    put_value_fields(text, sink, chars.kind, chars.word);
}

/// Sends a node's line, with those of its attributes.
fn put_node_lines<K: Sink>(text: &mut TextBuffer, sink: &mut K, attrs: &[Attr], node: &Node)
    requires { is_within (length attrs.now) node.now ≡ true }
    ensures { Sends (K.state sink.old) (K.state sink.new) text.old text.new (node_lines attrs.now node.now) }
{
    match *node {
        Node::NsStart { prefix, uri } => put_namespace_line(text, sink, b"ns", prefix, uri),
        Node::NsEnd { prefix, uri } => put_namespace_line(text, sink, b"endns", prefix, uri),
        Node::Start {
            line,
            ns,
            name,
            first,
            count,
        } => {
            let tag = StartTag {
                line,
                ns,
                name,
                count,
            };
            put_start_line(text, sink, tag);
            let first = first as usize;
            put_attr_lines(text, sink, &attrs[first..first + count as usize]);
        }
        Node::End { line, ns, name } => put_end_line(text, sink, line, ns, name),
        Node::Chars {
            line,
            text: string,
            kind,
            word,
        } => {
            let chars = CharacterData {
                line,
                string,
                kind,
                word,
            };
            put_chars_line(text, sink, chars);
        }
    }
}

/// Sends the lines of all nodes.
fn put_each_node<K: Sink>(text: &mut TextBuffer, sink: &mut K, attrs: &[Attr], nodes: &[Node])
    requires { AreWithin attrs.now nodes.now }
    ensures { Sends (K.state sink.old) (K.state sink.new) text.old text.new
        (texts_of (node_lines attrs.now) nodes.now) }
{
    for node in nodes {
        put_node_lines(text, sink, attrs, node);
    }
}

/// Sends the whole text of a document.
fn put_document<K: Sink>(text: &mut TextBuffer, sink: &mut K, doc: &Doc)
    ensures { Sends (K.state sink.old) (K.state sink.new) text.old text.new (dump_text (document doc.now)) }
{
    put_string_lines(text, sink, &doc.pool);
    put_id_lines(text, sink, &doc.map);
    put_each_node(text, sink, &doc.attrs, &doc.nodes);
}

/// Writes what a document holds, a line for each string, id, node and attribute, in pieces of up
/// to 4096 bytes.
pub fn print<K: Sink>(doc: &Doc, sink: &mut K) -> Result<(), Failed>
    ensures { Delivered (K.state sink.old) (K.state sink.new) result (dump_text (document doc.now)) }
{
    let mut text = TextBuffer::new();
    put_document(&mut text, sink, doc);
    text.finish(sink)
}
