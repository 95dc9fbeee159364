//! A buffer that gathers text on its way to a sink.

ghost use Rattle.std.specs.Prelude.{◌≡◌, ◌+◌, ◌≤◌, false, true, [], ◌++◌, decimal, length, OnOk, OnErr};
ghost use Rattle.std.specs.Fmt.{signed_decimal};
ghost use Rattle.text_lines.specs.BufferedText.{BufferedText, Sends};
ghost use Rattle.text_lines.specs.Hex.{hex_text};

use crate::digits::hex_digits;
use crate::writing::put;
use itoa::Buffer;
use std::marker::Model;
use tool_io::{Failed, Sink};

/// Gathers text on its way to a sink into pieces of up to 4096 bytes.
///
/// A new buffer clears its room, so one that serves for many texts is restarted for each.
///
/// Each call takes the sink, which has to be the same one each time. After a failed write nothing
/// is written any more, and only `finish` returns the error: no call before it does.
#[derive(Drop)]
pub struct TextBuffer {
    bytes: [u8; 4096],
    len: usize,
    failed: bool,
}

impl Model for TextBuffer {
    ghost use Rattle.std.specs.Prelude.{◌≤◌, take};
    ghost use Rattle.text_lines.specs.BufferedText.{BufferedText};

    ghost Value = { BufferedText };

    ghost view = { λ b. record { bytes = take b.len b.bytes; failed = b.failed } };

    ghost invariant = { λ b. b.len ≤ 4096 };
}

impl TextBuffer {
    /// A buffer that holds nothing.
    pub fn new() -> TextBuffer
        ensures { result ≡ record { bytes = []; failed = false } }
    {
        TextBuffer {
            bytes: [0; 4096],
            len: 0,
            failed: false,
        }
    }

    /// Drops what is held, and forgets a failed write: the buffer is as a new one, and no byte of it was cleared.
    pub fn restart(&mut self)
        ensures { self.new ≡ record { bytes = []; failed = false } }
    {
        self.len = 0;
        self.failed = false;
    }

    /// Writes what is held.
    fn flush<K: Sink>(&mut self, sink: &mut K)
        ensures sends { Sends (K.state sink.old) (K.state sink.new) self.old self.new [] }
        ensures empty { self.new.bytes ≡ [] }
    {
        let len = self.len;
        self.len = 0;
        if self.failed {
            return;
        }
        self.failed = put(sink, &self.bytes[..len]).is_err();
    }

    /// How many bytes are held.
    fn len(&self) -> usize
        ensures value { result ≡ length self.now.bytes }
        ensures within { result ≤ 4096 }
    {
        self.len
    }

    /// Holds a piece that there is room for.
    fn hold(&mut self, piece: &[u8])
        requires { length self.old.bytes + length piece.now ≤ 4096 }
        ensures { self.new ≡ record self.old { bytes = self.old.bytes ++ piece.now } }
    {
        let end = self.len + piece.len();
        self.bytes[self.len..end].copy_from_slice(piece);
        self.len = end;
    }

    /// Writes what is held, unless there is room for this many more bytes.
    fn make_room<K: Sink>(&mut self, sink: &mut K, need: usize)
        requires { need ≤ 4096 }
        ensures sends { Sends (K.state sink.old) (K.state sink.new) self.old self.new [] }
        ensures room { length self.new.bytes + need ≤ 4096 }
    {
        if need <= 4096 - self.len() {
            return;
        }
        self.flush(sink);
    }

    /// Sends a piece.
    pub fn put<K: Sink>(&mut self, sink: &mut K, piece: &[u8])
        requires { length piece.now ≤ 4096 }
        ensures { Sends (K.state sink.old) (K.state sink.new) self.old self.new piece.now }
    {
        self.make_room(sink, piece.len());
        self.hold(piece);
    }

    /// Sends a number in decimal, with `-` before one below 0.
    pub fn number<K: Sink>(&mut self, sink: &mut K, n: i64)
        ensures { Sends (K.state sink.old) (K.state sink.new) self.old self.new (signed_decimal n) }
    {
        let mut buffer = Buffer::new();
        self.put(sink, buffer.format(n).as_bytes());
    }

    /// Sends a number that is not below 0 in decimal.
    pub fn natural<K: Sink>(&mut self, sink: &mut K, n: u64)
        ensures { Sends (K.state sink.old) (K.state sink.new) self.old self.new (decimal n) }
    {
        let mut buffer = Buffer::new();
        self.put(sink, buffer.format(n).as_bytes());
    }

    /// Sends the lowest hexadecimal digits of a number in lower case.
    #[tactic(auto, unfolding(crate::specs::Hex::hex_text))]
    pub fn hex<K: Sink>(&mut self, sink: &mut K, n: u32, digits: u8)
        requires { digits ≤ 8 }
        ensures { Sends (K.state sink.old) (K.state sink.new) self.old self.new (hex_text n digits) }
    {
        let text = hex_digits(n);
        self.put(sink, &text[8 - digits as usize..]);
    }

    /// Writes what is held, and returns whether a write has failed since the buffer was made.
    pub fn finish<K: Sink>(&mut self, sink: &mut K) -> Result<(), Failed>
        ensures sends { Sends (K.state sink.old) (K.state sink.new) self.old self.new [] }
        ensures empty { self.new.bytes ≡ [] }
        ensures whole { OnOk result (self.new.failed ≡ false) }
        ensures failed { OnErr result (self.new.failed ≡ true) }
    {
        self.flush(sink);
        if self.failed {
            return Err(Failed);
        }
        Ok(())
    }
}
