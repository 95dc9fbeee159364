//! The bytes that a source in memory has still to give.
ghost use Rattle.std.specs.Prelude.{◌≡◌, ◌<◌, ◌≤◌, [], ◌++◌, length, take, drop};
ghost use Rattle.tool_io.specs.BytesLeft.{MovesSome};

use std::marker::Model;

/// Bytes in memory that calls take from the front.
#[derive(Drop)]
pub(crate) struct BytesLeft {
    bytes: Vec<u8>,
    at: usize,
    most: usize,
}

impl Model for BytesLeft {
    ghost use Rattle.std.specs.Prelude.{◌<◌, ◌≤◌, drop, vec_len};
    ghost use Rattle.tool_io.specs.BytesLeft.{Left};

    ghost Value = { Left };

    ghost view = { λ s. record { bytes = drop s.at s.bytes.items; most = s.most } };

    ghost invariant = { λ s. (0 < s.most) × (s.at ≤ vec_len s.bytes) };
}

impl BytesLeft {
    ghost use Rattle.tool_io.specs.BytesLeft.{moved_count, after_move};

    /// All bytes are left, and one call takes at most `most` of them.
    pub(crate) fn new(bytes: Vec<u8>, most: usize) -> BytesLeft
        requires { MovesSome most }
        ensures { result ≡ record { bytes = bytes.items; most = most } }
    {
        BytesLeft { bytes, at: 0, most }
    }

    /// Moves the first bytes that are left into `buf`, as many as one call may take, and returns
    /// how many.
    pub(crate) fn move_into(&mut self, buf: &mut [u8]) -> usize
        ensures count { result ≡ moved_count self.old (length buf.old) }
        ensures buffer { buf.new ≡ take result self.old.bytes ++ drop result buf.old }
        ensures after { self.new ≡ after_move self.old (length buf.old) }

        // Callers use it as: the bytes went from here into the buffer.
        ensures bound { result ≤ length buf.new }
        ensures bytes { self.old.bytes ≡ take result buf.new ++ self.new.bytes }
        ensures end { result ≡ 0 → 0 < length buf.new → self.new.bytes ≡ [] }
    {
        let left = &self.bytes[self.at..];
        let count = left.len().min(self.most).min(buf.len());
        buf[..count].copy_from_slice(&left[..count]);
        self.at += count;
        count
    }
}
