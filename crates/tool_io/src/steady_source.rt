//! A source in memory that never fails.
ghost use Rattle.std.specs.Prelude.{◌≡◌, ◌<◌, ◌++◌, length, take, drop, IfOk};
ghost use Rattle.std.specs.Io.{ReadsAtMost};
ghost use Rattle.std.specs.Io.KnownBytes.{ReadConsumes};
ghost use Rattle.tool_io.specs.BytesLeft.{MovesSome};

use crate::bytes_left::BytesLeft;
use crate::faults::Failed;
use crate::source::Source;
use std::marker::Model;

/// A source over bytes in memory that never fails.
#[derive(Drop)]
pub struct SteadySource {
    left: BytesLeft,
}

impl Model for SteadySource {
    ghost use Rattle.tool_io.specs.BytesLeft.{Left};

    ghost Value = { Left };

    ghost view = { λ s. s.left };
}

impl SteadySource {
    /// A source that moves at most `most` bytes a call.
    pub fn new(bytes: Vec<u8>, most: usize) -> SteadySource
        requires { MovesSome most }
        ensures { result ≡ record { bytes = bytes.items; most = most } }
    {
        SteadySource {
            left: BytesLeft::new(bytes, most),
        }
    }
}

impl Source for SteadySource {
    ghost use Rattle.std.specs.Prelude.{Some};
    ghost use Rattle.tool_io.specs.BytesLeft.{moved_count, after_move};

    ghost left = { λ s. Some s.bytes };

    ghost faults = { λ _. 0 };

    /// Moves as many of the bytes that are left as it may.
    fn read(&mut self, buf: &mut [u8]) -> Result<usize, Failed>
        ensures bound { ReadsAtMost result buf.new }
        ensures bytes { ReadConsumes (Some self.old.bytes) (Some self.new.bytes) result buf.new }

        // The call never fails, and moves as much as it may.
        ensures count { result ≡ Ok (moved_count self.old (length buf.old)) }
        ensures moved { IfOk result (λ n. buf.new ≡ take n self.old.bytes ++ drop n buf.old) }
        ensures after { self.new ≡ after_move self.old (length buf.old) }
    {
        Ok(self.left.move_into(buf))
    }
}
