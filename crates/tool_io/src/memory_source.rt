//! A source in memory, with calls that fail.
ghost use Rattle.std.specs.Prelude.{◌≡◌, ◌<◌, ◌↔◌, ◌++◌, length, take, drop, IsTrue, IsErr, IfOk, OnErr, is_ok};
ghost use Rattle.std.specs.Io.{ReadsAtMost};
ghost use Rattle.std.specs.Io.KnownBytes.{ReadConsumes};
ghost use Rattle.tool_io.specs.Counts.{faults_after};
ghost use Rattle.tool_io.specs.BytesLeft.{MovesSome};

use crate::bytes_left::BytesLeft;
use crate::calls::Calls;
use crate::faults::Failed;
use crate::source::Source;
use std::marker::Model;

/// A source over bytes in memory, which fails at the calls that it was made to fail at.
#[derive(Drop)]
pub struct MemorySource {
    left: BytesLeft,
    calls: Calls,
}

impl Model for MemorySource {
    ghost use Rattle.tool_io.specs.MemorySource.{ListedSource};

    ghost Value = { ListedSource };

    ghost view = { λ s. record { left = s.left; calls = s.calls } };
}

impl MemorySource {
    ghost use Rattle.tool_io.specs.Calls.{no_calls};

    /// A source that moves at most `most` bytes a call, and fails at the calls whose numbers, from
    /// 1 on, are in `fails`.
    pub fn new(bytes: Vec<u8>, most: usize, fails: Vec<u64>) -> MemorySource
        requires { MovesSome most }
        ensures left { result.left ≡ record { bytes = bytes.items; most = most } }
        ensures calls { result.calls ≡ no_calls fails.items }
    {
        MemorySource {
            left: BytesLeft::new(bytes, most),
            calls: Calls::new(fails),
        }
    }
}

impl Source for MemorySource {
    ghost use Rattle.std.specs.Prelude.{Some};
    ghost use Rattle.tool_io.specs.BytesLeft.{moved_count};
    ghost use Rattle.tool_io.specs.Calls.{fails_next};
    ghost use Rattle.tool_io.specs.MemorySource.{after_read};

    ghost left = { λ s. Some s.left.bytes };

    ghost faults = { λ s. s.calls.faults };

    /// Moves as many of the bytes that are left as it may. Fails at the calls that are listed, and moves none then.
    fn read(&mut self, buf: &mut [u8]) -> Result<usize, Failed>
        ensures bound { ReadsAtMost result buf.new }
        ensures bytes { ReadConsumes (Some self.old.left.bytes) (Some self.new.left.bytes) result buf.new }
        ensures counted { self.new.calls.faults ≡ faults_after self.old.calls.faults (is_ok result) }

        // The call fails exactly if it is listed, and otherwise moves as much as it may.
        ensures listed { IsErr result ↔ IsTrue (fails_next self.old.calls) }
        ensures count { IfOk result (λ n. n ≡ moved_count self.old.left (length buf.old)) }
        ensures moved { IfOk result (λ n. buf.new ≡ take n self.old.left.bytes ++ drop n buf.old) }
        ensures kept { OnErr result (buf.new ≡ buf.old) }
        ensures after { self.new ≡ after_read self.old (length buf.old) }
    {
        if self.calls.begin() {
            return Err(self.calls.fail());
        }
        Ok(self.left.move_into(buf))
    }
}
