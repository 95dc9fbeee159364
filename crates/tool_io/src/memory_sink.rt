//! A sink in memory, with calls that fail.
ghost use Rattle.std.specs.Prelude.{◌≡◌, ◌<◌, [], length, IsTrue, IsErr, IfOk, is_ok};
ghost use Rattle.std.specs.Io.{WritesAtMost};
ghost use Rattle.std.specs.Io.KnownBytes.{WriteAppends};
ghost use Rattle.tool_io.specs.Counts.{faults_after};
ghost use Rattle.tool_io.specs.BytesLeft.{MovesSome};
ghost use Rattle.tool_io.specs.SinkState.{TakesSome};

use crate::calls::Calls;
use crate::faults::Failed;
use crate::sink::Sink;
use std::alloc::Global;
use std::marker::Model;

/// A sink that keeps the bytes in memory, and fails at the calls that it was made to fail at and
/// when there is no memory for the bytes.
#[derive(Drop)]
pub struct MemorySink {
    gone: Vec<u8>,
    most: usize,
    calls: Calls,
}

impl Model for MemorySink {
    ghost use Rattle.std.specs.Prelude.{◌<◌};
    ghost use Rattle.tool_io.specs.MemorySink.{ListedSink};

    ghost Value = { ListedSink };

    ghost view = { λ s. record { gone = s.gone.items; most = s.most; calls = s.calls } };

    ghost invariant = { λ s. 0 < s.most };
}

impl MemorySink {
    ghost use Rattle.tool_io.specs.Calls.{no_calls};

    /// A sink that takes at most `most` bytes a call, and fails at the calls whose numbers, from 1
    /// on, are in `fails`.
    pub fn new(alloc: Global, most: usize, fails: Vec<u64>) -> MemorySink
        requires { MovesSome most }
        ensures { result ≡ record { gone = []; most = most; calls = no_calls fails.items } }
    {
        MemorySink {
            gone: Vec::new(alloc),
            most,
            calls: Calls::new(fails),
        }
    }

    /// The bytes that were written.
    pub fn gone(&self) -> &[u8]
        ensures { result.now ≡ self.now.gone }
    {
        self.gone.as_slice()
    }
}

impl Sink for MemorySink {
    ghost use Rattle.std.specs.Prelude.{Some};
    ghost use Rattle.tool_io.specs.Calls.{fails_next};
    ghost use Rattle.tool_io.specs.MemorySink.{write_count, after_write};

    ghost state = { λ s. record { gone = Some s.gone; faults = s.calls.faults } };

    /// Keeps the first bytes of the piece, at most `most`. Fails at the calls that are listed, and where there is no
    /// memory.
    fn write(&mut self, piece: &[u8]) -> Result<usize, Failed>
        ensures bound { WritesAtMost result piece.now }
        ensures progress { TakesSome result piece.now }
        ensures bytes { WriteAppends (Some self.old.gone) (Some self.new.gone) result piece.now }
        ensures counted { self.new.calls.faults ≡ faults_after self.old.calls.faults (is_ok result) }

        // The call fails if it is listed, and otherwise moves as much as it may. It may also run
        // out of memory, but not if there is nothing to keep.
        ensures listed { IsTrue (fails_next self.old.calls) → IsErr result }
        ensures empty { length piece.now ≡ 0 → IsErr result → IsTrue (fails_next self.old.calls) }
        ensures count { IfOk result (λ n. n ≡ write_count self.old (length piece.now)) }
        ensures after { self.new ≡ after_write self.old piece.now (is_ok result) }
    {
        if self.calls.begin() {
            return Err(self.calls.fail());
        }
        let count = piece.len().min(self.most);
        if self.gone.extend_from_slice(&piece[..count]).is_err() {
            return Err(self.calls.fail());
        }
        Ok(count)
    }
}
