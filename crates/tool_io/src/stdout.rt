//! A sink over a writer.
ghost use Rattle.std.specs.Prelude.{◌≡◌, ◌<◌, ℕ, take, IfOk, OnErr, is_ok};
ghost use Rattle.std.specs.Io.{WritesAtMost};
ghost use Rattle.std.specs.Io.KnownBytes.{Appends};
ghost use Rattle.tool_io.specs.Counts.{faults_after};
ghost use Rattle.tool_io.specs.SinkState.{TakesSome};

use crate::faults::{Failed, count_fault};
use crate::sink::Sink;
use std::io::Write;
use std::marker::Model;

/// A sink over a writer, such as standard output, which is flushed in each call. Contracts do not see its bytes.
#[derive(Drop)]
pub struct StdoutSink<W> {
    writer: W,
    faults: u64,
}

impl<W> Model for StdoutSink<W> {
    ghost use Rattle.tool_io.specs.Adapter.{Adapter};

    ghost Value = { Adapter W };

    ghost view = { λ s. record { device = s.writer; faults = s.faults } };
}

impl<W> StdoutSink<W> {
    /// A sink over this writer, no call on which has failed.
    pub fn new(writer: W) -> StdoutSink<W>
        ensures { result ≡ record { device = writer; faults = 0 } }
    {
        StdoutSink { writer, faults: 0 }
    }
}

impl<W: Write> Sink for StdoutSink<W> {
    ghost use Rattle.std.specs.Prelude.{None};

    ghost state = { λ s. record { gone = None; faults = s.faults } };

    /// Writes once to the writer and flushes it. An error of either is `Failed`, and is counted.
    fn write(&mut self, piece: &[u8]) -> Result<usize, Failed>
        ensures bound { WritesAtMost result piece.now }
        ensures progress { TakesSome result piece.now }

        // The writer reports how many bytes it took, and each failure is counted. If a flush fails,
        // the writer may have taken some of the piece.
        ensures taken { IfOk result
            (λ n. Appends (W.contents self.old.device) (W.contents self.new.device) (take n piece.now)) }
        ensures lost { OnErr result
            ((n : ℕ) × Appends (W.contents self.old.device) (W.contents self.new.device) (take n piece.now)) }
        ensures counted { self.new.faults ≡ faults_after self.old.faults (is_ok result) }
    {
        let result = write_flushed(&mut self.writer, piece);
        count_fault(&mut self.faults, &result);
        result
    }
}

/// Writes the first bytes of a piece and flushes them. A writer that takes nothing of a piece that
/// is not empty has failed.
fn write_flushed<W: Write>(writer: &mut W, piece: &[u8]) -> Result<usize, Failed>
    ensures bound { WritesAtMost result piece.now }
    ensures progress { TakesSome result piece.now }
    ensures taken { IfOk result (λ n. Appends (W.contents writer.old) (W.contents writer.new) (take n piece.now)) }
    ensures lost { OnErr result ((n : ℕ) × Appends (W.contents writer.old) (W.contents writer.new) (take n piece.now)) }
{
    let count = writer.write(piece).map_err(|_| Failed)?;
    if count == 0 && !piece.is_empty() {
        return Err(Failed);
    }
    writer.flush().map_err(|_| Failed)?;
    Ok(count)
}
