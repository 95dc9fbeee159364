//! Where bytes go.
ghost use Rattle.std.specs.Prelude.{◌≡◌, ◌<◌, is_ok};
ghost use Rattle.std.specs.Io.{WritesAtMost};
ghost use Rattle.std.specs.Io.KnownBytes.{WriteAppends};
ghost use Rattle.tool_io.specs.Counts.{faults_after};
ghost use Rattle.tool_io.specs.SinkState.{SinkState, TakesSome};

use crate::faults::Failed;

/// Where bytes go.
pub trait Sink {
    /// The bytes that were written, if the object makes them visible, and how many calls have
    /// failed. The count ends at the greatest `u64`.
    ghost state: { Self → SinkState };

    /// Appends the first bytes of a piece, at least one if the piece is not empty, and returns how
    /// many. A call that fails appends nothing.
    fn write(&mut self, piece: &[u8]) -> Result<usize, Failed>
        ensures bound { WritesAtMost result piece.now }
        ensures progress { TakesSome result piece.now }
        ensures bytes { WriteAppends (state self.old).gone (state self.new).gone result piece.now }
        ensures counted { (state self.new).faults ≡ faults_after (state self.old).faults (is_ok result) };
}
