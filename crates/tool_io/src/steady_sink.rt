//! A sink that never fails.
ghost use Rattle.std.specs.Prelude.{◌≡◌, ◌<◌, length, min};
ghost use Rattle.std.specs.Io.{WritesAtMost};
ghost use Rattle.tool_io.specs.BytesLeft.{MovesSome};
ghost use Rattle.tool_io.specs.SinkState.{TakesSome};

use crate::faults::Failed;
use crate::sink::Sink;
use std::marker::Model;

/// A sink that drops the bytes, and never fails. Contracts see it as the greatest number of bytes
/// that one call takes.
#[derive(Drop)]
pub struct SteadySink {
    most: usize,
}

impl Model for SteadySink {
    ghost use Rattle.std.specs.Prelude.{ℕ, ◌<◌};

    ghost Value = { ℕ };

    ghost view = { λ s. s.most };

    ghost invariant = { λ s. 0 < s.most };
}

impl SteadySink {
    /// A sink that takes at most `most` bytes a call.
    pub fn new(most: usize) -> SteadySink
        requires { MovesSome most }
        ensures { result ≡ most }
    {
        SteadySink { most }
    }
}

impl Sink for SteadySink {
    ghost use Rattle.std.specs.Prelude.{None};

    ghost state = { λ _. record { gone = None; faults = 0 } };

    /// Takes the first bytes of the piece, at most `most`, and keeps none of them.
    fn write(&mut self, piece: &[u8]) -> Result<usize, Failed>
        ensures bound { WritesAtMost result piece.now }
        ensures progress { TakesSome result piece.now }

        // The call never fails, and takes as much as it may.
        ensures count { result ≡ Ok (min (length piece.now) self.old) }
        ensures stays { self.new ≡ self.old }
    {
        Ok(piece.len().min(self.most))
    }
}
