//! Where bytes come from.
ghost use Rattle.std.specs.Prelude.{◌≡◌, ℕ, List, Option, is_ok};
ghost use Rattle.std.specs.Io.{ReadsAtMost};
ghost use Rattle.std.specs.Io.KnownBytes.{ReadConsumes};
ghost use Rattle.tool_io.specs.Counts.{faults_after};

use crate::faults::Failed;

/// Where bytes come from.
pub trait Source {
    /// The bytes that are left, if the object makes them visible.
    ghost left: { Self → Option (List ℕ) };

    /// How many calls have failed. The count ends at the greatest `u64`.
    ghost faults: { Self → ℕ };

    /// Moves the first bytes that are left into `buf`, and returns how many. At the end, and only
    /// there, it moves none into a `buf` that has room. A call that fails takes nothing.
    fn read(&mut self, buf: &mut [u8]) -> Result<usize, Failed>
        ensures bound { ReadsAtMost result buf.new }
        ensures bytes { ReadConsumes (left self.old) (left self.new) result buf.new }
        ensures counted { faults self.new ≡ faults_after (faults self.old) (is_ok result) };
}
