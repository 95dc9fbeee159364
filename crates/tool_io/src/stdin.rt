//! A source over a reader.
ghost use Rattle.std.specs.Prelude.{◌≡◌, is_ok};
ghost use Rattle.std.specs.Io.{ReadsAtMost};
ghost use Rattle.std.specs.Io.KnownBytes.{ReadConsumes};
ghost use Rattle.tool_io.specs.Counts.{faults_after};

use crate::faults::{Failed, count_fault};
use crate::source::Source;
use std::io::Read;
use std::marker::Model;

/// A source over a reader, such as standard input. Contracts do not see its bytes.
#[derive(Drop)]
pub struct StdinSource<R> {
    reader: R,
    faults: u64,
}

impl<R> Model for StdinSource<R> {
    ghost use Rattle.tool_io.specs.Adapter.{Adapter};

    ghost Value = { Adapter R };

    ghost view = { λ s. record { device = s.reader; faults = s.faults } };
}

impl<R> StdinSource<R> {
    /// A source over this reader, no call on which has failed.
    pub fn new(reader: R) -> StdinSource<R>
        ensures { result ≡ record { device = reader; faults = 0 } }
    {
        StdinSource { reader, faults: 0 }
    }
}

impl<R: Read> Source for StdinSource<R> {
    ghost use Rattle.std.specs.Prelude.{None};

    ghost left = { λ _. None };

    ghost faults = { λ s. s.faults };

    /// Reads once from the reader. Each of its errors is `Failed`, and is counted.
    fn read(&mut self, buf: &mut [u8]) -> Result<usize, Failed>
        ensures bound { ReadsAtMost result buf.new }

        // The bytes are those that the reader gave, and each failure is counted.
        ensures given { ReadConsumes (R.remaining self.old.device) (R.remaining self.new.device) result buf.new }
        ensures counted { self.new.faults ≡ faults_after self.old.faults (is_ok result) }
    {
        let result = self.reader.read(buf).map_err(|_| Failed);
        count_fault(&mut self.faults, &result);
        result
    }
}
