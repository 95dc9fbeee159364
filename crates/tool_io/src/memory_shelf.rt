//! A shelf in memory, with calls that fail.
ghost use Rattle.std.specs.Prelude.{◌≡◌, ◌<◌, ◌≤◌, ◌↔◌, length, IfOk, IsFalse, IsTrue, IsSomeAnd, None};
ghost use Rattle.tool_io.specs.Counts.{raised};
ghost use Rattle.tool_io.specs.Fetched.{CountsFetch, Fetched, file_of, IsEmptyUnlessWhole, IsWithinLimit};

use crate::calls::Calls;
use crate::shelf::{Found, Shelf, ShelfFault};
use crate::steady_shelf::SteadyShelf;
use std::marker::Model;

/// A shelf of files in memory, which fails at the calls that it was made to fail at.
#[derive(Drop)]
pub struct MemoryShelf {
    files: SteadyShelf,
    calls: Calls,
}

impl Model for MemoryShelf {
    ghost use Rattle.tool_io.specs.MemoryShelf.{ListedShelf};

    ghost Value = { ListedShelf };

    ghost view = { λ s. record { files = s.files; calls = s.calls } };
}

impl MemoryShelf {
    ghost use Rattle.tool_io.specs.Calls.{no_calls};
    ghost use Rattle.tool_io.specs.Files.{named_files};

    /// A shelf of these files, which fails at the calls whose numbers, from 1 on, are in `fails`.
    /// Of equal names the first counts.
    pub fn new(files: Vec<(String, Vec<u8>)>, fails: Vec<u64>) -> MemoryShelf
        ensures files { result.files ≡ named_files files.items }
        ensures calls { result.calls ≡ no_calls fails.items }
    {
        MemoryShelf {
            files: SteadyShelf::new(files),
            calls: Calls::new(fails),
        }
    }
}

impl Shelf for MemoryShelf {
    ghost use Rattle.std.specs.Prelude.{Some};
    ghost use Rattle.tool_io.specs.Calls.{fails_next};
    ghost use Rattle.tool_io.specs.Fetches.{Counted};
    ghost use Rattle.tool_io.specs.MemoryShelf.{after_fetch};

    ghost files = { λ s. Some s.files };

    ghost faults = { λ s. s.calls.faults };

    ghost fetches = { λ s. Counted s.calls.made };

    /// Copies the file of this name if it has at most `limit` bytes. `Failed` at the calls that are listed, and then
    /// `into` is empty.
    fn fetch(&mut self, name: &str, into: &mut Vec<u8>, limit: usize) -> Result<Found, ShelfFault>
        ensures stays { self.new.files ≡ self.old.files }
        ensures found { IfOk result (λ found. Fetched self.old.files name.now limit found into.new.items) }
        ensures empty { IsEmptyUnlessWhole result into.new.items }
        ensures limit { IsWithinLimit limit into.new.items }
        ensures counted { CountsFetch self.old.calls.faults self.new.calls.faults result }
        ensures asked { self.new.calls.made ≡ raised self.old.calls.made }

        // The call fails exactly if it is listed. Otherwise a file is missing exactly if it is not
        // held, and long exactly if it is above the limit; there may be no memory for the bytes of
        // a file that would be returned.
        ensures listed { (result ≡ Err ShelfFault.Failed) ↔ IsTrue (fails_next self.old.calls) }
        ensures missing { (result ≡ Ok Found.Missing)
            ↔ (IsFalse (fails_next self.old.calls) × (file_of self.old.files name.now ≡ None)) }
        ensures long { (result ≡ Ok Found.Long)
            ↔ (IsFalse (fails_next self.old.calls)
            × IsSomeAnd (file_of self.old.files name.now) (λ file. limit < length file)) }
        ensures no_memory { result ≡ Err ShelfFault.NoMemory
            → IsSomeAnd (file_of self.old.files name.now) (λ file. (0 < length file) × (length file ≤ limit)) }
        ensures after { self.new ≡ after_fetch self.old }
    {
        if self.calls.begin() {
            into.clear();
            self.calls.fail();
            return Err(ShelfFault::Failed);
        }
        self.files.fetch(name, into, limit)
    }
}
