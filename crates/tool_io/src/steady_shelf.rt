//! A shelf in memory that never fails.
ghost use Rattle.std.specs.Prelude.{◌≡◌, ◌≢◌, ◌<◌, ◌≤◌, ◌↔◌, length, IfOk, IsSomeAnd, None};
ghost use Rattle.tool_io.specs.Fetched.{Fetched, file_of, IsEmptyUnlessWhole, IsWithinLimit};

use crate::shelf::{Found, Shelf, ShelfFault};
use std::marker::Model;

/// A shelf of files in memory that never returns `ShelfFault::Failed`.
#[derive(Drop)]
pub struct SteadyShelf {
    files: Vec<(String, Vec<u8>)>,
}

impl Model for SteadyShelf {
    ghost use Rattle.std.specs.Prelude.{ℕ, List};
    ghost use Rattle.tool_io.specs.Files.{named_files};

    ghost Value = { List (List ℕ × List ℕ) };

    ghost view = { λ s. named_files s.files.items };
}

impl SteadyShelf {
    ghost use Rattle.tool_io.specs.Files.{named_files};

    /// A shelf of these files. Of equal names the first counts.
    pub fn new(files: Vec<(String, Vec<u8>)>) -> SteadyShelf
        ensures { result ≡ named_files files.items }
    {
        SteadyShelf { files }
    }
}

impl Shelf for SteadyShelf {
    ghost use Rattle.std.specs.Prelude.{Some};
    ghost use Rattle.tool_io.specs.Fetches.{Unseen};

    ghost files = { λ s. Some s };

    ghost faults = { λ _. 0 };

    ghost fetches = { λ _. Unseen };

    /// Copies the file of this name: `Missing` where there is none, `Long` if it has more than `limit` bytes.
    fn fetch(&mut self, name: &str, into: &mut Vec<u8>, limit: usize) -> Result<Found, ShelfFault>
        ensures stays { self.new ≡ self.old }
        ensures found { IfOk result (λ found. Fetched self.old name.now limit found into.new.items) }
        ensures empty { IsEmptyUnlessWhole result into.new.items }
        ensures limit { IsWithinLimit limit into.new.items }
        ensures failed { result ≢ Err ShelfFault.Failed }

        // A file is missing exactly if it is not held, and long exactly if it is above the limit.
        // There may be no memory for the bytes of a file that would be returned.
        ensures missing { (result ≡ Ok Found.Missing) ↔ (file_of self.old name.now ≡ None) }
        ensures long { (result ≡ Ok Found.Long) ↔ IsSomeAnd (file_of self.old name.now) (λ file. limit < length file) }
        ensures no_memory { result ≡ Err ShelfFault.NoMemory
            → IsSomeAnd (file_of self.old name.now) (λ file. (0 < length file) × (length file ≤ limit)) }
    {
        into.clear();
        for (held, bytes) in &self.files {
            if held.as_str() == name {
                if bytes.len() > limit {
                    return Ok(Found::Long);
                }
                if into.extend_from_slice(bytes.as_slice()).is_err() {
                    return Err(ShelfFault::NoMemory);
                }
                return Ok(Found::Whole);
            }
        }
        Ok(Found::Missing)
    }
}
