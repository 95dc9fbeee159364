//! The shelf of the files of a folder.
//!
//! A file that is there and cannot be read, such as a folder, is a failure of the shelf, which ends a run, and not a
//! file that is missing.
ghost use Rattle.std.specs.Prelude.{◌≡◌, ◌≢◌, ◌<◌, ◌↔◌, [], length, IfSome, is_ok};
ghost use Rattle.std.specs.IoError.{error_kind};
ghost use Rattle.tool_io.specs.Counts.{faults_after};
ghost use Rattle.tool_io.specs.Fetched.{CountsFetch, IsEmptyUnlessWhole, IsWithinLimit};

use crate::faults::count_fault;
use crate::shelf::{Found, Shelf, ShelfFault};
use std::fs;
use std::io::{Error, ErrorKind, Read};
use std::marker::Model;
use std::rt::Files;

/// A shelf of the files of the current folder, by their names there. A call fails for what is there
/// and cannot be read, such as a folder. Contracts do not see its bytes.
#[derive(Drop)]
pub struct FolderShelf<R> {
    files: R,
    faults: u64,
}

impl<R> Model for FolderShelf<R> {
    ghost use Rattle.tool_io.specs.Adapter.{Adapter};

    ghost Value = { Adapter R };

    ghost view = { λ s. record { device = s.files; faults = s.faults } };
}

impl<R> FolderShelf<R> {
    /// A shelf over the files that this runtime reaches, no call on which has failed.
    pub fn new(files: R) -> FolderShelf<R>
        ensures { result ≡ record { device = files; faults = 0 } }
    {
        FolderShelf { files, faults: 0 }
    }
}

impl<R: Files> Shelf for FolderShelf<R> {
    ghost use Rattle.std.specs.Prelude.{None};
    ghost use Rattle.tool_io.specs.Fetches.{Unseen};

    ghost files = { λ _. None };

    ghost faults = { λ s. s.faults };

    ghost fetches = { λ _. Unseen };

    /// Reads the file of this name if it has at most `limit` bytes. `Missing` where the folder has none; each failure
    /// is counted.
    #[tactic(auto, using(crate::proofs::Counting::counts_each))]
    fn fetch(&mut self, name: &str, into: &mut Vec<u8>, limit: usize) -> Result<Found, ShelfFault>
        ensures empty { IsEmptyUnlessWhole result into.new.items }
        ensures limit { IsWithinLimit limit into.new.items }
        ensures counted { CountsFetch self.old.faults self.new.faults result }

        // Each failure is counted, also running out of memory.
        ensures each_failure { self.new.faults ≡ faults_after self.old.faults (is_ok result) }
    {
        let result = fetch_file(&self.files, name, into, limit);
        count_fault(&mut self.faults, &result);
        result
    }
}

/// Puts the file of this name into `into`, which is empty after anything but `Found::Whole`.
fn fetch_file<R: Files>(
    files: &R,
    name: &str,
    into: &mut Vec<u8>,
    limit: usize,
) -> Result<Found, ShelfFault>
    ensures empty { IsEmptyUnlessWhole result into.new.items }
    ensures limit { IsWithinLimit limit into.new.items }
{
    into.clear();
    match fs::open(files, name) {
        Ok(file) => fetch_bytes(file, into, limit),
        Err(error) if error.kind() == ErrorKind::NotFound => Ok(Found::Missing),
        Err(error) => Err(fault_of(&error)),
    }
}

/// Puts all bytes of a reader into `into`, which is empty after anything but `Found::Whole`. At
/// most `limit` bytes and one more are read.
fn fetch_bytes<S: Read + Drop>(
    reader: S,
    into: &mut Vec<u8>,
    limit: usize,
) -> Result<Found, ShelfFault>
    requires { into.old.items ≡ [] }
    ensures empty { IsEmptyUnlessWhole result into.new.items }
    ensures limit { IsWithinLimit limit into.new.items }

    // The result is stated by the bytes that the reader has, if contracts see them.
    ensures found { result ≢ Ok Found.Missing }
    ensures whole { result ≡ Ok Found.Whole → IfSome (S.remaining reader) (λ bytes. into.new.items ≡ bytes) }
    ensures long { result ≡ Ok Found.Long → IfSome (S.remaining reader) (λ bytes. limit < length bytes) }
{
    let most = (limit as u64).saturating_add(1);
    let read = reader.take(most).read_to_end(into);
    let result = match read {
        Ok(_) if into.len() <= limit => return Ok(Found::Whole),
        Ok(_) => Ok(Found::Long),
        Err(error) => Err(fault_of(&error)),
    };
    into.clear();
    result
}

/// Out of memory, or another failure.
fn fault_of(error: &Error) -> ShelfFault
    ensures { (result ≡ ShelfFault.NoMemory) ↔ (error_kind error.now ≡ ErrorKind.OutOfMemory) }
{
    match error.kind() {
        ErrorKind::OutOfMemory => ShelfFault::NoMemory,
        _ => ShelfFault::Failed,
    }
}
