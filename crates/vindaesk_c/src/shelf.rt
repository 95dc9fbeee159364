//! A shelf of the files of a buffer.

ghost use Rattle.std.specs.Prelude.{◌≡◌, IfOk};
ghost use Rattle.tool_io.specs.Fetched.{CountsFetch, Fetched, IsEmptyUnlessWhole, IsWithinLimit};

use crate::packing::PackedFile;
use std::marker::Model;
use tool_io::{Found, Shelf, ShelfFault};

/// A shelf of files that are in a buffer of the caller. It fails only when out of memory.
#[derive(Drop)]
pub struct PackedShelf<'a> {
    files: Vec<PackedFile<'a>>,
}

impl<'a> Model for PackedShelf<'a> {
    ghost use Rattle.tool_io.specs.Fetched.{Files};
    ghost use Rattle.vindaesk_c.specs.FilesNow.{files_now};

    ghost Value = { Files };

    ghost view = { λ s. files_now s.files.items };
}

impl<'a> PackedShelf<'a> {
    ghost use Rattle.vindaesk_c.specs.FilesNow.{files_now};

    /// A shelf of these files. Of equal names the first counts.
    pub fn new(files: Vec<PackedFile<'a>>) -> PackedShelf<'a>
        ensures { result ≡ files_now files.entry.items }
    {
        PackedShelf { files }
    }
}

impl Shelf for PackedShelf<'_> {
    ghost use Rattle.std.specs.Prelude.{Some};
    ghost use Rattle.tool_io.specs.Fetches.{Unseen};

    ghost files = { λ s. Some s };

    ghost faults = { λ _. 0 };

    ghost fetches = { λ _. Unseen };

    /// Copies the first file of this name: `Missing` where there is none, `Long` if it has more than `limit` bytes.
    fn fetch(&mut self, name: &str, into: &mut Vec<u8>, limit: usize) -> Result<Found, ShelfFault>
        ensures stays { self.new ≡ self.old }
        ensures found { IfOk result (λ found. Fetched self.old name.now limit found into.new.items) }
        ensures empty { IsEmptyUnlessWhole result into.new.items }
        ensures limit { IsWithinLimit limit into.new.items }

        // The call never fails.
        ensures counted { CountsFetch 0 0 result }
    {
        into.clear();
        for file in &self.files {
            if file.name == name.as_bytes() {
                if file.contents.len() > limit {
                    return Ok(Found::Long);
                }
                if into.extend_from_slice(file.contents).is_err() {
                    return Err(ShelfFault::NoMemory);
                }
                return Ok(Found::Whole);
            }
        }
        Ok(Found::Missing)
    }
}
