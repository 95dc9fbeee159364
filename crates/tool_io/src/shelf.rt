//! Where files are.
//!
//! Contracts see the files through the ghost of the shelf, and the plain world takes them as a parameter instead of
//! keeping them: so what is said of a line that asks for no file holds over every shelf.
ghost use Rattle.std.specs.Prelude.{◌≡◌, ℕ, List, Option, IfSome, IfOk};
ghost use Rattle.tool_io.specs.Fetched.{CountsFetch, Fetched, IsEmptyUnlessWhole, IsWithinLimit};
ghost use Rattle.tool_io.specs.Fetches.{Fetches, with_fetch};

/// How a fetch ended.
#[derive(Clone, Copy, Debug, PartialEq, Eq)]
pub enum Found {
    /// The whole file was fetched.
    Whole,
    /// There is no file of this name.
    Missing,
    /// The file has more bytes than the limit.
    Long,
}

/// Why a fetch did not end.
#[derive(Clone, Copy, Debug, PartialEq, Eq)]
pub enum ShelfFault {
    /// The shelf failed.
    Failed,
    /// There is no memory for the bytes.
    NoMemory,
}

/// Where files are, each under a name.
pub trait Shelf {
    /// The files by the bytes of their names, if the object makes them visible. Of equal names the
    /// first counts.
    ghost files: { Self → Option (List (List ℕ × List ℕ)) };

    /// How many calls have failed. The count ends at the greatest `u64`.
    ghost faults: { Self → ℕ };

    /// What the object shows of the calls that were made, whether they have failed or not: nothing, how many they are,
    /// or the name and the limit of each.
    ghost fetches: { Self → Fetches };

    /// Puts the file of this name into `into`, in place of what that holds, if the file has at
    /// most `limit` bytes. After anything but `Found::Whole`, `into` is empty.
    fn fetch(&mut self, name: &str, into: &mut Vec<u8>, limit: usize) -> Result<Found, ShelfFault>
        ensures stays { files self.new ≡ files self.old }
        ensures found { IfOk result
            (λ found. IfSome (files self.old) (λ files. Fetched files name.now limit found into.new.items)) }
        ensures empty { IsEmptyUnlessWhole result into.new.items }
        ensures limit { IsWithinLimit limit into.new.items }
        ensures counted { CountsFetch (faults self.old) (faults self.new) result }
        ensures asked { fetches self.new
            ≡ with_fetch (fetches self.old) (record { name = name.now; limit = limit }) };
}
