//! A table chunk by chunk, to its end or the first fault.
ghost use Rattle.std.specs.Prelude.{◌≡◌, ◌+◌, ◌<◌, ◌≤◌, length, IfOk};
ghost use Rattle.axml_chunks.specs.Chunks.{IsChunk, EndsIn};
ghost use Rattle.axml_chunks.specs.Steps.{Does, Gives};
ghost use Rattle.arsc_reader.specs.Entries.{IfListed};
ghost use Rattle.arsc_reader.specs.Meaning.{found};
ghost use Rattle.arsc_reader.specs.Numbers.{max_package};
ghost use Rattle.arsc_reader.specs.Reading.{start, listed, in_package, package_of, package_read, pool_read, in_table, one_chunk, all_chunks};

use crate::entries::{listing_of, push_entries};
use crate::listing::Listing;
use crate::reading::Reading;
use axml_chunks::{Cause, Chunk, Fault, Pool, ReadFault, chunk_at, u32_at};
use std::alloc::Global;

/// The highest id that a package may have.
const MAX_PACKAGE: u32 = 255;

/// The most entries that the types of a table may have together.
const MAX_ENTRIES: usize = 262144;

/// The type of a chunk that is a string pool.
const POOL: u16 = 0x001;

/// The type of a chunk that is a package.
const PACKAGE: u16 = 0x200;

/// The type of a chunk that has entries.
const TYPE: u16 = 0x201;

/// The id of the package whose chunk is at a place.
#[tactic(auto, unfolding(crate::specs::Reading::package_of))]
fn package_of(bytes: &[u8], place: usize, chunk: Chunk) -> Result<u32, Fault>
    requires { IsChunk place (length bytes.now) chunk }
    ensures value { result ≡ package_of bytes.now place chunk }
    ensures bounds { IfOk result (λ package_id. package_id ≤ max_package) }
{
    let bad = Fault {
        cause: Cause::BadChunk,
        at: place,
    };
    if chunk.head < 284 {
        return Err(bad);
    }
    let package_id = u32_at(bytes, place + 8);
    if package_id > MAX_PACKAGE {
        return Err(bad);
    }
    Ok(package_id)
}

impl Reading {
    /// Nothing was read yet.
    pub(crate) fn new(alloc: Global) -> Reading
        ensures { found result ≡ start }
    {
        Reading {
            pool: None,
            entries: Vec::new(alloc),
            count: 0,
        }
    }

    /// Reads the entries of the type whose chunk is at a place.
    #[tactic(auto, unfolding(crate::specs::Reading::listed))]
    fn read_listing(
        &mut self,
        bytes: &[u8],
        place: usize,
        listing: Option<Listing>,
    ) -> Result<(), ReadFault>
        requires { IfListed (length bytes.now) listing }
        ensures { Does (found self.new) result (listed bytes.now place listing (found self.old)) }
    {
        let Some(listing) = listing else {
            return Ok(());
        };
        if MAX_ENTRIES < self.count + listing.count {
            return Err(ReadFault::Bad(Fault {
                cause: Cause::TooBig,
                at: place,
            }));
        }
        self.count += listing.count;
        push_entries(&mut self.entries, bytes, listing)
    }

    /// Reads a chunk of a package.
    #[tactic(auto, unfolding(crate::specs::Reading::in_package, crate::specs::Reading::type_read))]
    fn read_in_package(
        &mut self,
        bytes: &[u8],
        package_id: u32,
        place: usize,
        chunk: Chunk,
    ) -> Result<(), ReadFault>
        requires package_id { package_id ≤ max_package }
        requires chunk { IsChunk place (length bytes.now) chunk }
        ensures { Does (found self.new) result (in_package bytes.now package_id place chunk (found self.old)) }
    {
        if chunk.kind != TYPE {
            return Ok(());
        }
        let listing = listing_of(bytes, place, package_id, chunk)?;
        self.read_listing(bytes, place, listing)
    }

    /// Reads the chunk at a place in a package, and returns the place after it.
    #[tactic(auto, unfolding(crate::specs::Reading::one_chunk))]
    fn read_next_in_package(
        &mut self,
        bytes: &[u8],
        package_id: u32,
        place: usize,
        end: usize,
    ) -> Result<usize, ReadFault>
        requires package_id { package_id ≤ max_package }
        requires place { place ≤ end }
        requires end { EndsIn bytes.now end }
        ensures value { Gives (λ next. (next, found self.new)) result
            (one_chunk (in_package bytes.now package_id) bytes.now end place (found self.old)) }
        ensures bounds { IfOk result (λ next. (place < next) × (next ≤ end)) }
    {
        let chunk = chunk_at(bytes, place, end)?;
        self.read_in_package(bytes, package_id, place, chunk)?;
        Ok(place + chunk.size)
    }

    /// Reads the chunks of a package.
    #[tactic(auto, using(crate::proofs::Loop::leads_first, crate::proofs::Loop::leads_on, crate::proofs::Loop::leads_to))]
    fn read_types(
        &mut self,
        bytes: &[u8],
        package_id: u32,
        place: usize,
        end: usize,
    ) -> Result<(), ReadFault>
        requires package_id { package_id ≤ max_package }
        requires place { place ≤ end }
        requires end { EndsIn bytes.now end }
        ensures { Does (found self.new) result
            (all_chunks (in_package bytes.now package_id) bytes.now end place (found self.old)) }
    {
        let mut at = place;
        while at < end {
            at = self.read_next_in_package(bytes, package_id, at, end)?;
        }
        Ok(())
    }

    /// Reads the package whose chunk is at a place.
    #[tactic(auto, unfolding(crate::specs::Reading::package_read))]
    fn read_package(&mut self, bytes: &[u8], place: usize, chunk: Chunk) -> Result<(), ReadFault>
        requires { IsChunk place (length bytes.now) chunk }
        ensures { Does (found self.new) result (package_read bytes.now place chunk (found self.old)) }
    {
        let package_id = package_of(bytes, place, chunk)?;
        self.read_types(bytes, package_id, place + chunk.head, place + chunk.size)
    }

    /// Reads the string pool whose chunk is at a place.
    #[tactic(auto, unfolding(crate::specs::Reading::pool_read))]
    fn read_pool(
        &mut self,
        alloc: Global,
        bytes: &[u8],
        place: usize,
        chunk: Chunk,
    ) -> Result<(), ReadFault>
        requires { IsChunk place (length bytes.now) chunk }
        ensures { Does (found self.new) result (pool_read bytes.now place chunk (found self.old)) }
    {
        if self.pool.is_some() {
            return Err(ReadFault::Bad(Fault {
                cause: Cause::SecondPool,
                at: place,
            }));
        }
        self.pool = Some(Pool::read(alloc, bytes, place, chunk)?);
        Ok(())
    }

    /// Reads a chunk of the table.
    #[tactic(auto, unfolding(crate::specs::Reading::in_table))]
    fn read_in_table(
        &mut self,
        alloc: Global,
        bytes: &[u8],
        place: usize,
        chunk: Chunk,
    ) -> Result<(), ReadFault>
        requires { IsChunk place (length bytes.now) chunk }
        ensures { Does (found self.new) result (in_table bytes.now place chunk (found self.old)) }
    {
        match chunk.kind {
            POOL => self.read_pool(alloc, bytes, place, chunk),
            PACKAGE => self.read_package(bytes, place, chunk),
            _ => Ok(()),
        }
    }

    /// Reads the chunk at a place in the table, and returns the place after it.
    #[tactic(auto, unfolding(crate::specs::Reading::one_chunk))]
    fn read_next_in_table(
        &mut self,
        alloc: Global,
        bytes: &[u8],
        place: usize,
        end: usize,
    ) -> Result<usize, ReadFault>
        requires place { place ≤ end }
        requires end { EndsIn bytes.now end }
        ensures value { Gives (λ next. (next, found self.new)) result
            (one_chunk (in_table bytes.now) bytes.now end place (found self.old)) }
        ensures bounds { IfOk result (λ next. (place < next) × (next ≤ end)) }
    {
        let chunk = chunk_at(bytes, place, end)?;
        self.read_in_table(alloc, bytes, place, chunk)?;
        Ok(place + chunk.size)
    }

    /// Reads the chunks of a table.
    #[tactic(auto, using(crate::proofs::Loop::leads_first, crate::proofs::Loop::leads_on, crate::proofs::Loop::leads_to))]
    pub(crate) fn read_chunks(
        &mut self,
        alloc: Global,
        bytes: &[u8],
        place: usize,
        end: usize,
    ) -> Result<(), ReadFault>
        requires place { place ≤ end }
        requires end { EndsIn bytes.now end }
        ensures { Does (found self.new) result (all_chunks (in_table bytes.now) bytes.now end place (found self.old)) }
    {
        let mut at = place;
        while at < end {
            at = self.read_next_in_table(alloc, bytes, at, end)?;
        }
        Ok(())
    }
}
