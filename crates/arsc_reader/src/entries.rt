//! The entries of one type, each from its place.
ghost use Rattle.std.specs.Prelude.{◌≡◌, ◌+◌, ◌*◌, ◌^◌, ◌<◌, ◌≤◌, length, IfOk};
ghost use Rattle.axml_chunks.specs.Chunks.{IsChunk, EndsIn};
ghost use Rattle.axml_chunks.specs.Steps.{Does};
ghost use Rattle.arsc_reader.specs.Entries.{are_zeros, listing_of, IfListed, IsListing, plain_at, entry_at, held_at, entry_after, entries_upto};
ghost use Rattle.arsc_reader.specs.Numbers.{max_package};

use crate::held::{Entry, Held};
use crate::listing::Listing;
use axml_chunks::{Cause, Chunk, Fault, ReadFault, u16_at, u32_at};

/// The number in a list of offsets that means no entry.
const NO_ENTRY: u32 = 0xffff_ffff;

/// The highest number that an entry of a type may have; those above are passed over.
const LAST_ENTRY: usize = 65535;

/// Whether `count` bytes from a place on are 0.
fn are_zeros(bytes: &[u8], place: usize, n: usize) -> bool
    requires { place + n ≤ length bytes.now }
    ensures { result ≡ are_zeros bytes.now place n }
{
    let mut zeros = true;
    for k in 0..n {
        zeros = zeros && bytes[place + k] == 0;
    }
    zeros
}

/// The entries of the type whose chunk is at a place, in a package of this id; none if the type is written in another
/// form, or for another configuration than the default one.
#[tactic(auto, unfolding(crate::specs::Entries::listing_of))]
pub(crate) fn listing_of(
    bytes: &[u8],
    place: usize,
    package_id: u32,
    chunk: Chunk,
) -> Result<Option<Listing>, Fault>
    requires package_id { package_id ≤ max_package }
    requires chunk { IsChunk place (length bytes.now) chunk }
    ensures value { result ≡ listing_of bytes.now place package_id chunk }
    ensures bounds { IfOk result (λ listing. IfListed (length bytes.now) listing) }
{
    let bad = Fault {
        cause: Cause::BadChunk,
        at: place,
    };
    if chunk.head < 24 {
        return Err(bad);
    }
    if bytes[place + 9] != 0 {
        return Ok(None);
    }
    let number = bytes[place + 8] as u32;
    let size = u32_at(bytes, place + 20) as usize;
    if number == 0 || size < 4 || chunk.head - 20 < size {
        return Err(bad);
    }
    if !are_zeros(bytes, place + 24, size - 4) {
        return Ok(None);
    }
    let count = u32_at(bytes, place + 12) as usize;
    let first = u32_at(bytes, place + 16) as usize;
    if chunk.size < chunk.head + 4 * count || chunk.size < first {
        return Err(bad);
    }
    Ok(Some(Listing {
        id: package_id * 0x100_0000 + number * 0x1_0000,
        offsets: place + chunk.head,
        first: place + first,
        end: place + chunk.size,
        count,
    }))
}

/// The plain value of the entry at a place, whose offset is at `own`.
#[tactic(auto, unfolding(crate::specs::Entries::plain_at))]
fn plain_at(bytes: &[u8], own: usize, end: usize, place: usize) -> Result<Held, Fault>
    requires end { EndsIn bytes.now end }
    requires place { place + 8 ≤ end }
    ensures { result ≡ plain_at bytes.now own end place }
{
    let size = u16_at(bytes, place) as usize;
    if size < 8 || end < place + size + 8 {
        return Err(Fault {
            cause: Cause::Truncated,
            at: own,
        });
    }
    Ok(Held::Plain {
        kind: bytes[place + size + 3],
        word: u32_at(bytes, place + size + 4),
    })
}

/// What the entry at a place holds, whose offset is at `own`; nothing if it is written in another form.
#[tactic(auto, unfolding(crate::specs::Entries::entry_at))]
fn entry_at(bytes: &[u8], own: usize, end: usize, place: usize) -> Result<Held, Fault>
    requires end { EndsIn bytes.now end }
    requires place { place < 2 ^ 63 + 2 ^ 32 }
    ensures { result ≡ entry_at bytes.now own end place }
{
    if end < place + 8 {
        return Err(Fault {
            cause: Cause::Truncated,
            at: own,
        });
    }
    let flags = u16_at(bytes, place + 2);
    if flags >= 8 {
        return Ok(Held::None);
    }
    if flags % 2 == 1 {
        return Ok(Held::Complex);
    }
    plain_at(bytes, own, end, place)
}

/// What entry `k` holds; nothing if there is none.
#[tactic(auto, unfolding(crate::specs::Entries::held_at))]
fn held_at(bytes: &[u8], listing: Listing, k: usize) -> Result<Held, Fault>
    requires number { k < listing.count }
    requires listing { IsListing (length bytes.now) listing }
    ensures { result ≡ held_at bytes.now listing k }
{
    let own = listing.offsets + 4 * k;
    let offset = u32_at(bytes, own);
    if offset == NO_ENTRY {
        return Ok(Held::None);
    }
    entry_at(bytes, own, listing.end, listing.first + offset as usize)
}

/// Adds entry `k`.
#[tactic(auto, unfolding(crate::specs::Entries::entry_after))]
fn push_entry(
    entries: &mut Vec<Entry>,
    bytes: &[u8],
    listing: Listing,
    k: usize,
) -> Result<(), ReadFault>
    requires number { k < listing.count }
    requires listing { IsListing (length bytes.now) listing }
    ensures { Does entries.new.items result (entry_after bytes.now listing entries.old.items k) }
{
    if LAST_ENTRY < k {
        return Ok(());
    }
    let held = held_at(bytes, listing, k)?;
    let id = listing.id + k as u32;
    match held {
        Held::None => {}
        Held::Complex => entries.push(Entry {
            id,
            held: Held::Complex,
        })?,
        Held::Plain { kind, word } => entries.push(Entry {
            id,
            held: Held::Plain { kind, word },
        })?,
    }
    Ok(())
}

/// Adds all entries of a type.
pub(crate) fn push_entries(
    entries: &mut Vec<Entry>,
    bytes: &[u8],
    listing: Listing,
) -> Result<(), ReadFault>
    requires { IsListing (length bytes.now) listing }
    ensures { Does entries.new.items result (entries_upto bytes.now listing entries.old.items listing.count) }
{
    for k in 0..listing.count {
        push_entry(entries, bytes, listing, k)?;
    }
    Ok(())
}
