//! The string pool, and how it is read from its chunk.
//!
//! A pool keeps its strings in UTF-8, each checked when the pool is read and not on demand: a print begins after the
//! whole file was read, fails only for the sink, and a refused file has one line. A pool whose sizes contradict each
//! other is `BadPool` even with too many strings. Offsets of strings may lead to any place in the pool's chunk. The
//! limit for text counts bytes of UTF-8, a string as often as it is listed, and is looked at only for a string that is
//! a text.
ghost use Rattle.std.specs.Prelude.{◌≡◌, ◌+◌, ◌*◌, ◌^◌, ◌<◌, ◌≤◌, length, map, IfOk, IfSome, OnOk, Ok, slice_get};
ghost use Rattle.std.specs.Option.{option_map};
ghost use Rattle.std.specs.String.{string_bytes};
ghost use Rattle.axml_chunks.specs.Chunks.{IsChunk};
ghost use Rattle.axml_chunks.specs.Gathering.{gathering};
ghost use Rattle.axml_chunks.specs.Limits.{max_strings};
ghost use Rattle.axml_chunks.specs.Pool.{StringPool, header_of, gathered, gathered_upto, one_more, pool_of, IsHeader, IsPool};
ghost use Rattle.axml_chunks.specs.Short.{IsShort};
ghost use Rattle.axml_chunks.specs.Steps.{Gives, Does};

use crate::cause::Cause;
use crate::chunk::{Chunk, u32_at};
use crate::fault::{Fault, ReadFault};
use crate::gathering::Gathering;
use crate::strings::text_at;
use std::alloc::Global;
use std::marker::Model;

/// The most strings that a pool may have.
const MAX_STRINGS: usize = 65536;

/// The most bytes in UTF-8 that the strings of a pool may have together.
const MAX_TEXT: usize = 4194304;

/// What a pool's header says: whether its strings are in UTF-8, how many there are, and where in
/// the chunk the first begins.
#[derive(Clone, Copy)]
pub(crate) struct Header {
    pub(crate) utf8: bool,
    pub(crate) count: usize,
    pub(crate) first: usize,
}

/// The chunk of a pool: its bytes, where in the file it begins, and the length of its header.
#[derive(Clone, Copy)]
struct PoolChunk<'a> {
    bytes: &'a [u8],
    at: usize,
    head: usize,
}

/// The strings of a file. Each was found to be a text when the pool was read, and is kept in
/// UTF-8.
#[derive(Drop)]
pub struct Pool {
    utf8: bool,
    texts: Vec<String>,
}

impl Model for Pool {
    ghost use Rattle.std.specs.Prelude.{map, ◌≤◌, length};
    ghost use Rattle.std.specs.List.{All};
    ghost use Rattle.std.specs.String.{string_bytes};
    ghost use Rattle.axml_chunks.specs.Limits.{max_strings};
    ghost use Rattle.axml_chunks.specs.Pool.{StringPool};
    ghost use Rattle.axml_chunks.specs.Short.{IsShort};

    ghost Value = { StringPool };

    ghost view = { λ p. record { utf8 = p.utf8; texts = map string_bytes p.texts.items } };

    ghost invariant = { λ p. (length p.texts.items ≤ max_strings) × All (λ text. IsShort (string_bytes text)) p.texts.items };
}

impl Pool {
    /// Reads the pool whose chunk is at a place of a file.
    #[tactic(auto, unfolding(crate::specs::Pool::pool_in), using(crate::proofs::Pools::pool_found, crate::proofs::Pools::pool_again))]
    pub fn read(alloc: Global, bytes: &[u8], at: usize, chunk: Chunk) -> Result<Pool, ReadFault>
        requires { IsChunk at (length bytes.now) chunk }
        ensures value { Gives (λ pool. pool) result (pool_of bytes.now at chunk) }
        ensures found { IfOk result (λ pool. IsPool bytes.now at chunk pool) }
        ensures only { (pool : StringPool) → IsPool bytes.now at chunk pool → Gives (λ pool. pool) result (Ok pool) }
    {
        let chunk = PoolChunk {
            bytes: &bytes[at..at + chunk.size],
            at,
            head: chunk.head,
        };
        let header = header_of(&chunk)?;
        let all = gather(alloc, &chunk, header)?;
        Ok(Pool {
            utf8: header.utf8,
            texts: all.texts,
        })
    }

    /// String `k`, counted from 0.
    pub fn text(&self, k: u32) -> Option<&str>
        ensures value { option_map (λ s. s.now) result ≡ slice_get self.now.texts k }
        ensures short { IfSome result (λ s. IsShort s.now) }
    {
        match self.texts.get(k as usize) {
            Some(text) => Some(text.as_str()),
            None => None,
        }
    }

    /// How many strings there are.
    pub fn len(&self) -> u32
        ensures value { result ≡ length self.now.texts }
        ensures most { result ≤ max_strings }
    {
        self.texts.len() as u32
    }

    /// Whether the file has its strings in UTF-8, and not in UTF-16.
    pub fn utf8(&self) -> bool
        ensures { result ≡ self.now.utf8 }
    {
        self.utf8
    }
}

/// The header of a pool.
#[tactic(auto, unfolding(crate::specs::Pool::header_of))]
fn header_of(chunk: &PoolChunk) -> Result<Header, Fault>
    requires { chunk.now.head ≤ length chunk.now.bytes.now }
    ensures value { result ≡ header_of chunk.now.bytes.now chunk.now.at chunk.now.head }
    ensures bounds { IfOk result (λ header. IsHeader (length chunk.now.bytes.now) chunk.now.head header) }
{
    let PoolChunk { bytes, at, head } = *chunk;
    let bad = Fault {
        cause: Cause::BadPool,
        at,
    };
    if head < 28 {
        return Err(bad);
    }
    let count = u32_at(bytes, 8) as usize;
    let styles = u32_at(bytes, 12) as usize;
    let first = u32_at(bytes, 20) as usize;
    if bytes.len() < head + 4 * (count + styles) || bytes.len() < first {
        return Err(bad);
    }
    if MAX_STRINGS < count {
        return Err(Fault {
            cause: Cause::TooBig,
            at,
        });
    }
    let utf8 = u32_at(bytes, 16) / 0x100 % 2 == 1;
    Ok(Header { utf8, count, first })
}

impl Gathering {
    /// Adds a string, whose offset is at a place of the file.
    #[tactic(auto, unfolding(crate::specs::Pool::gathered), using(std::proofs::lemmas::Grind::common_steps))]
    fn add(&mut self, entry: usize, text: Option<String>) -> Result<(), ReadFault>
        ensures value { Does (gathering self.new) result
            (gathered (gathering self.old) entry (option_map string_bytes text)) }
        ensures count { OnOk result (length self.new.texts.items ≡ length self.old.texts.items + 1) }
    {
        let Some(text) = text else {
            return Err(ReadFault::Bad(Fault {
                cause: Cause::BadString,
                at: entry,
            }));
        };
        if MAX_TEXT - self.sum < text.len() {
            return Err(ReadFault::Bad(Fault {
                cause: Cause::TooBig,
                at: entry,
            }));
        }
        self.sum += text.len();
        self.texts.push(text)?;
        Ok(())
    }
}

/// Adds string `k`.
fn add_text(
    alloc: Global,
    so_far: &mut Gathering,
    chunk: &PoolChunk,
    header: Header,
    k: usize,
) -> Result<(), ReadFault>
    requires number { k < header.count }
    requires header { IsHeader (length chunk.now.bytes.now) chunk.now.head header }
    requires fits { chunk.now.at + length chunk.now.bytes.now < 2 ^ 63 }
    ensures value { Does (gathering so_far.new) result
        (one_more chunk.now.bytes.now chunk.now.at chunk.now.head header (gathering so_far.old) k) }
    ensures count { OnOk result (length so_far.new.texts.items ≡ length so_far.old.texts.items + 1) }
{
    let text = text_at(alloc, chunk.bytes, chunk.head, header, k)?;
    so_far.add(chunk.at + chunk.head + 4 * k, text)
}

/// All strings.
#[tactic(auto, using(crate::proofs::Runs::upto_none, crate::proofs::Runs::upto_more))]
fn gather(alloc: Global, chunk: &PoolChunk, header: Header) -> Result<Gathering, ReadFault>
    requires header { IsHeader (length chunk.now.bytes.now) chunk.now.head header }
    requires fits { chunk.now.at + length chunk.now.bytes.now < 2 ^ 63 }
    ensures value { Gives gathering result
        (gathered_upto chunk.now.bytes.now chunk.now.at chunk.now.head header header.count) }
    ensures count { IfOk result (λ g. length g.texts.items ≡ header.count) }
{
    let mut so_far = Gathering {
        texts: Vec::with_capacity(alloc, header.count)?,
        sum: 0,
    };
    for k in 0..header.count {
        add_text(alloc, &mut so_far, chunk, header, k)?;
    }
    Ok(so_far)
}
