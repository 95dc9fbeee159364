//! Chunks, and numbers at a place.
ghost use Rattle.std.specs.Prelude.{◌≡◌, ◌+◌, ◌≤◌, length, IfOk, Ok};
ghost use Rattle.axml_chunks.specs.Chunks.{IsChunk, IsChunkAt, chunk_of, EndsIn};
ghost use Rattle.axml_chunks.specs.Numbers.{number16, number32};

use crate::cause::Cause;
use crate::fault::Fault;
use byteorder::{ByteOrder, LittleEndian};

/// The first eight bytes of a chunk: its type, and in bytes the length of its header and of the
/// whole chunk.
#[derive(Clone, Copy)]
pub struct Chunk {
    pub kind: u16,
    pub head: usize,
    pub size: usize,
}

/// The number in the two bytes at a place.
#[tactic(auto, unfolding(crate::specs::Numbers::number16))]
pub fn u16_at(bytes: &[u8], at: usize) -> u16
    requires { at + 2 ≤ length bytes.now }
    ensures { result ≡ number16 bytes.now at }
{
    LittleEndian::read_u16(&bytes[at..])
}

/// The number in the four bytes at a place.
#[tactic(auto, unfolding(crate::specs::Numbers::number32))]
pub fn u32_at(bytes: &[u8], at: usize) -> u32
    requires { at + 4 ≤ length bytes.now }
    ensures { result ≡ number32 bytes.now at }
{
    LittleEndian::read_u32(&bytes[at..])
}

/// The chunk at a place, which has to end at `end` at the latest.
#[tactic(auto, unfolding(crate::specs::Chunks::chunk_of), using(crate::proofs::Chunks::chunk_found, crate::proofs::Chunks::chunk_again))]
pub fn chunk_at(bytes: &[u8], at: usize, end: usize) -> Result<Chunk, Fault>
    requires at { at ≤ end }
    requires end { EndsIn bytes.now end }
    ensures value { result ≡ chunk_of bytes.now at end }
    ensures bounds { IfOk result (λ chunk. IsChunk at end chunk) }
    ensures found { IfOk result (λ chunk. IsChunkAt bytes.now at end chunk) }
    ensures only { (chunk : Chunk) → IsChunkAt bytes.now at end chunk → result ≡ Ok chunk }
{
    if end - at < 8 {
        return Err(Fault {
            cause: Cause::Truncated,
            at,
        });
    }
    let kind = u16_at(bytes, at);
    let head = u16_at(bytes, at + 2) as usize;
    let size = u32_at(bytes, at + 4) as usize;
    if head < 8 || head % 4 != 0 || size % 4 != 0 || size < head {
        return Err(Fault {
            cause: Cause::BadChunk,
            at,
        });
    }
    if end - at < size {
        return Err(Fault {
            cause: Cause::Truncated,
            at,
        });
    }
    Ok(Chunk { kind, head, size })
}
