//! A document chunk by chunk, to its end or the first fault.
ghost use Rattle.std.specs.Prelude.{◌≡◌, ◌+◌, ◌<◌, ◌≤◌, length, IfOk, Ok};
ghost use Rattle.axml_chunks.specs.Chunks.{IsChunk, EndsIn};
ghost use Rattle.axml_chunks.specs.Steps.{Gives};
ghost use Rattle.axml_reader.specs.Decoding.{start, document_of, one_chunk, chunks_from, finished, decoded};
ghost use Rattle.axml_reader.specs.Document.{Document};
ghost use Rattle.axml_reader.specs.Relation.{IsDocument};
ghost use Rattle.axml_reader.specs.Sound.{IsSoundDocument};
ghost use Rattle.axml_reader.specs.Meaning.{document, reading};

use crate::doc::Doc;
use crate::reading::Reading;
use axml_chunks::{Cause, Chunk, Fault, ReadFault, chunk_at, u16_at};
use std::alloc::Global;

/// The type of the chunk that holds the document.
const DOCUMENT: u16 = 3;

/// The chunk that holds the document. What comes after it is not looked at.
#[tactic(auto, unfolding(crate::specs::Decoding::document_of))]
fn document_chunk(bytes: &[u8]) -> Result<Chunk, Fault>
    ensures value { result ≡ document_of bytes.now }
    ensures bounds { IfOk result (λ chunk. IsChunk 0 (length bytes.now) chunk) }
{
    if bytes.len() < 8 {
        return Err(Fault {
            cause: Cause::Truncated,
            at: 0,
        });
    }
    if u16_at(bytes, 0) != DOCUMENT {
        return Err(Fault {
            cause: Cause::NotXml,
            at: 0,
        });
    }
    chunk_at(bytes, 0, bytes.len())
}

impl Reading {
    /// Nothing was read yet.
    fn new(alloc: Global) -> Reading
        ensures { reading result ≡ start }
    {
        Reading {
            pool: None,
            alike: Vec::new(alloc),
            map: Vec::new(alloc),
            nodes: Vec::new(alloc),
            attrs: Vec::new(alloc),
            opened: Vec::new(alloc),
            closed: false,
            starts: 0,
        }
    }

    /// Reads the chunk at a place, and returns the place after it.
    #[tactic(auto, unfolding(crate::specs::Decoding::one_chunk))]
    fn read_next(
        &mut self,
        alloc: Global,
        bytes: &[u8],
        at: usize,
        end: usize,
    ) -> Result<usize, ReadFault>
        requires at { at ≤ end }
        requires end { EndsIn bytes.now end }
        ensures value { Gives (λ place. (place, reading self.new)) result
            (one_chunk bytes.now end at (reading self.old)) }
        ensures bounds { IfOk result (λ place. (at < place) × (place ≤ end)) }
    {
        let chunk = chunk_at(bytes, at, end)?;
        self.read_chunk(alloc, bytes, at, chunk)?;
        Ok(at + chunk.size)
    }

    /// The document, once all was read up to its end.
    #[tactic(auto, unfolding(crate::specs::Decoding::finished))]
    fn finish(self, end: usize) -> Result<Doc, ReadFault>
        requires { (doc : Document) → finished end (reading self) ≡ Ok doc → IsSoundDocument doc }
        ensures { Gives document result (finished end (reading self)) }
    {
        if !self.opened.is_empty() {
            return Err(ReadFault::Bad(Fault {
                cause: Cause::Unbalanced,
                at: end,
            }));
        }
        let no_element = Fault {
            cause: Cause::NoElement,
            at: end,
        };
        if !self.closed {
            return Err(ReadFault::Bad(no_element));
        }
        let Reading {
            pool,
            map,
            nodes,
            attrs,
            ..
        } = self;
        match pool {
            Some(pool) => Ok(Doc {
                pool,
                map,
                nodes,
                attrs,
            }),
            None => Err(ReadFault::Bad(no_element)),
        }
    }
}

/// Reads the chunks of a document.
#[tactic(auto, using(crate::proofs::Loop::leads_first, crate::proofs::Loop::leads_on, crate::proofs::Loop::leads_to))]
fn read_chunks(alloc: Global, bytes: &[u8], whole: Chunk) -> Result<Reading, ReadFault>
    requires { IsChunk 0 (length bytes.now) whole }
    ensures { Gives reading result (chunks_from whole.size bytes.now whole.size whole.head start) }
{
    let mut so_far = Reading::new(alloc);
    let mut at = whole.head;
    while at < whole.size {
        at = so_far.read_next(alloc, bytes, at, whole.size)?;
    }
    Ok(so_far)
}

/// Reads a layout file.
#[tactic(auto, unfolding(crate::specs::Decoding::decoded))]
pub fn read(alloc: Global, bytes: &[u8]) -> Result<Doc, ReadFault>
    ensures value { Gives document result (decoded bytes.now) }
    ensures found { IfOk result (λ doc. IsDocument bytes.now (document doc)) }
    ensures only { (doc : Document) → IsDocument bytes.now doc → Gives document result (Ok doc) }
{
    let whole = document_chunk(bytes)?;
    let reading = read_chunks(alloc, bytes, whole)?;
    reading.finish(whole.size)
}
