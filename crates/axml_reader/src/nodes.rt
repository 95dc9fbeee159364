//! What each kind of chunk adds to a document.
//!
//! In an element that begins, a short header or body comes first, then a second outermost element, too many elements or
//! attributes, its two names, and the place of its attributes. Elements end by the text of their name; namespaces are
//! not compared. Character data and namespaces may be outside the outermost element; the value of character data is not
//! checked. A string number without a string is reported at the field's place. A pool after an element comes too late:
//! before it no number has a string.
ghost use Rattle.std.specs.Prelude.{◌≡◌, ◌+◌, ◌-◌, ◌*◌, ◌^◌, ◌<◌, ◌≤◌, length, IfOk};
ghost use Rattle.axml_chunks.specs.Chunks.{IsChunk};
ghost use Rattle.axml_chunks.specs.Steps.{Does};
ghost use Rattle.axml_reader.specs.Alike.{AreAlike};
ghost use Rattle.axml_reader.specs.Brackets.{is_closed_by};
ghost use Rattle.axml_reader.specs.Fields.{same_text, strings};
ghost use Rattle.axml_reader.specs.Nodes.{IsBody, StartFits, is_short, body_at, is_outside, pair_at, names_at, chars_at, start_at, pool_part, map_part, namespace_start_part, namespace_end_part, start_part, end_part, chars_part, part_at, joined};
ghost use Rattle.axml_reader.specs.Meaning.{reading};
ghost use Rattle.axml_reader.specs.Numbers.{max_attrs};

use crate::alike::{are_alike, none_alike};
use crate::doc::Node;
use crate::fields::{StartHead, name_at, push_attrs, reference_at, string_count, words_at};
use crate::reading::Reading;
use axml_chunks::{Cause, Chunk, Fault, Pool, ReadFault, u16_at, u32_at};
use std::alloc::Global;

/// The kinds of chunks: a string pool, a resource map, the start and the end of a namespace and of an element, and
/// character data.
const POOL: u16 = 0x001;

const MAP: u16 = 0x180;

const NAMESPACE_START: u16 = 0x100;

const NAMESPACE_END: u16 = 0x101;

const START: u16 = 0x102;

const END: u16 = 0x103;

const CHARS: u16 = 0x104;

/// The most elements that a document may have.
const MAX_ELEMENTS: u32 = 4096;

/// The most attributes that an element may have.
const MAX_ATTRS: usize = 256;

/// Whether a node's header is too short, or its body shorter than its form.
fn is_short(chunk: Chunk, form: usize) -> bool
    requires { chunk.head ≤ chunk.size }
    ensures { result ≡ is_short chunk form }
{
    chunk.head < 16 || chunk.size - chunk.head < form
}

/// Where the body of a node is; a form is the least length of a body.
#[tactic(auto, unfolding(crate::specs::Nodes::body_at))]
fn body_at(at: usize, chunk: Chunk, form: usize) -> Result<usize, Fault>
    requires head { chunk.head ≤ chunk.size }
    requires fits { at + chunk.size < 2 ^ 63 }
    ensures value { result ≡ body_at at chunk form }
    ensures bounds { IfOk result (λ body. IsBody at chunk form body) }
{
    if is_short(chunk, form) {
        return Err(Fault {
            cause: Cause::BadChunk,
            at,
        });
    }
    Ok(at + chunk.head)
}

/// The prefix and the address of a namespace.
#[tactic(auto, unfolding(crate::specs::Nodes::pair_at))]
fn pair_at(bytes: &[u8], at: usize, chunk: Chunk, count: u32) -> Result<(u32, u32), Fault>
    requires { IsChunk at (length bytes.now) chunk }
    ensures { result ≡ pair_at bytes.now at chunk count }
{
    let body = body_at(at, chunk, 8)?;
    let prefix = reference_at(bytes, count, body)?;
    let uri = reference_at(bytes, count, body + 4)?;
    Ok((prefix, uri))
}

/// The namespace and the name of an element that ends.
#[tactic(auto, unfolding(crate::specs::Nodes::names_at))]
fn names_at(bytes: &[u8], at: usize, chunk: Chunk, count: u32) -> Result<(u32, u32), Fault>
    requires { IsChunk at (length bytes.now) chunk }
    ensures value { result ≡ names_at bytes.now at chunk count }
    ensures header { IfOk result (λ _. 16 ≤ chunk.head) }
{
    let body = body_at(at, chunk, 8)?;
    let ns = reference_at(bytes, count, body)?;
    let name = name_at(bytes, count, body + 4)?;
    Ok((ns, name))
}

/// The string of character data.
#[tactic(auto, unfolding(crate::specs::Nodes::chars_at))]
fn chars_at(bytes: &[u8], at: usize, chunk: Chunk, count: u32) -> Result<u32, Fault>
    requires { IsChunk at (length bytes.now) chunk }
    ensures value { result ≡ chars_at bytes.now at chunk count }
    ensures body { IfOk result (λ _. chunk.head + 12 ≤ chunk.size) }
{
    let body = body_at(at, chunk, 12)?;
    reference_at(bytes, count, body)
}

/// Whether attributes exceed a body: `first` is where the first begins, `step` how many bytes each
/// has.
fn is_outside(body: usize, first: usize, step: usize, count: usize) -> bool
    requires first { first < 2 ^ 16 }
    requires step { step < 2 ^ 16 }
    requires count { count ≤ max_attrs }
    ensures { result ≡ is_outside body first step count }
{
    count != 0 && (first < 20 || step < 20 || body < first + count * step)
}

/// Whether the innermost open element has the text of this name.
fn is_closed_by(pool: &Option<Pool>, alike: &mut [u32], opened: &[u32], name: u32) -> bool
    requires { AreAlike pool.now alike.old }
    ensures value { result ≡ is_closed_by (same_text pool.now) opened.now name }
    ensures known { AreAlike pool.now alike.new }
{
    match opened.last() {
        Some(innermost) => are_alike(pool, alike, name, *innermost),
        None => false,
    }
}

impl Reading {
    /// Adds a string pool.
    #[tactic(auto, unfolding(crate::specs::Nodes::pool_part))]
    fn read_pool(
        &mut self,
        alloc: Global,
        bytes: &[u8],
        at: usize,
        chunk: Chunk,
    ) -> Result<(), ReadFault>
        requires { IsChunk at (length bytes.now) chunk }
        ensures { Does (reading self.new) result
            (joined (reading self.old) (pool_part bytes.now at chunk (reading self.old))) }
    {
        if self.pool.is_some() {
            return Err(ReadFault::Bad(Fault {
                cause: Cause::SecondPool,
                at,
            }));
        }
        let pool = Pool::read(alloc, bytes, at, chunk)?;
        self.alike = none_alike(alloc, pool.len())?;
        self.pool = Some(pool);
        Ok(())
    }

    /// Takes a resource map in place of an earlier one.
    #[tactic(auto, unfolding(crate::specs::Nodes::map_part))]
    fn read_map(
        &mut self,
        alloc: Global,
        bytes: &[u8],
        at: usize,
        chunk: Chunk,
    ) -> Result<(), ReadFault>
        requires { IsChunk at (length bytes.now) chunk }
        ensures { Does (reading self.new) result
            (joined (reading self.old) (map_part bytes.now at chunk (reading self.old))) }
    {
        self.map = words_at(alloc, bytes, at + chunk.head, (chunk.size - chunk.head) / 4)?;
        Ok(())
    }

    /// Adds the start of a namespace.
    #[tactic(auto, unfolding(crate::specs::Nodes::namespace_start_part))]
    fn read_namespace_start(
        &mut self,
        bytes: &[u8],
        at: usize,
        chunk: Chunk,
    ) -> Result<(), ReadFault>
        requires { IsChunk at (length bytes.now) chunk }
        ensures { Does (reading self.new) result
            (joined (reading self.old) (namespace_start_part bytes.now at chunk (reading self.old))) }
    {
        let (prefix, uri) = pair_at(bytes, at, chunk, string_count(&self.pool))?;
        self.nodes.push(Node::NsStart { prefix, uri })?;
        Ok(())
    }

    /// Adds the end of a namespace.
    #[tactic(auto, unfolding(crate::specs::Nodes::namespace_end_part))]
    fn read_namespace_end(&mut self, bytes: &[u8], at: usize, chunk: Chunk) -> Result<(), ReadFault>
        requires { IsChunk at (length bytes.now) chunk }
        ensures { Does (reading self.new) result
            (joined (reading self.old) (namespace_end_part bytes.now at chunk (reading self.old))) }
    {
        let (prefix, uri) = pair_at(bytes, at, chunk, string_count(&self.pool))?;
        self.nodes.push(Node::NsEnd { prefix, uri })?;
        Ok(())
    }

    /// An element that begins, without its attributes.
    #[tactic(auto, unfolding(crate::specs::Nodes::start_at))]
    fn start_at(&self, bytes: &[u8], at: usize, chunk: Chunk) -> Result<StartHead, Fault>
        requires { IsChunk at (length bytes.now) chunk }
        ensures value { result ≡ start_at bytes.now at chunk (strings self.now.pool) self.now.closed self.now.starts }
        ensures bounds { IfOk result (λ head. StartFits (length bytes.now) self.now.starts chunk head) }
    {
        let body = body_at(at, chunk, 20)?;
        if self.closed {
            return Err(Fault {
                cause: Cause::TwoRoots,
                at,
            });
        }
        let attrs = u16_at(bytes, body + 12) as usize;
        if self.starts >= MAX_ELEMENTS || MAX_ATTRS < attrs {
            return Err(Fault {
                cause: Cause::TooBig,
                at,
            });
        }
        let count = string_count(&self.pool);
        let ns = reference_at(bytes, count, body)?;
        let name = name_at(bytes, count, body + 4)?;
        let first = u16_at(bytes, body + 8) as usize;
        let step = u16_at(bytes, body + 10) as usize;
        if is_outside(chunk.size - chunk.head, first, step, attrs) {
            return Err(Fault {
                cause: Cause::BadChunk,
                at,
            });
        }
        Ok(StartHead {
            ns,
            name,
            place: body + first,
            step,
            count: attrs,
        })
    }

    /// Adds an element that begins, with its attributes.
    #[tactic(auto, unfolding(crate::specs::Nodes::start_part), using(crate::proofs::Attrs::attrs_after))]
    fn read_start(&mut self, bytes: &[u8], at: usize, chunk: Chunk) -> Result<(), ReadFault>
        requires { IsChunk at (length bytes.now) chunk }
        ensures { Does (reading self.new) result
            (joined (reading self.old) (start_part bytes.now at chunk (reading self.old))) }
    {
        let head = self.start_at(bytes, at, chunk)?;
        let first = self.attrs.len() as u32;
        self.starts += 1;
        push_attrs(&mut self.attrs, bytes, string_count(&self.pool), head)?;
        self.nodes.push(Node::Start {
            line: u32_at(bytes, at + 8),
            ns: head.ns,
            name: head.name,
            first,
            count: head.count as u32,
        })?;
        self.opened.push(head.name)?;
        Ok(())
    }

    /// Adds the end of the innermost open element.
    #[tactic(auto, unfolding(crate::specs::Nodes::end_part))]
    fn read_end(&mut self, bytes: &[u8], at: usize, chunk: Chunk) -> Result<(), ReadFault>
        requires { IsChunk at (length bytes.now) chunk }
        ensures { Does (reading self.new) result
            (joined (reading self.old) (end_part bytes.now at chunk (reading self.old))) }
    {
        let (ns, name) = names_at(bytes, at, chunk, string_count(&self.pool))?;
        if !is_closed_by(&self.pool, &mut self.alike, &self.opened, name) {
            return Err(ReadFault::Bad(Fault {
                cause: Cause::Unbalanced,
                at,
            }));
        }
        self.closed = self.opened.len() == 1;
        self.opened.pop();
        self.nodes.push(Node::End {
            line: u32_at(bytes, at + 8),
            ns,
            name,
        })?;
        Ok(())
    }

    /// Adds character data.
    #[tactic(auto, unfolding(crate::specs::Nodes::chars_part))]
    fn read_chars(&mut self, bytes: &[u8], at: usize, chunk: Chunk) -> Result<(), ReadFault>
        requires { IsChunk at (length bytes.now) chunk }
        ensures { Does (reading self.new) result
            (joined (reading self.old) (chars_part bytes.now at chunk (reading self.old))) }
    {
        let text = chars_at(bytes, at, chunk, string_count(&self.pool))?;
        let body = at + chunk.head;
        self.nodes.push(Node::Chars {
            line: u32_at(bytes, at + 8),
            text,
            kind: bytes[body + 7],
            word: u32_at(bytes, body + 8),
        })?;
        Ok(())
    }

    /// Adds what a chunk is. A chunk of another kind is passed over.
    #[tactic(auto, unfolding(crate::specs::Nodes::part_at))]
    pub fn read_chunk(
        &mut self,
        alloc: Global,
        bytes: &[u8],
        at: usize,
        chunk: Chunk,
    ) -> Result<(), ReadFault>
        requires { IsChunk at (length bytes.now) chunk }
        ensures { Does (reading self.new) result
            (joined (reading self.old) (part_at bytes.now at chunk (reading self.old))) }
    {
        match chunk.kind {
            POOL => self.read_pool(alloc, bytes, at, chunk),
            MAP => self.read_map(alloc, bytes, at, chunk),
            NAMESPACE_START => self.read_namespace_start(bytes, at, chunk),
            NAMESPACE_END => self.read_namespace_end(bytes, at, chunk),
            START => self.read_start(bytes, at, chunk),
            END => self.read_end(bytes, at, chunk),
            CHARS => self.read_chars(bytes, at, chunk),
            _ => Ok(()),
        }
    }
}
