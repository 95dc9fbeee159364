//! Fields that name strings, and attributes.
ghost use Rattle.std.specs.Prelude.{◌≡◌, ◌+◌, ◌*◌, ◌^◌, ◌<◌, ◌≤◌, length, IfOk};
ghost use Rattle.axml_chunks.specs.Steps.{Does};
ghost use Rattle.axml_reader.specs.Fields.{reference_at, name_at, word_at, attr_at, attr_after, attrs_upto, words_at, same_text, strings};
ghost use Rattle.axml_reader.specs.Numbers.{max_attrs};

use crate::doc::{Attr, NO_STRING};
use axml_chunks::{Cause, Fault, Pool, ReadFault, u32_at};
use std::alloc::{AllocError, Global};

/// The type of a value that is a string.
const STRING: u8 = 3;

/// An element that begins, without its attributes: its string numbers, where in the file the first
/// attribute is, how many bytes each has, and how many there are.
#[derive(Clone, Copy)]
pub(crate) struct StartHead {
    pub(crate) ns: u32,
    pub(crate) name: u32,
    pub(crate) place: usize,
    pub(crate) step: usize,
    pub(crate) count: usize,
}

/// How many strings there are; none before a pool was read.
pub fn string_count(pool: &Option<Pool>) -> u32
    ensures { result ≡ strings pool.now }
{
    match pool {
        Some(pool) => pool.len(),
        None => 0,
    }
}

/// Whether two string numbers have the same text.
#[tactic(auto, unfolding(crate::specs::Fields::same_text))]
pub fn same_text(pool: &Option<Pool>, a: u32, b: u32) -> bool
    ensures { result ≡ same_text pool.now a b }
{
    let Some(pool) = pool else {
        return false;
    };
    match (pool.text(a), pool.text(b)) {
        (Some(x), Some(y)) => a == b || x == y,
        _ => false,
    }
}

/// A string number below a count, or `NO_STRING`.
#[tactic(auto, unfolding(crate::specs::Fields::reference_at))]
pub fn reference_at(bytes: &[u8], count: u32, at: usize) -> Result<u32, Fault>
    requires { at + 4 ≤ length bytes.now }
    ensures { result ≡ reference_at bytes.now count at }
{
    let number = u32_at(bytes, at);
    if number == NO_STRING || number < count {
        Ok(number)
    } else {
        Err(Fault {
            cause: Cause::BadReference,
            at,
        })
    }
}

/// A string number below a count.
#[tactic(auto, unfolding(crate::specs::Fields::name_at))]
pub fn name_at(bytes: &[u8], count: u32, at: usize) -> Result<u32, Fault>
    requires { at + 4 ≤ length bytes.now }
    ensures { result ≡ name_at bytes.now count at }
{
    let number = u32_at(bytes, at);
    if number < count {
        Ok(number)
    } else {
        Err(Fault {
            cause: Cause::BadReference,
            at,
        })
    }
}

/// The word of a value, which for a string is its number.
#[tactic(auto, unfolding(crate::specs::Fields::word_at))]
fn word_at(bytes: &[u8], count: u32, at: usize) -> Result<u32, Fault>
    requires { at + 8 ≤ length bytes.now }
    ensures { result ≡ word_at bytes.now count at }
{
    if bytes[at + 3] == STRING {
        name_at(bytes, count, at + 4)
    } else {
        Ok(u32_at(bytes, at + 4))
    }
}

/// The attribute at a place.
#[tactic(auto, unfolding(crate::specs::Fields::attr_at))]
fn attr_at(bytes: &[u8], count: u32, at: usize) -> Result<Attr, Fault>
    requires { at + 20 ≤ length bytes.now }
    ensures { result ≡ attr_at bytes.now count at }
{
    let ns = reference_at(bytes, count, at)?;
    let name = name_at(bytes, count, at + 4)?;
    let raw = reference_at(bytes, count, at + 8)?;
    let word = word_at(bytes, count, at + 12)?;
    Ok(Attr {
        ns,
        name,
        raw,
        kind: bytes[at + 15],
        word,
    })
}

/// Adds attribute `k` of an element.
fn push_attr(
    attrs: &mut Vec<Attr>,
    bytes: &[u8],
    count: u32,
    head: StartHead,
    k: usize,
) -> Result<(), ReadFault>
    requires number { k < head.count }
    requires count { head.count ≤ max_attrs }
    requires step { (20 ≤ head.step) × (head.step < 2 ^ 16) }
    requires last { head.place + head.count * head.step ≤ length bytes.now }
    ensures value { Does attrs.new.items result (attr_after bytes.now count head.place head.step attrs.old.items k) }
    ensures len { length attrs.new.items ≤ length attrs.old.items + 1 }
{
    let attr = attr_at(bytes, count, head.place + k * head.step)?;
    attrs.push(attr)?;
    Ok(())
}

/// Adds the attributes of an element.
#[tactic(auto, using(axml_chunks::proofs::Runs::upto_none, axml_chunks::proofs::Runs::upto_more))]
pub fn push_attrs(
    attrs: &mut Vec<Attr>,
    bytes: &[u8],
    count: u32,
    head: StartHead,
) -> Result<(), ReadFault>
    requires count { head.count ≤ max_attrs }
    requires step { head.step < 2 ^ 16 }
    requires last { 0 < head.count → (20 ≤ head.step) × (head.place + head.count * head.step ≤ length bytes.now) }
    ensures value { Does attrs.new.items result
        (attrs_upto bytes.now count head.place head.step attrs.old.items head.count) }
    ensures len { length attrs.new.items ≤ length attrs.old.items + head.count }
{
    for k in 0..head.count {
        push_attr(attrs, bytes, count, head, k)?;
    }
    Ok(())
}

/// The numbers at a place, four bytes each.
pub fn words_at(alloc: Global, bytes: &[u8], at: usize, n: usize) -> Result<Vec<u32>, AllocError>
    requires { at + 4 * n ≤ length bytes.now }
    ensures { IfOk result (λ words. words.items ≡ words_at bytes.now at n) }
{
    let mut words = Vec::with_capacity(alloc, n)?;
    for k in 0..n {
        words.push(u32_at(bytes, at + 4 * k))?;
    }
    Ok(words)
}
