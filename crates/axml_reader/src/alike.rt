//! Which string numbers were found to have the same text, so that they are not compared again.
//!
//! A list has, at the place of each number, that number or a smaller one of the same text. Numbers
//! lead so to a least one; two that lead to the same one have the same text.
ghost use Rattle.std.specs.Prelude.{◌≡◌, ◌<◌, Option, IfOk};
ghost use Rattle.axml_chunks.specs.Pool.{StringPool};
ghost use Rattle.axml_reader.specs.Alike.{text_of, AreAlike};
ghost use Rattle.axml_reader.specs.Fields.{same_text};

use crate::fields::same_text;
use axml_chunks::Pool;
use std::alloc::{AllocError, Global};

/// The list for `count` strings, each of which leads to itself.
pub fn none_alike(alloc: Global, count: u32) -> Result<Vec<u32>, AllocError>
    ensures { IfOk result (λ alike. (pool : Option StringPool) → AreAlike pool alike.items) }
{
    let mut alike = Vec::with_capacity(alloc, count as usize)?;
    for k in 0..count {
        alike.push(k)?;
    }
    Ok(alike)
}

/// The number to which a number leads in the end. Each number on the way then leads one step
/// further, which keeps paths short.
fn least(alike: &mut [u32], mut number: u32) -> u32
    ensures { (pool : Option StringPool)
        → AreAlike pool alike.old
        → AreAlike pool alike.new × (text_of pool result ≡ text_of pool number) }
{
    while (number as usize) < alike.len() {
        let next = alike[number as usize];
        if next >= number {
            break;
        }
        alike[number as usize] = alike[next as usize];
        number = next;
    }
    number
}

/// Makes the greater of two numbers lead to the other.
fn join(alike: &mut [u32], a: u32, b: u32)
    ensures { (pool : Option StringPool)
        → AreAlike pool alike.old
        → text_of pool a ≡ text_of pool b
        → AreAlike pool alike.new }
{
    let (low, high) = if a < b { (a, b) } else { (b, a) };
    if (high as usize) < alike.len() {
        alike[high as usize] = low;
    }
}

/// Whether two string numbers have the same text.
pub fn are_alike(pool: &Option<Pool>, alike: &mut [u32], a: u32, b: u32) -> bool
    requires { AreAlike pool.now alike.old }
    ensures value { result ≡ same_text pool.now a b }
    ensures known { AreAlike pool.now alike.new }
{
    let a = least(alike, a);
    let b = least(alike, b);
    let same = same_text(pool, a, b);
    if same {
        join(alike, a, b);
    }
    same
}
