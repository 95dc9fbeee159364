//! The files of a call in one buffer.

ghost use Rattle.std.specs.Prelude.{◌≡◌, ◌≢◌, ◌<◌, ◌^◌, ℕ, List, ◌++◌, length, None, IfOk, IfSome};
ghost use Rattle.std.specs.Int.{w64, to_le_bytes};
ghost use Rattle.vindaesk_c.specs.FilesNow.{files_now};
ghost use Rattle.vindaesk_c.specs.Packed.{packed, packed_file};
ghost use Rattle.vindaesk_c.specs.Answer.{FindsBroken};

use crate::fault::Fault;
use std::alloc::Global;

/// A file of a buffer.
#[derive(Clone, Copy)]
pub struct PackedFile<'a> {
    pub name: &'a [u8],
    pub contents: &'a [u8],
}

/// The files of a buffer.
pub fn unpacked(alloc: Global, bytes: &[u8]) -> Result<Vec<PackedFile<'_>>, Fault>
    ensures files { IfOk result (λ files. bytes.now ≡ packed (files_now files.items)) }
    ensures broken { FindsBroken result bytes.now }
{
    let mut files = Vec::new(alloc);
    let mut left = bytes;
    while !left.is_empty() {
        match first_file(left) {
            Some((file, rest)) => {
                files.push(file)?;
                left = rest;
            }
            None => return Err(Fault::BrokenFiles),
        }
    }
    Ok(files)
}

/// The first file of a buffer, and what comes after it.
fn first_file(bytes: &[u8]) -> Option<(PackedFile<'_>, &[u8])>
    ensures found { IfSome result (λ r. bytes.now ≡ packed_file r.0.name.now r.0.contents.now ++ r.1.now) }
    ensures none { result ≡ None → (name contents rest : List ℕ) → bytes.now ≢ packed_file name contents ++ rest }
{
    let (name_len, after_first) = first_length(bytes)?;
    let (contents_len, after_lengths) = first_length(after_first)?;
    let (name, after_name) = after_lengths.split_at_checked(name_len)?;
    let (contents, rest) = after_name.split_at_checked(contents_len)?;
    Some((PackedFile { name, contents }, rest))
}

/// The length in the first eight bytes, and what comes after them.
fn first_length(bytes: &[u8]) -> Option<(usize, &[u8])>
    ensures found { IfSome result (λ r. (bytes.now ≡ to_le_bytes w64 r.0 ++ r.1.now) × (r.0 < 2 ^ 64)) }
    ensures none { result ≡ None → length bytes.now < 8 }
{
    let (length, rest) = bytes.split_first_chunk::<8>()?;
    Some((usize::from_le_bytes(*length), rest))
}
