//! Pools in both encodings, and the limits of strings.
use axml_chunks::{Cause, Fault, Pool, ReadFault, chunk_at};
use layout_samples::{NARROW, WIDE};
use std::alloc::{AllocError, Global};
use std::test::Fail;

/// Reads bytes that are one chunk as a pool.
fn pool_of(alloc: Global, bytes: &[u8]) -> Result<Pool, ReadFault> {
    let chunk = chunk_at(bytes, 0, bytes.len())?;
    Pool::read(alloc, bytes, 0, chunk)
}

/// A pool of this many strings; the bytes follow its header of 28 bytes.
fn made(alloc: Global, count: u32, flags: u8, rest: &[u8]) -> Result<Vec<u8>, AllocError> {
    let padding = (4 - rest.len() % 4) % 4;
    let size = u32::try_from(rest.len())
        .unwrap_or(0)
        .wrapping_add(28 + padding as u32);
    let mut bytes = Vec::from_slice(alloc, &[1, 0, 28, 0])?;
    bytes.extend_from_slice(&size.to_le_bytes())?;
    bytes.extend_from_slice(&count.to_le_bytes())?;
    bytes.extend_from_slice(&[0, 0, 0, 0, 0, flags, 0, 0, 32, 0, 0, 0, 0, 0, 0, 0])?;
    bytes.extend_from_slice(rest)?;
    bytes.extend_from_slice(&[0, 0, 0][..padding])?;
    Ok(bytes)
}

/// The fault for which a pool was refused; `None` if it was read, or if there was no memory.
fn fault_of(answer: Result<Pool, ReadFault>) -> Option<Fault> {
    match answer {
        Err(ReadFault::Bad(fault)) => Some(fault),
        _ => None,
    }
}

/// Whether a pool has the strings of the samples.
fn has_strings(pool: &Pool) -> bool {
    pool.len() == 6
        && pool.text(0) == Some("layout_width")
        && pool.text(3) == Some("http://schemas.android.com/apk/res/android")
        && pool.text(6).is_none()
}

/// The pools of both samples have the same strings, one in UTF-8 and one in UTF-16.
#[test]
fn reads_the_same_strings_in_both_encodings(rt: HostRuntime) -> Result<(), Fail> {
    let alloc = rt.alloc();
    let narrow = pool_of(alloc, &NARROW[8..164])?;
    let wide = pool_of(alloc, &WIDE[8..252])?;
    assert!(rt; narrow.utf8() && has_strings(&narrow));
    assert!(rt; !wide.utf8() && has_strings(&wide));
    Ok(())
}

/// A pair of surrogates is one character, and a surrogate alone is `BadString`.
#[test]
fn reads_a_pair_of_surrogates(rt: HostRuntime) -> Result<(), Fail> {
    let alloc = rt.alloc();
    let pair = made(
        alloc,
        1,
        0,
        &[0, 0, 0, 0, 2, 0, 0x3d, 0xd8, 0x00, 0xde, 0, 0],
    )?;
    let pool = pool_of(alloc, &pair)?;
    assert_eq!(rt; pool.text(0), Some("\u{1f600}"));
    let lone = made(alloc, 1, 0, &[0, 0, 0, 0, 1, 0, 0x3d, 0xd8, 0, 0])?;
    let fault = fault_of(pool_of(alloc, &lone));
    assert!(rt;
        fault
            == Some(Fault {
                cause: Cause::BadString,
                at: 28
            })
    );
    Ok(())
}

/// A string of 200 bytes is read whole, although its length takes two bytes.
#[test]
fn takes_a_length_in_two_bytes(rt: HostRuntime) -> Result<(), Fail> {
    let alloc = rt.alloc();
    let mut rest = Vec::from_slice(alloc, &[0, 0, 0, 0, 0x80, 0xc8, 0x80, 0xc8])?;
    for _ in 0..200u32 {
        rest.push(b'x')?;
    }
    rest.push(0)?;
    let pool = pool_of(alloc, &made(alloc, 1, 1, &rest)?)?;
    let len = pool.text(0).map_or(0, |text| text.len());
    assert!(rt; len == 200);
    Ok(())
}

/// A pool of 65536 strings is read; one of 65537 is `TooBig`.
#[test]
fn takes_65536_strings_and_refuses_one_more(rt: HostRuntime) -> Result<(), Fail> {
    let alloc = rt.alloc();
    let mut rest = Vec::new(alloc);
    for _ in 0..65536u32 {
        rest.extend_from_slice(&[0xfc, 0xff, 3, 0])?;
    }
    rest.extend_from_slice(&[0, 0, 0, 0])?;
    let mut full = made(alloc, 65536, 1, &rest)?;
    let len = pool_of(alloc, &full)?.len();
    assert!(rt; len == 65536);
    full.clear();
    full.extend_from_slice(&made(alloc, 65537, 1, &rest)?)?;
    let fault = fault_of(pool_of(alloc, &full));
    assert!(rt;
        fault
            == Some(Fault {
                cause: Cause::TooBig,
                at: 0
            })
    );
    Ok(())
}
