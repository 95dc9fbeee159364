//! A small layout file in both encodings, cut short, and with broken headers.
ghost use Rattle.std.specs.Prelude.{◌+◌, ◌<◌, ◌≤◌, length};

use axml_chunks::{Cause, Fault, ReadFault};
use axml_reader::{Doc, print, read};
use layout_samples::{NARROW, WIDE};
use std::alloc::{AllocError, Global};
use std::test::Fail;
use tool_io::MemorySink;

/// What the file holds after the pool's line and before the attribute that is the height.
const BEFORE_HEIGHT: &str =
    "s0 \"layout_width\"\ns1 \"layout_height\"\ns2 \"android\"\ns3 \"http://schemas.android.com/apk/res/android\"\ns4 \"View\"\ns5 \"style\"\nmap 010100f4\nmap 010100f5\nns s2 s3\nstart 2 - s4 3\nattr s3 s0 - 10 ffffffff\n";

/// The height.
const HEIGHT: &str = "attr s3 s1 - 05 00001001\n";

/// The height as a reference.
const REFERENCE: &str = "attr s3 s1 - 01 7f050001\n";

/// What the file holds after the height.
const AFTER_HEIGHT: &str = "attr - s5 - 01 7f030000\nend 2 - s4\nendns s2 s3\n";

/// The fault for which a document was refused; `None` if it was read, or if there was no memory.
fn fault_of(answer: Result<Doc, ReadFault>) -> Option<Fault> {
    match answer {
        Err(ReadFault::Bad(fault)) => Some(fault),
        _ => None,
    }
}

/// Whether this is a document that is printed so, except that its pool's line and its height's differ.
fn is_printed(
    alloc: Global,
    bytes: &[u8],
    pool_line: &str,
    height: &str,
    most: usize,
) -> Result<bool, ReadFault>
    requires { 0 < most }
{
    let doc = read(alloc, bytes)?;
    let mut sink = MemorySink::new(alloc, most, Vec::new(alloc));
    let ended = print(&doc, &mut sink).is_ok();
    let mut wanted = Vec::new(alloc);
    for part in [pool_line, BEFORE_HEIGHT, height, AFTER_HEIGHT] {
        wanted.extend_from_slice(part.as_bytes())?;
    }
    Ok(ended && sink.gone() == wanted.as_slice())
}

/// Puts a reference at the place of a value.
fn refer(bytes: &mut [u8], at: usize)
    requires { at + 8 ≤ length bytes.old }
{
    bytes[at..at + 8].copy_from_slice(&[0x08, 0x00, 0x00, 0x01, 0x01, 0x00, 0x05, 0x7f]);
}

/// The narrow file cut to a length, which is in its header if `said`.
fn cut(alloc: Global, len: usize, said: bool) -> Result<Option<Fault>, AllocError> {
    let mut bytes = Vec::from_slice(alloc, &NARROW)?;
    if said {
        bytes[4] = (len % 256) as u8;
        bytes[5] = (len / 256 % 256) as u8;
    }
    bytes.truncate(len);
    Ok(fault_of(read(alloc, &bytes)))
}

/// The fault of the narrow file cut to a length that its header says.
fn cut_fault(len: usize) -> Option<Fault> {
    let (cause, at) = match len {
        8 => (Cause::NoElement, 8),
        9..=163 => (Cause::Truncated, 8),
        164 => (Cause::NoElement, 164),
        165..=179 => (Cause::Truncated, 164),
        180 => (Cause::NoElement, 180),
        181..=203 => (Cause::Truncated, 180),
        204 => (Cause::NoElement, 204),
        205..=299 => (Cause::Truncated, 204),
        300 => (Cause::Unbalanced, 300),
        301..=323 => (Cause::Truncated, 300),
        324 | 348 => return None,
        _ => (Cause::Truncated, 324),
    };
    Some(Fault { cause, at })
}

/// The sample prints the same lines in UTF-8 and in UTF-16, except the line of its pool. The sink of the first takes
/// 4096 bytes a call, that of the second one byte.
#[test]
fn prints_a_layout_file_in_both_encodings(rt: HostRuntime) -> Result<(), Fail> {
    let alloc = rt.alloc();
    assert!(rt; is_printed(alloc, &NARROW, "pool utf8 6\n", HEIGHT, 4096)?);
    assert!(rt; is_printed(alloc, &WIDE, "pool utf16 6\n", HEIGHT, 1)?);
    Ok(())
}

/// A height that is a reference prints as one in both encodings.
#[test]
fn prints_a_reference_in_place_of_a_height_in_both_encodings(rt: HostRuntime) -> Result<(), Fail> {
    let alloc = rt.alloc();
    let mut narrow = NARROW;
    refer(&mut narrow, 272);
    assert!(rt; is_printed(alloc, &narrow, "pool utf8 6\n", REFERENCE, 4096)?);
    let mut wide = WIDE;
    refer(&mut wide, 360);
    assert!(rt; is_printed(alloc, &wide, "pool utf16 6\n", REFERENCE, 1)?);
    Ok(())
}

/// The narrow file cut to any length below 348 bytes, with its header as it was, is truncated at byte 0.
#[test]
fn a_file_that_is_cut_short_is_truncated_at_its_start(rt: HostRuntime) -> Result<(), Fail> {
    let alloc = rt.alloc();
    for len in 0..348usize {
        let fault = cut(alloc, len, false)?;
        assert!(rt;
            fault
                == Some(Fault {
                    cause: Cause::Truncated,
                    at: 0
                })
        );
    }
    Ok(())
}

/// The narrow file cut to each fourth length from 8 bytes on, with that length in its header, has the fault of
/// `cut_fault`.
#[test]
fn a_document_that_is_cut_short_has_its_fault(rt: HostRuntime) -> Result<(), Fail> {
    let alloc = rt.alloc();
    for quarter in 2..88usize {
        let fault = cut(alloc, 4 * quarter, true)?;
        assert!(rt; fault == cut_fault(4 * quarter));
    }
    Ok(())
}
