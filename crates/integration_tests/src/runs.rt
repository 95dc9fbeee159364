//! Calls of the tool over objects in memory: reads, writes and fetches that fail, and work that is counted.

ghost use Rattle.std.specs.Prelude.{◌<◌};

use layout_samples::NARROW;
use std::alloc::{AllocError, Global};
use std::test::Fail;
use tool_io::{MemoryShelf, MemorySink, MemorySource};
use view_model::Work;
use whole_tool::tool;

/// The words of a call, its script, and the numbers of the reads, writes and fetches that fail.
#[derive(Drop)]
pub(crate) struct Call<'a> {
    pub(crate) words: &'a [&'a str],
    pub(crate) script: &'a [u8],
    pub(crate) reads: &'a [u64],
    pub(crate) writes: &'a [u64],
    pub(crate) fetches: &'a [u64],
}

/// A call, and how it ends.
struct Ending {
    call: Call<'static>,
    status: u8,
    text: &'static [u8],
}

const SIMPLE: &[u8] =
    b"window 100 50\nadd root FrameLayout match match\nadd v1 View 10 20\nframe\nbounds\n";

const SIMPLE_BOUNDS: &[u8] = b"v1\nv2\nsettled 0\nv1 0 0 100 50\nv2 0 0 10 20\n";

/// Lines that are refused before they ask for a file, and two that ask.
const ASKING: &[u8] =
    b"inflate a.xml into v1\nadd root View 1 1\ninflate a.xml\ninflate a.xml into v7\ndpi 200\n\
    inflate b.xml into v1\ninflate a.xml into v1\n";

const ASKED: &[u8] =
    b"line 1: refused 34 NoRoot\nv1\nline 3: refused 35 HasRoot\nline 4: refused 28 NoView\n\
    line 5: refused 41 DpiLate\nline 6: refused 39 Missing\nline 7: refused 21 NotGroup element 1\n";

/// A line that asks for a file after a view.
const INFLATING: &[u8] = b"add root View 1 1\ninflate a.xml into v1\n";

/// A table of resources that has none.
const TABLE: &[u8] = b"\x02\x00\x0c\x00\x0c\x00\x00\x00\x00\x00\x00\x00";

#[rattlefmt::skip]
const ENDINGS: [Ending; 18] = [
    // The first view is there after the first read.
    Ending { call: Call { words: &["run"], script: SIMPLE, reads: &[1], writes: &[], fetches: &[] }, status: 3, text: b"" },
    Ending { call: Call { words: &["run"], script: SIMPLE, reads: &[2], writes: &[], fetches: &[] }, status: 3, text: b"v1\n" },
    // Each of the four replies is one write, before the next line is carried out.
    Ending { call: Call { words: &["run"], script: SIMPLE, reads: &[], writes: &[1], fetches: &[] }, status: 4, text: b"" },
    Ending { call: Call { words: &["run"], script: SIMPLE, reads: &[], writes: &[2], fetches: &[] }, status: 4, text: b"v1\n" },
    Ending { call: Call { words: &["run"], script: SIMPLE, reads: &[], writes: &[3], fetches: &[] }, status: 4, text: b"v1\nv2\n" },
    Ending { call: Call { words: &["run"], script: SIMPLE, reads: &[], writes: &[4], fetches: &[] }, status: 4, text: b"v1\nv2\nsettled 0\n" },
    Ending { call: Call { words: &["run"], script: SIMPLE, reads: &[], writes: &[5], fetches: &[] }, status: 0, text: SIMPLE_BOUNDS },
    // A fetch that fails ends the run; a line that is refused before asks for no file.
    Ending { call: Call { words: &["run"], script: INFLATING, reads: &[], writes: &[], fetches: &[1] }, status: 6, text: b"v1\n" },
    Ending { call: Call { words: &["run"], script: ASKING, reads: &[], writes: &[], fetches: &[3] }, status: 1, text: ASKED },
    // Where a call fails before, no question is answered.
    Ending { call: Call { words: &["focus", "right", "v2"], script: SIMPLE, reads: &[2], writes: &[], fetches: &[] }, status: 3, text: b"v1\n" },
    Ending { call: Call { words: &["focus", "right", "v2"], script: SIMPLE, reads: &[], writes: &[4], fetches: &[] }, status: 4, text: b"v1\nv2\nsettled 0\n" },
    Ending { call: Call { words: &["focus", "right", "v2"], script: SIMPLE, reads: &[], writes: &[5], fetches: &[] }, status: 4, text: SIMPLE_BOUNDS },
    Ending { call: Call { words: &["focus", "right", "v1"], script: INFLATING, reads: &[], writes: &[], fetches: &[1] }, status: 6, text: b"v1\n" },
    Ending { call: Call { words: &["stack"], script: b"sdown 0 0 0\n", reads: &[2], writes: &[], fetches: &[] }, status: 3, text: b"nobody\n" },
    Ending { call: Call { words: &["stack"], script: b"sdown 0 0 0\n", reads: &[], writes: &[1], fetches: &[] }, status: 4, text: b"" },
    Ending { call: Call { words: &["dump", "a.xml"], script: b"", reads: &[], writes: &[], fetches: &[1] }, status: 6, text: b"" },
    Ending { call: Call { words: &["lookup", "a.arsc", "7f050000"], script: b"", reads: &[], writes: &[], fetches: &[1] }, status: 6, text: b"" },
    Ending { call: Call { words: &["lookup", "a.arsc", "7f050000"], script: b"", reads: &[], writes: &[1], fetches: &[] }, status: 4, text: b"" },
];

// A window of 12 pixels with a translucent view over an opaque one, cut off where the padding of its parent begins; a
// view of which two pixels are seen gets another colour, and after that nothing changes.
const BLENDING: &[u8] =
    b"window 4 3\nadd root FrameLayout match match\nbg v1 #ff0000ff\npadding v1 1 1 1 1\n\
    add v1 View 10 10\nmargins v2 -1 -1 0 0\nbg v2 #80ff0000\nframe\n";

const COLORING: &[u8] = b"bg v2 #ff00ff00\nframe\n";

const IDLE: &[u8] = b"frame\n";

/// Lines with weights one in another, with a text that gets longer and is again as before.
const NESTING: &[u8] = b"window 100 20\nadd root LinearLayout match match\n\
    add v1 LinearLayout wrap match\nweight v2 1\nadd v2 TextView 0 match\nweight v3 1\n\
    text v3 ab\nadd v1 TextView wrap match\ntext v4 x\nframe\ntext v4 xyz\nframe\n\
    text v4 x\nframe\n";

/// A hook of one view that changes a view inside its sibling.
const REACHING: &[u8] = b"window 100 20\nadd root LinearLayout match match\n\
    add v1 FrameLayout wrap match\nadd v2 View 10 match\nadd v1 View 20 match\n\
    hook v4 size v3 40 match\nframe\n";

/// Copies of the words, as a call takes them. `Err` where there is no memory.
fn words_of(alloc: Global, words: &[&str]) -> Result<Vec<String>, AllocError> {
    let mut owned = Vec::new(alloc);
    for word in words {
        owned.push(String::from_str(alloc, word)?)?;
    }
    Ok(owned)
}

/// A shelf with a layout file and a table, of which these fetches fail.
fn shelf_of(alloc: Global, fetches: &[u64]) -> Result<MemoryShelf, AllocError> {
    let mut files = Vec::new(alloc);
    let layout = Vec::from_slice(alloc, &NARROW)?;
    files.push((String::from_str(alloc, "a.xml")?, layout))?;
    let table = Vec::from_slice(alloc, TABLE)?;
    files.push((String::from_str(alloc, "a.arsc")?, table))?;
    Ok(MemoryShelf::new(files, Vec::from_slice(alloc, fetches)?))
}

/// How a call ends that reads and writes at most `most` bytes at a time.
pub(crate) fn ended(
    alloc: Global,
    call: &Call<'_>,
    most: usize,
    work: &mut Work,
) -> Result<(u8, Vec<u8>), AllocError>
    requires { 0 < most }
{
    let words = words_of(alloc, call.words)?;
    let script = Vec::from_slice(alloc, call.script)?;
    let mut source = MemorySource::new(script, most, Vec::from_slice(alloc, call.reads)?);
    let mut shelf = shelf_of(alloc, call.fetches)?;
    let mut sink = MemorySink::new(alloc, most, Vec::from_slice(alloc, call.writes)?);
    let words = words.as_slice();
    let status = tool(alloc, words, &mut shelf, &mut source, &mut sink, work);
    Ok((status, Vec::from_slice(alloc, sink.gone())?))
}

pub(crate) const NO_WORK: Work = Work {
    measured: 0,
    painted: 0,
};

/// The status of these words over the parts of a script, and what is measured and painted, if these writes fail.
fn counted(
    alloc: Global,
    words: &[&str],
    parts: &[&[u8]],
    writes: &[u64],
) -> Result<(u8, Work), AllocError> {
    let mut script = Vec::new(alloc);
    for part in parts {
        script.extend_from_slice(part)?;
    }
    let call = Call {
        words,
        script: script.as_slice(),
        reads: &[],
        writes,
        fetches: &[],
    };
    let mut work = NO_WORK;
    let (status, _) = ended(alloc, &call, 4096, &mut work)?;
    Ok((status, work))
}

/// What a run of the parts of a script measures and paints.
fn work_of(alloc: Global, parts: &[&[u8]]) -> Result<Work, AllocError> {
    Ok(counted(alloc, &["run"], parts, &[])?.1)
}

/// A run whose source and sink move one byte a call writes all its replies and ends with 0.
#[test]
fn bytes_are_moved_one_by_one(rt: HostRuntime) -> Result<(), Fail> {
    let call = Call {
        words: &["run"],
        script: SIMPLE,
        reads: &[],
        writes: &[],
        fetches: &[],
    };
    let mut work = NO_WORK;
    let (status, gone) = ended(rt.alloc(), &call, 1, &mut work)?;
    assert_eq!(rt; (status, gone.as_slice()), (0, SIMPLE_BOUNDS));
    Ok(())
}

/// Each call of `ENDINGS` ends with its status, and has written its text and nothing else.
#[test]
fn calls_end_where_they_fail(rt: HostRuntime) -> Result<(), Fail> {
    let alloc = rt.alloc();
    for ending in &ENDINGS {
        let mut work = NO_WORK;
        let (status, gone) = ended(alloc, &ending.call, 48, &mut work)?;
        assert_eq!(rt; (status, gone.as_slice()), (ending.status, ending.text));
    }
    Ok(())
}

/// How many views are measured lies between what the frames need and the most that their passes may take.
#[test]
fn measurings_are_counted(rt: HostRuntime) -> Result<(), Fail> {
    let alloc = rt.alloc();
    // Each of four views at least once; the definition has 6 measurings for each of the three frames.
    let nesting = work_of(alloc, &[NESTING])?.measured;
    assert!(rt; 4 <= nesting && nesting <= 18);
    // Each of four views once, and in the second pass at least the one that the hook changed; at most 4 a pass.
    let reaching = work_of(alloc, &[REACHING])?.measured;
    assert!(rt; 5 <= reaching && reaching <= 8);
    Ok(())
}

/// A view that gets another colour is painted again and no view is measured; a frame without a change does neither.
#[test]
fn what_changes_is_painted(rt: HostRuntime) -> Result<(), Fail> {
    let alloc = rt.alloc();
    // Each of two views is measured once; the window is black, and each view is painted once or twice.
    let first = work_of(alloc, &[BLENDING])?;
    assert_eq!(rt; first.measured, 2);
    assert!(rt; 12 <= first.painted && first.painted <= 60);
    let second = work_of(alloc, &[BLENDING, COLORING])?;
    assert_eq!(rt; second.measured, first.measured);
    let more = second.painted.saturating_sub(first.painted);
    assert!(rt; 2 <= more && more <= 10);
    let third = work_of(alloc, &[BLENDING, COLORING, IDLE])?;
    assert_eq!(rt;
        (third.measured, third.painted),
        (second.measured, second.painted)
    );
    Ok(())
}

/// A run whose reply to a frame can't be written ends with 4, and what the frame measured and painted is counted.
#[test]
fn a_frame_is_counted_whose_text_is_lost(rt: HostRuntime) -> Result<(), Fail> {
    let (status, work) = counted(rt.alloc(), &["run"], &[BLENDING], &[3])?;
    assert_eq!(rt; (status, work.measured), (4, 2));
    assert!(rt; 12 <= work.painted && work.painted <= 60);
    Ok(())
}

/// The work of a load is counted, and is the same where its lines can't be written.
#[test]
fn the_work_of_a_load_is_counted(rt: HostRuntime) -> Result<(), Fail> {
    let alloc = rt.alloc();
    // Of its 39 views the first step hides at most one before the first frame.
    let (status, work) = counted(alloc, &["gen", "1"], &[], &[])?;
    assert_eq!(rt; status, 0);
    assert!(rt; 38 <= work.measured && 0 < work.painted);
    // The same if its lines can't be written.
    let (status, lost) = counted(alloc, &["gen", "1"], &[], &[1])?;
    assert_eq!(rt; (status, lost), (4, work));
    Ok(())
}
