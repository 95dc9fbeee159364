//! The adapters of standard input, standard output and files, whose devices fail as contracts cannot say.

use std::fs;
use std::io::{self, Read, Write};
use std::test::Fail;
use tool_io::{
    Failed, FolderShelf, Found, Shelf, ShelfFault, Sink, Source, StdinSource, StdoutSink,
};

/// A reader that fails at its second read.
#[derive(Drop)]
struct FailsSecond<'a> {
    bytes: &'a [u8],
    reads: u8,
}

impl Read for FailsSecond<'_> {
    /// Fails at the second call, and takes no byte then; any other call reads on.
    fn read(&mut self, buf: &mut [u8]) -> io::Result<usize> {
        self.reads = self.reads.saturating_add(1);
        if self.reads == 2 {
            return Err(io::Error::from(io::ErrorKind::TimedOut));
        }
        self.bytes.read(buf)
    }
}

/// A reader that has one byte at a time, as a pipe has whose writer waits for an answer.
#[derive(Drop)]
struct ByteByByte<'a> {
    bytes: &'a [u8],
}

impl Read for ByteByByte<'_> {
    /// Reads one byte, or none at the end.
    fn read(&mut self, buf: &mut [u8]) -> io::Result<usize> {
        let most = buf.len().min(1);
        self.bytes.read(&mut buf[..most])
    }
}

/// A device that takes at most three bytes a call, none at its second write, and fails at its second flush.
#[derive(Drop)]
struct Device {
    taken: usize,
    flushed: usize,
    writes: u8,
    flushes: u8,
}

impl Write for Device {
    /// Takes at most three bytes, and none at the second call.
    fn write(&mut self, buf: &[u8]) -> io::Result<usize> {
        self.writes = self.writes.saturating_add(1);
        let taken = if self.writes == 2 {
            0
        } else {
            buf.len().min(3)
        };
        self.taken = self.taken.saturating_add(taken);
        Ok(taken)
    }

    /// Fails at the second call; any other one flushes all that was taken.
    fn flush(&mut self) -> io::Result<()> {
        self.flushes = self.flushes.saturating_add(1);
        if self.flushes == 2 {
            return Err(io::Error::from(io::ErrorKind::StorageFull));
        }
        self.flushed = self.taken;
        Ok(())
    }
}

/// After a read that fails, the next one goes on where the one before stopped.
#[test]
fn a_failed_read_loses_no_byte(rt: HostRuntime) {
    let bytes = b"frame\n";
    let mut source = StdinSource::new(FailsSecond { bytes, reads: 0 });
    let mut buf = [0; 4];
    let reads = [
        source.read(&mut buf),
        source.read(&mut buf),
        source.read(&mut buf),
    ];
    assert_eq!(rt; reads, [Ok(4), Err(Failed), Ok(2)]);
    assert_eq!(rt; buf, *b"e\nam");
}

/// A read returns the one byte that is there, although the buffer has room for more.
#[test]
fn a_read_gives_what_is_there(rt: HostRuntime) {
    let mut source = StdinSource::new(ByteByByte { bytes: b"frame\n" });
    let mut buf = [0; 4];
    let reads = [source.read(&mut buf), source.read(&mut buf)];
    assert_eq!(rt; reads, [Ok(1), Ok(1)]);
    assert_eq!(rt; buf[0], b'r');
}

/// Each write that succeeds is flushed. One of which no byte is taken fails, and so does one whose flush fails.
#[test]
fn each_write_is_flushed(rt: HostRuntime) {
    let mut device = Device {
        taken: 0,
        flushed: 0,
        writes: 0,
        flushes: 0,
    };
    let mut sink = StdoutSink::new(&mut device);
    let writes = [
        sink.write(b"settled"),
        sink.write(b"tled"),
        sink.write(b"tled"),
        sink.write(b"d"),
    ];
    assert_eq!(rt; writes, [Ok(3), Err(Failed), Err(Failed), Ok(1)]);
    assert_eq!(rt; device.flushed, 7);
}

/// A file is fetched whole under a limit of its own length, and is `Long` under one byte less.
#[test]
fn fetches_a_file_of_the_folder(rt: HostRuntime) -> Result<(), Fail> {
    let name = "fetched_by_a_test";
    fs::write(&rt, name, b"layout")?;
    let mut shelf = FolderShelf::new(&rt);
    let mut into = Vec::new(rt.alloc());
    let long = shelf.fetch(name, &mut into, 5);
    let whole = shelf.fetch(name, &mut into, 6);
    fs::remove_file(&rt, name)?;
    assert_eq!(rt; (long, whole), (Ok(Found::Long), Ok(Found::Whole)));
    assert_eq!(rt; into.as_slice(), b"layout".as_slice());
    Ok(())
}

/// A file that is not there is `Missing`; a folder in place of a file is a failure of the shelf.
#[test]
fn a_missing_file_is_no_failure_and_a_folder_is_one(rt: HostRuntime) {
    let mut shelf = FolderShelf::new(&rt);
    let mut into = Vec::new(rt.alloc());
    let missing = shelf.fetch("no_such_file", &mut into, 6);
    let folder = shelf.fetch(".", &mut into, 6);
    assert_eq!(rt;
        (missing, folder),
        (Ok(Found::Missing), Err(ShelfFault::Failed))
    );
}
