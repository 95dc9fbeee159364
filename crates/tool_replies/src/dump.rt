//! The print of a layout file.

ghost use Rattle.std.specs.Prelude.{◌≡◌, ◌≢◌, ◌≤◌, ◌⊎◌, ◌==◌, ℕ, List, [], ◌∷◌, Some, Result, if◌then◌else◌};
ghost use Rattle.axml_reader.specs.Decoding.{decoded};
ghost use Rattle.tool_io.specs.Counts.{raised};
ghost use Rattle.tool_io.specs.Fetched.{Fetched, Files};
ghost use Rattle.tool_io.specs.Fetches.{with_fetch};
ghost use Rattle.world_parts.specs.Shelves.{KeepsFiles, layout_fetch};
ghost use Rattle.tool_replies.specs.Dump.{Dumps, LeavesSink, decoded_text, dump_page, is_fault, refuses_file, status_of_text};
ghost use Rattle.tool_replies.specs.Numbers.{max_file};
ghost use Rattle.tool_replies.specs.Endings.{IsOneOf};

use crate::file_replies::{write_fault, write_refused_file};
use crate::status::{ACCEPTED, NO_MEMORY, REFUSED, SHELF_FAILED, SINK_FAILED};
use axml_chunks::ReadFault;
use axml_reader::{print, read};
use std::alloc::Global;
use tool_io::{Failed, Found, Shelf, ShelfFault, Sink};
use view_model::limits::MAX_FILE;
use view_model::refusals::{LONG_FILE, MISSING};

/// Prints the file of this name, or reports why it is refused.
pub fn dump<K: Sink, F: Shelf>(alloc: Global, name: &str, shelf: &mut F, sink: &mut K) -> u8
    ensures dumps { (files : Files)
        → F.files shelf.old ≡ Some files
        → Dumps (dump_page files name.now) (refuses_file files name.now) (K.state sink.old) (K.state sink.new) result }
    ensures known { IsOneOf result (0 ∷ 1 ∷ 4 ∷ 5 ∷ 6 ∷ []) }
    ensures nothing_written { (result ≡ 5) ⊎ (result ≡ 6) → sink.new ≡ sink.old }
    ensures sink_failed { (K.state sink.new).faults
        ≡ (if result == 4 then raised (K.state sink.old).faults else (K.state sink.old).faults) }
    ensures shelf_failed { result ≢ 5
        → F.faults shelf.new ≡ (if result == 6 then raised (F.faults shelf.old) else F.faults shelf.old) }
    ensures shelf_later { F.faults shelf.old ≤ F.faults shelf.new }
    ensures files_stay { KeepsFiles (F.files shelf.old) (F.files shelf.new) }
    ensures fetched { F.fetches shelf.new ≡ with_fetch (F.fetches shelf.old) (layout_fetch name.now) }
{
    let mut bytes = Vec::new(alloc);
    match shelf.fetch(name, &mut bytes, MAX_FILE) {
        Ok(found) => dump_found(alloc, found, bytes.as_slice(), sink),
        Err(ShelfFault::Failed) => SHELF_FAILED,
        Err(ShelfFault::NoMemory) => NO_MEMORY,
    }
}

/// Prints a file that was fetched, or reports why it is refused.
fn dump_found<K: Sink>(alloc: Global, found: Found, bytes: &[u8], sink: &mut K) -> u8
    ensures dumps { (files : Files) (name : List ℕ)
        → Fetched files name max_file found bytes.now
        → Dumps (dump_page files name) (refuses_file files name) (K.state sink.old) (K.state sink.new) result }
    ensures sink { LeavesSink (K.state sink.old) (K.state sink.new) result (sink.new ≡ sink.old) }
{
    match found {
        Found::Whole => dump_bytes(alloc, bytes, sink),
        Found::Missing => status_of(REFUSED, write_refused_file(sink, MISSING)),
        Found::Long => status_of(REFUSED, write_refused_file(sink, LONG_FILE)),
    }
}

/// Prints a file, or reports what is wrong with it.
fn dump_bytes<K: Sink>(alloc: Global, bytes: &[u8], sink: &mut K) -> u8
    ensures dumps { Dumps (decoded_text (decoded bytes.now)) (is_fault (decoded bytes.now))
        (K.state sink.old) (K.state sink.new) result }
    ensures sink { LeavesSink (K.state sink.old) (K.state sink.new) result (sink.new ≡ sink.old) }
{
    match read(alloc, bytes) {
        Ok(doc) => status_of(ACCEPTED, print(&doc, sink)),
        Err(ReadFault::Bad(fault)) => status_of(REFUSED, write_fault(sink, fault)),
        Err(ReadFault::NoMemory) => NO_MEMORY,
    }
}

/// The status of a text that was delivered in this way; `done` if the whole of it was.
pub fn status_of(done: u8, outcome: Result<(), Failed>) -> u8
    ensures { result ≡ status_of_text done outcome }
{
    match outcome {
        Ok(()) => done,
        Err(_) => SINK_FAILED,
    }
}
