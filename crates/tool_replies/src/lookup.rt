//! The values of resources in a compiled table.

ghost use Rattle.std.specs.Prelude.{◌≡◌, ◌≢◌, ◌≤◌, ◌⊎◌, ◌==◌, ℕ, List, [], ◌∷◌, Some, if◌then◌else◌, string_bytes};
ghost use Rattle.arsc_reader.specs.Lines.{value_lines};
ghost use Rattle.arsc_reader.specs.Table.{table_of};
ghost use Rattle.text_lines.specs.BufferedText.{Sends};
ghost use Rattle.text_lines.specs.Delivered.{Delivered};
ghost use Rattle.tool_io.specs.Counts.{raised};
ghost use Rattle.tool_io.specs.Fetched.{Fetched, Files};
ghost use Rattle.tool_io.specs.Fetches.{with_fetch};
ghost use Rattle.tool_replies.specs.Dump.{Dumps, LeavesSink};
ghost use Rattle.tool_replies.specs.Endings.{IsOneOf};
ghost use Rattle.tool_replies.specs.Lookup.{is_broken, lookup_page, looked_up, max_table, refuses_table, resource_id, resource_ids, table_fetch};
ghost use Rattle.world_parts.specs.Shelves.{KeepsFiles};

use crate::dump::status_of;
use crate::file_replies::{write_fault, write_refused_file};
use crate::status::{ACCEPTED, NO_MEMORY, REFUSED, SHELF_FAILED};
use arsc_reader::Table;
use axml_chunks::ReadFault;
use line_words::hex;
use std::alloc::Global;
use text_lines::TextBuffer;
use tool_io::{Failed, Found, Shelf, ShelfFault, Sink};
use view_model::refusals::{LONG_FILE, MISSING};

/// The most bytes that a resource table may have.
const MAX_TABLE: usize = 16777216;

/// Writes what the resources of these ids hold in the table of this name, or why its file is refused.
pub fn lookup<K: Sink, F: Shelf>(
    alloc: Global,
    name: &str,
    ids: &[String],
    shelf: &mut F,
    sink: &mut K,
) -> u8
    ensures looks_up { (files : Files)
        → F.files shelf.old ≡ Some files
        → Dumps (lookup_page files name.now (resource_ids ids.now)) (refuses_table files name.now)
        (K.state sink.old) (K.state sink.new) result }
    ensures known { IsOneOf result (0 ∷ 1 ∷ 4 ∷ 5 ∷ 6 ∷ []) }
    ensures nothing_written { (result ≡ 5) ⊎ (result ≡ 6) → sink.new ≡ sink.old }
    ensures sink_failed { (K.state sink.new).faults
        ≡ (if result == 4 then raised (K.state sink.old).faults else (K.state sink.old).faults) }
    ensures shelf_failed { result ≢ 5
        → F.faults shelf.new ≡ (if result == 6 then raised (F.faults shelf.old) else F.faults shelf.old) }
    ensures shelf_later { F.faults shelf.old ≤ F.faults shelf.new }
    ensures files_stay { KeepsFiles (F.files shelf.old) (F.files shelf.new) }
    ensures fetched { F.fetches shelf.new ≡ with_fetch (F.fetches shelf.old) (table_fetch name.now) }
{
    let mut bytes = Vec::new(alloc);
    match shelf.fetch(name, &mut bytes, MAX_TABLE) {
        Ok(found) => lookup_found(alloc, found, bytes.as_slice(), ids, sink),
        Err(ShelfFault::Failed) => SHELF_FAILED,
        Err(ShelfFault::NoMemory) => NO_MEMORY,
    }
}

/// Writes what resources hold in a table that was fetched, or why the file is refused.
fn lookup_found<K: Sink>(
    alloc: Global,
    found: Found,
    bytes: &[u8],
    ids: &[String],
    sink: &mut K,
) -> u8
    ensures looks_up { (files : Files) (name : List ℕ)
        → Fetched files name max_table found bytes.now
        → Dumps (lookup_page files name (resource_ids ids.now)) (refuses_table files name)
        (K.state sink.old) (K.state sink.new) result }
    ensures sink { LeavesSink (K.state sink.old) (K.state sink.new) result (sink.new ≡ sink.old) }
{
    match found {
        Found::Whole => lookup_bytes(alloc, bytes, ids, sink),
        Found::Missing => status_of(REFUSED, write_refused_file(sink, MISSING)),
        Found::Long => status_of(REFUSED, write_refused_file(sink, LONG_FILE)),
    }
}

/// Writes what resources hold in the table of a file, or what is wrong with it.
fn lookup_bytes<K: Sink>(alloc: Global, bytes: &[u8], ids: &[String], sink: &mut K) -> u8
    ensures looks_up { Dumps (looked_up (resource_ids ids.now) (table_of bytes.now)) (is_broken (table_of bytes.now))
        (K.state sink.old) (K.state sink.new) result }
    ensures sink { LeavesSink (K.state sink.old) (K.state sink.new) result (sink.new ≡ sink.old) }
{
    match Table::read(alloc, bytes) {
        Ok(table) => status_of(ACCEPTED, write_values(&table, ids, sink)),
        Err(ReadFault::Bad(fault)) => status_of(REFUSED, write_fault(sink, fault)),
        Err(ReadFault::NoMemory) => NO_MEMORY,
    }
}

/// Writes what resources hold, in the order of their ids as they are asked for.
fn write_values<K: Sink>(table: &Table, ids: &[String], sink: &mut K) -> Result<(), Failed>
    ensures { Delivered (K.state sink.old) (K.state sink.new) result (value_lines table.now (resource_ids ids.now)) }
{
    let mut reply = TextBuffer::new();
    put_values(&mut reply, sink, table, ids);
    reply.finish(sink)
}

/// What each resource holds, in the order of these ids, which are words of hexadecimal digits.
fn put_values<K: Sink>(reply: &mut TextBuffer, sink: &mut K, table: &Table, ids: &[String])
    ensures { Sends (K.state sink.old) (K.state sink.new) reply.old reply.new
        (value_lines table.now (resource_ids ids.now)) }
{
    for word in ids {
        table.put_value(reply, sink, resource_id(word));
    }
}

/// The id of a resource, or 0 if a word is none.
fn resource_id(word: &String) -> u32
    ensures { result ≡ resource_id (string_bytes word.now) }
{
    match hex(word.as_bytes()) {
        Some(id) => id,
        None => 0,
    }
}
