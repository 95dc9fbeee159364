//! A compiled resource table, and the value of a resource in it.
ghost use Rattle.std.specs.Prelude.{◌≡◌, ℕ, length, IfOk, IfSome, OnOk, Ok};
ghost use Rattle.std.specs.Option.{option_map};
ghost use Rattle.axml_chunks.specs.Chunks.{IsChunk};
ghost use Rattle.axml_chunks.specs.Short.{IsShort};
ghost use Rattle.axml_chunks.specs.Steps.{Gives};
ghost use Rattle.arsc_reader.specs.Meaning.{contents};
ghost use Rattle.arsc_reader.specs.Order.{AreOrdered, Splits};
ghost use Rattle.arsc_reader.specs.Answers.{ReadsTable};
ghost use Rattle.arsc_reader.specs.Table.{whole_of, inside_of, table_of, newer, latest, named_by, value_of, text_of};

use crate::held::{Entry, Held};
use crate::reading::Reading;
use axml_chunks::{Cause, Chunk, Fault, Pool, ReadFault, chunk_at, u16_at};
use std::alloc::{AllocError, Global};
use std::marker::Model;

/// The type of the chunk that holds a table.
const TABLE: u16 = 2;

/// The type of a value that names another resource.
const REFERENCE: u8 = 1;

/// How many references are followed from one id.
const MAX_REFERENCES: u32 = 16;

/// A compiled resource table: its strings, and its entries in the order of their ids.
#[derive(Drop)]
pub struct Table {
    pool: Option<Pool>,
    entries: Vec<Entry>,
}

impl Model for Table {
    ghost use Rattle.arsc_reader.specs.Contents.{Contents};
    ghost use Rattle.arsc_reader.specs.Order.{AreOrdered};

    ghost Value = { Contents };

    ghost view = { λ t. record { pool = t.pool; entries = t.entries.items } };

    ghost invariant = { λ t. AreOrdered t.entries.items };
}

/// The chunk that holds the table. What comes after it is not looked at.
#[tactic(auto, unfolding(crate::specs::Table::whole_of))]
fn whole_of(bytes: &[u8]) -> Result<Chunk, Fault>
    ensures value { result ≡ whole_of bytes.now }
    ensures bounds { IfOk result (λ chunk. IsChunk 0 (length bytes.now) chunk) }
{
    let chunk = chunk_at(bytes, 0, bytes.len())?;
    if chunk.head < 12 {
        return Err(Fault {
            cause: Cause::BadChunk,
            at: 0,
        });
    }
    Ok(chunk)
}

/// What the chunks of a table hold.
#[tactic(auto, unfolding(crate::specs::Table::inside_of))]
fn inside_of(alloc: Global, bytes: &[u8]) -> Result<Reading, ReadFault>
    ensures { Gives contents result (inside_of bytes.now) }
{
    let whole = whole_of(bytes)?;
    let mut so_far = Reading::new(alloc);
    so_far.read_chunks(alloc, bytes, whole.head, whole.size)?;
    Ok(so_far)
}

/// Sorts entries by their ids; those with one id stay in their order.
fn sort(entries: &mut Vec<Entry>) -> Result<(), AllocError>
    ensures order { OnOk result (AreOrdered entries.new.items) }
    ensures same { OnOk result ((id : ℕ) → latest entries.new.items id ≡ latest entries.old.items id) }
{
    entries.sort_by_key(|entry| entry.id)?;
    Ok(())
}

/// A table of what was read.
fn table_with(reading: Reading) -> Result<Table, ReadFault>
    ensures { ReadsTable result (Ok (contents reading)) }
{
    let Reading { pool, entries, .. } = reading;
    let mut entries = entries;
    match sort(&mut entries) {
        Ok(()) => Ok(Table { pool, entries }),
        Err(_) => Err(ReadFault::NoMemory),
    }
}

/// What an entry holds if it has an id, and otherwise what was found before it.
fn newer(before: Held, entry: Entry, id: u32) -> Held
    ensures { result ≡ newer before entry id }
{
    if entry.id == id { entry.held } else { before }
}

/// How many entries have at most an id, of entries in the order of their ids.
fn place_after(entries: &[Entry], id: u32) -> usize
    requires { AreOrdered entries.now }
    ensures { Splits entries.now id result }
{
    entries.partition_point(|entry| entry.id <= id)
}

/// What the last entry with an id holds, of entries in the order of their ids.
#[tactic(auto, using(crate::proofs::Latest::none_before, crate::proofs::Latest::last_before))]
fn latest(entries: &[Entry], id: u32) -> Held
    requires { AreOrdered entries.now }
    ensures { result ≡ latest entries.now id }
{
    let place = place_after(entries, id);
    if place == 0 {
        return Held::None;
    }
    newer(Held::None, entries[place - 1], id)
}

/// The id that a value names, if it is a reference that is not empty.
fn named_by(held: Held) -> Option<u32>
    ensures { result ≡ named_by held }
{
    match held {
        Held::None => None,
        Held::Complex => None,
        Held::Plain { kind, word } => {
            if kind == REFERENCE && word != 0 {
                Some(word)
            } else {
                None
            }
        }
    }
}

impl Table {
    /// Reads a table from the bytes of its file.
    #[tactic(auto, unfolding(crate::specs::Table::table_of))]
    pub fn read(alloc: Global, bytes: &[u8]) -> Result<Table, ReadFault>
        ensures value { ReadsTable result (table_of bytes.now) }
    {
        if bytes.len() < 8 {
            return Err(ReadFault::Bad(Fault {
                cause: Cause::Truncated,
                at: 0,
            }));
        }
        if u16_at(bytes, 0) != TABLE {
            return Err(ReadFault::Bad(Fault {
                cause: Cause::NotTable,
                at: 0,
            }));
        }
        let reading = inside_of(alloc, bytes)?;
        table_with(reading)
    }

    /// What a resource holds, through at most sixteen references.
    #[tactic(auto, using(crate::proofs::Followed::follow_on, crate::proofs::Followed::follow_out, crate::proofs::Followed::follow_end))]
    pub fn value(&self, id: u32) -> Held
        ensures value { result ≡ value_of self.now.entries id }
    {
        let mut id = id;
        for k in 0..MAX_REFERENCES {
            let held = latest(&self.entries, id);
            match named_by(held) {
                Some(word) => id = word,
                None => return held,
            }
        }
        let held = latest(&self.entries, id);
        match named_by(held) {
            Some(_) => Held::None,
            None => held,
        }
    }

    /// The string whose number is the word of a value of the type 3.
    pub fn text(&self, word: u32) -> Option<&str>
        ensures value { option_map (λ s. s.now) result ≡ text_of self.now.pool word }
        ensures short { IfSome result (λ s. IsShort s.now) }
    {
        match &self.pool {
            Some(pool) => pool.text(word),
            None => None,
        }
    }
}
