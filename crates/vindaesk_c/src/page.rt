//! Pages that the tool writes in memory.

ghost use Rattle.std.specs.Prelude.{◌≡◌, ◌≢◌, ◌↔◌, IfOk, IsTrue, OnOk};
ghost use Rattle.line_words.specs.words.FileNames.{is_file_name};
ghost use Rattle.tool_io.specs.Fetched.{Files};
ghost use Rattle.vindaesk_c.specs.Lookups.{can_look_up};
ghost use Rattle.vindaesk_c.specs.Packed.{packed, ArePacked};
ghost use Rattle.vindaesk_c.specs.Page.{page_of, refuses};
ghost use Rattle.vindaesk_c.specs.Questions.{asked, can_ask};
ghost use Rattle.tool_replies.specs.Dump.{dump_page, refuses_file};
ghost use Rattle.tool_replies.specs.Lookup.{lookup_page, refuses_table};
ghost use Rattle.tool_replies.specs.Endings.{IsComplete};
ghost use Rattle.whole_tool.specs.Transcript.{IsShortScript};
ghost use Rattle.whole_tool.specs.Usage.{Unknown, run_usage, usage};
ghost use Rattle.vindaesk_c.specs.Answer.{FindsBroken};

use crate::fault::Fault;
use crate::packing::unpacked;
use crate::questions::question_words;
use crate::shelf::PackedShelf;
use crate::words::{file_words, lookup_words, one_word};
use std::alloc::{AllocError, Global};
use tool_io::{MemorySink, SteadySource};
use tool_replies::status::{ACCEPTED, REFUSED};
use view_model::Work;
use whole_tool::tool;

/// The most bytes that the tool reads or writes at once.
const MOST: usize = 65536;

/// A page that was written to its end, and whether something was refused.
#[derive(Drop)]
pub struct Page {
    pub sink: MemorySink,
    pub is_refusing: bool,
}

/// The page of a script, by the one word that the tool is called with.
pub fn script_page(alloc: Global, word: &str, script: &[u8], files: &[u8]) -> Result<Page, Fault>
    requires known { run_usage word.now ≢ Unknown }
    requires short { IsShortScript script.now }
    ensures text { (held : Files)
        → files.now ≡ packed held
        → IfOk result (λ page. page.sink.gone ≡ page_of (run_usage word.now) script.now held) }
    ensures refusing { (held : Files)
        → files.now ≡ packed held
        → IfOk result (λ page. page.is_refusing ≡ refuses (run_usage word.now) script.now held) }
    ensures read { OnOk result (ArePacked files.now) }
    ensures broken { FindsBroken result files.now }
{
    let words = one_word(alloc, word)?;
    page_for(alloc, words.as_slice(), script, files)
}

/// The page of a layout file.
pub fn file_page(alloc: Global, name: &[u8], files: &[u8]) -> Result<Page, Fault>
    requires { IsTrue (is_file_name name.now) }
    ensures text { (held : Files)
        → files.now ≡ packed held
        → IfOk result (λ page. page.sink.gone ≡ dump_page held name.now) }
    ensures refusing { (held : Files)
        → files.now ≡ packed held
        → IfOk result (λ page. page.is_refusing ≡ refuses_file held name.now) }
    ensures read { OnOk result (ArePacked files.now) }
    ensures broken { FindsBroken result files.now }
{
    let words = file_words(alloc, name)?;
    page_for(alloc, words.as_slice(), &[], files)
}

/// The page of what resources hold in a table.
pub fn table_page(alloc: Global, name: &[u8], ids: &[u32], files: &[u8]) -> Result<Page, Fault>
    requires { IsTrue (can_look_up name.now ids.now) }
    ensures text { (held : Files)
        → files.now ≡ packed held
        → IfOk result (λ page. page.sink.gone ≡ lookup_page held name.now ids.now) }
    ensures refusing { (held : Files)
        → files.now ≡ packed held
        → IfOk result (λ page. page.is_refusing ≡ refuses_table held name.now) }
    ensures read { OnOk result (ArePacked files.now) }
    ensures broken { FindsBroken result files.now }
{
    let words = lookup_words(alloc, name, ids)?;
    page_for(alloc, words.as_slice(), &[], files)
}

/// The page of a script with a question after it.
pub fn question_page(
    alloc: Global,
    script: &[u8],
    side: &[u8],
    view: &[u8],
    files: &[u8],
) -> Result<Page, Fault>
    requires can { IsTrue (can_ask side.now view.now) }
    requires short { IsShortScript script.now }
    ensures text { (held : Files)
        → files.now ≡ packed held
        → IfOk result (λ page. page.sink.gone ≡ page_of (asked side.now view.now) script.now held) }
    ensures refusing { (held : Files)
        → files.now ≡ packed held
        → IfOk result (λ page. page.is_refusing ≡ refuses (asked side.now view.now) script.now held) }
    ensures read { OnOk result (ArePacked files.now) }
    ensures broken { FindsBroken result files.now }
{
    let words = question_words(alloc, side, view)?;
    page_for(alloc, words.as_slice(), script, files)
}

/// The page for these words, with the files of a buffer at hand.
fn page_for(alloc: Global, words: &[String], script: &[u8], files: &[u8]) -> Result<Page, Fault>
    requires known { usage words.now ≢ Unknown }
    requires short { IsShortScript script.now }
    ensures text { (held : Files)
        → files.now ≡ packed held
        → IfOk result (λ page. page.sink.gone ≡ page_of (usage words.now) script.now held) }
    ensures refusing { (held : Files)
        → files.now ≡ packed held
        → IfOk result (λ page. page.is_refusing ≡ refuses (usage words.now) script.now held) }
    ensures read { OnOk result (ArePacked files.now) }
    ensures broken { FindsBroken result files.now }
{
    let mut shelf = PackedShelf::new(unpacked(alloc, files)?);
    Ok(written(alloc, words, script, &mut shelf)?)
}

/// What the tool writes for these words.
fn written(
    alloc: Global,
    words: &[String],
    script: &[u8],
    shelf: &mut PackedShelf<'_>,
) -> Result<Page, AllocError>
    requires known { usage words.now ≢ Unknown }
    requires short { IsShortScript script.now }
    ensures text { IfOk result (λ page. page.sink.gone ≡ page_of (usage words.now) script.now shelf.old) }
    ensures refusing { IfOk result (λ page. page.is_refusing ≡ refuses (usage words.now) script.now shelf.old) }
{
    let mut source = SteadySource::new(Vec::from_slice(alloc, script)?, MOST);
    let mut sink = MemorySink::new(alloc, MOST, Vec::new(alloc));
    let mut work = Work {
        measured: 0,
        painted: 0,
    };
    let status = tool(alloc, words, shelf, &mut source, &mut sink, &mut work);
    if is_complete(status) {
        Ok(Page {
            sink,
            is_refusing: status == REFUSED,
        })
    } else {
        Err(AllocError)
    }
}

/// Whether a call ended by itself.
fn is_complete(status: u8) -> bool
    ensures { IsTrue result ↔ IsComplete status }
{
    status == ACCEPTED || status == REFUSED
}
