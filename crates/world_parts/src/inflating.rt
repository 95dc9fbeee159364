//! The views of a layout file: its bytes are fetched, read, and inflated.
//!
//! A place for the views that is not there is reported before a file is asked for: only an `inflate` line that has a
//! place asks. Values and density count at this line; what views have is pixels from then on, and a resource that gets
//! another value has it for later files alone.

ghost use Rattle.std.specs.Prelude.{◌≡◌, ◌≢◌, Some, Err};
ghost use Rattle.std.specs.Option.{option_map};
ghost use Rattle.inflater.specs.Answers.{IsGrown};
ghost use Rattle.script_lines.specs.commands.PlainCommands.{plain_command};
ghost use Rattle.tool_io.specs.Fetched.{Files, file_of};
ghost use Rattle.tool_io.specs.Fetches.{with_fetch};
ghost use Rattle.view_model.specs.Refusals.{plain_refusal};
ghost use Rattle.world_parts.specs.Shelves.{CountsShelf, layout_fetch, KeepsFiles};
ghost use Rattle.world_parts.specs.Given.{Gives, HasBytes};
ghost use Rattle.world_parts.specs.Inflating.{bytes_in, fault_refusal, inflation_of, views_in};
ghost use Rattle.world_parts.specs.Faults.{HasFile};

use crate::fault::StepFault;
use axml_chunks::{Fault, ReadFault};
use axml_reader::read;
use inflater::{Grown, inflate};
use line_words::Name;
use res_values::Resources;
use script_lines::Command;
use std::alloc::Global;
use tool_io::{Found, Shelf, ShelfFault};
use view_model::limits::MAX_FILE;
use view_model::refusals::{LONG_FILE, MISSING};
use view_model::{Detail, Refusal};

/// The file of an `inflate` line, and the view below which its tree goes, `None` if it is the whole tree.
pub fn inflation_of<'a>(command: &Command<'a>) -> Option<(&'a str, Option<Name>)>
    ensures { option_map (λ inflation. (inflation.0.now, inflation.1)) result
        ≡ inflation_of (plain_command command.now) }
{
    match *command {
        Command::Inflate { name, into } => Some((name, into)),
        Command::Window { .. }
        | Command::Dpi(_)
        | Command::Res { .. }
        | Command::Add { .. }
        | Command::Remove(_)
        | Command::Act { .. }
        | Command::Text { .. }
        | Command::Disallow { .. }
        | Command::Hook { .. }
        | Command::Down { .. }
        | Command::Move { .. }
        | Command::Up(_)
        | Command::Cancel
        | Command::Frame
        | Command::Bounds(_)
        | Command::Pixels { .. }
        | Command::Digest
        | Command::Save
        | Command::Restore(_) => None,
    }
}

/// The bytes of the file of this name, which is asked for once and with the limit of a layout file.
pub fn fetch<F: Shelf>(alloc: Global, shelf: &mut F, name: &str) -> Result<Vec<u8>, StepFault>
    ensures bytes { (files : Files)
        → F.files shelf.old ≡ Some files
        → Gives HasBytes (bytes_in (file_of files name.now)) result }
    ensures files_stay { KeepsFiles (F.files shelf.old) (F.files shelf.new) }
    ensures shelf_failed { CountsShelf (F.faults shelf.old) (F.faults shelf.new) result }
    ensures fetched { F.fetches shelf.new ≡ with_fetch (F.fetches shelf.old) (layout_fetch name.now) }
    ensures no_sink { result ≢ Err StepFault.Sink }
{
    let mut bytes = Vec::new(alloc);
    match shelf.fetch(name, &mut bytes, MAX_FILE) {
        Ok(Found::Whole) => Ok(bytes),
        Ok(Found::Missing) => Err(StepFault::Refused(Refusal::plain(MISSING))),
        Ok(Found::Long) => Err(StepFault::Refused(Refusal::plain(LONG_FILE))),
        Err(ShelfFault::Failed) => Err(StepFault::Shelf),
        Err(ShelfFault::NoMemory) => Err(StepFault::NoMemory),
    }
}

/// What is wrong with a file, as the refusal of a line.
fn refused_for(fault: Fault) -> Refusal
    ensures { plain_refusal result ≡ fault_refusal fault }
{
    Refusal {
        number: fault.cause.number(),
        detail: Detail::At(fault.at),
    }
}

/// The views that the bytes of a file give. Sizes are those of a screen of `dpi` dots an inch.
pub fn views_of(
    alloc: Global,
    bytes: &[u8],
    resources: &Resources,
    dpi: u32,
) -> Result<Grown, StepFault>
    ensures views { Gives IsGrown (views_in bytes.now resources.now dpi) result }
    ensures no_shelf { HasFile result }
{
    let doc = match read(alloc, bytes) {
        Ok(doc) => doc,
        Err(ReadFault::Bad(fault)) => return Err(StepFault::Refused(refused_for(fault))),
        Err(ReadFault::NoMemory) => return Err(StepFault::NoMemory),
    };
    Ok(inflate(alloc, &doc, resources, dpi)?)
}
