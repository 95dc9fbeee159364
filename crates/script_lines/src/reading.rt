//! The command of a line. `changes` reads what is set of a view, with `actions` and `rules`; `hooks` reads a hook, whose
//! edits `parting` parts; `resources`, `touches`, `states` and `pixels` read lines of their own.

ghost use Rattle.std.specs.Prelude.{◌≡◌, ◌≤◌, true, length, Ok, Err, IfOk, IsTrue};
ghost use Rattle.std.specs.Str.{is_utf8};
ghost use Rattle.script_lines.specs.reading.Commands.{IsInBounds, add_of, bounds_of, command_by, command_of, digest_of, disallow_of, dpi_of, frame_of, inflate_of, into_of, remove_of, set_of, set_text_of, window_of, IsCommandInBounds};
ghost use Rattle.script_lines.specs.cutting.Lines.{is_passed_over};
ghost use Rattle.script_lines.specs.commands.PlainCommands.{PlainCommand, plain_command, text_length};
ghost use Rattle.script_lines.specs.commands.Spelled.{HasLine, spelled};
ghost use Rattle.line_words.specs.words.Words.{map_ok, words};
ghost use Rattle.script_lines.specs.commands.Written.{IsWritten};

mod actions;
mod changes;
pub mod hooks;
mod parting;
pub mod pixels;
mod resources;
mod rules;
mod states;
pub mod touches;

use crate::commands::{Command, MAX_DPI, MAX_WINDOW, MIN_DPI};
use crate::reading::changes::read_act;
use crate::reading::hooks::hook;
use crate::reading::pixels::pixels;
use crate::reading::resources::res;
use crate::reading::states::{restore, save};
use crate::reading::touches::{cancel, down, moved, up};
use crate::verbs::{ActVerb, Verb, named_verb};
use line_words::LineFault;
use line_words::words::dimension::extents;
use line_words::words::escapes::rest_text;
use line_words::words::file_name::file_name_word;
use line_words::words::naming::{Name, name_word, parent_word};
use line_words::words::number::{natural_within, number, pair};
use line_words::words::{end, is_text, literal, read_on, word};
use view_model::Class;

/// A new window, by the two numbers that end the line.
#[inline(never)]
fn window(bytes: &[u8]) -> Result<Command<'_>, LineFault>
    ensures value { map_ok plain_command result ≡ window_of (words bytes.now) }
    ensures bounds { IfOk result IsCommandInBounds }
{
    let (w, h) = pair(1, MAX_WINDOW, bytes)?;
    Ok(Command::Window { w, h })
}

/// A density.
#[inline(never)]
#[tactic(auto, unfolding(crate::specs::reading::Commands::dpi_of))]
fn dpi(bytes: &[u8]) -> Result<Command<'_>, LineFault>
    ensures value { map_ok plain_command result ≡ dpi_of (words bytes.now) }
    ensures bounds { IfOk result IsCommandInBounds }
{
    let (n, rest) = number(bytes)?;
    end(rest)?;
    let dpi = natural_within(MIN_DPI, MAX_DPI, n)?;
    Ok(Command::Dpi(dpi))
}

/// The view below which a tree goes, if one is named.
#[tactic(auto, unfolding(crate::specs::reading::Commands::into_of))]
fn into(bytes: &[u8]) -> Result<Option<Name>, LineFault>
    ensures { result ≡ into_of (words bytes.now) }
{
    if end(bytes).is_ok() {
        return Ok(None);
    }
    let rest = literal(b"into", bytes)?;
    let (view, rest) = name_word(rest)?;
    end(rest)?;
    Ok(Some(view))
}

/// The tree of a layout file, and below which view, if the line names one.
#[inline(never)]
#[tactic(auto, unfolding(crate::specs::reading::Commands::inflate_of))]
fn inflate(bytes: &[u8]) -> Result<Command<'_>, LineFault>
    ensures value { map_ok plain_command result ≡ inflate_of (words bytes.now) }
    ensures bounds { IfOk result IsCommandInBounds }
{
    let (name, rest) = file_name_word(bytes)?;
    let into = into(rest)?;
    Ok(Command::Inflate { name, into })
}

/// A view that is added: its parent, its class and its two dimensions.
#[inline(never)]
#[tactic(auto, unfolding(crate::specs::reading::Commands::add_of))]
fn add(bytes: &[u8]) -> Result<Command<'_>, LineFault>
    ensures value { map_ok plain_command result ≡ add_of (words bytes.now) }
    ensures bounds { IfOk result IsCommandInBounds }
{
    let (parent, rest) = parent_word(bytes)?;
    let (word, rest) = word(rest)?;
    let Some(class) = Class::named(word) else {
        return Err(LineFault::Syntax);
    };
    let (width, height) = extents(rest)?;
    Ok(Command::Add {
        parent,
        class,
        width,
        height,
    })
}

/// A view that is taken away.
#[inline(never)]
#[tactic(auto, unfolding(crate::specs::reading::Commands::remove_of))]
fn remove(bytes: &[u8]) -> Result<Command<'_>, LineFault>
    ensures value { map_ok plain_command result ≡ remove_of (words bytes.now) }
    ensures bounds { IfOk result IsCommandInBounds }
{
    let (view, rest) = name_word(bytes)?;
    end(rest)?;
    Ok(Command::Remove(view))
}

/// A frame; the line has no more words.
#[tactic(auto, unfolding(crate::specs::reading::Commands::frame_of))]
fn frame(bytes: &[u8]) -> Result<Command<'_>, LineFault>
    ensures value { map_ok plain_command result ≡ frame_of (words bytes.now) }
    ensures bounds { IfOk result IsCommandInBounds }
{
    end(bytes)?;
    Ok(Command::Frame)
}

/// The digest of the picture; the line has no more words.
#[tactic(auto, unfolding(crate::specs::reading::Commands::digest_of))]
fn digest(bytes: &[u8]) -> Result<Command<'_>, LineFault>
    ensures value { map_ok plain_command result ≡ digest_of (words bytes.now) }
    ensures bounds { IfOk result IsCommandInBounds }
{
    end(bytes)?;
    Ok(Command::Digest)
}

/// The bounds of one view, or of all if no word follows.
#[inline(never)]
#[tactic(auto, unfolding(crate::specs::reading::Commands::bounds_of))]
fn bounds(bytes: &[u8]) -> Result<Command<'_>, LineFault>
    ensures value { map_ok plain_command result ≡ bounds_of (words bytes.now) }
    ensures bounds { IfOk result IsCommandInBounds }
{
    if end(bytes).is_ok() {
        return Ok(Command::Bounds(None));
    }
    let (view, rest) = name_word(bytes)?;
    end(rest)?;
    Ok(Command::Bounds(Some(view)))
}

/// Whether a view and all above it are prevented from taking pointers away from their children.
#[inline(never)]
#[tactic(auto, unfolding(crate::specs::reading::Commands::disallow_of))]
fn disallow(bytes: &[u8]) -> Result<Command<'_>, LineFault>
    ensures value { map_ok plain_command result ≡ disallow_of (words bytes.now) }
    ensures bounds { IfOk result IsCommandInBounds }
{
    let (view, rest) = name_word(bytes)?;
    let (answer, rest) = word(rest)?;
    let on = read_on(answer)?;
    end(rest)?;
    Ok(Command::Disallow { view, on })
}

/// A line that sets something of a view.
#[inline(never)]
#[tactic(auto, unfolding(crate::specs::reading::Commands::set_of))]
fn set<'a>(verb: ActVerb, bytes: &'a [u8]) -> Result<Command<'a>, LineFault>
    ensures value { map_ok plain_command result ≡ set_of verb (words bytes.now) }
    ensures bounds { IfOk result IsCommandInBounds }
{
    let (view, rest) = name_word(bytes)?;
    let act = read_act(verb, rest)?;
    Ok(Command::Act { view, act })
}

/// A line that sets the text of a view.
#[inline(never)]
#[tactic(auto, unfolding(crate::specs::reading::Commands::set_text_of))]
fn set_text(bytes: &[u8]) -> Result<Command<'_>, LineFault>
    ensures value { map_ok plain_command result ≡ set_text_of bytes.now }
    ensures bounds { IfOk result IsCommandInBounds }
{
    let (view, rest) = name_word(bytes)?;
    let text = rest_text(rest)?;
    Ok(Command::Text { view, text })
}

/// The command of a line by what its first word asks for and what comes after that word: the spaces in a text count.
/// Each reading is a function of its own, so that a line does not clear what only other lines hold.
#[inline(always)]
#[tactic(auto, unfolding(crate::specs::reading::Commands::command_by))]
fn read_by<'a>(verb: Verb, bytes: &'a [u8]) -> Result<Command<'a>, LineFault>
    ensures value { map_ok plain_command result ≡ command_by verb bytes.now }
    ensures bounds { IfOk result IsCommandInBounds }
{
    match verb {
        Verb::Window => window(bytes),
        Verb::Dpi => dpi(bytes),
        Verb::Res => res(bytes),
        Verb::Inflate => inflate(bytes),
        Verb::Add => add(bytes),
        Verb::Remove => remove(bytes),
        Verb::Act(act) => set(act, bytes),
        Verb::Text => set_text(bytes),
        Verb::Disallow => disallow(bytes),
        Verb::Hook => hook(bytes),
        Verb::Down => down(bytes),
        Verb::Move => moved(bytes),
        Verb::Up => up(bytes),
        Verb::Cancel => cancel(bytes),
        Verb::Frame => frame(bytes),
        Verb::Bounds => bounds(bytes),
        Verb::Pixels => pixels(bytes),
        Verb::Digest => digest(bytes),
        Verb::Save => save(bytes),
        Verb::Restore => restore(bytes),
    }
}

/// The command of a line. A fault of the grammar counts before a number outside its bounds, wherever the two are. A
/// line that is passed over has no command. The text of a command is read as that command. A line that is read has the
/// words of its command and no others, and each line that has them is read as that command.
#[inline(always)]
#[tactic(auto, unfolding(crate::specs::reading::Commands::command_of, crate::specs::reading::Commands::command_in), using(crate::proofs::readings::ReadLaws::read_short, crate::proofs::readings::ReadLaws::read_written))]
pub fn line(bytes: &[u8]) -> Result<Command<'_>, LineFault>
    ensures value { map_ok plain_command result ≡ command_of bytes.now }
    ensures bounds { IfOk result IsCommandInBounds }
    ensures passed { is_passed_over bytes.now ≡ true → result ≡ Err LineFault.Syntax }
    ensures short { IfOk result (λ command. text_length (plain_command command) ≤ length bytes.now) }
    ensures spelled { (command : PlainCommand)
        → IsInBounds command
        → HasLine command
        → bytes.now ≡ spelled command
        → map_ok plain_command result ≡ Ok command }
    ensures written { IfOk result (λ command. IsWritten (plain_command command) bytes.now) }
    ensures given { (command : PlainCommand)
        → IsInBounds command
        → IsWritten command bytes.now
        → IsTrue (is_utf8 bytes.now)
        → map_ok plain_command result ≡ Ok command }
{
    if !is_text(bytes) {
        return Err(LineFault::Syntax);
    }
    let (head, rest) = word(bytes)?;
    match named_verb(head) {
        Some(verb) => read_by(verb, rest),
        None => Err(LineFault::Syntax),
    }
}
