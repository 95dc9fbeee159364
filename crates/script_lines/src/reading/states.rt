//! Saved states: the line that saves one, and the line that restores one.

ghost use Rattle.std.specs.Prelude.{◌≡◌, IfOk, IsTrue};
ghost use Rattle.script_lines.specs.reading.Commands.{IsCommandInBounds};
ghost use Rattle.script_lines.specs.commands.PlainCommands.{plain_command};
ghost use Rattle.script_lines.specs.reading.States.{is_state_text, restore_of, save_of, state_text_of};
ghost use Rattle.line_words.specs.words.Words.{map_ok, words};

use crate::commands::Command;
use line_words::LineFault;
use line_words::words::naming::all_hex;
use line_words::words::{end, text, word};

/// Saves the state.
#[tactic(auto, unfolding(crate::specs::reading::States::save_of))]
pub fn save(bytes: &[u8]) -> Result<Command<'_>, LineFault>
    ensures value { map_ok plain_command result ≡ save_of (words bytes.now) }
    ensures bounds { IfOk result IsCommandInBounds }
{
    end(bytes)?;
    Ok(Command::Save)
}

/// Whether a word writes bytes in hexadecimal digits.
#[tactic(auto, unfolding(crate::specs::reading::States::is_state_text))]
fn is_state_text(word: &[u8]) -> bool
    ensures { result ≡ is_state_text word.now }
{
    !word.is_empty() && word.len() % 2 == 0 && all_hex(word)
}

/// The text of the state that a word writes.
#[tactic(auto, unfolding(crate::specs::reading::States::state_text_of))]
fn read_state_text(word: &[u8]) -> Result<&str, LineFault>
    ensures value { map_ok (λ text. text.now) result ≡ state_text_of word.now }
    ensures bounds { IfOk result (λ text. IsTrue (is_state_text text.now)) }
{
    if !is_state_text(word) {
        return Err(LineFault::Syntax);
    }
    text(word)
}

/// Restores the saved state, or one that the line writes.
#[inline(never)]
#[tactic(auto, unfolding(crate::specs::reading::States::restore_of))]
pub fn restore(bytes: &[u8]) -> Result<Command<'_>, LineFault>
    ensures value { map_ok plain_command result ≡ restore_of (words bytes.now) }
    ensures bounds { IfOk result IsCommandInBounds }
{
    if end(bytes).is_ok() {
        return Ok(Command::Restore(None));
    }
    let (word, rest) = word(bytes)?;
    let state = read_state_text(word)?;
    end(rest)?;
    Ok(Command::Restore(Some(state)))
}
