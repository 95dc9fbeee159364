//! The part of the picture that a line asks for.

ghost use Rattle.std.specs.Prelude.{◌≡◌, true, ◌*ℤ◌, ◌≤ℤ◌, pos, IfOk};
ghost use Rattle.script_lines.specs.reading.Commands.{IsCommandInBounds};
ghost use Rattle.line_words.specs.words.Numbers.{IsWithin};
ghost use Rattle.script_lines.specs.reading.Pixels.{is_small, part_of, pixels_of};
ghost use Rattle.script_lines.specs.commands.PlainCommands.{plain_command};
ghost use Rattle.line_words.specs.words.Words.{map_ok, words};
ghost use Rattle.script_lines.specs.Numbers.{max_pixels, max_window};

use crate::commands::{Command, MAX_PIXELS, MAX_POINT, MAX_WINDOW};
use line_words::LineFault;
use line_words::words::end;
use line_words::words::number::{number, within};

/// Whether a part of this width and height has no more pixels than may be printed at once.
#[tactic(auto, unfolding(crate::specs::reading::Pixels::is_small))]
pub fn is_small(w: i32, h: i32) -> bool
    requires width { IsWithin (pos 1) max_window w }
    requires height { IsWithin (pos 1) max_window h }
    ensures value { result ≡ is_small w h }
    ensures small { result ≡ true → (w *ℤ h) ≤ℤ max_pixels }
{
    i64::from(w) * i64::from(h) <= MAX_PIXELS
}

/// A part within its bounds.
#[tactic(auto, unfolding(crate::specs::reading::Pixels::part_of))]
fn part(x: i64, y: i64, w: i64, h: i64) -> Result<Command<'static>, LineFault>
    ensures value { map_ok plain_command result ≡ part_of x y w h }
    ensures bounds { IfOk result IsCommandInBounds }
{
    let x = within(0, MAX_POINT, x)?;
    let y = within(0, MAX_POINT, y)?;
    let w = within(1, MAX_WINDOW, w)?;
    let h = within(1, MAX_WINDOW, h)?;
    if !is_small(w, h) {
        return Err(LineFault::Range);
    }
    Ok(Command::Pixels { x, y, w, h })
}

/// The part of the picture whose pixels are printed.
#[inline(never)]
#[tactic(auto, unfolding(crate::specs::reading::Pixels::pixels_of))]
pub fn pixels(bytes: &[u8]) -> Result<Command<'_>, LineFault>
    ensures value { map_ok plain_command result ≡ pixels_of (words bytes.now) }
    ensures bounds { IfOk result IsCommandInBounds }
{
    let (x, rest) = number(bytes)?;
    let (y, rest) = number(rest)?;
    let (w, rest) = number(rest)?;
    let (h, rest) = number(rest)?;
    end(rest)?;
    part(x, y, w, h)
}
