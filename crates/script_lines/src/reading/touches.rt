//! What a pointer does, and where.

ghost use Rattle.std.specs.Prelude.{◌≡◌, ◌≤◌, IfOk};
ghost use Rattle.script_lines.specs.reading.Commands.{IsCommandInBounds};
ghost use Rattle.script_lines.specs.commands.PlainCommands.{plain_command};
ghost use Rattle.script_lines.specs.reading.Touches.{IsTouchInBounds, cancel_of, down_of, move_of, pointer_of, touch_of, up_of};
ghost use Rattle.line_words.specs.words.Words.{map_ok, words};
ghost use Rattle.script_lines.specs.Numbers.{max_pointer};

use crate::commands::{Command, MAX_POINTER, MAX_TOUCH, MIN_TOUCH};
use line_words::LineFault;
use line_words::words::end;
use line_words::words::number::{natural_within, number, within};

/// A pointer, and where it is.
#[derive(Clone, Copy)]
pub struct Touch {
    pub pointer: u8,
    pub x: i32,
    pub y: i32,
}

/// The pointer of this id.
#[tactic(auto, unfolding(crate::specs::reading::Touches::pointer_of))]
pub fn read_pointer(id: i64) -> Result<u8, LineFault>
    ensures value { result ≡ pointer_of id }
    ensures bounds { IfOk result (λ pointer. pointer ≤ max_pointer) }
{
    let pointer = natural_within(0, MAX_POINTER, id)?;
    Ok(pointer as u8)
}

/// The pointer and the point that end a line.
#[tactic(auto, unfolding(crate::specs::reading::Touches::touch_of))]
pub fn read_touch(bytes: &[u8]) -> Result<Touch, LineFault>
    ensures value { result ≡ touch_of (words bytes.now) }
    ensures bounds { IfOk result (λ touch. IsTouchInBounds touch.pointer touch.x touch.y) }
{
    let (id, rest) = number(bytes)?;
    let (x, rest) = number(rest)?;
    let (y, rest) = number(rest)?;
    end(rest)?;
    let pointer = read_pointer(id)?;
    let x = within(MIN_TOUCH, MAX_TOUCH, x)?;
    let y = within(MIN_TOUCH, MAX_TOUCH, y)?;
    Ok(Touch { pointer, x, y })
}

/// A pointer goes down.
#[inline(never)]
pub fn down(bytes: &[u8]) -> Result<Command<'_>, LineFault>
    ensures value { map_ok plain_command result ≡ down_of (words bytes.now) }
    ensures bounds { IfOk result IsCommandInBounds }
{
    let touch = read_touch(bytes)?;
    Ok(Command::Down {
        p: touch.pointer,
        x: touch.x,
        y: touch.y,
    })
}

/// A pointer moves.
#[inline(never)]
pub fn moved(bytes: &[u8]) -> Result<Command<'_>, LineFault>
    ensures value { map_ok plain_command result ≡ move_of (words bytes.now) }
    ensures bounds { IfOk result IsCommandInBounds }
{
    let touch = read_touch(bytes)?;
    Ok(Command::Move {
        p: touch.pointer,
        x: touch.x,
        y: touch.y,
    })
}

/// A pointer goes up.
#[inline(never)]
#[tactic(auto, unfolding(crate::specs::reading::Touches::up_of))]
pub fn up(bytes: &[u8]) -> Result<Command<'_>, LineFault>
    ensures value { map_ok plain_command result ≡ up_of (words bytes.now) }
    ensures bounds { IfOk result IsCommandInBounds }
{
    let (id, rest) = number(bytes)?;
    end(rest)?;
    let pointer = read_pointer(id)?;
    Ok(Command::Up(pointer))
}

/// The gesture is taken away.
#[tactic(auto, unfolding(crate::specs::reading::Touches::cancel_of))]
pub fn cancel(bytes: &[u8]) -> Result<Command<'_>, LineFault>
    ensures value { map_ok plain_command result ≡ cancel_of (words bytes.now) }
    ensures bounds { IfOk result IsCommandInBounds }
{
    end(bytes)?;
    Ok(Command::Cancel)
}
