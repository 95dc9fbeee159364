//! What the line of a stack asks for.

ghost use Rattle.std.specs.Prelude.{◌≡◌, ◌≤◌, true, length, Err, IfOk};
ghost use Rattle.script_lines.specs.cutting.Lines.{is_passed_over};
ghost use Rattle.line_words.specs.words.Words.{map_ok, words};
ghost use Rattle.window_stack.specs.StackLines.{at_of, close_of, compose_of, given_of, in_of, is_touch_word, pane_of, part_by, plain_line, raise_of, stack_line_of, scancel_of, sdown_of, smove_of, sup_of, text_length_in, touch_line_by, IsStackLineInBounds, HasTextIn};
ghost use Rattle.script_lines.specs.reading.Commands.{IsCommandInBounds};
ghost use Rattle.script_lines.specs.commands.PlainCommands.{plain_command, text_length};
ghost use Rattle.window_stack.specs.Numbers.{max_pane};

use crate::lines::{MAX_CORNER, MAX_PANE, MIN_CORNER, StackLine};
use line_words::LineFault;
use line_words::words::number::{integer, natural_within, number, within};
use line_words::words::{end, is, is_text, word};
use script_lines::readers::{MAX_POINT, MAX_WINDOW, is_small, read_pointer, read_touch};
use script_lines::{Command, line};

/// The name of a window.
#[tactic(auto, unfolding(crate::specs::StackLines::pane_of))]
fn pane(n: i64) -> Result<u8, LineFault>
    ensures value { result ≡ pane_of n }
    ensures bounds { IfOk result (λ k. k ≤ max_pane) }
{
    let k = natural_within(0, MAX_PANE, n)?;
    Ok(k as u8)
}

/// The line `at K X Y`, without its first word.
#[tactic(auto, unfolding(crate::specs::StackLines::at_of))]
fn at(bytes: &[u8]) -> Result<StackLine<'_>, LineFault>
    ensures value { map_ok plain_line result ≡ at_of (words bytes.now) }
    ensures bounds { IfOk result IsStackLineInBounds }
    ensures short { IfOk result (HasTextIn bytes.now) }
{
    let (k, rest) = number(bytes)?;
    let (x, rest) = number(rest)?;
    let (y, rest) = number(rest)?;
    end(rest)?;
    let k = pane(k)?;
    let x = within(MIN_CORNER, MAX_CORNER, x)?;
    let y = within(MIN_CORNER, MAX_CORNER, y)?;
    Ok(StackLine::At { k, x, y })
}

/// The line `raise K`, without its first word.
#[tactic(auto, unfolding(crate::specs::StackLines::raise_of))]
fn raise(bytes: &[u8]) -> Result<StackLine<'_>, LineFault>
    ensures value { map_ok plain_line result ≡ raise_of (words bytes.now) }
    ensures bounds { IfOk result IsStackLineInBounds }
    ensures short { IfOk result (HasTextIn bytes.now) }
{
    let (k, rest) = number(bytes)?;
    end(rest)?;
    let k = pane(k)?;
    Ok(StackLine::Raise(k))
}

/// The line `close K`, without its first word.
#[tactic(auto, unfolding(crate::specs::StackLines::close_of))]
fn close(bytes: &[u8]) -> Result<StackLine<'_>, LineFault>
    ensures value { map_ok plain_line result ≡ close_of (words bytes.now) }
    ensures bounds { IfOk result IsStackLineInBounds }
    ensures short { IfOk result (HasTextIn bytes.now) }
{
    let (k, rest) = number(bytes)?;
    end(rest)?;
    let k = pane(k)?;
    Ok(StackLine::Close(k))
}

/// Whether a command that begins with this word is one of touch.
#[tactic(auto, unfolding(crate::specs::StackLines::is_touch_word))]
fn is_touch_word(head: &[u8]) -> bool
    ensures { result ≡ is_touch_word head.now }
{
    is(head, b"down") || is(head, b"move") || is(head, b"up") || is(head, b"cancel")
}

/// The command of a line that a window carries out, which is not one of touch.
#[tactic(auto, unfolding(crate::specs::StackLines::given_of))]
fn given(bytes: &[u8]) -> Result<Command<'_>, LineFault>
    ensures value { map_ok plain_command result ≡ given_of bytes.now }
    ensures bounds { IfOk result IsCommandInBounds }
    ensures short { IfOk result (λ command. text_length (plain_command command) ≤ length bytes.now) }
{
    let (head, _) = word(bytes)?;
    if is_touch_word(head) {
        return Err(LineFault::Syntax);
    }
    line(bytes)
}

/// The line `in K REST`, without its first word. The spaces in a text of `REST` count.
#[inline(never)]
#[tactic(auto, unfolding(crate::specs::StackLines::in_of))]
fn inside(bytes: &[u8]) -> Result<StackLine<'_>, LineFault>
    ensures value { map_ok plain_line result ≡ in_of bytes.now }
    ensures bounds { IfOk result IsStackLineInBounds }
    ensures short { IfOk result (HasTextIn bytes.now) }
{
    let (name, rest) = word(bytes)?;
    let k = integer(name)?;
    let command = given(rest)?;
    let k = pane(k)?;
    Ok(StackLine::In { k, command })
}

/// A part of the stack, within its bounds.
#[tactic(auto, unfolding(crate::specs::StackLines::part_by))]
fn part(x: i64, y: i64, w: i64, h: i64) -> Result<StackLine<'static>, LineFault>
    ensures value { map_ok plain_line result ≡ part_by x y w h }
    ensures bounds { IfOk result IsStackLineInBounds }
    ensures short { IfOk result (λ line. text_length_in (plain_line line) ≡ 0) }
{
    let x = within(0, MAX_POINT, x)?;
    let y = within(0, MAX_POINT, y)?;
    let w = within(1, MAX_WINDOW, w)?;
    let h = within(1, MAX_WINDOW, h)?;
    if !is_small(w, h) {
        return Err(LineFault::Range);
    }
    Ok(StackLine::Compose { x, y, w, h })
}

/// The line `compose x y w h`, without its first word.
#[inline(never)]
#[tactic(auto, unfolding(crate::specs::StackLines::compose_of))]
fn compose(bytes: &[u8]) -> Result<StackLine<'_>, LineFault>
    ensures value { map_ok plain_line result ≡ compose_of (words bytes.now) }
    ensures bounds { IfOk result IsStackLineInBounds }
    ensures short { IfOk result (HasTextIn bytes.now) }
{
    let (x, rest) = number(bytes)?;
    let (y, rest) = number(rest)?;
    let (w, rest) = number(rest)?;
    let (h, rest) = number(rest)?;
    end(rest)?;
    part(x, y, w, h)
}

/// The line `sdown p x y`, without its first word.
fn sdown(bytes: &[u8]) -> Result<StackLine<'_>, LineFault>
    ensures value { map_ok plain_line result ≡ sdown_of (words bytes.now) }
    ensures bounds { IfOk result IsStackLineInBounds }
    ensures short { IfOk result (HasTextIn bytes.now) }
{
    let touch = read_touch(bytes)?;
    Ok(StackLine::Down {
        p: touch.pointer,
        x: touch.x,
        y: touch.y,
    })
}

/// The line `smove p x y`, without its first word.
fn smove(bytes: &[u8]) -> Result<StackLine<'_>, LineFault>
    ensures value { map_ok plain_line result ≡ smove_of (words bytes.now) }
    ensures bounds { IfOk result IsStackLineInBounds }
    ensures short { IfOk result (HasTextIn bytes.now) }
{
    let touch = read_touch(bytes)?;
    Ok(StackLine::Move {
        p: touch.pointer,
        x: touch.x,
        y: touch.y,
    })
}

/// The line `sup p`, without its first word.
#[tactic(auto, unfolding(crate::specs::StackLines::sup_of))]
fn sup(bytes: &[u8]) -> Result<StackLine<'_>, LineFault>
    ensures value { map_ok plain_line result ≡ sup_of (words bytes.now) }
    ensures bounds { IfOk result IsStackLineInBounds }
    ensures short { IfOk result (HasTextIn bytes.now) }
{
    let (id, rest) = number(bytes)?;
    end(rest)?;
    let pointer = read_pointer(id)?;
    Ok(StackLine::Up(pointer))
}

/// The line `scancel`, without its first word.
#[tactic(auto, unfolding(crate::specs::StackLines::scancel_of))]
fn scancel(bytes: &[u8]) -> Result<StackLine<'_>, LineFault>
    ensures value { map_ok plain_line result ≡ scancel_of (words bytes.now) }
    ensures bounds { IfOk result IsStackLineInBounds }
    ensures short { IfOk result (HasTextIn bytes.now) }
{
    end(bytes)?;
    Ok(StackLine::Cancel)
}

/// A line of touch, by its first word and what follows it.
#[inline(never)]
fn read_touch_line<'a>(head: &[u8], bytes: &'a [u8]) -> Result<StackLine<'a>, LineFault>
    ensures value { map_ok plain_line result ≡ touch_line_by head.now (words bytes.now) }
    ensures bounds { IfOk result IsStackLineInBounds }
    ensures short { IfOk result (HasTextIn bytes.now) }
{
    if is(head, b"sdown") {
        return sdown(bytes);
    }
    if is(head, b"smove") {
        return smove(bytes);
    }
    if is(head, b"sup") {
        return sup(bytes);
    }
    if is(head, b"scancel") {
        return scancel(bytes);
    }
    Err(LineFault::Syntax)
}

/// What a line of a stack asks for. A fault of the grammar counts before a number outside its bounds, wherever the two
/// are. A line that is passed over asks for nothing.
#[tactic(auto, unfolding(crate::specs::StackLines::stack_line_of, crate::specs::StackLines::stack_line_by), using(crate::proofs::TextLaws::short_in))]
pub fn stack_line(bytes: &[u8]) -> Result<StackLine<'_>, LineFault>
    ensures value { map_ok plain_line result ≡ stack_line_of bytes.now }
    ensures bounds { IfOk result IsStackLineInBounds }
    ensures passed { is_passed_over bytes.now ≡ true → result ≡ Err LineFault.Syntax }
    ensures short { IfOk result (HasTextIn bytes.now) }
{
    if !is_text(bytes) {
        return Err(LineFault::Syntax);
    }
    let (head, rest) = word(bytes)?;
    if is(head, b"at") {
        return at(rest);
    }
    if is(head, b"raise") {
        return raise(rest);
    }
    if is(head, b"close") {
        return close(rest);
    }
    if is(head, b"in") {
        return inside(rest);
    }
    if is(head, b"compose") {
        return compose(rest);
    }
    read_touch_line(head, rest)
}
