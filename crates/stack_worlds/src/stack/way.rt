//! Where a line of a stack goes.

ghost use Rattle.std.specs.Prelude.{◌≡◌, ◌<◌, ◌^◌, true, IfSome, Some};
ghost use Rattle.script_lines.specs.reading.Commands.{IsInBounds};
ghost use Rattle.script_lines.specs.commands.PlainCommands.{Down, Move, plain_command, text_length};
ghost use Rattle.line_words.specs.words.Numbers.{IsWithin};
ghost use Rattle.script_lines.specs.reading.Touches.{IsTouchInBounds};
ghost use Rattle.stack_worlds.specs.KeptStack.{stack_of};
ghost use Rattle.stack_worlds.specs.Numbers.{max_touch, min_touch};
ghost use Rattle.stack_worlds.specs.PlainStack.{Given as GivenTo, ToStack, from_corner, from_edge, target_of, way_down, way_held, way_move, way_of, way_open};
ghost use Rattle.stack_worlds.specs.StackCarried.{IsOwnSound, IsWaySound, plain_way};
ghost use Rattle.window_stack.specs.PlainPanes.{corner_of, is_open, IsPane};
ghost use Rattle.window_stack.specs.StackLines.{IsLineInBounds, plain_line, text_length_in};

use crate::stack::Stack;
use script_lines::Command;
use view_model::refusals::{POINTER, RANGE};
use window_stack::StackLine;

/// The line names a window that is not open.
pub const NO_PANE: u8 = 43;

/// The least coordinate of a touch in a window, in pixels.
const MIN_TOUCH: i64 = -1048576;

/// The greatest coordinate of a touch in a window, in pixels.
const MAX_TOUCH: i64 = 1048576;

/// A command for a window.
#[derive(Drop)]
pub struct Given<'a> {
    /// The window that has the gesture if the command is accepted, as long as a pointer is down in it.
    pub holder: Option<u8>,
    pub k: u8,
    pub command: Command<'a>,
}

/// What a line does to the stack itself. Its numbers are those of the line.
#[derive(Clone, Copy)]
pub enum Own {
    At { k: u8, x: i32, y: i32 },
    Raise(u8),
    Close(u8),
    Compose { x: i32, y: i32, w: i32, h: i32 },
}

/// Where a line goes.
#[derive(Drop)]
pub enum Way<'a> {
    Given(Given<'a>),
    /// A pointer goes down where no window is.
    Missed,
    /// The number of the refusal.
    Refused(u8),
    Own(Own),
}

impl Stack {
    /// Where a line goes, before any world is asked.
    pub fn way<'a>(&self, line: StackLine<'a>) -> Way<'a>
        requires bounds { IsLineInBounds (plain_line line) }
        requires short { text_length_in (plain_line line) < 2 ^ 31 }
        ensures value { plain_way result ≡ way_of (stack_of self.now) (plain_line line.entry) }
        ensures sound { IsWaySound (stack_of self.now) (plain_way result) }
    {
        match line {
            StackLine::At { k, x, y } => Way::Own(Own::At { k, x, y }),
            StackLine::Raise(k) => self.way_open(k, Own::Raise(k)),
            StackLine::Close(k) => self.way_open(k, Own::Close(k)),
            StackLine::In { k, command } => self.way_in(k, command),
            StackLine::Compose { x, y, w, h } => Way::Own(Own::Compose { x, y, w, h }),
            StackLine::Down { p, x, y } => self.way_down(p, x, y),
            StackLine::Move { p, x, y } => self.way_move(p, x, y),
            StackLine::Up(p) => self.way_held(Command::Up(p)),
            StackLine::Cancel => self.way_held(Command::Cancel),
        }
    }

    /// The way of a line that asks for an open window.
    fn way_open<'a>(&self, k: u8, own: Own) -> Way<'a>
        requires sound { is_open self.now.panes k ≡ true → IsOwnSound (stack_of self.now) own }
        ensures value { plain_way result ≡ way_open (stack_of self.now) k (ToStack own) }
        ensures sound { IsWaySound (stack_of self.now) (plain_way result) }
    {
        if self.is_open(k) {
            Way::Own(own)
        } else {
            Way::Refused(NO_PANE)
        }
    }

    /// The way of a command that names its window.
    fn way_in<'a>(&self, k: u8, command: Command<'a>) -> Way<'a>
        requires name { IsPane k }
        requires bounds { IsInBounds (plain_command command) }
        requires short { text_length (plain_command command) < 2 ^ 31 }
        ensures value { plain_way result
            ≡ way_open (stack_of self.now) k (GivenTo self.now.panes.holder k (plain_command command.entry)) }
        ensures sound { IsWaySound (stack_of self.now) (plain_way result) }
    {
        if !self.is_open(k) {
            return Way::Refused(NO_PANE);
        }
        Way::Given(Given {
            holder: self.panes.holder(),
            k,
            command,
        })
    }

    /// The way of a pointer that goes down: to the window that has the gesture, or else to the topmost one there.
    fn way_down<'a>(&self, p: u8, x: i32, y: i32) -> Way<'a>
        requires { IsTouchInBounds p x y }
        ensures value { plain_way result
            ≡ way_down (stack_of self.now) p x y (target_of (stack_of self.now) x y self.now.panes.holder) }
        ensures sound { IsWaySound (stack_of self.now) (plain_way result) }
    {
        let k = match self.panes.holder() {
            Some(k) => Some(k),
            None => self.panes.under(x, y, &self.sizes()),
        };
        let Some(k) = k else {
            return Way::Missed;
        };
        match self.from_corner(k, x, y) {
            Some((x, y)) => way_to(k, Command::Down { p, x, y }),
            None => Way::Refused(RANGE),
        }
    }

    /// The way of a pointer that moves: to the window that has the gesture.
    fn way_move<'a>(&self, p: u8, x: i32, y: i32) -> Way<'a>
        requires { IsTouchInBounds p x y }
        ensures value { plain_way result ≡ way_move (stack_of self.now) p x y self.now.panes.holder }
        ensures sound { IsWaySound (stack_of self.now) (plain_way result) }
    {
        let Some(k) = self.panes.holder() else {
            return Way::Refused(POINTER);
        };
        match self.from_corner(k, x, y) {
            Some((x, y)) => way_to(k, Command::Move { p, x, y }),
            None => Way::Refused(RANGE),
        }
    }

    /// The way of a command to the window that has the gesture.
    fn way_held<'a>(&self, command: Command<'a>) -> Way<'a>
        requires bounds { IsInBounds (plain_command command) }
        requires short { text_length (plain_command command) < 2 ^ 31 }
        ensures value { plain_way result ≡ way_held (plain_command command.entry) self.now.panes.holder }
        ensures sound { IsWaySound (stack_of self.now) (plain_way result) }
    {
        match self.panes.holder() {
            Some(k) => way_to(k, command),
            None => Way::Refused(POINTER),
        }
    }

    /// A point of the stack by the coordinates of a window, if a touch can be there.
    fn from_corner(&self, k: u8, x: i32, y: i32) -> Option<(i32, i32)>
        ensures value { result ≡ from_corner (corner_of self.now.panes k) x y }
        ensures within { IfSome result
            (λ point. IsWithin min_touch max_touch point.0 × IsWithin min_touch max_touch point.1) }
    {
        let (left, top) = self.panes.corner(k)?;
        let x = from_edge(left, x)?;
        let y = from_edge(top, y)?;
        Some((x, y))
    }
}

/// The way of a command to the window that has the gesture after it.
fn way_to<'a>(k: u8, command: Command<'a>) -> Way<'a>
    ensures { plain_way result ≡ GivenTo (Some k) k (plain_command command.entry) }
{
    Way::Given(Given {
        holder: Some(k),
        k,
        command,
    })
}

/// How far a coordinate is from an edge, if a touch can be that far from it.
fn from_edge(edge: i32, at: i32) -> Option<i32>
    ensures value { result ≡ from_edge edge at }
    ensures within { IfSome result (λ at. IsWithin min_touch max_touch at) }
{
    let distance = i64::from(at) - i64::from(edge);
    if MIN_TOUCH <= distance && distance <= MAX_TOUCH {
        Some(distance as i32)
    } else {
        None
    }
}
