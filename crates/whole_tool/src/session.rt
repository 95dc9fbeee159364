//! A script whose lines come one at a time, each of which is answered before the next one comes.

ghost use Rattle.std.specs.Prelude.{◌≡◌, ◌+◌, ◌*◌, ◌<◌, Option, Some};
ghost use Rattle.script_lines.specs.cutting.Lines.{line_of};
ghost use Rattle.whole_tool.specs.Carrier.{next_of};
ghost use Rattle.whole_tool.specs.Numbers.{max_views, numbers_end};
ghost use Rattle.whole_tool.specs.Run.{CountsFetches, CountsWrites, IsShort, line_now};
ghost use Rattle.world_parts.specs.Shelves.{KeepsFiles};

use crate::carrier::Carrier;
use crate::run::{LineRunner, Stop};
use std::alloc::Global;
use tool_io::{Shelf, Sink};
use view_model::Work;

/// The most lines that a session takes.
const MAX_LINES: u64 = 4294967296;

/// The most bytes that a line may have before its line feed, a carriage return counted.
const MAX_LINE: usize = 1024;

/// A script that is carried out one line at a time, from the empty world.
#[derive(Drop)]
pub struct Session {
    runner: LineRunner,
    /// How many lines it still takes.
    left: u64,
    ghost numbered: { next_of runner.carrier + max_views * left < numbers_end },
}

impl Session {
    ghost use Rattle.std.specs.Prelude.{◌≡◌, ◌==◌, ℕ, false, List, [], Some, OnOk, IfOk};
    ghost use Rattle.tool_io.specs.Fetched.{Files};
    ghost use Rattle.whole_tool.specs.Session.{HasRun, IsAnswered, has_line_feed, with_line};

    /// A session of no lines yet.
    pub fn new(alloc: Global) -> Session
        ensures { (files : Files) → HasRun files [] result }
    {
        Session {
            runner: LineRunner::new(alloc, Carrier::alone(alloc)),
            left: MAX_LINES,
        }
    }

    /// Whether it takes no more lines.
    pub fn is_full(&self) -> bool
        ensures { result ≡ (self.now.left == 0) }
    {
        self.left == 0
    }

    /// Carries out one more line, and writes its text. Returns whether it was refused. After an error the session is of no
    /// more use.
    pub fn line<K: Sink, F: Shelf>(
        &mut self,
        bytes: &[u8],
        shelf: &mut F,
        sink: &mut K,
    ) -> Result<bool, Stop>
        requires room { (self.old.left == 0) ≡ false }
        requires one { has_line_feed bytes.now ≡ false }
        ensures run { (files : Files) (script : List ℕ)
            → F.files shelf.old ≡ Some files
            → HasRun files script self.old
            → OnOk result (HasRun files (with_line script bytes.now) self.new) }
        ensures answered { (files : Files) (script : List ℕ)
            → F.files shelf.old ≡ Some files
            → HasRun files script self.old
            → IfOk result (IsAnswered files script bytes.now (K.state sink.old).gone (K.state sink.new).gone) }
        ensures files_stay { KeepsFiles (F.files shelf.old) (F.files shelf.new) }
        ensures shelf_failed { CountsFetches (F.faults shelf.old) (F.faults shelf.new) result }
        ensures counted { CountsWrites (K.state sink.old).faults (K.state sink.new).faults result }
    {
        self.left -= 1;
        let before = self.runner.refused();
        let mut work = Work {
            measured: 0,
            painted: 0,
        };
        self.runner.line(line_in(bytes), shelf, sink, &mut work)?;
        Ok(self.runner.refused() > before)
    }
}

/// The line of the bytes before a line feed: without a carriage return at their end, or `None` if they are too many.
#[tactic(auto, unfolding(script_lines::specs::cutting::Lines::line_of, script_lines::specs::cutting::Lines::without_return))]
fn line_in(bytes: &[u8]) -> Option<&[u8]>
    ensures line { line_now result ≡ line_of bytes.now }
    ensures short { IsShort result }
{
    if bytes.len() > MAX_LINE {
        return None;
    }
    if !bytes.is_empty() && bytes[bytes.len() - 1] == b'\r' {
        return Some(&bytes[..bytes.len() - 1]);
    }
    Some(bytes)
}
