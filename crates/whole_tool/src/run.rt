//! A script that is carried out as its bytes come.
//!
//! The work of a run goes along with its text, and not in a list of its own: the lines that were written are those that
//! were paid for.

ghost use Rattle.std.specs.Prelude.{nat_lt, ◌≡◌, ℕ, ◌+◌, ◌-◌, ◌*◌, ◌<◌, ◌≤◌, ◌^◌, List, ◌∷◌, [], ◌++◌, Option, Some, OnOk, IfOk, IfErr, IfSome, length, take};
ghost use Rattle.script_lines.specs.cutting.LineBuffer.{IsLent, lines_at};
ghost use Rattle.script_lines.specs.cutting.Lines.{Line, cut_of, is_idle, lines_of, max_line};
ghost use Rattle.tool_io.specs.Fetched.{Files};
ghost use Rattle.view_model.specs.declared.work.Work.{Work};
ghost use Rattle.whole_tool.specs.Carried.{Carried};
ghost use Rattle.whole_tool.specs.Carrier.{IsFirst, carried_of, next_of};
ghost use Rattle.whole_tool.specs.Numbers.{max_views, numbers_end};
ghost use Rattle.whole_tool.specs.Run.{CountsFetches, CountsWrites, HasCarriedOut, HasReadUpTo, IsShort, StopsIn, WithFiles, line_now, lines_now};
ghost use Rattle.whole_tool.specs.Tally.{Tally, tally_from, with_cost};
ghost use Rattle.whole_tool.specs.Transcript.{ScriptProgress, after_line, after_from};
ghost use Rattle.whole_tool.specs.Works.{Trace, trace};
ghost use Rattle.view_model.specs.Works.{KeepsPainted, KeepsMeasured};
ghost use Rattle.world_parts.specs.Shelves.{KeepsFiles};

use crate::carrier::Carrier;
use script_lines::{Ended, LinePlace, Lines, passes_over};
use std::alloc::Global;
use text_lines::TextBuffer;
use tool_io::{Shelf, Sink};
use tool_replies::write_refusal;
use view_model::Work;
use world_parts::StepFault;

/// What ends a run before its last line.
#[derive(Clone, Copy)]
pub enum Stop {
    Sink,
    NoMemory,
    /// A fetch failed.
    Shelf,
}

/// The state of a run, line by line.
#[derive(Drop)]
pub struct LineRunner {
    /// Where what the lines make is allocated.
    alloc: Global,
    carrier: Carrier,
    /// How many lines were taken, including those that are passed over.
    lines: u64,
    /// How many of them were refused.
    refused: u64,
    /// What gathers the texts that report refusals.
    text: TextBuffer,
}

impl LineRunner {
    /// Before the first line.
    pub fn new(alloc: Global, carrier: Carrier) -> LineRunner
        ensures carrier { result.carrier ≡ carrier }
        ensures lines { result.lines ≡ 0 }
        ensures refused { result.refused ≡ 0 }
    {
        LineRunner {
            alloc,
            carrier,
            lines: 0,
            refused: 0,
            text: TextBuffer::new(),
        }
    }

    /// How many lines were refused so far.
    pub fn refused(&self) -> u64
        ensures { result ≡ self.now.refused }
    {
        self.refused
    }

    /// Takes the next line, which is carried out unless it is passed over. `None` is a line that is too long.
    #[inline]
    pub fn line<K: Sink, F: Shelf>(
        &mut self,
        line: Option<&[u8]>,
        shelf: &mut F,
        sink: &mut K,
        work: &mut Work,
    ) -> Result<(), Stop>
        requires numbered { next_of self.old.carrier < numbers_end }
        requires short { IsShort line }
        ensures done { (files : Files) (first : Trace) (progress : ScriptProgress) (tally : Tally)
            → F.files shelf.old ≡ Some files
            → progress.lines < 2 ^ 63
            → HasCarriedOut first (trace (K.state sink.old) work.old (F.fetches shelf.old)) self.old progress tally
            → OnOk result (HasCarriedOut first (trace (K.state sink.new) work.new (F.fetches shelf.new)) self.new
            (after_line files progress (line_now line.entry)) (with_cost files tally (line_now line.entry))) }
        ensures stopped { (start : Carried) (files : Files) (first : Trace) (lines : List Line)
            → F.files shelf.old ≡ Some files
            → length lines < 2 ^ 63
            → HasCarriedOut first (trace (K.state sink.old) work.old (F.fetches shelf.old)) self.old
            (after_from start files lines) (tally_from start files lines)
            → IfErr result (StopsIn start files first (trace (K.state sink.new) work.new (F.fetches shelf.new))
            (lines ++ line_now line.entry ∷ [])) }
        ensures numbers { next_of self.new.carrier ≤ next_of self.old.carrier + max_views }
        ensures files_stay { KeepsFiles (F.files shelf.old) (F.files shelf.new) }
        ensures shelf_failed { CountsFetches (F.faults shelf.old) (F.faults shelf.new) result }
        ensures painted { KeepsPainted work.old work.new }
        ensures measured { KeepsMeasured work.old work.new }
        ensures counted { CountsWrites (K.state sink.old).faults (K.state sink.new).faults result }
    {
        self.lines = self.lines.saturating_add(1);
        if is_passed(line) {
            return Ok(());
        }
        match self.carrier.carry_out(self.alloc, line, shelf, sink, work) {
            Ok(()) => Ok(()),
            Err(StepFault::Refused(refusal)) => {
                self.refused = self.refused.saturating_add(1);
                match write_refusal(&mut self.text, sink, self.lines, &refusal) {
                    Ok(()) => Ok(()),
                    Err(_) => Err(Stop::Sink),
                }
            }
            Err(StepFault::NoMemory) => Err(Stop::NoMemory),
            Err(StepFault::Sink) => Err(Stop::Sink),
            Err(StepFault::Shelf) => Err(Stop::Shelf),
        }
    }
}

/// Whether a line is passed over. `None` is a line that is too long.
#[inline]
fn is_passed(line: Option<&[u8]>) -> bool
    ensures { result ≡ is_idle (line_now line.entry) }
{
    match line {
        None => false,
        Some(bytes) => passes_over(bytes),
    }
}

/// The line that has ended, if one has: one in a piece, or the one that is held. `None` in it is a line that is too
/// long.
#[inline]
fn ended_line<'a>(place: LinePlace, piece: &'a [u8], held: &'a [u8]) -> Option<Option<&'a [u8]>>
    requires lent { IsLent place (length piece.now) }
    requires short { length held.now ≤ max_line }
    ensures line { lines_now result ≡ lines_at place piece.now held.now }
    ensures short { IfSome result (λ line. IsShort line) }
{
    match place {
        LinePlace::No => None,
        LinePlace::Piece(len) => Some(Some(&piece[..len])),
        LinePlace::Held => Some(Some(held)),
        LinePlace::Long => Some(None),
    }
}

/// A script that is being carried out: each line as soon as its line feed has come.
#[derive(Drop)]
pub struct Run {
    lines: Lines,
    runner: LineRunner,
}

impl Run {
    /// A run of no lines yet.
    pub fn new(alloc: Global, carrier: Carrier) -> Run
        requires { IsFirst carrier }
        ensures following { (shelf : Option Files) (first : Trace)
            → HasReadUpTo (carried_of result.runner.carrier) shelf first first result [] }
        ensures carrier { result.runner.carrier ≡ carrier }
        ensures numbers { next_of result.runner.carrier ≡ 1 }
    {
        Run {
            lines: Lines::new(),
            runner: LineRunner {
                alloc,
                carrier,
                lines: 0,
                refused: 0,
                text: TextBuffer::new(),
            },
        }
    }

    /// Whether a line was refused so far.
    pub fn refused(&self) -> bool
        ensures { result ≡ nat_lt 0 self.now.runner.refused }
    {
        self.runner.refused > 0
    }

    /// How many lines were taken so far, and how many of them were refused.
    pub fn counts(&self) -> (u64, u64)
        ensures { result ≡ (self.now.runner.lines, self.now.runner.refused) }
    {
        (self.runner.lines, self.runner.refused)
    }

    /// What the lines so far have made.
    pub fn carrier(&self) -> &Carrier
        ensures { result.now ≡ self.now.runner.carrier }
    {
        &self.runner.carrier
    }

    /// Takes the bytes of a piece up to its first line feed, or all of them, and carries out the line that they end.
    fn take<K: Sink, F: Shelf>(
        &mut self,
        piece: &[u8],
        shelf: &mut F,
        sink: &mut K,
        work: &mut Work,
    ) -> Result<usize, Stop>
        requires { next_of self.old.runner.carrier < numbers_end }
        ensures within { IfOk result (λ n. n ≤ length piece.now) }
        ensures some { 0 < length piece.now → IfOk result (λ n. 0 < n) }
        ensures done { (start : Carried) (first : Trace) (before : List ℕ)
            → length (before ++ piece.now) < 2 ^ 63
            → HasReadUpTo start (F.files shelf.old) first
            (trace (K.state sink.old) work.old (F.fetches shelf.old)) self.old before
            → IfOk result (λ n. HasReadUpTo start (F.files shelf.old) first
            (trace (K.state sink.new) work.new (F.fetches shelf.new)) self.new (before ++ take n piece.now)) }
        ensures stopped { (start : Carried) (first : Trace) (before : List ℕ)
            → length before < 2 ^ 63
            → HasReadUpTo start (F.files shelf.old) first
            (trace (K.state sink.old) work.old (F.fetches shelf.old)) self.old before
            → IfErr result (λ stop. WithFiles (F.files shelf.old) (λ files. StopsIn start files first
            (trace (K.state sink.new) work.new (F.fetches shelf.new)) (cut_of (before ++ piece.now)).lines stop)) }
        ensures numbers { next_of self.new.runner.carrier ≤ next_of self.old.runner.carrier + max_views }
        ensures files_stay { KeepsFiles (F.files shelf.old) (F.files shelf.new) }
        ensures shelf_failed { CountsFetches (F.faults shelf.old) (F.faults shelf.new) result }
        ensures painted { KeepsPainted work.old work.new }
        ensures measured { KeepsMeasured work.old work.new }
        ensures counted { CountsWrites (K.state sink.old).faults (K.state sink.new).faults result }
    {
        let passed = self.lines.passed_over(piece);
        if passed.bytes > 0 {
            self.runner.lines = self.runner.lines.saturating_add(passed.lines);
            return Ok(passed.bytes);
        }
        let (used, place) = self.lines.next_line(piece);
        let Some(line) = ended_line(place, piece, self.lines.bytes()) else {
            return Ok(used);
        };
        self.runner.line(line, shelf, sink, work)?;
        Ok(used)
    }

    /// Takes a piece of the script, and carries out each line that ends in it.
    pub fn piece<K: Sink, F: Shelf>(
        &mut self,
        piece: &[u8],
        shelf: &mut F,
        sink: &mut K,
        work: &mut Work,
    ) -> Result<(), Stop>
        requires { next_of self.old.runner.carrier + max_views * length piece.now < numbers_end }
        ensures done { (start : Carried) (first : Trace) (before : List ℕ)
            → length (before ++ piece.now) < 2 ^ 63
            → HasReadUpTo start (F.files shelf.old) first
            (trace (K.state sink.old) work.old (F.fetches shelf.old)) self.old before
            → OnOk result (HasReadUpTo start (F.files shelf.old) first
            (trace (K.state sink.new) work.new (F.fetches shelf.new)) self.new (before ++ piece.now)) }
        ensures stopped { (start : Carried) (first : Trace) (before : List ℕ)
            → length (before ++ piece.now) < 2 ^ 63
            → HasReadUpTo start (F.files shelf.old) first
            (trace (K.state sink.old) work.old (F.fetches shelf.old)) self.old before
            → IfErr result (λ stop. WithFiles (F.files shelf.old) (λ files. StopsIn start files first
            (trace (K.state sink.new) work.new (F.fetches shelf.new)) (cut_of (before ++ piece.now)).lines stop)) }
        ensures numbers { next_of self.new.runner.carrier
            ≤ next_of self.old.runner.carrier + max_views * length piece.now }
        ensures files_stay { KeepsFiles (F.files shelf.old) (F.files shelf.new) }
        ensures shelf_failed { CountsFetches (F.faults shelf.old) (F.faults shelf.new) result }
        ensures painted { KeepsPainted work.old work.new }
        ensures measured { KeepsMeasured work.old work.new }
        ensures counted { CountsWrites (K.state sink.old).faults (K.state sink.new).faults result }
    {
        let mut at = 0;
        while at < piece.len() {
            at += self.take(&piece[at..], shelf, sink, work)?;
        }
        Ok(())
    }

    /// Carries out the rest of the script, which no line feed ends.
    pub fn finish<K: Sink, F: Shelf>(
        &mut self,
        shelf: &mut F,
        sink: &mut K,
        work: &mut Work,
    ) -> Result<(), Stop>
        requires { next_of self.old.runner.carrier < numbers_end }
        ensures done { (start : Carried) (files : Files) (first : Trace) (script : List ℕ)
            → F.files shelf.old ≡ Some files
            → length script < 2 ^ 63
            → HasReadUpTo start (F.files shelf.old) first
            (trace (K.state sink.old) work.old (F.fetches shelf.old)) self.old script
            → OnOk result (HasCarriedOut first (trace (K.state sink.new) work.new (F.fetches shelf.new)) self.new.runner
            (after_from start files (lines_of script)) (tally_from start files (lines_of script))) }
        ensures stopped { (start : Carried) (files : Files) (first : Trace) (script : List ℕ)
            → F.files shelf.old ≡ Some files
            → length script < 2 ^ 63
            → HasReadUpTo start (F.files shelf.old) first
            (trace (K.state sink.old) work.old (F.fetches shelf.old)) self.old script
            → IfErr result
            (StopsIn start files first (trace (K.state sink.new) work.new (F.fetches shelf.new)) (lines_of script)) }
        ensures files_stay { KeepsFiles (F.files shelf.old) (F.files shelf.new) }
        ensures shelf_failed { CountsFetches (F.faults shelf.old) (F.faults shelf.new) result }
        ensures painted { KeepsPainted work.old work.new }
        ensures measured { KeepsMeasured work.old work.new }
        ensures counted { CountsWrites (K.state sink.old).faults (K.state sink.new).faults result }
    {
        match self.lines.finish() {
            Ended::No => Ok(()),
            Ended::Line => {
                let line = Some(self.lines.bytes());
                self.runner.line(line, shelf, sink, work)
            }
            Ended::Long => self.runner.line(None, shelf, sink, work),
        }
    }
}
