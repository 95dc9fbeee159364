//! The whole tool.
//!
//! `tool` has no precondition: callers owe nothing. Running out of memory may count as a failed fetch, since the shelf
//! may have counted first; so `shelf_failed` leaves out the status of no memory.

ghost use Rattle.std.specs.Prelude.{◌≡◌, ℕ, ◌≤◌, List, Some, length};
ghost use Rattle.stack_worlds.specs.PlainStack.{empty_stack};
ghost use Rattle.tool_io.specs.Fetched.{Files};
ghost use Rattle.world_parts.specs.World.{empty_world};
ghost use Rattle.whole_tool.specs.Carried.{Alone, Stacked};
ghost use Rattle.whole_tool.specs.Outside.{EndsWith, outside};
ghost use Rattle.whole_tool.specs.Promises.{FetchesFiles, CountsWork, HasStatus, LeavesAlone, LeavesRest, ReportsFailures, ReportsRefusals, Stops, WritesPages, failures};
ghost use Rattle.whole_tool.specs.Tool.{IsRunOf, RunsWith, given};
ghost use Rattle.tool_replies.specs.Endings.{Writes};
ghost use Rattle.whole_tool.specs.Transcript.{max_script, transcript};
ghost use Rattle.whole_tool.specs.Usage.{usage};
ghost use Rattle.whole_tool.specs.Works.{trace};
ghost use Rattle.whole_tool.specs.WorksWith.{WorksWith, WorksWithFrom};

use crate::carrier::Carrier;
use crate::loading::run_load;
use crate::script::run_to_end;
use crate::status::status;
use crate::usage::{Form, form_of};
use std::alloc::Global;
use tool_io::{Shelf, Sink, Source};
use tool_replies::dump::dump;
use tool_replies::lookup::lookup;
use tool_replies::status::USAGE;
use view_model::Work;

/// The whole tool. The words are those after the program's name.
pub fn tool<S: Source, K: Sink, F: Shelf>(
    alloc: Global,
    words: &[String],
    shelf: &mut F,
    source: &mut S,
    sink: &mut K,
    work: &mut Work,
) -> u8
    // For every script and every set of layout files, the bytes that the tool writes are those of the plain world,
    // which at each settled frame measures, lays out and paints its whole present tree anew and delivers each touch by
    // the dispatch rules alone; if memory runs out, or the given source, sink or shelf fails, they are a prefix of
    // these.
    //
    // It covers all lines: a tree of views is built, edited, inflated from layout files, measured, laid out, painted
    // and touched, hooks change it in the middle of a frame, offsets and texts are saved and restored, and bounds,
    // colours and digests are printed.
    ensures headline { (script : List ℕ) (files : Files)
        → IsRunOf (given (usage words.now) (S.left source.old) (F.files shelf.old)) script files
        → length script ≤ max_script
        → Writes result (K.state sink.old).gone (K.state sink.new).gone (transcript script files) }

    // What is written of other calls.
    ensures written { WritesPages (given (usage words.now) (S.left source.old) (F.files shelf.old))
        (K.state sink.old).gone (K.state sink.new).gone result }

    // Whether something was refused.
    ensures refusals { ReportsRefusals (given (usage words.now) (S.left source.old) (F.files shelf.old)) result }

    // Which statuses there are.
    ensures statuses { HasStatus (given (usage words.now) (S.left source.old) (F.files shelf.old)) result }

    // Which object failed.
    ensures failed { ReportsFailures (given (usage words.now) (S.left source.old) (F.files shelf.old))
        (failures (S.faults source.old) (K.state sink.old).faults (F.faults shelf.old))
        (failures (S.faults source.new) (K.state sink.new).faults (F.faults shelf.new)) result }

    // What was written when a call stopped.
    ensures stopped { Stops (given (usage words.now) (S.left source.old) (F.files shelf.old)) (S.left source.new)
        (K.state sink.old).gone (K.state sink.new).gone result (sink.new ≡ sink.old) }

    // What a call does not touch.
    ensures alone { LeavesAlone (usage words.now) result
        (source.new ≡ source.old) (sink.new ≡ sink.old) (shelf.new ≡ shelf.old) (work.new ≡ work.old) }

    // What is left.
    ensures left { LeavesRest (given (usage words.now) (S.left source.old) (F.files shelf.old))
        (S.left source.new) (F.files shelf.new) result }

    // What is counted.
    ensures counted { CountsWork (given (usage words.now) (S.left source.old) (F.files shelf.old)) (S.left source.new)
        (trace (K.state sink.old) work.old (F.fetches shelf.old))
        (trace (K.state sink.new) work.new (F.fetches shelf.new)) result }

    // What is fetched.
    ensures asked { FetchesFiles (given (usage words.now) (S.left source.old) (F.files shelf.old))
        (F.fetches shelf.old) (F.fetches shelf.new) result }
{
    match form_of(words) {
        Some(Form::Run) => run(alloc, shelf, source, sink, work),
        Some(Form::Stack) => stack(alloc, shelf, source, sink, work),
        Some(Form::Dump(name)) => dump(alloc, name, shelf, sink),
        Some(Form::Gen(n)) => run_load(alloc, n, sink, work),
        Some(Form::Lookup { name, ids }) => lookup(alloc, name, ids, shelf, sink),
        Some(Form::Focus(question)) => question.carry_out(alloc, shelf, source, sink, work),
        None => USAGE,
    }
}

/// Carries out the script on a source.
fn run<S: Source, K: Sink, F: Shelf>(
    alloc: Global,
    shelf: &mut F,
    source: &mut S,
    sink: &mut K,
    work: &mut Work,
) -> u8
    ensures runs { (files : Files) (script : List ℕ)
        → F.files shelf.old ≡ Some files
        → S.left source.old ≡ Some script
        → RunsWith (Alone empty_world) files script (S.left source.new) (K.state sink.old).gone
        (K.state sink.new).gone result }
    ensures works { (files : Files) (script : List ℕ)
        → F.files shelf.old ≡ Some files
        → S.left source.old ≡ Some script
        → WorksWith files script (S.left source.new) (trace (K.state sink.old) work.old (F.fetches shelf.old))
        (trace (K.state sink.new) work.new (F.fetches shelf.new)) result }
    ensures ended { EndsWith
        (outside (S.left source.old) (S.faults source.old) (K.state sink.old)
        (F.faults shelf.old) (F.files shelf.old) work.old)
        (outside (S.left source.new) (S.faults source.new) (K.state sink.new)
        (F.faults shelf.new) (F.files shelf.new) work.new)
        result }
{
    let mut run = crate::run::Run::new(alloc, Carrier::alone(alloc));
    status(run_to_end(&mut run, source, shelf, sink, work))
}

/// Carries out a script for a stack of windows.
fn stack<S: Source, K: Sink, F: Shelf>(
    alloc: Global,
    shelf: &mut F,
    source: &mut S,
    sink: &mut K,
    work: &mut Work,
) -> u8
    ensures runs { (files : Files) (script : List ℕ)
        → F.files shelf.old ≡ Some files
        → S.left source.old ≡ Some script
        → RunsWith (Stacked empty_stack) files script (S.left source.new)
        (K.state sink.old).gone (K.state sink.new).gone result }
    ensures works { (files : Files) (script : List ℕ)
        → F.files shelf.old ≡ Some files
        → S.left source.old ≡ Some script
        → WorksWithFrom (Stacked empty_stack) files script (S.left source.new)
        (trace (K.state sink.old) work.old (F.fetches shelf.old))
        (trace (K.state sink.new) work.new (F.fetches shelf.new)) result }
    ensures ended { EndsWith
        (outside (S.left source.old) (S.faults source.old) (K.state sink.old)
        (F.faults shelf.old) (F.files shelf.old) work.old)
        (outside (S.left source.new) (S.faults source.new) (K.state sink.new)
        (F.faults shelf.new) (F.files shelf.new) work.new)
        result }
{
    let mut run = crate::run::Run::new(alloc, Carrier::stacked());
    status(run_to_end(&mut run, source, shelf, sink, work))
}
