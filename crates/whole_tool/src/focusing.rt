//! Which view gets the focus next, after a script.

ghost use Rattle.std.specs.Prelude.{◌≡◌, ℕ, ◌-◌, List, [], IfErr, IfSome, Option, Some};
ghost use Rattle.std.specs.Option.{option_map};
ghost use Rattle.text_lines.specs.BufferedText.{Sends};
ghost use Rattle.text_lines.specs.Delivered.{Delivered};
ghost use Rattle.tool_io.specs.Fetched.{Files};
ghost use Rattle.whole_tool.specs.Carried.{Alone, world_in};
ghost use Rattle.whole_tool.specs.Carrier.{carried_of, next_of};
ghost use Rattle.whole_tool.specs.Focus.{AsksFrom, AsksWith, IsNamed, answer_of, answer_text, found_text, refused_question};
ghost use Rattle.whole_tool.specs.Outside.{EndsWith, outside};
ghost use Rattle.whole_tool.specs.Run.{HasReadUpTo};
ghost use Rattle.whole_tool.specs.Script.{CountsEnd, ends_counted, reads_counted};
ghost use Rattle.whole_tool.specs.Works.{Trace, trace};
ghost use Rattle.view_tree.specs.Views.{IsLive, number_of};
ghost use Rattle.view_world.specs.world.KeyedWorld.{world_of};
ghost use Rattle.world_parts.specs.World.{empty_world};
ghost use Rattle.view_model.specs.Works.{KeepsPainted, KeepsMeasured};
ghost use Rattle.world_parts.specs.Shelves.{KeepsFiles};

use crate::carrier::Carrier;
use crate::run::{Run, Stop};
use crate::script::{End, run_to_end};
use crate::status::status;
use focus_finder::{Side, next};
use line_words::Name;
use std::alloc::Global;
use text_lines::TextBuffer;
use tool_io::{Failed, Shelf, Sink, Source};
use tool_replies::{put_counted, put_refused};
use view_model::Work;
use view_model::refusals::{NO_FRAME, NO_ROOT, NO_VIEW, NO_WINDOW, UNSETTLED};
use view_tree::{Key, ViewTree};
use view_world::{Stage, World};
use world_parts::find;

/// A question that is asked after a script: which view gets the focus next, from a view to a side of it.
#[derive(Clone, Copy)]
pub struct Question {
    pub side: Side,
    pub view: Name,
}

impl Question {
    /// Carries out the script on a source, and then answers the question. Returns the status. It is not put into `tool`,
    /// since its run would have a place on the stack of each call.
    #[inline(never)]
    pub fn carry_out<S: Source, K: Sink, F: Shelf>(
        self,
        alloc: Global,
        shelf: &mut F,
        source: &mut S,
        sink: &mut K,
        work: &mut Work,
    ) -> u8
        ensures asks { (files : Files) (script : List ℕ)
            → F.files shelf.old ≡ Some files
            → S.left source.old ≡ Some script
            → AsksWith files script self (S.left source.new) (trace (K.state sink.old) work.old (F.fetches shelf.old))
            (trace (K.state sink.new) work.new (F.fetches shelf.new)) result }
        ensures ended { EndsWith
            (outside (S.left source.old) (S.faults source.old) (K.state sink.old)
            (F.faults shelf.old) (F.files shelf.old) work.old)
            (outside (S.left source.new) (S.faults source.new) (K.state sink.new)
            (F.faults shelf.new) (F.files shelf.new) work.new)
            result }
    {
        let mut run = Run::new(alloc, Carrier::alone(alloc));
        status(self.ask(&mut run, source, shelf, sink, work))
    }

    /// Carries out the script on a source, by a run of no lines yet, and, if it was read to its end, answers the
    /// question. Returns whether a line or the question was refused.
    fn ask<S: Source, K: Sink, F: Shelf>(
        self,
        run: &mut Run,
        source: &mut S,
        shelf: &mut F,
        sink: &mut K,
        work: &mut Work,
    ) -> Result<bool, End>
        requires start { carried_of run.old.runner.carrier ≡ Alone empty_world }
        requires following { (files : Option Files) (first : Trace)
            → HasReadUpTo (carried_of run.old.runner.carrier) files first first run.old [] }
        requires numbers { next_of run.old.runner.carrier ≡ 1 }
        ensures asks { AsksFrom (F.files shelf.old) self
            (S.left source.old) (S.left source.new) (trace (K.state sink.old) work.old (F.fetches shelf.old))
            (trace (K.state sink.new) work.new (F.fetches shelf.new)) result }
        ensures files_stay { KeepsFiles (F.files shelf.old) (F.files shelf.new) }
        ensures shelf_failed { CountsEnd (F.faults shelf.old) (F.faults shelf.new) result }
        ensures painted { KeepsPainted work.old work.new }
        ensures measured { KeepsMeasured work.old work.new }
        ensures source_failed { S.faults source.new ≡ reads_counted result (S.faults source.old) }
        ensures sink_failed { (K.state sink.new).faults ≡ ends_counted result (K.state sink.old).faults }
    {
        let refused = run_to_end(run, source, shelf, sink, work)?;
        let answer = answer_in(run.carrier(), self);
        let unanswered = answer.is_err();
        match write_answer(sink, answer) {
            Ok(()) => Ok(refused | unanswered),
            Err(_) => Err(End::Stopped(Stop::Sink)),
        }
    }
}

/// The answer to a question in the world that a run has made. In a stack no window is meant.
fn answer_in(carrier: &Carrier, question: Question) -> Result<Option<u64>, u8>
    ensures value { result ≡ answer_of (world_in (carried_of carrier.now)) question }
    ensures named { IfErr result IsNamed }
{
    match carrier {
        Carrier::Alone(world) => answer(world, question),
        Carrier::Stacked(_) => Err(NO_WINDOW),
    }
}

/// The answer to a question: the number of the view that gets the focus next, if there is one, or the number of the refusal
/// by which a `bounds` line of the same view is refused.
fn answer(world: &World, question: Question) -> Result<Option<u64>, u8>
    ensures value { result ≡ answer_of (world_of world.now) question }
    ensures named { IfErr result IsNamed }
{
    let Some(window) = world.window() else {
        return Err(NO_WINDOW);
    };
    let tree = world.tree();
    if tree.root().is_none() {
        return Err(NO_ROOT);
    }
    match world.stage() {
        Stage::NoWindow | Stage::NoFrame => Err(NO_FRAME),
        Stage::Unsettled => Err(UNSETTLED),
        Stage::Settled => match find(tree, question.view) {
            None => Err(NO_VIEW),
            Some(view) => Ok(number_in(tree, next(tree, window, view, question.side))),
        },
    }
}

/// The number of a view, if there is one.
fn number_in(tree: &ViewTree, view: Option<Key>) -> Option<u64>
    requires { IfSome view (λ view. IsLive tree.now view) }
    ensures { result ≡ option_map (number_of tree.now) view }
{
    match view {
        None => None,
        Some(view) => Some(tree.number(view)),
    }
}

/// Writes the answer to a question.
fn write_answer<K: Sink>(sink: &mut K, answer: Result<Option<u64>, u8>) -> Result<(), Failed>
    requires { IfErr answer IsNamed }
    ensures { Delivered (K.state sink.old) (K.state sink.new) result (answer_text answer) }
{
    let mut reply = TextBuffer::new();
    put_answer(&mut reply, sink, answer);
    reply.finish(sink)
}

/// The line for an answer: the view that gets the focus, that none does, or the number of the refusal.
fn put_answer<K: Sink>(reply: &mut TextBuffer, sink: &mut K, answer: Result<Option<u64>, u8>)
    requires { IfErr answer IsNamed }
    ensures { Sends (K.state sink.old) (K.state sink.new) reply.old reply.new (answer_text answer) }
{
    match answer {
        Ok(None) => reply.put(sink, b"focus none\n"),
        Ok(Some(number)) => put_found(reply, sink, number),
        Err(number) => put_refused_question(reply, sink, number),
    }
}

/// The line for the view of this number, which gets the focus.
#[tactic(auto, using(text_lines::proofs::Sending::sends_both), unfolding(crate::specs::Focus::found_text))]
fn put_found<K: Sink>(reply: &mut TextBuffer, sink: &mut K, number: u64)
    ensures { Sends (K.state sink.old) (K.state sink.new) reply.old reply.new (found_text number) }
{
    put_counted(reply, sink, b"focus v", number);
    reply.put(sink, b"\n");
}

/// The line for a question that is refused, by the number of the refusal.
#[tactic(auto, using(text_lines::proofs::Sending::sends_both), unfolding(crate::specs::Focus::refused_question))]
fn put_refused_question<K: Sink>(reply: &mut TextBuffer, sink: &mut K, number: u8)
    requires { IsNamed number }
    ensures { Sends (K.state sink.old) (K.state sink.new) reply.old reply.new (refused_question number) }
{
    reply.put(sink, b"focus: ");
    put_refused(reply, sink, number);
    reply.put(sink, b"\n");
}
