//! What carries out the lines of a script: a world, or a stack of windows.

ghost use Rattle.std.specs.Prelude.{◌≡◌, ◌≢◌, ◌+◌, ◌-◌, ◌<◌, ◌≤◌, Err, None, Some, false, length};
ghost use Rattle.script_lines.specs.cutting.Lines.{is_idle, max_line};
ghost use Rattle.stack_worlds.specs.PlainStack.{empty_stack};
ghost use Rattle.tool_io.specs.Fetched.{Files};
ghost use Rattle.view_model.specs.Refusals.{plain_refusal};
ghost use Rattle.view_model.specs.declared.work.Work.{Work};
ghost use Rattle.whole_tool.specs.Carried.{Alone, Stacked, BytesWant, asked_by_bytes, fault_refusal, reply_to_bytes};
ghost use Rattle.whole_tool.specs.Carrier.{IsFirst, IsStacked, WritesLine, carried_of, next_of};
ghost use Rattle.whole_tool.specs.Numbers.{max_views, numbers_end};
ghost use Rattle.whole_tool.specs.Run.{HasTallied, IsShort, line_now};
ghost use Rattle.whole_tool.specs.Tally.{Tally, after_bytes, with_cost};
ghost use Rattle.whole_tool.specs.Transcript.{Asks, MayWant, asked_by_line, reply_to_line};
ghost use Rattle.world_parts.specs.Shelves.{CountsShelf, fetches_after, KeepsFiles};
ghost use Rattle.view_world.specs.world.Carried.{IsDone, IsDoneOrKeepsBoth, IsDoneOrKeeps, CountsSink};
ghost use Rattle.world_parts.specs.World.{empty_world};
ghost use Rattle.view_model.specs.Works.{KeepsPainted, KeepsMeasured};

use line_words::LineFault;
use stack_worlds::Stack;
use std::alloc::Global;
use tool_io::{Shelf, Sink};
use view_model::refusals::{LONG_LINE, RANGE, SYNTAX};
use view_model::{Refusal, Work};
use view_world::World;
use window_stack::stack_line;
use world_parts::StepFault;

/// What carries out the lines of a script.
#[derive(Drop)]
pub enum Carrier {
    Alone(World),
    Stacked(Stack),
}

impl Carrier {
    /// An empty world.
    pub fn alone(alloc: Global) -> Carrier
        ensures start { carried_of result ≡ Alone empty_world }
        ensures first { IsFirst result }
    {
        Carrier::Alone(World::new(alloc))
    }

    /// A stack without a window.
    pub fn stacked() -> Carrier
        ensures start { carried_of result ≡ Stacked empty_stack }
        ensures first { IsFirst result }
    {
        Carrier::Stacked(Stack::new())
    }

    /// The same of a stack. What it holds of a line is not cleared for a line of a world.
    #[inline(never)]
    fn stacked_line<K: Sink, F: Shelf>(
        &mut self,
        alloc: Global,
        bytes: &[u8],
        shelf: &mut F,
        sink: &mut K,
        work: &mut Work,
    ) -> Result<(), StepFault>
        requires stacked { IsStacked self.old }
        requires numbered { next_of self.old < numbers_end }
        requires short { length bytes.now ≤ max_line }
        ensures carried { (files : Files)
            → F.files shelf.old ≡ Some files
            → WritesLine (reply_to_bytes files (carried_of self.old) bytes.now) (carried_of self.new)
            (K.state sink.old) (K.state sink.new) result }
        ensures unchanged { IsDoneOrKeepsBoth result self.old self.new sink.old sink.new }
        ensures tallied { (files : Files) (tally : Tally) (first : Work)
            → F.files shelf.old ≡ Some files
            → HasTallied first work.old self.old tally
            → IsDone result
            → HasTallied first work.new self.new (after_bytes files tally.costs tally.watched bytes.now) }
        ensures idle { IsDoneOrKeeps result work.old work.new }
        ensures memory { result ≡ Err StepFault.NoMemory → BytesWant (carried_of self.old) bytes.now }
        ensures numbers { next_of self.new ≤ next_of self.old + max_views }
        ensures sink_failed { CountsSink (K.state sink.old) (K.state sink.new) result }
        ensures files_stay { KeepsFiles (F.files shelf.old) (F.files shelf.new) }
        ensures shelf_failed { CountsShelf (F.faults shelf.old) (F.faults shelf.new) result }
        ensures asked { result ≡ Err StepFault.Shelf → asked_by_bytes (carried_of self.old) bytes.now ≢ None }
        ensures fetched { F.fetches shelf.new
            ≡ fetches_after (asked_by_bytes (carried_of self.old) bytes.now) (F.fetches shelf.old) }
        ensures painted { KeepsPainted work.old work.new }
        ensures measured { KeepsMeasured work.old work.new }
    {
        match self {
            Carrier::Alone(_) => unreachable!(),
            Carrier::Stacked(stack) => match stack_line(bytes) {
                Ok(line) => stack.line(alloc, line, shelf, sink, work),
                Err(fault) => Err(StepFault::Refused(refusal_of(fault))),
            },
        }
    }

    /// Carries out a line, and writes its text; of one that is refused nothing is written. `None` is a line that is too
    /// long.
    #[inline(never)]
    #[tactic(auto, unfolding(crate::specs::Transcript::asked_by_line, crate::specs::Transcript::reply_to_line))]
    pub fn carry_out<K: Sink, F: Shelf>(
        &mut self,
        alloc: Global,
        line: Option<&[u8]>,
        shelf: &mut F,
        sink: &mut K,
        work: &mut Work,
    ) -> Result<(), StepFault>
        requires numbered { next_of self.old < numbers_end }
        requires short { IsShort line }
        requires counts { is_idle (line_now line) ≡ false }
        ensures carried { (files : Files)
            → F.files shelf.old ≡ Some files
            → WritesLine (reply_to_line files (carried_of self.old) (line_now line.entry)) (carried_of self.new)
            (K.state sink.old) (K.state sink.new) result }
        ensures unchanged { IsDoneOrKeepsBoth result self.old self.new sink.old sink.new }
        ensures tallied { (files : Files) (tally : Tally) (first : Work)
            → F.files shelf.old ≡ Some files
            → HasTallied first work.old self.old tally
            → IsDone result
            → HasTallied first work.new self.new (with_cost files tally (line_now line.entry)) }
        ensures idle { IsDoneOrKeeps result work.old work.new }
        ensures memory { result ≡ Err StepFault.NoMemory → MayWant (carried_of self.old) (line_now line.entry) }
        ensures numbers { next_of self.new ≤ next_of self.old + max_views }
        ensures sink_failed { CountsSink (K.state sink.old) (K.state sink.new) result }
        ensures files_stay { KeepsFiles (F.files shelf.old) (F.files shelf.new) }
        ensures shelf_failed { CountsShelf (F.faults shelf.old) (F.faults shelf.new) result }
        ensures asked { result ≡ Err StepFault.Shelf → Asks (carried_of self.old) (line_now line.entry) }
        ensures fetched { F.fetches shelf.new
            ≡ fetches_after (asked_by_line (carried_of self.old) (line_now line.entry)) (F.fetches shelf.old) }
        ensures painted { KeepsPainted work.old work.new }
        ensures measured { KeepsMeasured work.old work.new }
    {
        let Some(bytes) = line else {
            return Err(StepFault::Refused(Refusal::plain(LONG_LINE)));
        };
        let Carrier::Alone(world) = self else {
            return self.stacked_line(alloc, bytes, shelf, sink, work);
        };
        match script_lines::line(bytes) {
            Ok(command) => world.carry(alloc, &command, shelf, sink, work),
            Err(fault) => Err(StepFault::Refused(refusal_of(fault))),
        }
    }
}

/// The refusal of a line that asks for nothing.
fn refusal_of(fault: LineFault) -> Refusal
    ensures { plain_refusal result ≡ fault_refusal fault }
{
    match fault {
        LineFault::Syntax => Refusal::plain(SYNTAX),
        LineFault::Range => Refusal::plain(RANGE),
    }
}
