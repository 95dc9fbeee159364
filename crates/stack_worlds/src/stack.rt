//! A stack of windows, each with a world of its own.

ghost use Rattle.std.specs.Prelude.{◌≡◌, ◌≢◌, ◌+◌, ◌-◌, ◌<◌, ◌≤◌, ◌^◌, ℕ, [], true, false, Err, IfErr, IfSome, None, OnOk, Option, Some};
ghost use Rattle.script_lines.specs.commands.PlainCommands.{plain_command};
ghost use Rattle.tool_io.specs.Fetched.{Files};
ghost use Rattle.stack_worlds.specs.Isolation.{IsAfterLine, IsAlone, Shared};
ghost use Rattle.stack_worlds.specs.KeptStack.{HaveNumbers, keyed_at, no_windows, stack_of};
ghost use Rattle.stack_worlds.specs.Numbers.{max_views};
ghost use Rattle.stack_worlds.specs.PlainStack.{Done, PlainStack, asked_by, asked_on, by_way, holder_after, own_step, placed_at, stack_step, way_of, world_at};
ghost use Rattle.stack_worlds.specs.StackCarried.{IsGivenSound, IsOwnSound, IsReplied, LineWants, OwnWants, WayWants, WritesStack, plain_given, written};
ghost use Rattle.stack_worlds.specs.WindowLines.{WorksBy, next_at, worlds_after};
ghost use Rattle.script_lines.specs.commands.PlainCommands.{Frame};
ghost use Rattle.world_parts.specs.Shelves.{AreAtHand, AsksShelf, CountsShelf, fetches_after, KeepsFiles};
ghost use Rattle.view_world.specs.world.Carried.{IsDone, IsDoneOrKeepsBoth, IsDoneOrKeeps, CountsSink};
ghost use Rattle.view_world.specs.world.KeyedWorld.{KeyedWorld, world_of};
ghost use Rattle.window_stack.specs.PlainPanes.{is_open, IsPane};
ghost use Rattle.window_stack.specs.StackLines.{In, IsLineInBounds, plain_line, text_length_in};
ghost use Rattle.view_model.specs.Works.{KeepsPainted, KeepsMeasured};
ghost use Rattle.world_parts.specs.Faults.{HasFile};

mod composing;
mod way;
mod worlds;

pub use crate::stack::way::NO_PANE;
use crate::stack::way::{Given, Own, Way};
use crate::stack::worlds::open_in;
use std::alloc::Global;
use std::marker::Model;
use text_lines::put;
use tool_io::{Failed, Shelf, Sink};
use view_model::{Refusal, Work};
use view_world::World;
use window_stack::{MAX_PANES, Panes, StackLine};
use world_parts::StepFault;

/// The windows of a stack, and the world of each that is open.
#[derive(Drop)]
pub struct Stack {
    panes: Panes,
    /// By the names of the windows.
    worlds: [Option<Box<World>>; MAX_PANES],
}

impl Model for Stack {
    ghost use Rattle.stack_worlds.specs.Isolation.{IsAfterLine, IsAlone, Shared};
    ghost use Rattle.stack_worlds.specs.KeptStack.{HasWorlds, KeyedStack, keyed, stack_code};

    ghost Value = { KeyedStack };

    ghost coded = { stack_code };

    ghost view = { keyed };

    ghost invariant = { λ s. HasWorlds (keyed s) };
}

impl Stack {
    /// No window is open.
    pub fn new() -> Stack
        ensures { result ≡ no_windows }
    {
        Stack {
            panes: Panes::new(),
            worlds: [None, None, None, None, None, None, None, None],
        }
    }

    /// Carries out a line, and then writes its text. If it is refused, is out of memory, or a fetch fails, nothing has
    /// changed.
    #[inline(never)]
    pub fn line<K: Sink, F: Shelf>(
        &mut self,
        alloc: Global,
        line: StackLine<'_>,
        shelf: &mut F,
        sink: &mut K,
        work: &mut Work,
    ) -> Result<(), StepFault>
        requires numbers { HaveNumbers self.old }
        requires bounds { IsLineInBounds (plain_line line) }
        requires short { text_length_in (plain_line line) < 2 ^ 31 }
        ensures carried { (files : Files)
            → AreAtHand files (F.files shelf.old) (asked_by (stack_of self.old) (plain_line line.entry))
            → WritesStack (stack_step files (stack_of self.old) (plain_line line.entry)) (stack_of self.new)
            (K.state sink.old) (K.state sink.new) result }
        // The state of a window and its replies are those of its own share of the lines alone, whatever others get.
        ensures isolated { (files : Files) (k : ℕ) (shared : Shared)
            → AreAtHand files (F.files shelf.old) (asked_by (stack_of self.old) (plain_line line.entry))
            → shared.stack ≡ stack_of self.old
            → IsAlone files (world_at shared.stack k) shared.share shared.replies
            → IsReplied result
            → IsAfterLine files k shared (plain_line line.entry) (stack_of self.new) }
        ensures unchanged { IsDoneOrKeepsBoth result self.old self.new sink.old sink.new }
        ensures silent { (files : Files) (stack : PlainStack)
            → AreAtHand files (F.files shelf.old) (asked_by (stack_of self.old) (plain_line line.entry))
            → stack_step files (stack_of self.old) (plain_line line.entry) ≡ Done stack []
            → sink.new ≡ sink.old }
        ensures files_stay { KeepsFiles (F.files shelf.old) (F.files shelf.new) }
        ensures unasked { asked_by (stack_of self.old) (plain_line line.entry) ≡ None → shelf.new ≡ shelf.old }
        ensures fetched { F.fetches shelf.new
            ≡ fetches_after (asked_by (stack_of self.old) (plain_line line.entry)) (F.fetches shelf.old) }
        ensures shelf_failed { CountsShelf (F.faults shelf.old) (F.faults shelf.new) result }
        ensures asked { result ≡ Err StepFault.Shelf → asked_by (stack_of self.old) (plain_line line.entry) ≢ None }
        ensures memory { result ≡ Err StepFault.NoMemory → LineWants (stack_of self.old) (plain_line line.entry) }
        // Only a frame counts anything.
        ensures work { ((k : ℕ) → plain_line line.entry ≢ In k Frame) → work.new ≡ work.old }
        ensures idle { IsDoneOrKeeps result work.old work.new }
        ensures numbers { (k : ℕ) → next_at self.new k ≤ next_at self.old k + max_views }
        ensures painted { KeepsPainted work.old work.new }
        ensures measured { KeepsMeasured work.old work.new }
        ensures works { WorksBy (way_of (stack_of self.old) (plain_line line.entry)) self.old
            self.new result work.old work.new }
        ensures sink_failed { CountsSink (K.state sink.old) (K.state sink.new) result }
    {
        self.carry_out(alloc, line, shelf, sink, work)
    }

    /// The same, by where the line goes.
    fn carry_out<K: Sink, F: Shelf>(
        &mut self,
        alloc: Global,
        line: StackLine<'_>,
        shelf: &mut F,
        sink: &mut K,
        work: &mut Work,
    ) -> Result<(), StepFault>
        requires numbers { HaveNumbers self.old }
        requires bounds { IsLineInBounds (plain_line line) }
        requires short { text_length_in (plain_line line) < 2 ^ 31 }
        ensures carried { (files : Files)
            → AreAtHand files (F.files shelf.old) (asked_by (stack_of self.old) (plain_line line.entry))
            → WritesStack (stack_step files (stack_of self.old) (plain_line line.entry)) (stack_of self.new)
            (K.state sink.old) (K.state sink.new) result }
        ensures unchanged { IsDoneOrKeepsBoth result self.old self.new sink.old sink.new }
        ensures silent { (files : Files) (stack : PlainStack)
            → AreAtHand files (F.files shelf.old) (asked_by (stack_of self.old) (plain_line line.entry))
            → stack_step files (stack_of self.old) (plain_line line.entry) ≡ Done stack []
            → sink.new ≡ sink.old }
        ensures shelf { AsksShelf F.files F.fetches F.faults
            (asked_by (stack_of self.old) (plain_line line.entry)) result shelf.old shelf.new }
        ensures memory { result ≡ Err StepFault.NoMemory → LineWants (stack_of self.old) (plain_line line.entry) }
        ensures works { WorksBy (way_of (stack_of self.old) (plain_line line.entry)) self.old
            self.new result work.old work.new }
        ensures sink_failed { CountsSink (K.state sink.old) (K.state sink.new) result }
    {
        match self.way(line) {
            Way::Given(given) => self.give(alloc, given, shelf, sink, work),
            Way::Missed => written(put(sink, b"nobody\n")),
            Way::Refused(number) => Err(StepFault::Refused(Refusal::plain(number))),
            Way::Own(own) => self.change(alloc, own, sink),
        }
    }

    /// Carries out a command in the world of an open window, and sees who has the gesture then.
    fn give<K: Sink, F: Shelf>(
        &mut self,
        alloc: Global,
        given: Given<'_>,
        shelf: &mut F,
        sink: &mut K,
        work: &mut Work,
    ) -> Result<(), StepFault>
        requires numbers { HaveNumbers self.old }
        requires sound { IsGivenSound (stack_of self.old) given.holder given.k (plain_command given.command) }
        ensures carried { (files : Files)
            → AreAtHand files (F.files shelf.old) (asked_on (stack_of self.old) (plain_given given.entry))
            → WritesStack (by_way files (stack_of self.old) (plain_given given.entry)) (stack_of self.new)
            (K.state sink.old) (K.state sink.new) result }
        ensures unchanged { IsDoneOrKeepsBoth result self.old self.new sink.old sink.new }
        ensures silent { (files : Files) (stack : PlainStack)
            → AreAtHand files (F.files shelf.old) (asked_on (stack_of self.old) (plain_given given.entry))
            → by_way files (stack_of self.old) (plain_given given.entry) ≡ Done stack []
            → sink.new ≡ sink.old }
        ensures shelf { AsksShelf F.files F.fetches F.faults
            (asked_on (stack_of self.old) (plain_given given.entry)) result shelf.old shelf.new }
        ensures memory { result ≡ Err StepFault.NoMemory → WayWants (stack_of self.old) (plain_given given.entry) }
        ensures works { WorksBy (plain_given given.entry) self.old self.new result work.old work.new }
        ensures sink_failed { CountsSink (K.state sink.old) (K.state sink.new) result }
    {
        let holder = given.holder;
        let k = given.k;
        let outcome = self.world_line(alloc, given, shelf, sink, work);
        if !is_done(&outcome) {
            return outcome;
        }
        self.hold_after(holder, k);
        outcome
    }

    /// Gives the gesture to this window, or to none, after a command was carried out in an open window.
    fn hold_after(&mut self, holder: Option<u8>, k: u8)
        requires name { IsPane k }
        requires held { IfSome holder (λ k. is_open self.old.panes k ≡ true) }
        ensures value { (world : KeyedWorld)
            → keyed_at self.old k ≡ Some world
            → self.new
            ≡ record self.old { panes = record self.old.panes { holder = holder_after holder k (world_of world) } } }
        ensures worlds { self.new.worlds ≡ self.old.worlds }
    {
        let holder = self.holder_after(holder, k);
        self.panes.hold(holder);
    }

    /// The window that has the gesture after a command was carried out in the world of a window: no longer that one if
    /// none of its pointers is down.
    fn holder_after(&self, holder: Option<u8>, k: u8) -> Option<u8>
        requires name { IsPane k }
        requires open { IfSome holder (λ k. is_open self.now.panes k ≡ true) }
        ensures value { (world : KeyedWorld)
            → keyed_at self.now k ≡ Some world
            → result ≡ holder_after holder k (world_of world) }
        ensures open { IfSome result (λ k. is_open self.now.panes k ≡ true) }
    {
        if holder == Some(k) && self.is_untouched(k) {
            None
        } else {
            holder
        }
    }

    /// What a line does to the stack itself.
    fn change<K: Sink>(&mut self, alloc: Global, own: Own, sink: &mut K) -> Result<(), StepFault>
        requires { IsOwnSound (stack_of self.old) own }
        ensures carried { WritesStack (own_step (stack_of self.old) own) (stack_of self.new)
            (K.state sink.old) (K.state sink.new) result }
        ensures unchanged { IsDoneOrKeepsBoth result self.old self.new sink.old sink.new }
        ensures silent { (stack : PlainStack) → own_step (stack_of self.old) own ≡ Done stack [] → sink.new ≡ sink.old }
        ensures worlds { IsDone result → self.new.worlds ≡ worlds_after self.old own }
        ensures no_shelf { HasFile result }
        ensures memory { result ≡ Err StepFault.NoMemory → OwnWants (stack_of self.old) own }
        ensures sink_failed { CountsSink (K.state sink.old) (K.state sink.new) result }
    {
        match own {
            Own::At { k, x, y } => self.set(alloc, k, x, y),
            Own::Raise(k) => {
                self.panes.raise(k);
                Ok(())
            }
            Own::Close(k) => {
                self.worlds[usize::from(k)] = None;
                self.panes.close(k);
                Ok(())
            }
            Own::Compose { x, y, w, h } => written(self.compose(x, y, w, h, sink)),
        }
    }

    /// Sets the corner of a window, with an empty world where it is not open.
    fn set(&mut self, alloc: Global, k: u8, x: i32, y: i32) -> Result<(), StepFault>
        requires { IsPane k }
        ensures done { OnOk result (stack_of self.new ≡ placed_at (stack_of self.old) k x y) }
        ensures worlds { OnOk result (self.new.worlds ≡ worlds_after self.old (Own.At k x y)) }
        ensures failed { IfErr result (λ fault. (fault ≡ StepFault.NoMemory)
            × (is_open self.old.panes k ≡ false) × (self.new ≡ self.old)) }
    {
        if self.is_open(k) {
            self.panes.set(k, x, y);
            return Ok(());
        }
        open_in(&mut self.worlds, alloc, k)?;
        self.panes.set(k, x, y);
        Ok(())
    }

    /// Whether the stack has a window of this number.
    fn is_open(&self, k: u8) -> bool
        ensures { result ≡ is_open self.now.panes k }
    {
        self.panes.corner(k).is_some()
    }
}

/// The outcome of a line whose text was written with this outcome.
fn written(outcome: Result<(), Failed>) -> Result<(), StepFault>
    ensures { result ≡ written outcome }
{
    match outcome {
        Ok(()) => Ok(()),
        Err(_) => Err(StepFault::Sink),
    }
}

/// Whether a line was carried out, whether its text was written or not.
fn is_done(outcome: &Result<(), StepFault>) -> bool
    ensures done { result ≡ true → IsDone outcome.now }
    ensures not { result ≡ false → IsDone outcome.now → ⊥ }
{
    match outcome {
        Ok(()) | Err(StepFault::Sink) => true,
        Err(StepFault::Refused(_) | StepFault::NoMemory | StepFault::Shelf) => false,
    }
}
