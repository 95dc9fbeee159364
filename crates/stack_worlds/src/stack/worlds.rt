//! The worlds of the windows of a stack, each in the place of its window.

ghost use Rattle.std.specs.Prelude.{◌≡◌, ◌<◌, ◌≤◌, ◌^◌, [], true, Err, None, Ok, OnErr, Option, Some, slice_set};
ghost use Rattle.std.specs.Option.{option_map};
ghost use Rattle.script_lines.specs.reading.Commands.{IsInBounds};
ghost use Rattle.script_lines.specs.commands.PlainCommands.{plain_command, text_length};
ghost use Rattle.tool_io.specs.Fetched.{Files};
ghost use Rattle.stack_worlds.specs.KeptStack.{HaveNumbers, kept_world, keyed_at, stack_of};
ghost use Rattle.stack_worlds.specs.PlainStack.{asked_on, is_none_down, size_in, sizes_of};
ghost use Rattle.world_parts.specs.Shelves.{AreAtHand, AsksShelf};
ghost use Rattle.view_world.specs.world.Carried.{MayWantMemory, WritesReply, IsDoneOrKeepsBoth, CountsSink};
ghost use Rattle.world_parts.specs.Inflating.{asked_file};
ghost use Rattle.view_world.specs.world.KeyedWorld.{KeyedWorld, new_world, world_of};
ghost use Rattle.stack_worlds.specs.StackCarried.{plain_given};
ghost use Rattle.stack_worlds.specs.WindowLines.{WorksIn};
ghost use Rattle.world_parts.specs.Reply.{Done};
ghost use Rattle.view_world.specs.world.Step.{step};
ghost use Rattle.world_parts.specs.World.{World as PlainWorld};
ghost use Rattle.window_stack.specs.Numbers.{max_pane};
ghost use Rattle.window_stack.specs.PlainPanes.{is_open, IsPane};

use crate::stack::Stack;
use crate::stack::way::Given;
use geom_core::Size;
use std::alloc::{AllocError, Global};
use tool_io::{Shelf, Sink};
use view_model::Work;
use view_world::World;
use window_stack::MAX_PANES;
use world_parts::StepFault;

/// Opens a world in an empty place.
pub fn open_in(
    worlds: &mut [Option<Box<World>>; MAX_PANES],
    alloc: Global,
    k: u8,
) -> Result<(), AllocError>
    requires { IsPane k }
    ensures opened { result ≡ Ok tt → (b : _) × (b.value ≡ new_world) × (worlds.new ≡ slice_set worlds.old k (Some b)) }
    ensures unchanged { OnErr result (worlds.new ≡ worlds.old) }
{
    let world = Box::new(alloc, World::new(alloc))?;
    worlds[usize::from(k)] = Some(world);
    Ok(())
}

impl Stack {
    /// Carries out a command in the world of an open window.
    pub(super) fn world_line<K: Sink, F: Shelf>(
        &mut self,
        alloc: Global,
        given: Given<'_>,
        shelf: &mut F,
        sink: &mut K,
        work: &mut Work,
    ) -> Result<(), StepFault>
        requires name { given.k ≤ max_pane }
        requires numbers { HaveNumbers self.old }
        requires bounds { IsInBounds (plain_command given.command) }
        requires short { text_length (plain_command given.command) < 2 ^ 31 }
        ensures carried { (files : Files) (world : KeyedWorld)
            → keyed_at self.old given.entry.k ≡ Some world
            → AreAtHand files (F.files shelf.old) (asked_file (world_of world) (plain_command given.entry.command))
            → (after : KeyedWorld)
            × (self.new ≡ record self.old { worlds = slice_set self.old.worlds given.entry.k (Some after) })
            × WritesReply (step files (world_of world) (plain_command given.entry.command)) (world_of after)
            (K.state sink.old) (K.state sink.new) result }
        ensures works { (world : KeyedWorld)
            → keyed_at self.old given.entry.k ≡ Some world
            → (after : KeyedWorld)
            × (self.new.worlds ≡ slice_set self.old.worlds given.entry.k (Some after))
            × WorksIn world after (plain_command given.entry.command) result work.old work.new }
        ensures silent { (files : Files) (world : KeyedWorld) (plain : PlainWorld)
            → keyed_at self.old given.entry.k ≡ Some world
            → AreAtHand files (F.files shelf.old) (asked_file (world_of world) (plain_command given.entry.command))
            → step files (world_of world) (plain_command given.entry.command) ≡ Done plain []
            → sink.new ≡ sink.old }
        ensures panes { self.new.panes ≡ self.old.panes }
        ensures there { is_open self.old.panes given.entry.k ≡ true
            → (world : KeyedWorld) × (keyed_at self.old given.entry.k ≡ Some world) }
        ensures unchanged { IsDoneOrKeepsBoth result self.old self.new sink.old sink.new }
        ensures shelf { AsksShelf F.files F.fetches F.faults
            (asked_on (stack_of self.old) (plain_given given.entry)) result shelf.old shelf.new }
        ensures memory { result ≡ Err StepFault.NoMemory → MayWantMemory (plain_command given.entry.command) }
        ensures sink_failed { CountsSink (K.state sink.old) (K.state sink.new) result }
    {
        let Some(world) = &mut self.worlds[usize::from(given.k)] else {
            return Ok(());
        };
        world.carry(alloc, &given.command, shelf, sink, work)
    }

    /// The world of a window, if it is open.
    pub fn world(&self, k: u8) -> Option<&World>
        requires { IsPane k }
        ensures { option_map (λ world. world.now) result ≡ keyed_at self.now k }
    {
        match &self.worlds[usize::from(k)] {
            None => None,
            Some(world) => Some(world),
        }
    }

    /// Whether no pointer is down in a window.
    pub fn is_untouched(&self, k: u8) -> bool
        requires { IsPane k }
        ensures { (world : KeyedWorld)
            → keyed_at self.now k ≡ Some world
            → result ≡ is_none_down (world_of world).pointers }
    {
        match self.world(k) {
            None => true,
            Some(world) => world.pointers() == 0,
        }
    }

    /// The sizes of the windows that have one.
    pub fn sizes(&self) -> [Option<Size>; MAX_PANES]
        ensures { result ≡ sizes_of (stack_of self.now) }
    {
        self.worlds.each_ref().map(|place| size_in(place))
    }
}

/// The size of the window of a place, if it has one.
fn size_in(place: &Option<Box<World>>) -> Option<Size>
    ensures { result ≡ size_in (option_map world_of (kept_world place.now)) }
{
    match place {
        None => None,
        Some(world) => world.window(),
    }
}
