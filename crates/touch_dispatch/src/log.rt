//! What is recorded of an event.
ghost use Rattle.std.specs.Prelude.{◌≡◌, ◌≤◌, ◌<◌, ◌+◌, ◌++◌, ◌∷◌, [], length, OnOk, OnErr};
ghost use Rattle.touch_dispatch.specs.reaching.TreeEvents.{room_of};

use std::alloc::{AllocError, Global};
use touch_event::Event;

/// What an entry records of an event.
#[derive(Clone, Copy)]
pub enum Kind {
    /// A group was asked whether it takes the event away from its children.
    Ask,
    /// A view handled the event.
    Touch,
    /// A view was clicked by it.
    Click,
    /// A scroll view moved its child by it.
    Scroll,
}

/// A delivery of an event.
#[derive(Drop)]
pub struct Entry {
    pub view: u64,
    pub kind: Kind,
    /// In the view's coordinates.
    pub event: Event,
    /// What the view said to it.
    pub yes: bool,
    /// After a scroll: the offset then, in pixels. Otherwise 0.
    pub offset: i32,
}

/// Entries for which memory is taken at once. The C library maps a part of this size (above 128 KiB) on its own: as it
/// grows, its pages are moved and not copied, so those without entries take no memory.
const LEAST_ROOM: usize = 512;

/// The deliveries of events, the first one first.
#[derive(Drop)]
pub struct Log {
    entries: Vec<Entry>,
}

impl Log {
    ghost use Rattle.std.specs.Prelude.{List};
    ghost use Rattle.touch_dispatch.specs.declared.log.Entry.{Entry as EntryHere};

    /// A log without entries.
    pub fn new(alloc: Global) -> Log
        ensures { result.entries.items ≡ [] }
    {
        Log {
            entries: Vec::new(alloc),
        }
    }

    /// Takes the memory for this many more entries, and at least for `LEAST_ROOM`.
    pub fn reserve(&mut self, entries: usize) -> Result<(), AllocError>
        ensures same { self.new.entries.items ≡ self.old.entries.items }
        ensures room { OnOk result (length self.old.entries.items + entries ≤ room_of self.new) }
        ensures kept { OnErr result (room_of self.new ≡ room_of self.old) }
    {
        self.entries.reserve(entries.max(LEAST_ROOM))
    }

    /// The entries, the oldest first.
    pub fn entries(&self) -> &[Entry]
        ensures { result.now ≡ self.now.entries.items }
    {
        &self.entries
    }

    /// Forgets the entries; their memory stays for others.
    pub fn clear(&mut self)
        ensures entries { self.new.entries.items ≡ [] }
        ensures room { room_of self.new ≡ room_of self.old }
    {
        self.entries.clear();
    }

    /// One entry more, for which there is room.
    pub fn note(&mut self, entry: Entry)
        requires { length self.old.entries.items < room_of self.old }
        ensures entries { self.new.entries.items ≡ self.old.entries.items ++ entry ∷ [] }
        ensures room { room_of self.new ≡ room_of self.old }
    {
        self.entries.push_reserved(entry);
    }

    /// Gives the last entry this event.
    pub(crate) fn set_event(&mut self, event: &Event)
        ensures entries { (before : List EntryHere) (entry : EntryHere)
            → self.old.entries.items ≡ before ++ entry ∷ []
            → self.new.entries.items ≡ before ++ record entry { event = event.now } ∷ [] }
        ensures room { room_of self.new ≡ room_of self.old }
    {
        if let Some(entry) = self.entries.last_mut() {
            entry.event.set(event);
        }
    }
}
