//! The last sizes of a view.
//!
//! The sizes are in the view's node, 17 bytes each, and not on the heap, so that measuring takes no memory. They depend
//! on the view and what is below it alone, so a request for layout empties them.
ghost use Rattle.std.specs.Prelude.{◌≡◌, ◌<◌, []};
ghost use Rattle.measure_cache.specs.Entries.{found, is_of, put_in};
ghost use Rattle.measure_cache.specs.Kept.{entry_of, length_of, mode_number, numbered_mode};

use arrayvec::ArrayVec;
use geom_core::{Mode, Size, Spec};
use std::marker::Model;

/// A size and the specs for which it was found.
#[derive(Clone, Copy)]
pub struct Entry {
    pub ws: Spec,
    pub hs: Spec,
    pub size: Size,
}

/// An entry as it is kept: 17 bytes without alignment, so that eight take 136 bytes. Lengths have their lowest byte first.
#[derive(Clone, Copy)]
struct Kept {
    across: [u8; 4],
    down: [u8; 4],
    width: [u8; 4],
    height: [u8; 4],
    /// The number of the mode across, and four times that of the mode down.
    modes: u8,
}

impl Default for Kept {
    /// What an unused place holds; nothing reads it.
    fn default() -> Kept {
        Kept {
            across: [0; 4],
            down: [0; 4],
            width: [0; 4],
            height: [0; 4],
            modes: 0,
        }
    }
}

/// The last eight sizes of a view, the oldest first.
#[derive(Drop)]
pub struct Cache {
    entries: ArrayVec<Kept, 8>,
}

impl Model for Cache {
    ghost use Rattle.std.specs.Prelude.{List, map};
    ghost use Rattle.measure_cache.specs.declared.cache.Entry.{Entry};
    ghost use Rattle.measure_cache.specs.Codes.{entries_code};

    ghost Value = { List Entry };

    ghost coded = { entries_code };

    ghost use Rattle.measure_cache.specs.Kept.{entry_of};

    ghost view = { λ h. map entry_of h.entries.items };
}

impl Cache {
    /// A cache without a size.
    pub fn new() -> Cache
        ensures { result ≡ [] }
    {
        Cache {
            entries: ArrayVec::new(),
        }
    }

    /// The newest size for these specs, if there is one.
    pub fn find(&self, ws: Spec, hs: Spec) -> Option<Size>
        ensures { result ≡ found self.now (record { across = ws; down = hs }) }
    {
        let entries = self.entries.as_slice();
        for newer in 0..entries.len() {
            let entry = entry_of(&entries[entries.len() - 1 - newer]);
            if is_for(&entry, ws, hs) {
                return Some(entry.size);
            }
        }
        None
    }

    /// Keeps a size for these specs, as the newest; if eight are kept already, the oldest of them is dropped.
    pub fn put(&mut self, ws: Spec, hs: Spec, size: Size)
        ensures { self.new ≡ put_in self.old (record { ws = ws; hs = hs; size = size }) }
    {
        if self.entries.is_full() {
            self.entries.remove(0);
        }
        self.entries.push(keep(ws, hs, size));
    }

    /// Forgets all sizes.
    pub fn clear(&mut self)
        ensures { self.new ≡ [] }
    {
        self.entries.clear();
    }
}

/// A size for these specs, as it is kept.
fn keep(ws: Spec, hs: Spec, size: Size) -> Kept
    ensures { entry_of result ≡ record { ws = ws; hs = hs; size = size } }
{
    Kept {
        across: length_bytes(ws.size),
        down: length_bytes(hs.size),
        width: length_bytes(size.w),
        height: length_bytes(size.h),
        modes: mode_number(ws.mode) + 4 * mode_number(hs.mode),
    }
}

/// The bytes of a length, the lowest first.
fn length_bytes(length: i32) -> [u8; 4]
    ensures { length_of result ≡ length }
{
    length.to_le_bytes()
}

/// The entry that is kept in this form.
fn entry_of(kept: &Kept) -> Entry
    ensures { result ≡ entry_of kept.now }
{
    Entry {
        ws: Spec {
            mode: numbered_mode(kept.modes % 4),
            size: i32::from_le_bytes(kept.across),
        },
        hs: Spec {
            mode: numbered_mode(kept.modes / 4),
            size: i32::from_le_bytes(kept.down),
        },
        size: Size {
            w: i32::from_le_bytes(kept.width),
            h: i32::from_le_bytes(kept.height),
        },
    }
}

/// The number of a mode: 0, 1 or 2.
fn mode_number(mode: Mode) -> u8
    ensures value { result ≡ mode_number mode }
    ensures few { result < 3 }
{
    match mode {
        Mode::Unspecified => 0,
        Mode::Exactly => 1,
        Mode::AtMost => 2,
    }
}

/// The mode of a number.
fn numbered_mode(number: u8) -> Mode
    ensures { result ≡ numbered_mode number }
{
    match number {
        0 => Mode::Unspecified,
        1 => Mode::Exactly,
        _ => Mode::AtMost,
    }
}

/// Whether an entry is for these specs.
fn is_for(entry: &Entry, ws: Spec, hs: Spec) -> bool
    ensures { result ≡ is_of entry.now (record { across = ws; down = hs }) }
{
    if same_spec(entry.ws, ws) {
        same_spec(entry.hs, hs)
    } else {
        false
    }
}

/// Whether two specs are the same. Sizes come first: they differ more often than modes.
pub fn same_spec(one: Spec, other: Spec) -> bool
    ensures { result ≡ Rattle.measure_cache.specs.Entries.same_spec one other }
{
    if one.size == other.size {
        same_mode(one.mode, other.mode)
    } else {
        false
    }
}

/// Whether two modes are the same.
fn same_mode(one: Mode, other: Mode) -> bool
    ensures { result ≡ Rattle.measure_cache.specs.Entries.same_mode one other }
{
    match one {
        Mode::Unspecified => match other {
            Mode::Unspecified => true,
            Mode::Exactly | Mode::AtMost => false,
        },
        Mode::Exactly => match other {
            Mode::Exactly => true,
            Mode::Unspecified | Mode::AtMost => false,
        },
        Mode::AtMost => match other {
            Mode::AtMost => true,
            Mode::Unspecified | Mode::Exactly => false,
        },
    }
}
