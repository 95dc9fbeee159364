//! An armed hook as it is kept.
ghost use Rattle.std.specs.Prelude.{◌≡◌, ◌≤◌, length};
ghost use Rattle.size_hooks.specs.Entries.{hook_in, hooks_of};
ghost use Rattle.size_hooks.specs.Hooks.{reported_as, reported_to};
ghost use Rattle.view_model.specs.Numbers.{max_edits};

use arrayvec::ArrayVec;
use geom_core::Size;
use view_model::NumEdit;
use view_model::limits::MAX_EDITS;

/// An armed hook.
#[derive(Drop)]
pub struct Entry {
    /// The number of the view whose size it waits for.
    pub view: u64,
    /// The size that was reported last, in pixels.
    pub reported: Size,
    /// What is changed once the view has another size, in order.
    pub edits: ArrayVec<NumEdit, MAX_EDITS>,
}

impl Default for Entry {
    /// What an unused place holds; it never fires.
    fn default() -> Entry {
        Entry {
            view: 0,
            reported: Size { w: 0, h: 0 },
            edits: ArrayVec::new(),
        }
    }
}

/// A copy of the edits.
pub fn copied(edits: &ArrayVec<NumEdit, MAX_EDITS>) -> ArrayVec<NumEdit, MAX_EDITS>
    ensures same { result.items ≡ edits.now.items }
    ensures few { length edits.now.items ≤ max_edits }
{
    let mut copy = ArrayVec::new();
    let _ = copy.try_extend_from_slice(edits.as_slice());
    copy
}

/// Sets the reported size of the entry of a view, if it is among these.
pub fn report_in(entries: &mut [Entry], view: u64, size: Size)
    ensures { hooks_of entries.new ≡ reported_as view size (hooks_of entries.old) }
{
    for entry in entries.iter_mut() {
        report_to(entry, view, size);
    }
}

/// Sets the reported size of an entry, if it is of this view.
fn report_to(entry: &mut Entry, view: u64, size: Size)
    ensures { hook_in entry.new ≡ reported_to view size (hook_in entry.old) }
{
    if entry.view == view {
        entry.reported = size;
    }
}
