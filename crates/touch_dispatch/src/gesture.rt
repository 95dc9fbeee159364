//! What is kept of a gesture between its events; `marks` is what is kept of a view besides its targets.
ghost use Rattle.std.specs.Prelude.{◌≡◌, ◌==◌, ◌<◌, ◌≤◌, ◌+◌, ◌&&◌, ◌||◌, not, true, false, Bool, ℕ, [], if◌then◌else◌, None, Some, OnOk, is_some, nat_eq};
ghost use Rattle.indexmap.specs.IndexMap.{get as get_key, spare};
ghost use Rattle.touch_dispatch.specs.gesture.Gestures.{closed, set_disallow, set_drag, set_pressed, set_targets, without_target};
ghost use Rattle.touch_dispatch.specs.gesture.Kept.{HasRoom, IsUnknown, Kept, MayCapture, gesture_of, is_open, marks_or, no_marks, nothing_kept, with_place};
ghost use Rattle.touch_dispatch.specs.Once.{AllDistinct};
ghost use Rattle.touch_event.specs.PointerSets.{has_id};
ghost use Rattle.touch_targets.specs.Captures.{drop_pointers, first_child, first_ids, from_child, is_target, older, put_target, targets_from};
ghost use Rattle.view_model.specs.Failing.{KeepsOnErr};
ghost use Rattle.touch_targets.specs.Seats.{KeepsOpen, HasPointers};

pub mod marks;

use crate::gesture::marks::Marks;
use crate::handling::drag::Drag;
use indexmap::IndexMap;
use std::alloc::{AllocError, Global};
use std::marker::Model;
use touch_targets::Targets;

/// What is kept of a gesture between its events: the targets of groups, which groups may not take events away from them,
/// which views are pressed, and the drags of scroll views. A view has a place here from `open` to `close`.
#[derive(Drop)]
pub struct Gesture {
    targets: Targets,
    /// The marks of the few views that ever got some. There is room for those of every other view with a place.
    marks: IndexMap<u64, Marks>,
}

impl Model for Gesture {
    ghost use Rattle.touch_dispatch.specs.gesture.Kept.{Kept, kept_code};

    ghost Value = { Kept };

    ghost coded = { kept_code };

    ghost use Rattle.touch_dispatch.specs.gesture.Kept.{IsSoundGesture, kept_in};

    ghost view = { kept_in };

    ghost invariant = { IsSoundGesture };
}

impl Gesture {
    /// A gesture that has not begun, with a place for no view. It takes no memory.
    pub fn new(alloc: Global) -> Gesture
        ensures { result ≡ nothing_kept }
    {
        Gesture {
            targets: Targets::new(alloc),
            marks: IndexMap::new(alloc),
        }
    }

    /// Keeps a place for a view, and room for its marks. No other call takes memory.
    pub fn open(&mut self, view: u64) -> Result<(), AllocError>
        ensures opened { OnOk result ((other : ℕ)
            → is_open self.new other ≡ (is_open self.old other || other == view)) }
        ensures gesture { gesture_of self.new ≡ gesture_of self.old }
        ensures added { OnOk result (is_open self.old view ≡ false → self.new ≡ with_place view self.old) }
        ensures unknown { (other : ℕ) → is_open self.old other ≡ false → IsUnknown self.old other }
        ensures unchanged { KeepsOnErr result self.old self.new }
    {
        let Some(places) = self.targets.len().checked_add(1) else {
            return Err(AllocError);
        };
        self.marks.reserve(places)?;
        self.targets.open(view)
    }

    /// Removes the place of a view, and all that is kept of it, as a group or as a child.
    pub fn close(&mut self, view: u64)
        ensures opened { (other : ℕ) → is_open self.new other ≡ (is_open self.old other && not (other == view)) }
        ensures gesture { gesture_of self.new ≡ closed view (gesture_of self.old) }
        ensures last { (before : Kept)
            → self.old ≡ with_place view before
            → IsUnknown before view
            → ((group : ℕ) → is_target view ((gesture_of before).targets group) ≡ false)
            → self.new ≡ before }
    {
        self.targets.close(view);
        forget_marks(&mut self.marks, view);
    }

    /// Sets whether a group may not take events away from its children. It may again once the next gesture begins.
    pub fn disallow(&mut self, group: u64, on: bool)
        requires { is_open self.old group ≡ true }
        ensures opened { KeepsOpen self.old.seats self.new.seats }
        ensures gesture { gesture_of self.new ≡ set_disallow group on (gesture_of self.old) }
    {
        let marks = marks_of(&self.marks, group);
        let new = Marks {
            disallows: on,
            ..marks
        };
        set_marks(&mut self.marks, group, new);
    }

    /// Sets whether a view is pressed. The view has a place here.
    pub(crate) fn press(&mut self, view: u64, on: bool)
        requires { is_open self.old view ≡ true }
        ensures opened { (other : ℕ) → is_open self.new other ≡ is_open self.old other }
        ensures gesture { gesture_of self.new ≡ set_pressed view on (gesture_of self.old) }
    {
        let marks = marks_of(&self.marks, view);
        let new = Marks {
            pressed: on,
            ..marks
        };
        set_marks(&mut self.marks, view, new);
    }

    /// Sets the drag of a view. The view has a place here.
    pub(crate) fn set_drag(&mut self, view: u64, drag: Drag)
        requires { is_open self.old view ≡ true }
        ensures opened { (other : ℕ) → is_open self.new other ≡ is_open self.old other }
        ensures gesture { gesture_of self.new ≡ set_drag view drag (gesture_of self.old) }
    {
        let marks = marks_of(&self.marks, view);
        set_marks(&mut self.marks, view, Marks { drag, ..marks });
    }

    /// Whether a group may not take events away from its children.
    pub(crate) fn disallows(&self, group: u64) -> bool
        ensures { result ≡ (gesture_of self.now).disallows group }
    {
        marks_of(&self.marks, group).disallows
    }

    /// Whether a view is pressed.
    pub(crate) fn presses(&self, view: u64) -> bool
        ensures { result ≡ (gesture_of self.now).presses view }
    {
        marks_of(&self.marks, view).pressed
    }

    /// The drag of a view; it follows no pointer if none was set.
    pub(crate) fn drag(&self, view: u64) -> Drag
        ensures { result ≡ (gesture_of self.now).drags view }
    {
        marks_of(&self.marks, view).drag
    }

    /// No group has a child twice. This is for contracts alone.
    pub(crate) fn recall_distinct(&self)
        ensures { AllDistinct (gesture_of self.now).targets }
    {
        let _ = &self.targets;
    }

    /// The newest target of a group.
    pub(crate) fn newest(&self, group: u64) -> Option<u64>
        ensures child { result ≡ first_child ((gesture_of self.now).targets group) }
        ensures part { targets_from result ((gesture_of self.now).targets group) ≡ (gesture_of self.now).targets group }
    {
        self.targets.newest(group)
    }

    /// The next older target of the group that has captured a view.
    pub(crate) fn next(&self, child: u64) -> Option<u64>
        ensures part { (group : ℕ)
            → is_target child ((gesture_of self.now).targets group) ≡ true
            → targets_from result ((gesture_of self.now).targets group)
            ≡ older (from_child child ((gesture_of self.now).targets group)) }
        ensures child { (group : ℕ)
            → is_target child ((gesture_of self.now).targets group) ≡ true
            → result ≡ first_child (older (from_child child ((gesture_of self.now).targets group))) }
    {
        self.targets.next(child)
    }

    /// The pointers by which a view was captured, where bit `k` represents the id `k`.
    pub(crate) fn ids(&self, child: u64) -> u32
        ensures { (group : ℕ)
            → is_target child ((gesture_of self.now).targets group) ≡ true
            → has_id result ≡ first_ids (from_child child ((gesture_of self.now).targets group)) }
    {
        self.targets.ids(child)
    }

    /// A group captures a view by these pointers, in addition to those by which it already has.
    pub(crate) fn put(&mut self, group: u64, child: u64, ids: u32)
        requires ids { HasPointers ids }
        requires may { MayCapture self.old group child }
        ensures opened { KeepsOpen self.old.seats self.new.seats }
        ensures gesture { gesture_of self.new ≡ set_targets group
            (put_target child (has_id ids) ((gesture_of self.old).targets group)) (gesture_of self.old) }
    {
        self.targets.put(group, child, ids);
    }

    /// Takes a pointer away from all targets of a group, and removes the targets that have no other.
    pub(crate) fn drop_ids(&mut self, group: u64, ids: u32)
        ensures opened { KeepsOpen self.old.seats self.new.seats }
        ensures gesture { gesture_of self.new ≡ set_targets group
            (drop_pointers (has_id ids) ((gesture_of self.old).targets group)) (gesture_of self.old) }
    {
        self.targets.drop_ids(group, ids);
    }

    /// Takes a view away from the group that has captured it, if one has.
    pub(crate) fn remove(&mut self, child: u64)
        ensures opened { KeepsOpen self.old.seats self.new.seats }
        ensures gesture { gesture_of self.new ≡ without_target child (gesture_of self.old) }
    {
        self.targets.remove(child);
    }

    /// Removes all targets of a group.
    pub(crate) fn clear(&mut self, group: u64)
        ensures opened { KeepsOpen self.old.seats self.new.seats }
        ensures gesture { gesture_of self.new ≡ set_targets group [] (gesture_of self.old) }
    {
        self.targets.clear(group);
    }
}

/// The marks of a view that never got some: it is not pressed, and follows no pointer.
fn no_marks() -> Marks
    ensures { result ≡ no_marks }
{
    Marks {
        disallows: false,
        pressed: false,
        drag: Drag {
            active: None,
            last: 0,
            dragging: false,
        },
    }
}

/// The marks of a view.
fn marks_of(marks: &IndexMap<u64, Marks>, view: u64) -> Marks
    ensures { result ≡ marks_or (get_key nat_eq marks.now view) }
{
    if marks.is_empty() {
        return no_marks();
    }
    match marks.get(&view) {
        None => no_marks(),
        Some(marks) => *marks,
    }
}

/// Sets the marks of a view with a place. An entry is made for a view only once its marks change.
fn set_marks(marks: &mut IndexMap<u64, Marks>, view: u64, new: Marks)
    requires room { get_key nat_eq marks.old view ≡ None → 0 < spare marks.old }
    ensures marks { (other : ℕ)
        → marks_or (get_key nat_eq marks.new other)
        ≡ (if nat_eq view other then new else marks_or (get_key nat_eq marks.old other)) }
    ensures room { (opened : ℕ → Bool)
        → opened view ≡ true
        → HasRoom opened (get_key nat_eq marks.old) (spare marks.old)
        → HasRoom opened (get_key nat_eq marks.new) (spare marks.new) }
{
    if new != marks_of(marks, view) {
        write_marks(marks, view, new);
    }
}

/// Writes the marks of a view: in its entry, or in a new one, for which there is room.
fn write_marks(marks: &mut IndexMap<u64, Marks>, view: u64, new: Marks)
    requires room { get_key nat_eq marks.old view ≡ None → 0 < spare marks.old }
    ensures marks { (other : ℕ)
        → get_key nat_eq marks.new other ≡ (if nat_eq view other then Some new else get_key nat_eq marks.old other) }
    ensures room { spare marks.old ≤ spare marks.new + (if is_some (get_key nat_eq marks.old view) then 0 else 1) }
{
    match marks.get_mut(&view) {
        None => note_marks(marks, view, new),
        Some(marks) => {
            *marks = new;
        }
    }
}

/// Makes an entry for a view that has none; there is room for it.
fn note_marks(marks: &mut IndexMap<u64, Marks>, view: u64, new: Marks)
    requires { 0 < spare marks.old }
    ensures marks { (other : ℕ)
        → get_key nat_eq marks.new other ≡ (if nat_eq view other then Some new else get_key nat_eq marks.old other) }
    ensures room { spare marks.old ≤ spare marks.new + 1 }
{
    match marks.insert(view, new) {
        Ok(_) => (),
        Err(_) => unreachable!(),
    }
}

/// Forgets the marks of a view.
fn forget_marks(marks: &mut IndexMap<u64, Marks>, view: u64)
    ensures forgot { (other : ℕ)
        → get_key nat_eq marks.new other ≡ (if nat_eq view other then None else get_key nat_eq marks.old other) }
    ensures unchanged { get_key nat_eq marks.old view ≡ None → marks.new.entries ≡ marks.old.entries }
    ensures room { spare marks.old ≤ spare marks.new }
{
    marks.swap_remove(&view);
}
