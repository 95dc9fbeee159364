//! What a group does with its targets at an event.
ghost use Rattle.std.specs.Prelude.{◌≡◌, ◌<◌, ℕ, ℤ, List, [], true, if◌then◌else◌};
ghost use Rattle.touch_dispatch.specs.Dispatch.{begun, ended, given, oldest, only, settled};
ghost use Rattle.touch_dispatch.specs.gesture.Gestures.{set_targets};
ghost use Rattle.touch_dispatch.specs.gesture.Kept.{MayCapture, gesture_of, is_open};
ghost use Rattle.touch_dispatch.specs.reaching.TreeEvents.{progress_by};
ghost use Rattle.touch_dispatch.specs.declared.log.Entry.{Entry};
ghost use Rattle.touch_targets.specs.Captures.{drop_pointers, is_target};
ghost use Rattle.touch_targets.specs.Seats.{KeepsOpen};
ghost use Rattle.touch_event.specs.Touches.{IsPointer};

use crate::gesture::Gesture;
use crate::reaching::points::{id_bit, is_down};
use crate::reaching::taker::Taker;
use touch_event::{Action, Event};

/// Whether a child is a target of a group.
pub fn is_target(gesture: &Gesture, group: u64, child: u64) -> bool
    ensures { result ≡ is_target child ((gesture_of gesture.now).targets group) }
{
    let mut next = gesture.newest(group);
    while let Some(target) = next {
        if target == child {
            return true;
        }
        next = gesture.next(target);
    }
    false
}

/// The oldest target of a group.
fn oldest(gesture: &Gesture, group: u64) -> Option<u64>
    ensures { result ≡ oldest ((gesture_of gesture.now).targets group) }
{
    let mut last = None;
    let mut next = gesture.newest(group);
    while let Some(target) = next {
        last = next;
        next = gesture.next(target);
    }
    last
}

/// The first pointer begins a gesture.
pub fn begin(gesture: &mut Gesture, group: u64, action: Action)
    requires { is_open gesture.old group ≡ true }
    ensures begun { (offsets : ℕ → ℤ) (entries : List Entry)
        → progress_by offsets (gesture_of gesture.new) entries
        ≡ begun group action (progress_by offsets (gesture_of gesture.old) entries) }
    ensures opened { KeepsOpen gesture.old.seats gesture.new.seats }
{
    if is_down(action) {
        gesture.clear(group);
        gesture.disallow(group, false);
    }
}

/// The oldest target gets the pointer that no child took.
pub fn settle(gesture: &mut Gesture, group: u64, event: &Event, taker: Taker)
    requires pointer { IsPointer event.now.pointer }
    requires may { (child : ℕ)
        → is_target child ((gesture_of gesture.old).targets group) ≡ true
        → MayCapture gesture.old group child }
    ensures settled { (offsets : ℕ → ℤ) (entries : List Entry)
        → settled group event.now
        (record { taker = taker; progress = progress_by offsets (gesture_of gesture.old) entries })
        ≡ record { taker = taker; progress = progress_by offsets (gesture_of gesture.new) entries } }
    ensures opened { KeepsOpen gesture.old.seats gesture.new.seats }
{
    match taker {
        Taker::NoChild => give_to_oldest(gesture, group, event.pointer),
        Taker::Earlier | Taker::Sent(_) => {}
    }
}

/// Gives a pointer to the oldest target of a group. Without targets nothing changes.
fn give_to_oldest(gesture: &mut Gesture, group: u64, pointer: u8)
    requires pointer { IsPointer pointer }
    requires may { (child : ℕ)
        → is_target child ((gesture_of gesture.old).targets group) ≡ true
        → MayCapture gesture.old group child }
    ensures given { gesture_of gesture.new
        ≡ given (oldest ((gesture_of gesture.old).targets group)) group pointer (gesture_of gesture.old) }
    ensures opened { KeepsOpen gesture.old.seats gesture.new.seats }
{
    if let Some(child) = oldest(gesture, group) {
        gesture.put(group, child, id_bit(pointer));
    }
}

/// The end of a gesture, or of a pointer. An interception leaves no target.
pub fn end(gesture: &mut Gesture, group: u64, split: bool, event: &Event, intercepted: bool)
    requires pointer { IsPointer event.now.pointer }
    requires open { is_open gesture.old group ≡ true }
    ensures ended { (offsets : ℕ → ℤ) (entries : List Entry)
        → progress_by offsets (gesture_of gesture.new) entries
        ≡ ended group split event.now intercepted (progress_by offsets (gesture_of gesture.old) entries) }
    ensures opened { KeepsOpen gesture.old.seats gesture.new.seats }
{
    clear_intercepted(gesture, group, intercepted);
    match event.action {
        Action::Up | Action::Cancel => {
            gesture.clear(group);
            gesture.disallow(group, false);
        }
        Action::PointerUp => lift(gesture, group, split, event.pointer),
        Action::Down | Action::Move | Action::PointerDown => {}
    }
}

/// Removes all targets of a group that has intercepted. Otherwise nothing changes.
fn clear_intercepted(gesture: &mut Gesture, group: u64, intercepted: bool)
    ensures cleared { gesture_of gesture.new
        ≡ (if intercepted then set_targets group [] (gesture_of gesture.old) else gesture_of gesture.old) }
    ensures opened { KeepsOpen gesture.old.seats gesture.new.seats }
{
    if intercepted {
        gesture.clear(group);
    }
}

/// A pointer leaves the targets of a group that splits events.
fn lift(gesture: &mut Gesture, group: u64, split: bool, pointer: u8)
    requires { IsPointer pointer }
    ensures lifted { gesture_of gesture.new ≡ (if split then set_targets group (drop_pointers (only pointer)
        ((gesture_of gesture.old).targets group)) (gesture_of gesture.old) else gesture_of gesture.old) }
    ensures opened { KeepsOpen gesture.old.seats gesture.new.seats }
{
    if split {
        gesture.drop_ids(group, id_bit(pointer));
    }
}
