//! What a view does with an event itself, and what a group is asked about one. `receiver` is the view, `scrolling` how it
//! scrolls, by the `drag` that is kept of it.
ghost use Rattle.std.specs.Prelude.{◌≡◌, ◌<◌, ◌≤◌, ◌+◌, ◌&&◌, ◌||◌, ◌++◌, ◌∷◌, [], ℕ, ℤ, pos, length, not, true};
ghost use Rattle.touch_dispatch.specs.handling.Handling.{asked, click_handled, clicks, drag_answer, handled_by, intercepts, is_down, is_nil, looked, many, pressed_after};
ghost use Rattle.touch_dispatch.specs.gesture.Kept.{gesture_of, IsOpen};
ghost use Rattle.touch_dispatch.specs.reaching.TreeEvents.{progress_by, room_of, KeepsRoom};
ghost use Rattle.touch_targets.specs.Seats.{KeepsOpen};

pub mod drag;
pub mod receiver;
pub mod scrolling;

use crate::gesture::Gesture;
use crate::handling::drag::asked_drag;
use crate::handling::receiver::Receiver;
use crate::log::{Entry, Kind, Log};
use crate::reaching::points::{cancel_event, is_down, is_near_first, is_planned};
use touch_event::{Action, Event};
use view_model::Answer;

/// One entry more.
pub fn note(log: &mut Log, view: u64, kind: Kind, event: &Event, yes: bool)
    requires { length log.old.entries.items < room_of log.old }
    ensures noted { log.new.entries.items ≡ log.old.entries.items
        ++ record { view = view; kind = kind; event = event.now; yes = yes; offset = pos 0 } ∷ [] }
    ensures room { KeepsRoom log.old log.new }
{
    log.note(Entry {
        view,
        kind,
        event: cancel_event(),
        yes,
        offset: 0,
    });
    log.set_event(event);
}

/// Whether a group takes an event away from its children: what Android asks by `onInterceptTouchEvent`, unless a child
/// has forbidden that, or no child is a target and no first pointer goes down.
pub fn ask(gesture: &mut Gesture, log: &mut Log, own: &Receiver, event: &Event) -> bool
    requires open { IsOpen gesture.old own.now.number }
    requires fits { (offsets : ℕ → ℤ)
        → many (asked own.now event.now (progress_by offsets (gesture_of gesture.old) log.old.entries.items)).progress
        ≤ room_of log.old }
    ensures asked { (offsets : ℕ → ℤ)
        → asked own.now event.now (progress_by offsets (gesture_of gesture.old) log.old.entries.items)
        ≡ record { yes = result; progress = progress_by offsets (gesture_of gesture.new) log.new.entries.items } }
    ensures opened { KeepsOpen gesture.old.seats gesture.new.seats }
    ensures room { KeepsRoom log.old log.new }
{
    if !is_asked(gesture, own.number, event.action) {
        return true;
    }
    if gesture.disallows(own.number) {
        return false;
    }
    look(gesture, own, event);
    let yes = intercepts(gesture, own, event);
    note(log, own.number, Kind::Ask, event, yes);
    yes
}

/// Whether a group is asked at all.
fn is_asked(gesture: &Gesture, group: u64, action: Action) -> bool
    ensures { result ≡ (is_down action || not (is_nil ((gesture_of gesture.now).targets group))) }
{
    is_down(action) || gesture.newest(group).is_some()
}

/// A scroll view looks at an event that it is asked about.
fn look(gesture: &mut Gesture, own: &Receiver, event: &Event)
    requires { IsOpen gesture.old own.now.number }
    ensures opened { KeepsOpen gesture.old.seats gesture.new.seats }
    ensures looked { gesture_of gesture.new ≡ looked own.now event.now (gesture_of gesture.old) }
{
    if own.scrolls {
        let drag = asked_drag(own, event, gesture.drag(own.number));
        gesture.set_drag(own.number, drag);
    }
}

/// Whether a group that is asked takes an event away: its plan has the action, or it is a scroll view whose drag is on.
fn intercepts(gesture: &Gesture, own: &Receiver, event: &Event) -> bool
    ensures { result ≡ intercepts own.now event.now (gesture_of gesture.now) }
{
    is_planned(own.intercept, event.action) || (own.scrolls && gesture.drag(own.number).dragging)
}

/// A view handles an event itself, by its plan.
pub fn handle(gesture: &mut Gesture, log: &mut Log, own: &Receiver, event: &Event) -> bool
    requires open { IsOpen gesture.old own.now.number }
    requires fits { (offsets : ℕ → ℤ)
        → many (handled_by own.now.answer own.now event.now
        (progress_by offsets (gesture_of gesture.old) log.old.entries.items)).progress ≤ room_of log.old }
    ensures handled { (offsets : ℕ → ℤ)
        → handled_by own.now.answer own.now event.now
        (progress_by offsets (gesture_of gesture.old) log.old.entries.items)
        ≡ record { yes = result; progress = progress_by offsets (gesture_of gesture.new) log.new.entries.items } }
    ensures opened { KeepsOpen gesture.old.seats gesture.new.seats }
    ensures room { KeepsRoom log.old log.new }
{
    match own.answer {
        Answer::Off => {
            note(log, own.number, Kind::Touch, event, false);
            false
        }
        Answer::Yes => {
            note(log, own.number, Kind::Touch, event, true);
            true
        }
        Answer::Click => {
            note(log, own.number, Kind::Touch, event, true);
            click(gesture, log, own, event);
            true
        }
    }
}

/// A view that can be clicked handles an event: it is pressed as long as the first point stays near it, and a click is
/// noted if the last pointer goes up there.
fn click(gesture: &mut Gesture, log: &mut Log, own: &Receiver, event: &Event)
    requires open { IsOpen gesture.old own.now.number }
    requires fits { (offsets : ℕ → ℤ)
        → many (click_handled own.now event.now (progress_by offsets (gesture_of gesture.old) log.old.entries.items))
        ≤ room_of log.old }
    ensures clicked { (offsets : ℕ → ℤ)
        → progress_by offsets (gesture_of gesture.new) log.new.entries.items
        ≡ click_handled own.now event.now (progress_by offsets (gesture_of gesture.old) log.old.entries.items) }
    ensures opened { KeepsOpen gesture.old.seats gesture.new.seats }
    ensures room { KeepsRoom log.old log.new }
{
    let near = is_near_first(own, event.points.as_slice());
    let pressed = gesture.presses(own.number);
    gesture.press(own.number, pressed_after(event.action, near, pressed));
    if clicks(event.action, near, pressed) {
        note(log, own.number, Kind::Click, event, true);
    }
}

/// Whether a view is pressed after an action, by whether the first point is near it and whether it was pressed before.
fn pressed_after(action: Action, near: bool, pressed: bool) -> bool
    ensures { result ≡ pressed_after action near pressed }
{
    match action {
        Action::Down => near,
        Action::Move => pressed && near,
        Action::Up | Action::Cancel => false,
        Action::PointerDown | Action::PointerUp => pressed,
    }
}

/// Whether an action is a click on a view: the last pointer goes up near it, and it was pressed.
fn clicks(action: Action, near: bool, pressed: bool) -> bool
    ensures { result ≡ clicks action near pressed }
{
    match action {
        Action::Up => pressed && near,
        Action::Down | Action::Move | Action::Cancel | Action::PointerDown | Action::PointerUp => {
            false
        }
    }
}

/// The answer of a scroll view to an event that it handles itself.
pub fn drag_answer(own: &Receiver, action: Action) -> bool
    ensures { result ≡ drag_answer own.now.childless action }
{
    !(own.childless && is_down(action))
}
