//! An event of all the pointers, and the cancel of a view that goes away.
ghost use Rattle.std.specs.Prelude.{◌≡◌, ◌≤◌, ◌+◌, ◌*◌, ◌&&◌, ℕ, Some, length, is_some, false};
ghost use Rattle.touch_dispatch.specs.reaching.Delivery.{delivered};
ghost use Rattle.touch_dispatch.specs.Dispatch.{cancelled, dispatched};
ghost use Rattle.touch_dispatch.specs.gesture.Kept.{gesture_of, is_open};
ghost use Rattle.touch_dispatch.specs.Once.{asks, total, touches};
ghost use Rattle.touch_dispatch.specs.reaching.TreeEvents.{IsGestureIn, KeepsScene, MayReach, OnlyScrolls, Unchanged, parent_number, part_at, progress_of, room_of, scene_of, KeepsRoom};
ghost use Rattle.touch_targets.specs.Captures.{is_target};
ghost use Rattle.view_model.specs.Facts.{is_shown};
ghost use Rattle.view_model.specs.Forest.{count_of};
ghost use Rattle.view_tree.specs.Rows.{views_of};
ghost use Rattle.view_tree.specs.Views.{IsLive, IsTree, facts_of, number_of, state_of};
ghost use Rattle.touch_event.specs.Touches.{IsPointer};

use crate::gesture::Gesture;
use crate::log::Log;
use crate::reaching::delivery::Delivery;
use crate::reaching::points::cancel_event;
use crate::reaching::reach;
use crate::reaching::target_list::is_target;
use touch_event::Event;
use view_tree::{Key, ViewTree};

/// Sends an event of all the pointers to the root, in the root's coordinates, and returns what the root says. A pointer
/// may slip by `slop` pixels before that counts. It takes no memory.
pub fn dispatch(
    tree: &mut ViewTree,
    gesture: &mut Gesture,
    event: &Event,
    slop: i32,
    log: &mut Log,
) -> bool
    requires pointer { IsPointer event.now.pointer }
    requires caught { IsGestureIn tree.old.tree gesture.old }
    requires room { length log.old.entries.items + 3 * count_of tree.old.tree ≤ room_of log.old }
    ensures is_tree { IsTree tree.old }
    ensures dispatched { dispatched
        (scene_of tree.old slop) (views_of tree.old.tree) event.now (progress_of tree.old gesture.old log.old)
        ≡ record { yes = result; progress = progress_of tree.new gesture.new log.new } }
    ensures touched_once { (n : ℕ)
        → total (touches n) log.new.entries.items ≤ total (touches n) log.old.entries.items + 1 }
    ensures asked_once { (n : ℕ) → total (asks n) log.new.entries.items ≤ total (asks n) log.old.entries.items + 1 }
    ensures scrolls { OnlyScrolls tree.old tree.new }
    ensures caught { IsGestureIn tree.new.tree gesture.new }
    ensures opened { (number : ℕ) → is_open gesture.new number ≡ is_open gesture.old number }
    ensures room { KeepsRoom log.old log.new }
{
    let Some(root) = tree.root() else {
        return false;
    };
    if !gets_events(tree, root) {
        return false;
    }
    let delivery = Delivery {
        view: root,
        event,
        slop,
    };
    reach_whole(tree, gesture, log, &delivery)
}

/// Whether a root gets events: it has bounds and is not gone.
fn gets_events(tree: &ViewTree, root: Key) -> bool
    requires { IsLive tree.now root }
    ensures { result ≡ (is_some (state_of tree.now root).bounds && is_shown (facts_of tree.now root)) }
{
    tree.state(root).bounds.is_some() && tree.facts(root).is_shown()
}

/// Sends an event to a view; there is room for all that is recorded of it and of those below it.
fn reach_whole(
    tree: &mut ViewTree,
    gesture: &mut Gesture,
    log: &mut Log,
    delivery: &Delivery,
) -> bool
    requires may { MayReach tree.old gesture.old delivery.now.view delivery.now.event.now }
    requires room { length log.old.entries.items + 3 * count_of tree.old.tree ≤ room_of log.old }
    ensures reached { delivered tree.old delivery.now (progress_of tree.old gesture.old log.old)
        ≡ record { yes = result; progress = progress_of tree.new gesture.new log.new } }
    ensures touched_once { (n : ℕ)
        → total (touches n) log.new.entries.items ≤ total (touches n) log.old.entries.items + 1 }
    ensures asked_once { (n : ℕ) → total (asks n) log.new.entries.items ≤ total (asks n) log.old.entries.items + 1 }
    ensures kept { KeepsScene tree.old tree.new gesture.old gesture.new log.old log.new }
{
    gesture.recall_distinct();
    reach(tree, gesture, log, delivery)
}

/// Cancels the gesture of a view that is about to go away, from the tree or out of sight. A root always gets the
/// cancel, so a caller asks for it only if a pointer is down and the root is not gone. It takes no memory, and reads no
/// bounds of a view, so that it may come at any time.
pub fn cancel_view(tree: &mut ViewTree, gesture: &mut Gesture, view: Key, slop: i32, log: &mut Log)
    requires live { IsLive tree.old view }
    requires caught { IsGestureIn tree.old.tree gesture.old }
    requires room { length log.old.entries.items + 3 * count_of tree.old.tree ≤ room_of log.old }
    ensures cancelled { progress_of tree.new gesture.new log.new
        ≡ cancelled (scene_of tree.old slop) (parent_number tree.old view) (number_of tree.old view)
        (part_at tree.old view) (progress_of tree.old gesture.old log.old) }
    ensures gone { (group : ℕ)
        → parent_number tree.old view ≡ Some group
        → is_target (number_of tree.old view) ((gesture_of gesture.new).targets group) ≡ false }
    ensures unchanged { (group : ℕ)
        → parent_number tree.old view ≡ Some group
        → is_target (number_of tree.old view) ((gesture_of gesture.old).targets group) ≡ false
        → Unchanged tree.old tree.new gesture.old gesture.new log.old log.new }
    ensures touched_once { (n : ℕ)
        → total (touches n) log.new.entries.items ≤ total (touches n) log.old.entries.items + 1 }
    ensures asked_once { (n : ℕ) → total (asks n) log.new.entries.items ≤ total (asks n) log.old.entries.items + 1 }
    ensures scrolls { OnlyScrolls tree.old tree.new }
    ensures caught { IsGestureIn tree.new.tree gesture.new }
    ensures opened { (number : ℕ) → is_open gesture.new number ≡ is_open gesture.old number }
    ensures room { KeepsRoom log.old log.new }
{
    let event = cancel_event();
    let delivery = Delivery {
        view,
        event: &event,
        slop,
    };
    recall_tree(tree, view);
    let Some(parent) = tree.parent(view) else {
        reach_whole(tree, gesture, log, &delivery);
        return;
    };
    let number = tree.number(view);
    if !is_target(gesture, tree.number(parent), number) {
        return;
    }
    reach_whole(tree, gesture, log, &delivery);
    gesture.remove(number);
}

/// The invariant of every tree, for contracts alone.
fn recall_tree(tree: &ViewTree, view: Key)
    requires { IsLive tree.now view }
    ensures { IsTree tree.now }
{
    let _class = tree.class(view);
}
