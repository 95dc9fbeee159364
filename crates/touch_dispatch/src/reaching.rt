//! An event goes down a tree: `group` is how a group passes it on, `children` which child takes a pointer that goes
//! down, `targets` what the targets of the group get, and `target_list` which targets it has afterwards. `delivery` is the
//! event on its way, `points` a child's part of it, and `taker` the child that has got it.
ghost use Rattle.std.specs.Prelude.{◌≡◌, ◌≤◌};
ghost use Rattle.touch_dispatch.specs.reaching.Delivery.{delivered, delivered_own};
ghost use Rattle.touch_dispatch.specs.handling.Handling.{many};
ghost use Rattle.touch_dispatch.specs.reaching.TreeEvents.{IsGestureIn, KeepsScene, MayReach, progress_of, room_of};
ghost use Rattle.view_tree.specs.Views.{IsLive};

mod children;
pub mod delivery;
mod group;
pub mod points;
pub mod taker;
pub mod target_list;
mod targets;

use crate::gesture::Gesture;
use crate::handling::handle;
use crate::handling::scrolling::{handle_drag, receiver_at};
use crate::log::Log;
use crate::reaching::delivery::Delivery;
use group::reach_group;
use view_tree::ViewTree;

/// Sends an event to a view, in its coordinates: what Android's `dispatchTouchEvent` does, `View`'s and `ViewGroup`'s.
#[cycle(reach)]
pub fn reach(tree: &mut ViewTree, gesture: &mut Gesture, log: &mut Log, delivery: &Delivery) -> bool
    requires may { MayReach tree.old gesture.old delivery.now.view delivery.now.event.now }
    requires fits { many (delivered tree.old delivery.now (progress_of tree.old gesture.old log.old)).progress
        ≤ room_of log.old }
    ensures reached { delivered tree.old delivery.now (progress_of tree.old gesture.old log.old)
        ≡ record { yes = result; progress = progress_of tree.new gesture.new log.new } }
    ensures kept { KeepsScene tree.old tree.new gesture.old gesture.new log.old log.new }
{
    if tree.class(delivery.view).is_group() {
        reach_group(tree, gesture, log, delivery)
    } else {
        handle_at(tree, gesture, log, delivery)
    }
}

/// A view handles an event itself, as by Android's `onTouchEvent`.
fn handle_at(tree: &mut ViewTree, gesture: &mut Gesture, log: &mut Log, delivery: &Delivery) -> bool
    requires live { IsLive tree.old delivery.now.view }
    requires caught { IsGestureIn tree.old.tree gesture.old }
    requires fits { many (delivered_own tree.old delivery.now (progress_of tree.old gesture.old log.old)).progress
        ≤ room_of log.old }
    ensures reached { delivered_own tree.old delivery.now (progress_of tree.old gesture.old log.old)
        ≡ record { yes = result; progress = progress_of tree.new gesture.new log.new } }
    ensures kept { KeepsScene tree.old tree.new gesture.old gesture.new log.old log.new }
{
    let own = receiver_at(tree, delivery.slop, delivery.view);
    if own.scrolls {
        handle_drag(tree, gesture, log, delivery, &own)
    } else {
        handle(gesture, log, &own, delivery.event)
    }
}
