//! How a group passes an event on.
ghost use Rattle.std.specs.Prelude.{◌≡◌, ◌≤◌};
ghost use Rattle.touch_dispatch.specs.reaching.Delivery.{answered_group, delivered_group};
ghost use Rattle.touch_dispatch.specs.handling.Handling.{many};
ghost use Rattle.touch_dispatch.specs.reaching.TreeEvents.{KeepsScene, MayReach, progress_of, room_of};

use crate::gesture::Gesture;
use crate::handling::ask;
use crate::handling::scrolling::receiver_at;
use crate::log::Log;
use crate::reaching::children::offer;
use crate::reaching::delivery::{Delivery, Shared};
use crate::reaching::handle_at;
use crate::reaching::target_list::{begin, end};
use crate::reaching::targets::deliver;
use view_tree::ViewTree;

/// A group gets an event, as in Android's `ViewGroup.dispatchTouchEvent`: the first pointer that goes down begins a
/// gesture without targets. The group is asked whether it takes the event away from its children, by Android's
/// `onInterceptTouchEvent`. If it does not, a pointer that goes down is offered to them, and the child that takes it
/// becomes a target. Then each target gets its part, a cancel if the group took the event away; a group without targets
/// handles the event itself. What the event ends is removed last.
#[cycle(reach)]
pub fn reach_group(
    tree: &mut ViewTree,
    gesture: &mut Gesture,
    log: &mut Log,
    delivery: &Delivery,
) -> bool
    requires may { MayReach tree.old gesture.old delivery.now.view delivery.now.event.now }
    requires fits { many (delivered_group tree.old delivery.now (progress_of tree.old gesture.old log.old)).progress
        ≤ room_of log.old }
    ensures reached { delivered_group tree.old delivery.now (progress_of tree.old gesture.old log.old)
        ≡ record { yes = result; progress = progress_of tree.new gesture.new log.new } }
    ensures kept { KeepsScene tree.old tree.new gesture.old gesture.new log.old log.new }
{
    let own = receiver_at(tree, delivery.slop, delivery.view);
    let split = tree.facts(delivery.view).split;
    begin(gesture, own.number, delivery.event.action);
    let intercepted = ask(gesture, log, &own, delivery.event);
    let taker = offer(tree, gesture, log, delivery, intercepted);
    let shared = Shared {
        delivery: &*delivery,
        intercepted,
        taker,
    };
    let yes = answer(tree, gesture, log, &shared);
    end(gesture, own.number, split, delivery.event, intercepted);
    yes
}

/// The answer of a group: that of its targets, or its own if it has none.
#[cycle(reach)]
fn answer(tree: &mut ViewTree, gesture: &mut Gesture, log: &mut Log, shared: &Shared) -> bool
    requires may { MayReach tree.old gesture.old shared.now.delivery.now.view shared.now.delivery.now.event.now }
    requires fits { many (answered_group tree.old shared.now (progress_of tree.old gesture.old log.old)).progress
        ≤ room_of log.old }
    ensures answered { answered_group tree.old shared.now (progress_of tree.old gesture.old log.old)
        ≡ record { yes = result; progress = progress_of tree.new gesture.new log.new } }
    ensures kept { KeepsScene tree.old tree.new gesture.old gesture.new log.old log.new }
{
    if gesture.newest(tree.number(shared.delivery.view)).is_none() {
        return handle_at(tree, gesture, log, shared.delivery);
    }
    deliver(tree, gesture, log, shared)
}
