//! Which child of a group takes a pointer that goes down.
ghost use Rattle.std.specs.Prelude.{◌≡◌, ◌≤◌};
ghost use Rattle.touch_dispatch.specs.reaching.Delivery.{offered_kids, tried_kid, tried_kids};
ghost use Rattle.touch_dispatch.specs.Dispatch.{is_taken};
ghost use Rattle.touch_dispatch.specs.handling.Handling.{many};
ghost use Rattle.touch_dispatch.specs.reaching.TreeEvents.{IsKidAt, KeepsScene, MayReach, progress_of, room_of};

use crate::gesture::Gesture;
use crate::log::Log;
use crate::reaching::delivery::Delivery;
use crate::reaching::points::{id_bit, is_offered, is_tried, tried_event, tried_ids};
use crate::reaching::reach;
use crate::reaching::taker::Taker;
use crate::reaching::target_list::{is_target, settle};
use view_tree::{Key, ViewTree};

/// Looks for a child to capture, if a pointer comes down and the group lets its children have it: the first pointer,
/// and each other one if the group splits events. A pointer that no child takes goes to the oldest target. So does
/// Android's `ViewGroup.dispatchTouchEvent`.
#[cycle(reach)]
pub fn offer(
    tree: &mut ViewTree,
    gesture: &mut Gesture,
    log: &mut Log,
    delivery: &Delivery,
    intercepted: bool,
) -> Taker
    requires may { MayReach tree.old gesture.old delivery.now.view delivery.now.event.now }
    requires fits { many
        (offered_kids tree.old delivery.now intercepted (progress_of tree.old gesture.old log.old)).progress
        ≤ room_of log.old }
    ensures offered { offered_kids tree.old delivery.now intercepted (progress_of tree.old gesture.old log.old)
        ≡ record { taker = result; progress = progress_of tree.new gesture.new log.new } }
    ensures kept { KeepsScene tree.old tree.new gesture.old gesture.new log.old log.new }
{
    if intercepted || !is_offered(delivery.event.action, tree.facts(delivery.view).split) {
        return Taker::NoChild;
    }
    let taker = try_children(tree, gesture, log, delivery);
    settle(gesture, tree.number(delivery.view), delivery.event, taker);
    taker
}

/// Tries the children from the last, which is on top, until one takes the pointer.
#[cycle(reach)]
fn try_children(
    tree: &mut ViewTree,
    gesture: &mut Gesture,
    log: &mut Log,
    delivery: &Delivery,
) -> Taker
    requires may { MayReach tree.old gesture.old delivery.now.view delivery.now.event.now }
    requires fits { many (tried_kids tree.old delivery.now (progress_of tree.old gesture.old log.old)).progress
        ≤ room_of log.old }
    ensures tried { tried_kids tree.old delivery.now (progress_of tree.old gesture.old log.old)
        ≡ record { taker = result; progress = progress_of tree.new gesture.new log.new } }
    ensures kept { KeepsScene tree.old tree.new gesture.old gesture.new log.old log.new }
{
    let mut next = tree.last(delivery.view);
    while let Some(kid) = next {
        let taker = try_child(tree, gesture, log, delivery, kid);
        if is_taken(taker) {
            return taker;
        }
        next = tree.previous(kid);
    }
    Taker::NoChild
}

/// Tries one child: it gets the event if the pointer is in it, unless it is a target already.
#[inline(never)]
#[cycle(reach)]
fn try_child(
    tree: &mut ViewTree,
    gesture: &mut Gesture,
    log: &mut Log,
    delivery: &Delivery,
    kid: Key,
) -> Taker
    requires may { MayReach tree.old gesture.old delivery.now.view delivery.now.event.now }
    requires kid { IsKidAt tree.old delivery.now.view kid }
    requires fits { many (tried_kid tree.old delivery.now kid (progress_of tree.old gesture.old log.old)).progress
        ≤ room_of log.old }
    ensures tried { tried_kid tree.old delivery.now kid (progress_of tree.old gesture.old log.old)
        ≡ record { taker = result; progress = progress_of tree.new gesture.new log.new } }
    ensures kept { KeepsScene tree.old tree.new gesture.old gesture.new log.old log.new }
{
    let own = tree.facts(delivery.view);
    let split = own.split;
    let group = tree.number(delivery.view);
    let child = tree.number(kid);
    let rect = tree.state(kid).bounds;
    if !is_tried(own, tree.facts(kid), rect, delivery.event) {
        return Taker::NoChild;
    }
    if is_target(gesture, group, child) {
        gesture.put(group, child, id_bit(delivery.event.pointer));
        return Taker::Earlier;
    }
    let part = tried_event(own, rect, delivery.event);
    let to_kid = Delivery {
        view: kid,
        event: &part,
        slop: delivery.slop,
    };
    if !reach(tree, gesture, log, &to_kid) {
        return Taker::NoChild;
    }
    gesture.put(group, child, tried_ids(split, delivery.event));
    Taker::Sent(child)
}

/// Whether a child has the pointer.
fn is_taken(taker: Taker) -> bool
    ensures { result ≡ is_taken taker }
{
    match taker {
        Taker::NoChild => false,
        Taker::Earlier | Taker::Sent(_) => true,
    }
}
