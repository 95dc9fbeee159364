//! What the targets of a group get.
ghost use Rattle.std.specs.Prelude.{◌≡◌, ◌≤◌, ◌||◌, true, false};
ghost use Rattle.touch_dispatch.specs.reaching.Delivery.{delivered_target, delivered_targets, own_targets};
ghost use Rattle.touch_dispatch.specs.Dispatch.{is_sent};
ghost use Rattle.touch_dispatch.specs.handling.Handling.{many};
ghost use Rattle.touch_dispatch.specs.reaching.TreeEvents.{KeepsScene, MayReach, progress_of, room_of};
ghost use Rattle.touch_targets.specs.Captures.{is_target};

use crate::gesture::Gesture;
use crate::log::Log;
use crate::reaching::delivery::{Delivery, Shared};
use crate::reaching::points::{cancel_event, put_part};
use crate::reaching::reach;
use crate::reaching::taker::Taker;
use view_tree::ViewTree;

/// Sends an event to each target, the newest first, and returns whether one has taken it.
#[cycle(reach)]
pub fn deliver(tree: &mut ViewTree, gesture: &mut Gesture, log: &mut Log, shared: &Shared) -> bool
    requires may { MayReach tree.old gesture.old shared.now.delivery.now.view shared.now.delivery.now.event.now }
    requires fits { many (delivered_targets tree.old shared.now
        (own_targets tree.old gesture.old shared.now.delivery.now.view) false
        (progress_of tree.old gesture.old log.old)).progress ≤ room_of log.old }
    ensures delivered { delivered_targets tree.old shared.now
        (own_targets tree.old gesture.old shared.now.delivery.now.view) false
        (progress_of tree.old gesture.old log.old)
        ≡ record { yes = result; progress = progress_of tree.new gesture.new log.new } }
    ensures kept { KeepsScene tree.old tree.new gesture.old gesture.new log.old log.new }
{
    let group = tree.number(shared.delivery.view);
    let mut yes = false;
    let mut next = gesture.newest(group);
    while let Some(child) = next {
        let said = deliver_to(tree, gesture, log, shared, child);
        yes = either(yes, said);
        next = gesture.next(child);
    }
    yes
}

/// Sends a target its part of an event, unless it had it when it was captured (`dispatchTransformedTouchEvent`).
#[inline(never)]
#[cycle(reach)]
fn deliver_to(
    tree: &mut ViewTree,
    gesture: &mut Gesture,
    log: &mut Log,
    shared: &Shared,
    child: u64,
) -> bool
    requires may { MayReach tree.old gesture.old shared.now.delivery.now.view shared.now.delivery.now.event.now }
    requires target { is_target child (own_targets tree.old gesture.old shared.now.delivery.now.view) ≡ true }
    requires fits { many (delivered_target tree.old shared.now child
        (own_targets tree.old gesture.old shared.now.delivery.now.view)
        (progress_of tree.old gesture.old log.old)).progress ≤ room_of log.old }
    ensures delivered { delivered_target tree.old shared.now child
        (own_targets tree.old gesture.old shared.now.delivery.now.view) (progress_of tree.old gesture.old log.old)
        ≡ record { yes = result; progress = progress_of tree.new gesture.new log.new } }
    ensures kept { KeepsScene tree.old tree.new gesture.old gesture.new log.old log.new }
{
    let Shared {
        delivery,
        intercepted,
        taker,
    } = *shared;
    if is_sent(taker, child) {
        return true;
    }
    let Some(kid) = tree.find(child) else {
        return false;
    };
    let own = tree.facts(delivery.view);
    let rect = tree.state(kid).bounds;
    let ids = gesture.ids(child);
    let mut part = cancel_event();
    if !intercepted && !put_part(&mut part, own, rect, delivery.event, ids) {
        return false;
    }
    let to_kid = Delivery {
        view: kid,
        event: &part,
        slop: delivery.slop,
    };
    reach(tree, gesture, log, &to_kid)
}

/// Both are looked at, whatever the first says.
fn either(first: bool, second: bool) -> bool
    ensures { result ≡ (first || second) }
{
    first || second
}

/// Whether this child got the event when it was captured.
fn is_sent(taker: Taker, child: u64) -> bool
    ensures { result ≡ is_sent taker child }
{
    match taker {
        Taker::NoChild | Taker::Earlier => false,
        Taker::Sent(forwarded) => forwarded == child,
    }
}
