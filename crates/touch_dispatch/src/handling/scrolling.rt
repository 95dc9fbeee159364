//! How a scroll view moves its child at an event.
ghost use Rattle.std.specs.Prelude.{◌≡◌, ◌≤◌, ℤ, true, IfSome};
ghost use Rattle.geom_core.specs.Limits.{IsSide};
ghost use Rattle.kept_views.specs.Kept.{first_place};
ghost use Rattle.touch_dispatch.specs.reaching.Delivery.{IsReadAt};
ghost use Rattle.touch_dispatch.specs.Dispatch.{first_rect, range_for, receiver};
ghost use Rattle.touch_dispatch.specs.handling.Drags.{IsWay};
ghost use Rattle.touch_dispatch.specs.gesture.Gestures.{PlainGesture, at_number};
ghost use Rattle.touch_dispatch.specs.handling.Handling.{drag_handled, is_same_offset, many, moved_by, offset_after};
ghost use Rattle.touch_dispatch.specs.gesture.Kept.{IsOpen};
ghost use Rattle.touch_dispatch.specs.reaching.TreeEvents.{OnlyScrolls, kids_of, offsets_in, own_of, own_range, progress_by, progress_of, room_of, scene_of, KeepsRoom};
ghost use Rattle.view_model.specs.ScrollView.{offset_within};
ghost use Rattle.view_tree.specs.Rows.{children_of_first, part_from};
ghost use Rattle.view_tree.specs.Views.{IsLive, IsTree, facts_of, held_of, number_of};
ghost use Rattle.touch_targets.specs.Seats.{KeepsOpen};

use crate::gesture::Gesture;
use crate::handling::drag::pulled;
use crate::handling::receiver::Receiver;
use crate::handling::{drag_answer, note};
use crate::log::{Entry, Kind, Log};
use crate::reaching::delivery::Delivery;
use crate::reaching::points::cancel_event;
use geom_core::Rect;
use scroll_view::range_in;
use view_model::Facts;
use view_tree::{Key, ViewTree};

/// A view as it handles an event itself.
pub fn receiver_at(tree: &ViewTree, slop: i32, view: Key) -> Receiver
    requires { IsLive tree.now view }
    ensures value { result ≡ receiver (scene_of tree.now slop) (own_of tree.now view)
        (kids_of tree.now slop view) }
    ensures range { IsSide result.range }
    ensures own { result.range ≡ own_range tree.now view }
    ensures is_tree { IsTree tree.now }
{
    let facts = tree.facts(view);
    let rect = tree.state(view).bounds;
    let scrolls = tree.class(view).scrolls();
    Receiver {
        number: tree.number(view),
        scrolls,
        answer: facts.answer,
        intercept: facts.intercept,
        rect,
        range: range_for(scrolls, facts, rect, first_rect(tree, view)),
        childless: tree.first(view).is_none(),
        slop,
    }
}

/// The bounds of the first child of a view.
fn first_rect(tree: &ViewTree, view: Key) -> Option<Rect>
    requires { IsLive tree.now view }
    ensures scene { (slop : ℤ) → result ≡ first_rect (scene_of tree.now slop) (kids_of tree.now slop view) }
    ensures place { result ≡ first_place (held_of tree.now) (children_of_first (part_from view tree.now.tree)) }
{
    match tree.first(view) {
        None => None,
        Some(kid) => tree.state(kid).bounds,
    }
}

/// How far a scroll view with these bounds can move up its child with those.
fn range_for(scrolls: bool, own: &Facts, rect: Option<Rect>, child: Option<Rect>) -> i32
    ensures value { result ≡ range_for scrolls own.now rect child }
    ensures side { IsSide result }
{
    match rect {
        Some(rect) if scrolls => range_in(own, rect, child),
        _ => 0,
    }
}

/// A scroll view handles an event itself, as by Android's `ScrollView.onTouchEvent`: it follows one pointer, and its
/// child moves with that once the pointer has gone further than the slop.
pub fn handle_drag(
    tree: &mut ViewTree,
    gesture: &mut Gesture,
    log: &mut Log,
    delivery: &Delivery,
    own: &Receiver,
) -> bool
    requires read { IsReadAt tree.old delivery.now.view own.now }
    requires open { IsOpen gesture.old own.now.number }
    requires fits { many
        (drag_handled own.now delivery.now.event.now (progress_of tree.old gesture.old log.old)).progress
        ≤ room_of log.old }
    ensures handled { drag_handled own.now delivery.now.event.now (progress_of tree.old gesture.old log.old)
        ≡ record { yes = result; progress = progress_of tree.new gesture.new log.new } }
    ensures scrolls { OnlyScrolls tree.old tree.new }
    ensures opened { KeepsOpen gesture.old.seats gesture.new.seats }
    ensures room { KeepsRoom log.old log.new }
{
    let said = drag_answer(own, delivery.event.action);
    note(log, own.number, Kind::Touch, delivery.event, said);
    let pull = pulled(own, delivery.event, gesture.drag(own.number));
    gesture.set_drag(own.number, pull.drag);
    move_child(tree, log, delivery, own, pull.by);
    said
}

/// The child of a scroll view goes up by this much, within its range, and that is reported if it moves at all.
fn move_child(
    tree: &mut ViewTree,
    log: &mut Log,
    delivery: &Delivery,
    own: &Receiver,
    by: Option<i64>,
)
    requires read { IsReadAt tree.old delivery.now.view own.now }
    requires way { IfSome by IsWay }
    requires fits { (g : PlainGesture)
        → many (moved_by by own.now delivery.now.event.now
        (progress_by (offsets_in tree.old) g log.old.entries.items)) ≤ room_of log.old }
    ensures moved { (g : PlainGesture)
        → progress_by (offsets_in tree.new) g log.new.entries.items
        ≡ moved_by by own.now delivery.now.event.now (progress_by (offsets_in tree.old) g log.old.entries.items) }
    ensures scrolls { OnlyScrolls tree.old tree.new }
    ensures room { KeepsRoom log.old log.new }
{
    let Some(way) = by else {
        return;
    };
    let facts = moved_facts(own, tree.facts(delivery.view), way);
    if is_same_offset(tree.facts(delivery.view), &facts) {
        return;
    }
    let offset = facts.offset;
    set_offset(tree, delivery.view, facts);
    log.note(Entry {
        view: own.number,
        kind: Kind::Scroll,
        event: cancel_event(),
        yes: true,
        offset,
    });
    log.set_event(delivery.event);
}

/// The facts of a scroll view, with its child this much further up, within its range.
fn moved_facts(own: &Receiver, facts: &Facts, way: i64) -> Facts
    requires way { IsWay way }
    requires range { IsSide own.now.range }
    ensures side { IsSide result.offset }
    ensures value { result ≡ record facts.now { offset = offset_after own.now.range facts.now.offset way } }
{
    Facts {
        offset: offset_after(own, facts, way),
        ..*facts
    }
}

/// The offset with the child this many pixels further up, brought into the range of the view.
fn offset_after(own: &Receiver, facts: &Facts, way: i64) -> i32
    requires way { IsWay way }
    requires range { IsSide own.now.range }
    ensures side { IsSide result }
    ensures value { result ≡ offset_after own.now.range facts.now.offset way }
{
    offset_within(own, i64::from(facts.offset) + way) as i32
}

/// An offset brought into the range of a view.
#[tactic(auto, unfolding(view_model::specs::ScrollView::offset_within))]
fn offset_within(own: &Receiver, offset: i64) -> i64
    requires { IsSide own.now.range }
    ensures value { result ≡ offset_within own.now.range offset }
    ensures side { IsSide result }
{
    let range = i64::from(own.range);
    let top = if range < offset { range } else { offset };
    if top < 0 { 0 } else { top }
}

/// Whether a scroll view's child is moved up by the same number of pixels in both.
#[tactic(auto, unfolding(crate::specs::handling::Handling::is_same_offset))]
fn is_same_offset(old: &Facts, new: &Facts) -> bool
    ensures { result ≡ is_same_offset old.now.offset new.now.offset }
{
    old.offset == new.offset
}

/// Sets the facts of a view, of which only the offset changes, within the range of the view.
fn set_offset(tree: &mut ViewTree, view: Key, facts: Facts)
    requires live { IsLive tree.old view }
    requires tree { IsTree tree.old }
    requires facts { facts ≡ record (facts_of tree.old view) { offset = facts.offset } }
    requires side { IsSide facts.offset }
    requires within { offset_within (own_range tree.old view) facts.offset ≡ facts.offset }
    ensures scrolls { OnlyScrolls tree.old tree.new }
    ensures offsets { offsets_in tree.new ≡ at_number (number_of tree.old view) facts.offset (offsets_in tree.old) }
{
    tree.set_facts(view, facts);
}
