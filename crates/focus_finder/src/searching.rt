//! The search for the candidate with the least key.

ghost use Rattle.std.specs.Prelude.{◌≡◌, IfSome};
ghost use Rattle.std.specs.Option.{option_map};
ghost use Rattle.focus_finder.specs.Focus.{candidate_of, is_candidate, least, lesser, next_focus, takes_clicks};
ghost use Rattle.focus_finder.specs.declared.searching.Candidate.{Candidate};
ghost use Rattle.focus_finder.specs.Sights.{candidates_in, own_candidate, sights};
ghost use Rattle.seen_parts.specs.Frames.{IsNearCanvas};
ghost use Rattle.seen_parts.specs.Meeting.{as_seen};
ghost use Rattle.view_model.specs.Painting.{is_drawn};
ghost use Rattle.view_tree.specs.Rows.{children_of_first, first_tree, part_from};
ghost use Rattle.view_tree.specs.Views.{IsLive, geometry_of, held_of, number_of, plain_of, view_at};

use crate::keys::{FocusKey, is_less, key};
use crate::side::{Side, is_low, lies_on, turned};
use geom_core::{Rect, Size};
use seen_parts::{Canvas, children_canvas, part_seen, seen, window_canvas};
use view_model::{Answer, Visibility};
use view_tree::{Key, ViewTree};

/// A view that may get the focus, and the key by which it is compared.
#[derive(Clone, Copy)]
pub struct Candidate {
    pub view: Key,
    pub key: FocusKey,
}

/// What is searched for: a view on a side of another, of which this is seen.
#[derive(Clone, Copy)]
pub struct Search {
    pub view: Key,
    pub side: Side,
    pub from: Rect,
}

/// The view that gets the focus next, from a view to a side of it, in a window of this size. The views have the bounds
/// of their last layout. One walk over the tree finds it.
pub fn next(tree: &ViewTree, window: Size, view: Key, side: Side) -> Option<Key>
    requires { IsLive tree.now view }
    ensures value { option_map (number_of tree.now) result
        ≡ next_focus (plain_of tree.now) (geometry_of tree.now) window (number_of tree.now view) side }
    ensures live { IfSome result (IsLive tree.now) }
{
    let from = seen(tree, window, view);
    let root = tree.root()?;
    let search = Search { view, side, from };
    view_of(best_in_view(tree, root, window_canvas(window), search, None))
}

/// The view of a candidate, if there is one.
fn view_of(best: Option<Candidate>) -> Option<Key>
    ensures { result ≡ option_map (λ (best : Candidate). best.view) best }
{
    match best {
        None => None,
        Some(best) => Some(best.view),
    }
}

/// The best of a candidate that was found before, if there is one, and those among a view and all below it. The canvas is
/// that of its siblings.
#[cycle(search)]
fn best_in_view(
    tree: &ViewTree,
    view: Key,
    canvas: Canvas,
    search: Search,
    best: Option<Candidate>,
) -> Option<Candidate>
    requires live { IsLive tree.now view }
    requires canvas { IsNearCanvas canvas }
    ensures { result ≡ lesser best (least (candidates_in search
        (sights (held_of tree.now) (as_seen canvas) (first_tree (part_from view tree.now.tree))))) }
{
    if !is_drawn(tree.facts(view).visibility) {
        return best;
    }
    let bounds = tree.state(view).bounds;
    let best = lesser(
        best,
        own_candidate(tree, view, part_seen(bounds, canvas), search),
    );
    let Some(bounds) = bounds else {
        return best;
    };
    match children_canvas(tree.facts(view), bounds, canvas) {
        None => best,
        Some(inner) => best_in_children(tree, view, inner, search, best),
    }
}

/// The same of the views below a view. The canvas is that of its children.
#[cycle(search)]
fn best_in_children(
    tree: &ViewTree,
    view: Key,
    canvas: Canvas,
    search: Search,
    best: Option<Candidate>,
) -> Option<Candidate>
    requires live { IsLive tree.now view }
    requires canvas { IsNearCanvas canvas }
    ensures { result ≡ lesser best (least (candidates_in search
        (sights (held_of tree.now) (as_seen canvas) (children_of_first (part_from view tree.now.tree))))) }
{
    let mut best = best;
    let mut next = tree.first(view);
    while let Some(child) = next {
        best = best_in_view(tree, child, canvas, search, best);
        next = tree.next(child);
    }
    best
}

/// A view as a candidate, if it is one, by what is seen of it.
fn own_candidate(tree: &ViewTree, view: Key, to: Rect, search: Search) -> Option<Candidate>
    requires { IsLive tree.now view }
    ensures { result ≡ own_candidate search (view_at tree.now view) view to }
{
    let answers = takes_clicks(tree.facts(view).answer);
    if !answers || tree.class(view).scrolls() {
        return None;
    }
    candidate_of(search, view, to)
}

/// Another view as a candidate, if what is seen of it lies on the side.
fn candidate_of(search: Search, view: Key, to: Rect) -> Option<Candidate>
    ensures { result ≡ candidate_of search.side search.view search.from view to }
{
    if view == search.view || !is_candidate(search.side, search.from, to) {
        return None;
    }
    Some(Candidate {
        view,
        key: key(search.side, search.from, to),
    })
}

/// Whether something is seen in both of two rectangles, and the second lies on a side of the first.
fn is_candidate(side: Side, from: Rect, to: Rect) -> bool
    ensures { result ≡ is_candidate side from to }
{
    !from.is_empty()
        && !to.is_empty()
        && lies_on(is_low(side), turned(side, from), turned(side, to))
}

/// The one of two candidates that has the lesser key, the first if the keys are equal.
fn lesser(one: Option<Candidate>, other: Option<Candidate>) -> Option<Candidate>
    ensures { result ≡ lesser one other }
{
    match (one, other) {
        (one, None) => one,
        (None, other) => other,
        (Some(one), Some(other)) => Some(if is_less(other.key, one.key) {
            other
        } else {
            one
        }),
    }
}

/// Whether a view with this answer takes clicks.
fn takes_clicks(answer: Answer) -> bool
    ensures { result ≡ takes_clicks answer }
{
    match answer {
        Answer::Off | Answer::Yes => false,
        Answer::Click => true,
    }
}

/// Whether a view of this visibility is drawn.
fn is_drawn(visibility: Visibility) -> bool
    ensures { result ≡ is_drawn visibility }
{
    match visibility {
        Visibility::Visible => true,
        Visibility::Invisible | Visibility::Gone => false,
    }
}
