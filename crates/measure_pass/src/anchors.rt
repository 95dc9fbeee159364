//! The anchors of a child of a relative layout: the siblings to which it is tied, found by their ids.
//!
//! Of children with one id the last counts; if that is the child itself, the rule has no effect. A start form that is
//! set replaces the left form even if it names no child. A rule on a side of the parent and its start or end form are
//! one rule, which holds if either is `yes`.
ghost use Rattle.std.specs.Prelude.{◌≡◌, ℕ, IfSome};
ghost use Rattle.measure_pass.specs.Measured.{kids_from};
ghost use Rattle.measure_pass.specs.Replacing.{AreReplaced, IsAnchorBy, IsReplaced, MaySearch, instead_of};
ghost use Rattle.measure_pass.specs.Siblings.{IsKidAt, edge_on, first_span, kept_spans, kids_in};
ghost use Rattle.view_model.specs.declared.class.Class.TheVariants.{RelativeLayout};
ghost use Rattle.view_model.specs.Facts.{is_shown, layout_facts};
ghost use Rattle.view_model.specs.RelativeCourse.{anchor_with, anchors_by, child_at, links_of};
ghost use Rattle.view_model.specs.RelativeLayout.{span_or_none};
ghost use Rattle.view_model.specs.SiblingRules.{anchor_of, named_sibling};
ghost use Rattle.view_tree.specs.Rows.{head_view, part_from, siblings_from};
ghost use Rattle.view_tree.specs.Views.{IsLive, class_of, held_of, state_of};

use crate::replacements::{Replacement, Replacements};
use crate::siblings::turns;
use view_model::{Anchor, Anchors, Axis, Tie};
use view_tree::{Key, ViewTree};

/// A turn in a phase of a relative layout: of this child of this group, on this axis; the group runs from right to left
/// or not.
#[derive(Clone, Copy)]
pub struct Turn {
    pub view: Key,
    pub kid: Key,
    pub axis: Axis,
    pub rtl: bool,
}

impl Turn {
    /// What the anchor of a tie is searched by.
    fn search(self, tie: Tie) -> Search
        ensures { result ≡ record { view = self.view; axis = self.axis; rtl = self.rtl; tie = tie } }
    {
        Search {
            view: self.view,
            axis: self.axis,
            rtl: self.rtl,
            tie,
        }
    }
}

/// What an anchor is searched by: a tie of children of this group, on this axis; the group runs from right to left or
/// not.
#[derive(Clone, Copy)]
pub struct Search {
    pub view: Key,
    pub axis: Axis,
    pub rtl: bool,
    pub tie: Tie,
}

/// The anchors of a child on an axis, with the sides that are kept of them. What the search works with leaves the stack
/// before the child is measured.
#[inline(never)]
pub fn anchors_of(tree: &ViewTree, turn: Turn, replaced: &mut Replacements) -> Anchors
    requires live { IsLive tree.now turn.view }
    requires siblings { class_of tree.now turn.view ≡ RelativeLayout }
    requires kid { IsLive tree.now turn.kid }
    requires replaced { AreReplaced tree.now.tree turn.view turn.axis turn.rtl replaced.old }
    ensures anchors { (place : ℕ)
        → part_from turn.kid tree.now.tree ≡ siblings_from place (kids_from turn.view tree.now.tree)
        → result ≡ anchors_by turn.rtl turn.axis (kids_in (kids_from turn.view tree.now.tree))
        (kept_spans turn.axis (held_of tree.now) (kids_from turn.view tree.now.tree)) place }
    ensures replaced { AreReplaced tree.now.tree turn.view turn.axis turn.rtl replaced.new }
{
    let kid = turn.kid;
    Anchors {
        before: anchor_of(tree, turn.search(Tie::Before), kid, &mut replaced.before),
        after: anchor_of(tree, turn.search(Tie::After), kid, &mut replaced.after),
        align_near: anchor_of(
            tree,
            turn.search(Tie::AlignNear),
            kid,
            &mut replaced.align_near,
        ),
        align_far: anchor_of(
            tree,
            turn.search(Tie::AlignFar),
            kid,
            &mut replaced.align_far,
        ),
    }
}

/// The anchor to which a rule ties a child, if there is one. Most children have no such rule, which is seen without a
/// look-up.
#[inline(always)]
fn anchor_of(
    tree: &ViewTree,
    search: Search,
    kid: Key,
    last: &mut Option<Replacement>,
) -> Option<Anchor>
    requires search { MaySearch tree.now search kid }
    requires last { IfSome last.old (IsReplaced tree.now.tree search) }
    ensures anchor { IsAnchorBy tree.now search kid result }
    ensures last { IfSome last.new (IsReplaced tree.now.tree search) }
{
    let id = search
        .tie
        .anchor_id(search.rtl, search.axis, &tree.facts(kid).rules);
    if id == 0 {
        return None;
    }
    named_anchor(tree, search, kid, last)
}

/// The same by a search, whether the child has such a rule or not.
#[inline(never)]
fn named_anchor(
    tree: &ViewTree,
    search: Search,
    kid: Key,
    last: &mut Option<Replacement>,
) -> Option<Anchor>
    requires search { MaySearch tree.now search kid }
    requires last { IfSome last.old (IsReplaced tree.now.tree search) }
    ensures anchor { IsAnchorBy tree.now search kid result }
    ensures last { IfSome last.new (IsReplaced tree.now.tree search) }
{
    match anchor_key(tree, search, kid, last) {
        None => None,
        Some(anchor) => Some(anchor_with(tree, anchor, search.axis)),
    }
}

/// A child as an anchor, with the sides that are kept of it.
fn anchor_with(tree: &ViewTree, kid: Key, axis: Axis) -> Anchor
    requires { IsLive tree.now kid }
    ensures { result ≡ anchor_with axis (layout_facts (head_view (part_from kid tree.now.tree)).facts)
        (first_span axis (held_of tree.now) (part_from kid tree.now.tree)) }
{
    let margins = axis.margins(tree.facts(kid));
    anchor_between(kept_span(tree, kid, axis), margins)
}

/// A sibling with these sides and margins on an axis.
fn anchor_between(span: (i32, i32), margins: (i32, i32)) -> Anchor
    ensures { result ≡ record { near = span.0; far = span.1; margin_near = margins.0; margin_far = margins.1 } }
{
    Anchor {
        near: span.0,
        far: span.1,
        margin_near: margins.0,
        margin_far: margins.1,
    }
}

/// The sides that are kept of a child on an axis.
fn kept_span(tree: &ViewTree, kid: Key, axis: Axis) -> (i32, i32)
    requires { IsLive tree.now kid }
    ensures { result ≡ span_or_none (edge_on axis (state_of tree.now kid).edges) }
{
    let edges = tree.state(kid).edges;
    match axis {
        Axis::Horizontal => edges.across.unwrap_or((0, 0)),
        Axis::Vertical => edges.down.unwrap_or((0, 0)),
    }
}

/// The sibling to which a rule ties a child. If the one that it names is gone, it is the one that is named by that
/// one's rule, and so on.
fn anchor_key(
    tree: &ViewTree,
    search: Search,
    kid: Key,
    last: &mut Option<Replacement>,
) -> Option<Key>
    requires search { MaySearch tree.now search kid }
    requires last { IfSome last.old (IsReplaced tree.now.tree search) }
    ensures key { (place : ℕ)
        → part_from kid tree.now.tree ≡ siblings_from place (kids_from search.view tree.now.tree)
        → IsKidAt tree.now.tree (kids_from search.view tree.now.tree)
        (anchor_of search.rtl search.axis search.tie (links_of (kids_in (kids_from search.view tree.now.tree)))
        (λ sibling. is_shown (child_at (kids_in (kids_from search.view tree.now.tree)) sibling).facts)
        place) result }
    ensures live { IfSome result (IsLive tree.now) }
    ensures last { IfSome last.new (IsReplaced tree.now.tree search) }
{
    let Some(named) = named_sibling(tree, search, kid) else {
        return None;
    };
    if tree.facts(named).is_shown() {
        return Some(named);
    }
    replacement_of(tree, search, named, last)
}

/// The sibling that is used instead of a gone one, to which another one is tied.
#[inline(never)]
fn replacement_of(
    tree: &ViewTree,
    search: Search,
    gone: Key,
    last: &mut Option<Replacement>,
) -> Option<Key>
    requires search { MaySearch tree.now search gone }
    requires last { IfSome last.old (IsReplaced tree.now.tree search) }
    ensures replaced { IsReplaced tree.now.tree search (record { gone = gone; by = result }) }
    ensures last { IfSome last.new (IsReplaced tree.now.tree search) }
{
    if let Some(replaced) = *last {
        if replaced.gone == gone {
            return replaced.by;
        }
    }
    let by = past_gone(tree, search, gone);
    *last = Some(Replacement { gone, by });
    by
}

/// The same by a walk over the gone siblings.
fn past_gone(tree: &ViewTree, search: Search, gone: Key) -> Option<Key>
    requires search { MaySearch tree.now search gone }
    ensures key { (place : ℕ)
        → part_from gone tree.now.tree ≡ siblings_from place (kids_from search.view tree.now.tree)
        → IsKidAt tree.now.tree (kids_from search.view tree.now.tree)
        (instead_of search (kids_in (kids_from search.view tree.now.tree)) place) result }
    ensures live { IfSome result (IsLive tree.now) }
{
    let mut at = gone;
    let mut left = turns(tree, search.view).saturating_sub(1);
    while left > 0 {
        let Some(named) = named_sibling(tree, search, at) else {
            return None;
        };
        if tree.facts(named).is_shown() {
            return Some(named);
        }
        at = named;
        left -= 1;
    }
    None
}

/// The sibling that a child's own rule names: the last child with the id, if it is not the child itself.
fn named_sibling(tree: &ViewTree, search: Search, kid: Key) -> Option<Key>
    requires search { MaySearch tree.now search kid }
    ensures key { (place : ℕ)
        → part_from kid tree.now.tree ≡ siblings_from place (kids_from search.view tree.now.tree)
        → IsKidAt tree.now.tree (kids_from search.view tree.now.tree)
        (named_sibling search.rtl search.axis search.tie (links_of (kids_in (kids_from search.view tree.now.tree)))
        place) result }
    ensures live { IfSome result (IsLive tree.now) }
{
    let id = search
        .tie
        .anchor_id(search.rtl, search.axis, &tree.facts(kid).rules);
    let Some(named) = tree.last_child_with_id(search.view, id) else {
        return None;
    };
    if named == kid { None } else { Some(named) }
}
