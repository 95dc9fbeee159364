//! Where a group places its children, one after the other.
ghost use Rattle.std.specs.Prelude.{◌≡◌, ◌<◌, true, false, [], ◌∷◌, ◌++◌, List, length};
ghost use Rattle.geom_core.specs.Limits.{IsSide};
ghost use Rattle.view_model.specs.declared.limits.TheConstants.{MAX_VIEWS};
ghost use Rattle.view_model.specs.Classes.{is_relative, lays_in_line};
ghost use Rattle.view_model.specs.Facts.{layout_facts};
ghost use Rattle.view_model.specs.Layout.{Spot, place_in, places_backwards};
ghost use Rattle.view_model.specs.Measuring.{Measured};
ghost use Rattle.view_model.specs.RelativeCourse.{relative_place};
ghost use Rattle.view_model.specs.RelativeLayout.{sides_of};
ghost use Rattle.view_tree.specs.Views.{IsLive, IsTree, class_of, facts_of};
ghost use Rattle.traversal.specs.Narrow.{AreSidesNarrow, IsNarrow, IsNarrowFor};
ghost use Rattle.traversal.specs.Placing.{PlacesAs};
ghost use Rattle.traversal.specs.Subtrees.{spot_at};

use frame_layout::Room;
use geom_core::{Rect, Size};
use linear_layout::{Cursor, is_backwards};
use view_model::{Edges, Facts};
use view_tree::{Key, ViewTree};

/// How a view places its children.
#[derive(Clone, Copy)]
pub enum Placer {
    /// Over one another.
    Over(Room),
    /// One after the other.
    InLine(Cursor),
    /// Each between the sides that measuring has found for it.
    Between,
}

impl Placer {
    /// Before the first child of a view of this size that places its children over one another.
    #[inline(always)]
    pub fn over(tree: &ViewTree, view: Key, room: Size) -> Placer
        requires live { IsLive tree.now view }
        requires apart { lays_in_line (class_of tree.now view) ≡ false }
        requires untied { is_relative (class_of tree.now view) ≡ false }
        ensures places { PlacesAs result (spot_at tree.now view room) [] }
        ensures is_tree { IsTree tree.now }
    {
        Placer::Over(Room::of(tree.facts(view), room))
    }

    /// Before the first child of a linear layout of this size.
    #[inline(always)]
    pub fn in_line(tree: &ViewTree, view: Key, room: Size) -> Placer
        requires live { IsLive tree.now view }
        requires class { lays_in_line (class_of tree.now view) ≡ true }
        ensures places { PlacesAs result (spot_at tree.now view room) [] }
        ensures is_tree { IsTree tree.now }
    {
        Placer::InLine(Cursor::start(tree.facts(view), room, tree.state(view).total))
    }

    /// The place of the next child, which has this size, and in a relative layout these sides.
    #[inline(always)]
    pub fn place(&mut self, kid: &Facts, size: Size, edges: Edges) -> Rect
        requires width { IsSide size.w }
        requires height { IsSide size.h }
        requires sides { IsNarrowFor self.old (sides_of edges) }
        ensures narrow { IsNarrow result }
        ensures place { (spot : Spot) (before : List Measured)
            → PlacesAs self.old spot before
            → result ≡ place_in spot before (record { facts = layout_facts kid.now; size = size }) (sides_of edges) }
        ensures next { (spot : Spot) (before : List Measured)
            → PlacesAs self.old spot before
            → length before < MAX_VIEWS
            → PlacesAs self.new spot (before ++ record { facts = layout_facts kid.now; size = size } ∷ []) }
    {
        match self {
            Placer::Over(room) => room.place(kid, size),
            Placer::InLine(cursor) => cursor.place(kid, size),
            Placer::Between => between(edges, size),
        }
    }
}

/// Whether a view places its children from the last to the first.
#[inline(always)]
pub fn places_backwards(tree: &ViewTree, view: Key) -> bool
    requires { IsLive tree.now view }
    ensures { result ≡ places_backwards (class_of tree.now view) (facts_of tree.now view) }
{
    tree.class(view).lays_in_line() && is_backwards(tree.facts(view))
}

/// The rectangle between the sides of a child of this size; at the origin if it has none.
fn between(edges: Edges, size: Size) -> Rect
    requires width { IsSide size.w }
    requires height { IsSide size.h }
    requires sides { AreSidesNarrow (sides_of edges) }
    ensures place { result ≡ relative_place size (sides_of edges) }
    ensures narrow { IsNarrow result }
{
    let (Some(across), Some(down)) = (edges.across, edges.down) else {
        return Rect {
            left: 0,
            top: 0,
            right: size.w,
            bottom: size.h,
        };
    };
    Rect {
        left: across.0,
        top: down.0,
        right: across.1,
        bottom: down.1,
    }
}
