//! Where a linear layout places its children, one after the other. Lengths are in pixels.
ghost use Rattle.std.specs.Prelude.{◌≡◌, not, ℤ, ◌<◌, ◌≤◌, ◌+◌, ◌^◌, ◌+ℤ◌, ◌-ℤ◌, unsigned_abs, [], ◌∷◌, ◌++◌, List, length};
ghost use Rattle.geom_core.specs.Limits.{IsCoordinate, IsSide, clamp_coordinate};
ghost use Rattle.linear_layout.specs.Line.{kid_with};
ghost use Rattle.view_model.specs.declared.facts.Facts.{Facts as FactsValue};
ghost use Rattle.view_model.specs.declared.limits.TheConstants.{MAX_VIEWS};
ghost use Rattle.view_model.specs.Facts.{layout_facts};
ghost use Rattle.view_model.specs.Geometry.{size_of_rect};
ghost use Rattle.view_model.specs.LinearLayout.{alignment_on, edge_beside, high_margin, is_backwards, line_begin, linear_place, low_margin, rect_by, size_on};
ghost use Rattle.view_model.specs.Placing.{gravity_for, low_edge};
ghost use Rattle.view_model.specs.Measuring.{Measured};
ghost use Rattle.geom_core.specs.declared.geometry.Size.{Size as SizeValue};

use crate::axis::{
    alignment_on, high_margin, high_padding, low_margin, low_padding, margins_on, size_on,
};
use crate::mark::Mark;
use geom_core::{Rect, Size, to_coordinate};
use view_model::{Alignment, Extent, Facts, Gravity, rect_at};

/// The placing of the children of one group. They are passed in order; in a horizontal line
/// whose group runs from right to left, from the last to the first.
#[derive(Clone, Copy)]
pub struct Cursor {
    /// Whether the line runs from top to bottom.
    vertical: bool,
    /// Whether the group runs from right to left.
    rtl: bool,
    /// Where a child that has no gravity of its own is placed across the line.
    alignment: Alignment,
    /// The paddings of the group on both sides of the line, and its size across it. These few numbers of the group are
    /// copied, since a group is placed in each layout.
    padding_low: i32,
    padding_high: i32,
    breadth: i32,
    /// Where the next child's low margin begins.
    mark: Mark,
}

/// Whether a group with these facts places its children from the last to the first.
pub fn is_backwards(own: &Facts) -> bool
    ensures { result ≡ is_backwards own.now }
{
    !own.vertical && own.rtl
}

impl Cursor {
    ghost use Rattle.linear_layout.specs.Cursor.{PlacesLinear};

    /// Before the first child of a group of this size, of whose length its children and its padding take `total`.
    #[inline(always)]
    pub fn start(own: &Facts, room: Size, total: i64) -> Cursor
        ensures { PlacesLinear result (layout_facts own.now) room total [] }
    {
        let along = own.vertical;
        let beside = !own.vertical;
        Cursor {
            vertical: own.vertical,
            rtl: own.rtl,
            alignment: alignment_on(beside, own.rtl, own.gravity.started()),
            padding_low: low_padding(beside, own),
            padding_high: high_padding(beside, own),
            breadth: size_on(beside, room),
            mark: Mark::new(line_begin(
                alignment_on(along, own.rtl, own.gravity.started()),
                low_padding(along, own),
                size_on(along, room),
                total,
            )),
        }
    }

    /// The rectangle of the next child, which has this size, in the group's coordinates.
    #[inline(always)]
    pub fn place(&mut self, kid: &Facts, size: Size) -> Rect
        requires width { IsSide size.w }
        requires height { IsSide size.h }
        ensures extent { size_of_rect result ≡ size }
        ensures place { (own : FactsValue) (room : SizeValue) (total : ℤ) (before : List Measured)
            → PlacesLinear self.old own room total before
            → result ≡ linear_place own room total before (record { facts = layout_facts kid.now; size = size }) }
        ensures next { (own : FactsValue) (room : SizeValue) (total : ℤ) (before : List Measured)
            → PlacesLinear self.old own room total before
            → length before < MAX_VIEWS
            → PlacesLinear self.new own room total
            (before ++ record { facts = layout_facts kid.now; size = size } ∷ []) }
    {
        if self.vertical {
            return self.place_on(true, kid, size);
        }
        self.place_on(false, kid, size)
    }

    /// The same in a line on this axis, which is a constant where it is called: each axis has code of its own.
    #[inline(always)]
    fn place_on(&mut self, vertical: bool, kid: &Facts, size: Size) -> Rect
        requires axis { vertical ≡ self.old.vertical }
        requires width { IsSide size.w }
        requires height { IsSide size.h }
        ensures extent { size_of_rect result ≡ size }
        ensures place { (own : FactsValue) (room : SizeValue) (total : ℤ) (before : List Measured)
            → PlacesLinear self.old own room total before
            → result ≡ linear_place own room total before (record { facts = layout_facts kid.now; size = size }) }
        ensures next { (own : FactsValue) (room : SizeValue) (total : ℤ) (before : List Measured)
            → PlacesLinear self.old own room total before
            → length before < MAX_VIEWS
            → PlacesLinear self.new own room total
            (before ++ record { facts = layout_facts kid.now; size = size } ∷ []) }
    {
        let along = self.mark.edge(low_margin(vertical, kid));
        let beside = self.edge_beside(kid, size);
        self.mark = self
            .mark
            .past(size_on(vertical, size), margins_on(vertical, kid));
        rect_by(vertical, along, beside, size)
    }

    /// The low edge of a child of this size across the line.
    #[inline(always)]
    fn edge_beside(&self, kid: &Facts, size: Size) -> i32
        ensures value { (own : FactsValue) (room : SizeValue) (total : ℤ) (before : List Measured)
            → PlacesLinear self.now own room total before
            → result ≡ clamp_coordinate (edge_beside own room (kid_with kid.now size)) }
        ensures edge { IsCoordinate result }
    {
        self.edge_by(self.alignment_for(kid.layout_gravity), kid, size)
    }

    /// Where a child with this gravity is placed across the line. Most children have none of their own.
    #[inline(always)]
    fn alignment_for(&self, gravity: Gravity) -> Alignment
        ensures { (own : FactsValue) (room : SizeValue) (total : ℤ) (before : List Measured)
            → PlacesLinear self.now own room total before
            → result ≡ alignment_on (not own.vertical) own.rtl (gravity_for own.gravity gravity) }
    {
        if gravity.given {
            return alignment_on(!self.vertical, self.rtl, gravity);
        }
        self.alignment
    }

    /// The low edge of a child that is placed so across the line. Most children are at the low side, where only what is
    /// before them counts.
    #[inline(always)]
    fn edge_by(&self, alignment: Alignment, kid: &Facts, size: Size) -> i32
        ensures value { result ≡ clamp_coordinate (low_edge alignment
            (record { size = self.now.breadth; before = self.now.padding_low; after = self.now.padding_high })
            (record {
              size = size_on (not self.now.vertical) size;
              before = low_margin (not self.now.vertical) (layout_facts kid.now);
              after = high_margin (not self.now.vertical) (layout_facts kid.now);
            })) }
        ensures edge { IsCoordinate result }
    {
        match alignment {
            Alignment::Low => {
                let margin = low_margin(!self.vertical, kid);
                to_coordinate(i64::from(self.padding_low) + i64::from(margin))
            }
            Alignment::Middle | Alignment::High => self.far_edge(alignment, kid, size),
        }
    }

    /// The same of any alignment.
    #[inline(never)]
    fn far_edge(&self, alignment: Alignment, kid: &Facts, size: Size) -> i32
        ensures value { result ≡ clamp_coordinate (low_edge alignment
            (record { size = self.now.breadth; before = self.now.padding_low; after = self.now.padding_high })
            (record {
              size = size_on (not self.now.vertical) size;
              before = low_margin (not self.now.vertical) (layout_facts kid.now);
              after = high_margin (not self.now.vertical) (layout_facts kid.now);
            })) }
        ensures edge { IsCoordinate result }
    {
        let beside = !self.vertical;
        to_coordinate(alignment.low_edge(
            Extent {
                size: self.breadth,
                before: self.padding_low,
                after: self.padding_high,
            },
            Extent {
                size: size_on(beside, size),
                before: low_margin(beside, kid),
                after: high_margin(beside, kid),
            },
        ))
    }
}

/// Where the line begins in a group that has `room` pixels on its axis.
#[tactic(auto, unfolding(view_model::specs::LinearLayout::line_begin))]
fn line_begin(alignment: Alignment, padding: i32, room: i32, total: i64) -> i128
    ensures value { result ≡ line_begin alignment padding room total }
    ensures near { unsigned_abs result ≤ 2 ^ 66 }
{
    let spare = spare_of(room, total);
    match alignment {
        Alignment::Low => following(padding, 0),
        Alignment::Middle => following(padding, spare / 2),
        Alignment::High => following(padding, spare),
    }
}

/// What children that take `total` pixels leave of a group.
fn spare_of(room: i32, total: i64) -> i128
    ensures value { result ≡ room -ℤ total }
    ensures near { unsigned_abs result ≤ 2 ^ 65 }
{
    i128::from(room) - i128::from(total)
}

/// Where the line begins after a padding and these spare pixels, which are negative if the children need more than
/// there is.
fn following(padding: i32, spare: i128) -> i128
    requires { unsigned_abs spare ≤ 2 ^ 65 }
    ensures value { result ≡ padding +ℤ spare }
    ensures near { unsigned_abs result ≤ 2 ^ 66 }
{
    i128::from(padding) + spare
}

/// The rectangle of this size whose low edges are these, along the line and across it.
fn rect_by(vertical: bool, along: i32, beside: i32, size: Size) -> Rect
    requires along { IsCoordinate along }
    requires beside { IsCoordinate beside }
    requires width { IsSide size.w }
    requires height { IsSide size.h }
    ensures value { result ≡ rect_by vertical along beside size }
    ensures extent { size_of_rect result ≡ size }
{
    if vertical {
        return rect_at(beside, along, size);
    }
    rect_at(along, beside, size)
}
