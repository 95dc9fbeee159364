//! The table of attributes: the name of each, what its value may be and what it sets.
//!
//! The table is here and once more in `specs/Attributes.antt`, and each row is proved to be the one there: so
//! definitions read the list alone, and a mistake would have to be made twice. For an attribute that takes an id, the
//! id is that of the reference whether it has a value or not; a reference to 0 is null.
ghost use Rattle.std.specs.Prelude.{◌≡◌, ◌<◌, IfSome, Some, length, map, slice_get};
ghost use Rattle.attr_table.specs.Attributes.{known_count};
ghost use Rattle.attr_table.specs.Table.{attribute, place_in, place_of, slot_at, takes_at};

use view_model::limits::{MAX_INSET, MAX_SIZE, MIN_MARGIN};

/// What the value of an attribute may be.
#[derive(Clone, Copy)]
pub enum Takes {
    /// A reference, whose id counts and not what it names.
    Reference,
    /// A dimension or its resource, or a whole number of pixels from 0, `MATCH` or `WRAP`.
    Extent,
    /// A dimension or its resource, from this number of pixels to that one.
    Length { low: i64, high: i64 },
    /// A float, or a whole number, given in 256ths.
    Weight,
    /// Any whole number, as its word.
    Whole,
    /// A whole number below this one.
    Below(u32),
    /// A colour or its resource, or null for none.
    Color,
    /// A text or its resource, or null for none.
    Text,
    /// A boolean, given as 1 or 0.
    Boolean,
}

/// A side of a view.
#[derive(Clone, Copy)]
pub enum Side {
    Left,
    Top,
    Right,
    Bottom,
    Start,
    End,
}

/// What an attribute sets.
#[derive(Clone, Copy)]
pub enum Slot {
    Id,
    Width,
    Height,
    /// The margins of all sides.
    Margins,
    Margin(Side),
    /// The padding of all sides.
    Paddings,
    Padding(Side),
    MinWidth,
    MinHeight,
    Weight,
    WeightSum,
    /// Where the view is placed in its parent.
    LayoutGravity,
    /// Where a group places its children.
    Gravity,
    Vertical,
    Visibility,
    Direction,
    Background,
    Ink,
    Text,
    Click,
    Clip,
    Fill,
    Split,
    /// The rule at this place of `Rules::values`.
    Rule(u8),
}

/// How many attributes are known.
pub const KNOWN: usize = 54;

/// The place of the width.
pub const WIDTH: usize = 1;

/// The place of the height.
pub const HEIGHT: usize = 2;

const MARGIN: Takes = Takes::Length {
    low: MIN_MARGIN,
    high: MAX_INSET,
};

const PADDING: Takes = Takes::Length {
    low: 0,
    high: MAX_INSET,
};

const MINIMUM: Takes = Takes::Length {
    low: 0,
    high: MAX_SIZE,
};

/// The attributes that are known.
#[rattlefmt::skip]
pub const ATTRIBUTES: [(&str, Takes, Slot); KNOWN] = [
    ("id", Takes::Reference, Slot::Id),
    ("layout_width", Takes::Extent, Slot::Width),
    ("layout_height", Takes::Extent, Slot::Height),
    ("layout_margin", MARGIN, Slot::Margins),
    ("layout_marginLeft", MARGIN, Slot::Margin(Side::Left)),
    ("layout_marginTop", MARGIN, Slot::Margin(Side::Top)),
    ("layout_marginRight", MARGIN, Slot::Margin(Side::Right)),
    ("layout_marginBottom", MARGIN, Slot::Margin(Side::Bottom)),
    ("layout_marginStart", MARGIN, Slot::Margin(Side::Start)),
    ("layout_marginEnd", MARGIN, Slot::Margin(Side::End)),
    ("padding", PADDING, Slot::Paddings),
    ("paddingLeft", PADDING, Slot::Padding(Side::Left)),
    ("paddingTop", PADDING, Slot::Padding(Side::Top)),
    ("paddingRight", PADDING, Slot::Padding(Side::Right)),
    ("paddingBottom", PADDING, Slot::Padding(Side::Bottom)),
    ("paddingStart", PADDING, Slot::Padding(Side::Start)),
    ("paddingEnd", PADDING, Slot::Padding(Side::End)),
    ("minWidth", MINIMUM, Slot::MinWidth),
    ("minHeight", MINIMUM, Slot::MinHeight),
    ("layout_weight", Takes::Weight, Slot::Weight),
    ("weightSum", Takes::Weight, Slot::WeightSum),
    ("layout_gravity", Takes::Whole, Slot::LayoutGravity),
    ("gravity", Takes::Whole, Slot::Gravity),
    ("orientation", Takes::Below(2), Slot::Vertical),
    ("visibility", Takes::Below(3), Slot::Visibility),
    ("layoutDirection", Takes::Below(4), Slot::Direction),
    ("background", Takes::Color, Slot::Background),
    ("textColor", Takes::Color, Slot::Ink),
    ("text", Takes::Text, Slot::Text),
    ("clickable", Takes::Boolean, Slot::Click),
    ("clipToPadding", Takes::Boolean, Slot::Clip),
    ("fillViewport", Takes::Boolean, Slot::Fill),
    ("splitMotionEvents", Takes::Boolean, Slot::Split),
    ("layout_toLeftOf", Takes::Reference, Slot::Rule(0)),
    ("layout_toRightOf", Takes::Reference, Slot::Rule(1)),
    ("layout_above", Takes::Reference, Slot::Rule(2)),
    ("layout_below", Takes::Reference, Slot::Rule(3)),
    ("layout_alignLeft", Takes::Reference, Slot::Rule(4)),
    ("layout_alignTop", Takes::Reference, Slot::Rule(5)),
    ("layout_alignRight", Takes::Reference, Slot::Rule(6)),
    ("layout_alignBottom", Takes::Reference, Slot::Rule(7)),
    ("layout_toStartOf", Takes::Reference, Slot::Rule(8)),
    ("layout_toEndOf", Takes::Reference, Slot::Rule(9)),
    ("layout_alignStart", Takes::Reference, Slot::Rule(10)),
    ("layout_alignEnd", Takes::Reference, Slot::Rule(11)),
    ("layout_alignParentLeft", Takes::Boolean, Slot::Rule(12)),
    ("layout_alignParentTop", Takes::Boolean, Slot::Rule(13)),
    ("layout_alignParentRight", Takes::Boolean, Slot::Rule(14)),
    ("layout_alignParentBottom", Takes::Boolean, Slot::Rule(15)),
    ("layout_alignParentStart", Takes::Boolean, Slot::Rule(16)),
    ("layout_alignParentEnd", Takes::Boolean, Slot::Rule(17)),
    ("layout_centerInParent", Takes::Boolean, Slot::Rule(18)),
    ("layout_centerHorizontal", Takes::Boolean, Slot::Rule(19)),
    ("layout_centerVertical", Takes::Boolean, Slot::Rule(20)),
];

/// The place of a name in the table.
#[tactic(auto, unfolding(crate::specs::Attributes::attributes))]
pub fn find(name: &str) -> Option<usize>
    ensures place { result ≡ place_of name.now }
    ensures within { IfSome result (λ place. place < known_count) }
{
    place_in(&ATTRIBUTES, name)
}

/// What the value of the attribute at a place may be.
#[tactic(auto, unfolding(crate::specs::Attributes::attributes))]
pub fn takes_at(place: usize) -> Takes
    requires { place < known_count }
    ensures { result ≡ takes_at place }
{
    row_in(&ATTRIBUTES, place).1
}

/// What the attribute at a place sets.
#[tactic(auto, unfolding(crate::specs::Attributes::attributes))]
pub fn slot_at(place: usize) -> Slot
    requires { place < known_count }
    ensures { result ≡ slot_at place }
{
    row_in(&ATTRIBUTES, place).2
}

/// The place of a name in a table. Lengths are compared before bytes, so a long name costs no more than a short one.
fn place_in(table: &[(&str, Takes, Slot)], name: &str) -> Option<usize>
    ensures place { result ≡ place_in (map attribute table.now) name.now }
    ensures within { IfSome result (λ place. place < length table.now) }
{
    table.iter().position(|row| row.0 == name)
}

/// The row at a place of a table, which has to have it.
fn row_in<'a>(table: &[(&'a str, Takes, Slot)], place: usize) -> (&'a str, Takes, Slot)
    requires { place < length table.now }
    ensures { slice_get (map attribute table.now) place ≡ Some (attribute result) }
{
    table[place]
}
