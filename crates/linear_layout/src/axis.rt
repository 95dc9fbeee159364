//! What is read of facts, sizes and specs on one axis, the vertical one or the other. Lengths are in pixels.
ghost use Rattle.std.specs.Prelude.{◌≡◌, ◌≤ℤ◌, pos, negsuc, not};
ghost use Rattle.linear_layout.specs.Line.{exact_specs, is_sized};
ghost use Rattle.view_model.specs.Facts.{layout_facts};
ghost use Rattle.view_model.specs.LinearLayout.{alignment_on, dim_on, exactly, high_margin, high_padding, low_margin, low_padding, margins_on, size_by, size_on, spec_on, specs_by};
ghost use Rattle.view_model.specs.Measuring.{pair_of};
ghost use Rattle.view_model.specs.Sums.{IsNoLessThanTwo, IsNoMoreThanTwo};

use geom_core::{Mode, Size, Spec, to_size};
use view_model::{Alignment, Facts, Gravity};

/// The height of a size on the vertical axis, the width on the other.
#[tactic(auto, unfolding(view_model::specs::LinearLayout::size_on))]
pub fn size_on(vertical: bool, size: Size) -> i32
    ensures { result ≡ size_on vertical size }
{
    if vertical { size.h } else { size.w }
}

/// The spec for the height on the vertical axis, the one for the width on the other.
#[tactic(auto, unfolding(view_model::specs::LinearLayout::spec_on))]
pub fn spec_on(vertical: bool, ws: Spec, hs: Spec) -> Spec
    ensures { result ≡ spec_on vertical (record { across = ws; down = hs }) }
{
    if vertical { hs } else { ws }
}

/// The height that a view wants on the vertical axis, the width on the other: pixels, `MATCH` or `WRAP`.
#[tactic(auto, unfolding(view_model::specs::LinearLayout::dim_on))]
pub fn dim_on(vertical: bool, facts: &Facts) -> i32
    ensures { result ≡ dim_on vertical (layout_facts facts.now) }
{
    if vertical { facts.height } else { facts.width }
}

/// Both margins.
#[tactic(auto, unfolding(view_model::specs::LinearLayout::margins_on))]
pub fn margins_on(vertical: bool, facts: &Facts) -> i64
    ensures value { result ≡ margins_on vertical (layout_facts facts.now) }
    ensures low { IsNoLessThanTwo result }
    ensures high { IsNoMoreThanTwo result }
{
    if vertical {
        return facts.margins_down();
    }
    facts.margins_across()
}

/// Both margins along a line and both across it, so that each is read once.
#[derive(Clone, Copy)]
pub struct Margins {
    pub along: i64,
    pub beside: i64,
    ghost along_low: { negsuc 4294967295 ≤ℤ along },
    ghost along_high: { along ≤ℤ pos 4294967294 },
    ghost beside_low: { negsuc 4294967295 ≤ℤ beside },
    ghost beside_high: { beside ≤ℤ pos 4294967294 },
}

/// The margins of a child in a line on this axis.
#[tactic(auto, unfolding(view_model::specs::LinearLayout::margins_on))]
#[inline(always)]
pub fn margins_by(vertical: bool, facts: &Facts) -> Margins
    ensures along { result.along ≡ margins_on vertical (layout_facts facts.now) }
    ensures beside { result.beside ≡ margins_on (not vertical) (layout_facts facts.now) }
{
    let across = facts.margins_across();
    let down = facts.margins_down();
    if vertical {
        return Margins {
            along: down,
            beside: across,
        };
    }
    Margins {
        along: across,
        beside: down,
    }
}

/// The margin on the left or at the top.
#[tactic(auto, unfolding(view_model::specs::LinearLayout::low_margin))]
pub fn low_margin(vertical: bool, facts: &Facts) -> i32
    ensures { result ≡ low_margin vertical (layout_facts facts.now) }
{
    if vertical {
        return facts.margins.top;
    }
    facts.margin_left()
}

/// The margin on the right or at the bottom.
#[tactic(auto, unfolding(view_model::specs::LinearLayout::high_margin))]
pub fn high_margin(vertical: bool, facts: &Facts) -> i32
    ensures { result ≡ high_margin vertical (layout_facts facts.now) }
{
    if vertical {
        return facts.margins.bottom;
    }
    facts.margin_right()
}

/// The padding on the left or at the top.
#[tactic(auto, unfolding(view_model::specs::LinearLayout::low_padding))]
pub fn low_padding(vertical: bool, facts: &Facts) -> i32
    ensures { result ≡ low_padding vertical (layout_facts facts.now) }
{
    if vertical {
        return facts.padding.top;
    }
    facts.padding_left()
}

/// The padding on the right or at the bottom.
#[tactic(auto, unfolding(view_model::specs::LinearLayout::high_padding))]
pub fn high_padding(vertical: bool, facts: &Facts) -> i32
    ensures { result ≡ high_padding vertical (layout_facts facts.now) }
{
    if vertical {
        return facts.padding.bottom;
    }
    facts.padding_right()
}

/// Where a gravity places views on an axis. On the horizontal one, `rtl` turns start and end around.
#[tactic(auto, unfolding(view_model::specs::LinearLayout::alignment_on))]
pub fn alignment_on(vertical: bool, rtl: bool, gravity: Gravity) -> Alignment
    ensures { result ≡ alignment_on vertical rtl gravity }
{
    if vertical {
        return gravity.down.alignment();
    }
    gravity.across.alignment(rtl)
}

/// The size of this length along a line and this breadth across it.
pub fn size_by(vertical: bool, along: i32, beside: i32) -> Size
    ensures { result ≡ size_by vertical along beside }
{
    if vertical {
        return Size {
            w: beside,
            h: along,
        };
    }
    Size {
        w: along,
        h: beside,
    }
}

/// The specs for the width and for the height, given those along and across a line.
pub fn pair_by(vertical: bool, along: Spec, beside: Spec) -> (Spec, Spec)
    ensures { result ≡ pair_of (specs_by vertical along beside) }
{
    if vertical {
        return (beside, along);
    }
    (along, beside)
}

/// Whether a child has a number of pixels on both axes, and no weight.
#[inline(always)]
pub fn is_sized(kid: &Facts) -> bool
    ensures { result ≡ is_sized kid.now }
{
    kid.width >= 0 && kid.height >= 0 && kid.weight == 0
}

/// The specs of such a child: that number on each axis.
#[inline(always)]
pub fn own_specs(kid: &Facts) -> (Spec, Spec)
    ensures { result ≡ pair_of (exact_specs kid.now) }
{
    (exactly(kid.width), exactly(kid.height))
}

/// The spec of exactly this size.
pub fn exactly(size: i32) -> Spec
    ensures { result ≡ exactly size }
{
    Spec {
        mode: Mode::Exactly,
        size: to_size(i64::from(size)),
    }
}
