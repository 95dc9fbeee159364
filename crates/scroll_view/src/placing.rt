//! Where a scroll view places its child, and how far it moves it up.
ghost use Rattle.std.specs.Prelude.{◌≡◌, negsuc, pos, ◌-ℤ◌, ◌≤ℤ◌};
ghost use Rattle.std.specs.Option.{option_map};
ghost use Rattle.geom_core.specs.Limits.{IsSide, clamp_size};
ghost use Rattle.view_model.specs.FrameLayout.{frame_place};
ghost use Rattle.view_model.specs.Geometry.{size_of_rect};
ghost use Rattle.view_model.specs.ScrollView.{offset_within, scroll_range};
ghost use Rattle.view_model.specs.Sums.{IsNoLessThanTwo, IsNoMoreThanApart, IsNoMoreThanTwo};

use geom_core::{Rect, Size, to_size};
use view_model::Facts;

/// The rectangle of a child of this size in a group of the size `room`, in the group's coordinates, before it is moved up.
pub fn place(own: &Facts, room: Size, kid: &Facts, size: Size) -> Rect
    requires width { IsSide size.w }
    requires height { IsSide size.h }
    ensures { result ≡ frame_place own.now room kid.now size }
{
    frame_layout::place(own, room, kid, size)
}

/// How far the child of a group of this size can be moved up; 0 if there is none.
pub fn range(own: &Facts, size: Size, child: Option<Size>) -> i32
    ensures value { result ≡ scroll_range own.now size child }
    ensures side { IsSide result }
{
    let Some(child) = child else { return 0 };
    excess(i64::from(child.h), i64::from(size.h), own.padding_down())
}

/// The same of a group in this rectangle, and its child in that one.
pub fn range_in(own: &Facts, bounds: Rect, child: Option<Rect>) -> i32
    ensures value { result ≡ scroll_range own.now (size_of_rect bounds) (option_map size_of_rect child) }
    ensures side { IsSide result }
{
    let Some(child) = child else { return 0 };
    excess(height(child), height(bounds), own.padding_down())
}

/// The height of a rectangle, in 64 bits since its edges may be far apart.
fn height(rect: Rect) -> i64
    ensures value { result ≡ rect.bottom -ℤ rect.top }
    ensures low { IsNoLessThanTwo result }
    ensures high { IsNoMoreThanApart result }
{
    i64::from(rect.bottom) - i64::from(rect.top)
}

/// How much of a child of this height exceeds a group of the height `room`, of which its padding takes a part.
fn excess(height: i64, room: i64, padding: i64) -> i32
    requires height_low { negsuc 4294967295 ≤ℤ height }
    requires height_high { height ≤ℤ pos 4294967295 }
    requires room_low { negsuc 4294967295 ≤ℤ room }
    requires room_high { room ≤ℤ pos 4294967295 }
    requires padding_low { IsNoLessThanTwo padding }
    requires padding_high { IsNoMoreThanTwo padding }
    ensures value { result ≡ clamp_size (height -ℤ (room -ℤ padding)) }
    ensures side { IsSide result }
{
    to_size(height - (room - padding))
}

/// An offset brought into the range from 0 to this.
#[tactic(auto, unfolding(view_model::specs::ScrollView::offset_within))]
pub fn offset_within(range: i32, offset: i32) -> i32
    ensures { result ≡ offset_within range offset }
{
    offset.min(range).max(0)
}
