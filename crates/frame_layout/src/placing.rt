//! Where a frame layout places its children.
ghost use Rattle.std.specs.Prelude.{◌≡◌};
ghost use Rattle.geom_core.specs.Limits.{IsSide, IsCoordinate, clamp_coordinate};
ghost use Rattle.view_model.specs.declared.facts.Facts.{Facts as FactsValue};
ghost use Rattle.view_model.specs.Facts.{margin_left, margin_right};
ghost use Rattle.view_model.specs.FrameLayout.{frame_place};
ghost use Rattle.view_model.specs.Geometry.{size_of_rect};
ghost use Rattle.view_model.specs.Placing.{alignment_across, alignment_down, low_edge};
ghost use Rattle.geom_core.specs.declared.geometry.Size.{Size as SizeValue};

use geom_core::{Insets, Rect, Size, to_coordinate};
use view_model::{Across, Down, Extent, Facts, Gravity, rect_at};

const NO_GRAVITY: Gravity = Gravity {
    given: false,
    across: Across::Unset,
    down: Down::Unset,
};

/// What is read of a group's facts to place its children, and its size. These few numbers of the group are copied, since
/// a group is placed in each layout.
#[derive(Clone, Copy)]
pub struct Room {
    /// On each side, the one that applies.
    padding: Insets,
    /// Whether the group runs from right to left.
    rtl: bool,
    size: Size,
}

impl Room {
    ghost use Rattle.frame_layout.specs.Room.{IsRoom};

    /// The room of a group with these facts and of this size.
    #[inline(always)]
    pub fn of(own: &Facts, size: Size) -> Room
        ensures { IsRoom result own.now size }
    {
        Room {
            padding: Insets {
                left: own.padding_left(),
                top: own.padding.top,
                right: own.padding_right(),
                bottom: own.padding.bottom,
            },
            rtl: own.rtl,
            size,
        }
    }

    /// The rectangle of a child of this size, in the group's coordinates.
    #[inline(always)]
    pub fn place(&self, kid: &Facts, size: Size) -> Rect
        requires width { IsSide size.w }
        requires height { IsSide size.h }
        ensures extent { size_of_rect result ≡ size }
        ensures place { (own : FactsValue) (room : SizeValue)
            → IsRoom self.now own room
            → result ≡ frame_place own room kid.now size }
    {
        let gravity = NO_GRAVITY.for_child(kid.layout_gravity);
        rect_at(
            self.left_edge(gravity.across, kid, size.w),
            self.top_edge(gravity.down, kid, size.h),
            size,
        )
    }

    /// The left edge of a child of this width in the group's coordinates, between the group's padding and with the
    /// child's margins, brought into the range of edges.
    #[inline(always)]
    fn left_edge(&self, across: Across, kid: &Facts, width: i32) -> i32
        ensures value { result ≡ clamp_coordinate
            (low_edge (alignment_across self.now.rtl across)
            (record { size = self.now.size.w; before = self.now.padding.left; after = self.now.padding.right })
            (record { size = width; before = margin_left kid.now; after = margin_right kid.now })) }
        ensures edge { IsCoordinate result }
    {
        to_coordinate(
            across.alignment(self.rtl).low_edge(
                Extent {
                    size: self.size.w,
                    before: self.padding.left,
                    after: self.padding.right,
                },
                Extent {
                    size: width,
                    before: kid.margin_left(),
                    after: kid.margin_right(),
                },
            ),
        )
    }

    /// The top edge of a child of this height in the group's coordinates, between the group's padding and with the
    /// child's margins, brought into the range of edges.
    #[inline(always)]
    fn top_edge(&self, down: Down, kid: &Facts, height: i32) -> i32
        ensures value { result ≡ clamp_coordinate
            (low_edge (alignment_down down)
            (record { size = self.now.size.h; before = self.now.padding.top; after = self.now.padding.bottom })
            (record { size = height; before = kid.now.margins.top; after = kid.now.margins.bottom })) }
        ensures edge { IsCoordinate result }
    {
        to_coordinate(
            down.alignment().low_edge(
                Extent {
                    size: self.size.h,
                    before: self.padding.top,
                    after: self.padding.bottom,
                },
                Extent {
                    size: height,
                    before: kid.margins.top,
                    after: kid.margins.bottom,
                },
            ),
        )
    }
}

/// The rectangle of a child of this size in a group of the size `room`, in the group's coordinates.
pub fn place(own: &Facts, room: Size, kid: &Facts, size: Size) -> Rect
    requires width { IsSide size.w }
    requires height { IsSide size.h }
    ensures { result ≡ frame_place own.now room kid.now size }
{
    Room::of(own, room).place(kid, size)
}
