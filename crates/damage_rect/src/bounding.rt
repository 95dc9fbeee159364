//! The bounding box of the rectangles that were added so far.
ghost use Rattle.std.specs.Prelude.{◌≡◌};
ghost use Rattle.damage_rect.specs.Damages.{no_damage};
ghost use Rattle.geom_core.specs.Rects.{hull_of};

use geom_core::{Rect, hull};

/// The bounding box of the rectangles that were added so far.
#[derive(Clone, Copy)]
pub struct Damage {
    rect: Rect,
}

impl Damage {
    /// Before the first rectangle: no point lies in it.
    pub fn new() -> Damage
        ensures { result ≡ no_damage }
    {
        Damage {
            rect: Rect {
                left: 0,
                top: 0,
                right: 0,
                bottom: 0,
            },
        }
    }

    /// One rectangle more. One without a point is ignored.
    pub fn add(&mut self, rect: Rect)
        ensures { self.new.rect ≡ hull_of self.old.rect rect }
    {
        self.rect = hull(self.rect, rect);
    }

    /// The smallest rectangle around all that were added.
    pub fn rect(&self) -> Rect
        ensures { result ≡ self.now.rect }
    {
        self.rect
    }
}
