//! A place on the line, which moves on with each child. Lengths are in pixels.
ghost use Rattle.std.specs.Prelude.{◌≡◌, ◌<◌, ◌≤◌, ◌+◌, ◌*◌, ◌^◌, ◌+ℤ◌, unsigned_abs};
ghost use Rattle.geom_core.specs.Limits.{IsCoordinate, clamp_coordinate};
ghost use Rattle.view_model.specs.declared.limits.TheConstants.{MAX_VIEWS};
ghost use Rattle.view_model.specs.Sums.{IsNoLessThanTwo, IsNoMoreThanTwo};

use crate::wide::wide_to_coordinate;
use view_model::limits::MAX_VIEWS;

/// Where a child's low margin begins. Once `MAX_VIEWS` children are passed it stays as it is.
#[derive(Clone, Copy)]
pub struct Mark {
    /// How many children are passed.
    pub count: usize,
    pub at: i128,
    ghost few: { count ≤ MAX_VIEWS },
    ghost near: { unsigned_abs at ≤ 2 ^ 66 + 2 ^ 34 * count },
}

impl Mark {
    /// The mark at `at`, at most 2^66 from 0, before the first child.
    pub fn new(at: i128) -> Mark
        requires near { unsigned_abs at ≤ 2 ^ 66 }
        ensures count { result.count ≡ 0 }
        ensures at { result.at ≡ at }
    {
        Mark { count: 0, at }
    }

    /// The place after one child more, of this size and with both these margins.
    pub fn past(self, size: i32, margins: i64) -> Mark
        requires low { IsNoLessThanTwo margins }
        requires high { IsNoMoreThanTwo margins }
        ensures count { self.count < MAX_VIEWS → result.count ≡ self.count + 1 }
        ensures at { self.count < MAX_VIEWS → result.at ≡ self.at +ℤ (size +ℤ margins) }
    {
        if self.count >= MAX_VIEWS {
            return self;
        }
        Mark {
            count: self.count + 1,
            at: self.at + i128::from(i64::from(size) + margins),
        }
    }

    /// The low edge of a child with this margin before it.
    pub fn edge(&self, margin: i32) -> i32
        ensures value { result ≡ clamp_coordinate (self.now.at +ℤ margin) }
        ensures edge { IsCoordinate result }
    {
        wide_to_coordinate(self.at + i128::from(margin))
    }
}
