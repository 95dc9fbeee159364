//! Running numbers of a pass, each with its bounds. Once `MAX_VIEWS` children have come they stay as they are.
ghost use Rattle.std.specs.Prelude.{◌≡◌, ℤ, pos, ◌+◌, ◌<◌, ◌≤◌, ◌*◌, ◌^◌, ◌+ℤ◌, ◌≤ℤ◌};
ghost use Rattle.view_model.specs.LinearLayout.{greater};
ghost use Rattle.view_model.specs.declared.limits.TheConstants.{MAX_VIEWS};

use view_model::limits::MAX_VIEWS;

/// A sum of lengths.
#[derive(Clone, Copy)]
pub struct Total {
    pub count: usize,
    pub sum: i64,
    ghost few: { count ≤ MAX_VIEWS },
    ghost low: { pos 0 ≤ℤ sum },
    ghost high: { sum ≤ℤ pos (2 ^ 33 * count) },
}

impl Total {
    /// The total of no children.
    pub fn new() -> Total
        ensures count { result.count ≡ 0 }
        ensures sum { result.sum ≡ pos 0 }
    {
        Total { count: 0, sum: 0 }
    }

    /// The total with one child more, whose extent is from 0 to 2^33.
    pub fn add(self, extent: i64) -> Total
        requires low { pos 0 ≤ℤ extent }
        requires high { extent ≤ℤ pos (2 ^ 33) }
        ensures count { self.count < MAX_VIEWS → result.count ≡ self.count + 1 }
        ensures sum { self.count < MAX_VIEWS → result.sum ≡ self.sum +ℤ extent }
    {
        if self.count >= MAX_VIEWS {
            return self;
        }
        Total {
            count: self.count + 1,
            sum: self.sum + extent,
        }
    }
}

/// A sum of weights.
#[derive(Clone, Copy)]
pub struct Weights {
    pub count: usize,
    pub sum: u64,
    ghost few: { count ≤ MAX_VIEWS },
    ghost high: { sum ≤ 2 ^ 32 * count },
}

impl Weights {
    /// The weight of no children.
    pub fn new() -> Weights
        ensures count { result.count ≡ 0 }
        ensures sum { result.sum ≡ 0 }
    {
        Weights { count: 0, sum: 0 }
    }

    /// The weights with that of one child more, in 256ths.
    pub fn add(self, weight: u32) -> Weights
        ensures count { self.count < MAX_VIEWS → result.count ≡ self.count + 1 }
        ensures sum { self.count < MAX_VIEWS → result.sum ≡ self.sum + weight }
    {
        if self.count >= MAX_VIEWS {
            return self;
        }
        Weights {
            count: self.count + 1,
            sum: self.sum + u64::from(weight),
        }
    }
}

/// The greatest of 0 and some breadths.
#[derive(Clone, Copy)]
pub struct Greatest {
    pub value: i64,
    ghost low: { pos 0 ≤ℤ value },
    ghost high: { value ≤ℤ pos (2 ^ 33) },
}

impl Greatest {
    /// The greatest breadth of no children, which is 0.
    pub fn new() -> Greatest
        ensures { result.value ≡ pos 0 }
    {
        Greatest { value: 0 }
    }

    /// The greater of this and the breadth of one child more, which is at most 2^33.
    pub fn with(self, breadth: i64) -> Greatest
        requires { breadth ≤ℤ pos (2 ^ 33) }
        ensures { result.value ≡ greater self.value breadth }
    {
        Greatest {
            value: greater(self.value, breadth),
        }
    }
}

/// The greater of two lengths.
#[tactic(auto, unfolding(view_model::specs::LinearLayout::greater))]
pub fn greater(a: i64, b: i64) -> i64
    ensures value { result ≡ greater a b }
    ensures first { a ≤ℤ result }
    ensures second { b ≤ℤ result }
    ensures most { (top : ℤ) → a ≤ℤ top → b ≤ℤ top → result ≤ℤ top }
{
    a.max(b)
}
