//! What is left of a line to share, and the share of a weight in it.
ghost use Rattle.std.specs.Prelude.{◌≡◌, ◌<◌, ◌≤◌, ◌≤ℤ◌, ◌<ℤ◌, ◌+◌, ◌*◌, ◌-ℤ◌, ◌^◌, pos, neg_ℤ, int_div, unsigned_abs};
ghost use Rattle.view_model.specs.LinearLayout.{share};
ghost use Rattle.view_model.specs.declared.limits.TheConstants.{MAX_VIEWS};

use view_model::limits::MAX_VIEWS;

/// What is left to give out by weight.
#[derive(Clone, Copy)]
pub struct Sharing {
    /// How many children have had their turn.
    pub count: usize,
    /// What the weights of the others are counted against, in 256ths; below 0 if they are more than it was.
    pub weight: i64,
    /// Pixels; below 0 if the children are to get shorter.
    pub spare: i128,
    ghost few: { count ≤ MAX_VIEWS },
    ghost low: { neg_ℤ (pos (2 ^ 32 * count)) ≤ℤ weight },
    ghost high: { weight ≤ℤ pos (2 ^ 44) },
    ghost near: { pos 0 <ℤ weight → unsigned_abs spare ≤ 2 ^ 46 },
    ghost far: { unsigned_abs spare ≤ 2 ^ 79 },
}

impl Sharing {
    /// Before the first child.
    pub fn new(weight: i64, spare: i64) -> Sharing
        requires low { pos 0 ≤ℤ weight }
        requires high { weight ≤ℤ pos (2 ^ 44) }
        requires near { unsigned_abs spare ≤ 2 ^ 46 }
        ensures count { result.count ≡ 0 }
        ensures weight { result.weight ≡ weight }
        ensures spare { result.spare ≡ spare }
    {
        Sharing {
            count: 0,
            weight,
            spare: i128::from(spare),
        }
    }

    /// What a child of this weight gets.
    pub fn share(&self, weight: u32) -> i128
        ensures value { result ≡ share self.now.weight self.now.spare weight }
        ensures near { unsigned_abs result ≤ 2 ^ 79 }
    {
        share(self.weight, self.spare, weight)
    }

    /// What it leaves.
    pub fn give(self, weight: u32) -> Sharing
        ensures count { self.count < MAX_VIEWS → result.count ≡ self.count + 1 }
        ensures weight { self.count < MAX_VIEWS → result.weight ≡ self.weight -ℤ pos weight }
        ensures spare { self.count < MAX_VIEWS → result.spare ≡ self.spare -ℤ share self.weight self.spare weight }
    {
        if self.count >= MAX_VIEWS {
            return self;
        }
        let spare = spare_after(self.weight, self.spare, weight);
        Sharing {
            count: self.count + 1,
            weight: self.weight - i64::from(weight),
            spare,
        }
    }
}

/// The part of what is left that a weight gets.
fn share(whole: i64, spare: i128, weight: u32) -> i128
    requires near { pos 0 <ℤ whole → unsigned_abs spare ≤ 2 ^ 46 }
    ensures value { result ≡ share whole spare weight }
    ensures near { unsigned_abs result ≤ 2 ^ 79 }
{
    if whole > 0 {
        quotient(i128::from(weight) * spare, whole)
    } else {
        0
    }
}

/// The quotient of one number by another, towards 0. A division of 64 bits takes a small part of the time of one of
/// 128, and is mostly enough.
fn quotient(product: i128, whole: i64) -> i128
    requires { pos 0 <ℤ whole }
    ensures { result ≡ int_div product whole }
{
    match i64::try_from(product) {
        Ok(narrow) => i128::from(narrow / whole),
        Err(_) => product / i128::from(whole),
    }
}

/// What is left after a share.
fn spare_after(whole: i64, spare: i128, weight: u32) -> i128
    requires near { pos 0 <ℤ whole → unsigned_abs spare ≤ 2 ^ 46 }
    requires far { unsigned_abs spare ≤ 2 ^ 79 }
    ensures value { result ≡ spare -ℤ share whole spare weight }
    ensures near { pos 0 <ℤ (whole -ℤ pos weight) → unsigned_abs result ≤ 2 ^ 46 }
    ensures far { unsigned_abs result ≤ 2 ^ 79 }
{
    spare - share(whole, spare, weight)
}
