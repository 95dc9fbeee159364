//! The highest ids that the rules of children name. A relative layout keeps one that none of its children exceeds: an id
//! above it is named by none, without a look at any child.
ghost use Rattle.std.specs.Prelude.{◌≡◌, ◌≤◌, ℕ, true};
ghost use Rattle.view_model.specs.SiblingRules.{names};
ghost use Rattle.sibling_orders.specs.Highest.{IsAboveNamed, IsAboveRules};

use relative_layout::named_ids;
use view_model::{Axis, Link, Rules};

/// The highest id that rules name on an axis, or 0.
fn highest_on(axis: Axis, rules: &Rules) -> u32
    ensures { (id : ℕ) → names axis rules.now id ≡ true → id ≤ result }
{
    let mut highest = 0;
    for id in named_ids(axis, rules).iter() {
        highest = higher(highest, *id);
    }
    highest
}

/// The higher of two ids.
pub fn higher(first: u32, second: u32) -> u32
    ensures first { first ≤ result }
    ensures second { second ≤ result }
{
    if first < second { second } else { first }
}

/// The highest id that rules name, or 0.
pub fn highest_in(rules: &Rules) -> u32
    ensures { IsAboveRules result rules.now }
{
    higher(
        highest_on(Axis::Horizontal, rules),
        highest_on(Axis::Vertical, rules),
    )
}

/// The highest id that one of some children names, or 0.
pub fn highest_named(links: &[Link]) -> u32
    ensures { IsAboveNamed result links.now }
{
    let mut highest = 0;
    for link in links {
        highest = higher(highest, highest_in(&link.rules));
    }
    highest
}
