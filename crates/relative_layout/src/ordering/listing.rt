//! Children whose order is that of the list.
ghost use Rattle.std.specs.Prelude.{◌≡◌, ◌<◌, ◌≤◌, ℕ, IfOk, IfSome, length, slice_index, true};
ghost use Rattle.relative_layout.specs.ordering.Naming.{NamesBack, FindsLast, HasPlace};
ghost use Rattle.view_model.specs.SiblingRules.{leads};
ghost use Rattle.view_model.specs.Numbers.{max_views};

use crate::ordering::ids::named_ids;
use crate::ordering::naming::last_in;
use indexmap::IndexMap;
use std::alloc::{AllocError, Global};
use view_model::{Axis, Link};

/// Whether a quick look shows that each child leads only to children before it, as in most layouts.
pub fn leads_back(axis: Axis, kids: &[Link], lasts: &IndexMap<u32, u32>) -> bool
    requires { FindsLast kids.now lasts.now }
    ensures { result ≡ true → (place anchor : ℕ) → leads axis kids.now place anchor ≡ true → anchor < place }
{
    for place in 0..kids.len() {
        if !names_back(axis, kids, lasts, place) {
            return false;
        }
    }
    true
}

/// Whether all children whose ids a child names are before it.
fn names_back(axis: Axis, kids: &[Link], lasts: &IndexMap<u32, u32>, place: usize) -> bool
    requires place { HasPlace kids.now place }
    requires table { FindsLast kids.now lasts.now }
    ensures { result ≡ true → NamesBack axis kids.now place }
{
    for id in named_ids(axis, &kids[place].rules).iter() {
        if !is_before(last_in(lasts, *id), place) {
            return false;
        }
    }
    true
}

/// Whether a place, if there is one, is before another.
fn is_before(last: Option<usize>, place: usize) -> bool
    ensures { result ≡ true → IfSome last (λ last. last < place) }
{
    match last {
        None => true,
        Some(last) => last < place,
    }
}

/// All places, the first first.
pub fn listed_places(alloc: Global, count: usize) -> Result<Vec<u32>, AllocError>
    requires few { count ≤ max_views }
    ensures size { IfOk result (λ places. length places.items ≡ count) }
    ensures each { IfOk result (λ places. (place : ℕ) → place < count → slice_index places.items place ≡ place) }
{
    let mut places = Vec::new(alloc);
    for place in 0..count {
        places.push(place as u32)?;
    }
    Ok(places)
}
