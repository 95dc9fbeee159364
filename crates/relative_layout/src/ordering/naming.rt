//! Which children name which ids.
//!
//! Each rule of an axis that names a sibling counts, also one that a start form replaces, and every child with the id
//! that it names except the child itself: so an order stays right when a direction turns or a child goes.
ghost use Rattle.std.specs.Prelude.{◌≡◌, ◌<◌, ◌+◌, [], IfOk, IfSome, None, OnOk, Some, length, nat_eq, replicate, vec_len};
ghost use Rattle.indexmap.specs.IndexMap.{get as place_in};
ghost use Rattle.relative_layout.specs.ordering.Naming.{AreNamers, lists_of, row_at, with_place, AreFewKids, FindsLast, HasPlace};

use crate::ordering::ids::{last_places, named_ids};
use indexmap::IndexMap;
use std::alloc::{AllocError, Global};
use view_model::{Axis, Link};

/// Which children name which ids on an axis. The last child with an id represents it.
#[derive(Drop)]
pub struct Naming {
    pub axis: Axis,
    lasts: IndexMap<u32, u32>,
    /// For the last child with an id, the children that name it.
    namers: Vec<Vec<u32>>,
}

impl Naming {
    ghost use Rattle.relative_layout.specs.ordering.Naming.{IsNaming};

    /// Which of these children name which ids on an axis. `Err` where there is no memory.
    pub fn new(alloc: Global, axis: Axis, kids: &[Link]) -> Result<Naming, AllocError>
        requires few { AreFewKids kids.now }
        ensures axis { IfOk result (λ naming. naming.axis ≡ axis) }
        ensures naming { IfOk result (λ naming. IsNaming kids.now naming) }
    {
        let lasts = last_places(alloc, kids)?;
        let namers = namers(alloc, axis, kids, &lasts)?;
        Ok(Naming {
            axis,
            lasts,
            namers,
        })
    }

    /// The last child with an id.
    pub fn last(&self, id: u32) -> Option<usize>
        requires { place_in nat_eq self.now.lasts 0 ≡ None }
        ensures { result ≡ place_in nat_eq self.now.lasts id }
    {
        last_in(&self.lasts, id)
    }

    /// The children that name the id of which this child is the last.
    pub fn namers(&self, last: usize) -> &[u32]
        requires { last < vec_len self.now.namers }
        ensures { result.now ≡ row_at (lists_of self.now.namers.items) last }
    {
        &self.namers[last]
    }
}

/// For each child, those that name the id of which it is the last in `lasts`. `Err` where there is no memory.
fn namers(
    alloc: Global,
    axis: Axis,
    kids: &[Link],
    lasts: &IndexMap<u32, u32>,
) -> Result<Vec<Vec<u32>>, AllocError>
    requires few { AreFewKids kids.now }
    requires table { FindsLast kids.now lasts.now }
    ensures { IfOk result (λ rows. AreNamers axis kids.now (length kids.now) (lists_of rows.items)) }
{
    let mut rows = empty_rows(alloc, kids.len())?;
    for (place, _kid) in kids.iter().enumerate() {
        add_names(&mut rows, axis, kids, lasts, place)?;
    }
    Ok(rows)
}

/// Records the ids that a child names.
fn add_names(
    rows: &mut Vec<Vec<u32>>,
    axis: Axis,
    kids: &[Link],
    lasts: &IndexMap<u32, u32>,
    place: usize,
) -> Result<(), AllocError>
    requires few { AreFewKids kids.now }
    requires place { HasPlace kids.now place }
    requires table { FindsLast kids.now lasts.now }
    requires rows { AreNamers axis kids.now place (lists_of rows.old.items) }
    ensures { OnOk result (AreNamers axis kids.now (place + 1) (lists_of rows.new.items)) }
{
    for id in named_ids(axis, &kids[place].rules).iter() {
        add_to_row(rows, last_in(lasts, *id), place as u32)?;
    }
    Ok(())
}

/// The last child with an id, by the table of them. Most rules name 0, which no child has: that is known without a
/// look-up.
pub fn last_in(lasts: &IndexMap<u32, u32>, id: u32) -> Option<usize>
    requires { place_in nat_eq lasts.now 0 ≡ None }
    ensures { result ≡ place_in nat_eq lasts.now id }
{
    if id == 0 {
        return None;
    }
    match lasts.get(&id) {
        None => None,
        Some(last) => Some(*last as usize),
    }
}

/// Adds a child to the list of the last one with an id, if there is one.
fn add_to_row(rows: &mut Vec<Vec<u32>>, last: Option<usize>, place: u32) -> Result<(), AllocError>
    requires { IfSome last (λ last. last < length rows.old.items) }
    ensures { OnOk result (lists_of rows.new.items ≡ with_place last place (lists_of rows.old.items)) }
{
    let Some(last) = last else {
        return Ok(());
    };
    rows[last].push(place)?;
    Ok(())
}

/// `count` empty lists.
fn empty_rows(alloc: Global, count: usize) -> Result<Vec<Vec<u32>>, AllocError>
    ensures { IfOk result (λ rows. lists_of rows.items ≡ replicate count []) }
{
    let mut rows = Vec::new(alloc);
    for _row in 0..count {
        rows.push(Vec::new(alloc))?;
    }
    Ok(rows)
}
