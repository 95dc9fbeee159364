//! The ids of children, and those that their rules name.
ghost use Rattle.std.specs.Prelude.{◌≡◌, ℕ, IfOk, OnOk, nat_eq};
ghost use Rattle.indexmap.specs.IndexMap.{get as place_in};
ghost use Rattle.relative_layout.specs.ordering.Naming.{padded_ids, with_last, AreFewKids};
ghost use Rattle.view_model.specs.SiblingRules.{last_with_id};

use indexmap::IndexMap;
use std::alloc::{AllocError, Global};
use view_model::verbs::{
    ABOVE, ALIGN_BOTTOM, ALIGN_END, ALIGN_LEFT, ALIGN_RIGHT, ALIGN_START, ALIGN_TOP, BELOW, END_OF,
    LEFT_OF, RIGHT_OF, START_OF,
};
use view_model::{Axis, Link, Rules};

/// The ids that rules name on an axis; 0 means none.
pub fn named_ids(axis: Axis, rules: &Rules) -> [u32; 8]
    ensures { result ≡ padded_ids axis rules.now }
{
    let ids = rules.values;
    match axis {
        Axis::Horizontal => [
            ids[LEFT_OF],
            ids[RIGHT_OF],
            ids[ALIGN_LEFT],
            ids[ALIGN_RIGHT],
            ids[START_OF],
            ids[END_OF],
            ids[ALIGN_START],
            ids[ALIGN_END],
        ],
        Axis::Vertical => [
            ids[ABOVE],
            ids[BELOW],
            ids[ALIGN_TOP],
            ids[ALIGN_BOTTOM],
            0,
            0,
            0,
            0,
        ],
    }
}

/// The last child with each id.
pub fn last_places(alloc: Global, kids: &[Link]) -> Result<IndexMap<u32, u32>, AllocError>
    requires few { AreFewKids kids.now }
    ensures { IfOk result (λ lasts. (id : ℕ) → place_in nat_eq lasts id ≡ last_with_id kids.now id) }
{
    let mut lasts = IndexMap::new(alloc);
    for (place, kid) in kids.iter().enumerate() {
        note_last(&mut lasts, kid.id, place as u32)?;
    }
    Ok(lasts)
}

/// Records that a child is the last so far with its id.
fn note_last(lasts: &mut IndexMap<u32, u32>, id: u32, place: u32) -> Result<(), AllocError>
    ensures { OnOk result ((i : ℕ) → place_in nat_eq lasts.new i ≡ with_last id place (place_in nat_eq lasts.old i) i) }
{
    if id == 0 {
        return Ok(());
    }
    lasts.insert(id, place)?;
    Ok(())
}
