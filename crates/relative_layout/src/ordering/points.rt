//! The points among which cycles are searched: the children, and after them the ids.
ghost use Rattle.std.specs.Prelude.{◌≡◌, ◌<◌, ◌≤◌, ◌+◌, ◌++◌, IfSome, OnOk, length};
ghost use Rattle.relative_layout.specs.ordering.Naming.{IsNaming, lists_of, AreFewKids};
ghost use Rattle.relative_layout.specs.ordering.Points.{heads_of, id_point};
ghost use Rattle.view_model.specs.Numbers.{max_views};

use crate::ordering::naming::Naming;
use std::alloc::AllocError;
use view_model::Link;

/// Appends the points to which a point leads: from a child the one of its id, from an id those of the children that
/// name it. Each child is a point by its place, and each id by the place of the last child with it, after all children.
pub fn put_heads(
    points: &mut Vec<u32>,
    kids: &[Link],
    naming: &Naming,
    point: usize,
) -> Result<(), AllocError>
    requires few { AreFewKids kids.now }
    requires point { point < length kids.now + length kids.now }
    requires naming { IsNaming kids.now naming.now }
    ensures { OnOk result (points.new.items
        ≡ points.old.items ++ heads_of kids.now (lists_of naming.now.namers.items) point) }
{
    if point >= kids.len() {
        points.extend_from_slice(naming.namers(point - kids.len()))?;
        return Ok(());
    }
    put_id(points, kids.len(), naming.last(kids[point].id))?;
    Ok(())
}

/// Appends the point of an id by the last child with it, if there is one.
fn put_id(points: &mut Vec<u32>, count: usize, last: Option<usize>) -> Result<(), AllocError>
    requires few { count ≤ max_views }
    requires inside { IfSome last (λ last. last < count) }
    ensures { OnOk result (points.new.items ≡ points.old.items ++ id_point count last) }
{
    if let Some(last) = last {
        points.push((count + last) as u32)?;
    }
    Ok(())
}
