//! Marks of places.
ghost use Rattle.std.specs.Prelude.{◌≡◌, IfOk, false, replicate};

use std::alloc::{AllocError, Global};

/// `count` places, none of them marked.
pub fn unmarked(alloc: Global, count: usize) -> Result<Vec<bool>, AllocError>
    ensures { IfOk result (λ marks. marks.items ≡ replicate count false) }
{
    vec![in alloc; false; count]
}
