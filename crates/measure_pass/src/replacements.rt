//! Gone siblings to which children of a relative layout are tied, and what is used instead of them.
//!
//! If an anchor is gone, its own rule of the same kind is followed from there, its start and end forms in place of left
//! and right ones too.
ghost use Rattle.std.specs.Prelude.{◌≡◌, None};

use view_tree::Key;

/// A gone sibling, and the sibling that is used instead of it, if there is one.
#[derive(Clone, Copy)]
pub struct Replacement {
    pub gone: Key,
    pub by: Option<Key>,
}

/// The last gone sibling that was replaced, for each tie of an axis. A chain of gone siblings is followed once for all
/// the children in a row that are tied to it.
#[derive(Clone, Copy)]
pub struct Replacements {
    pub before: Option<Replacement>,
    pub after: Option<Replacement>,
    pub align_near: Option<Replacement>,
    pub align_far: Option<Replacement>,
}

impl Replacements {
    /// None yet.
    pub fn none() -> Replacements
        ensures { result ≡ record { before = None; after = None; align_near = None; align_far = None } }
    {
        Replacements {
            before: None,
            after: None,
            align_near: None,
            align_far: None,
        }
    }
}
