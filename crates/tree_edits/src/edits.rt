//! What is asked of a tree.

use view_model::{Act, Class};
use view_tree::Key;

/// What is asked of a tree.
#[derive(Clone, Copy)]
pub enum Edit<'a> {
    /// A new view, the last child of its parent, or the root if there is none. Its dimensions are a number of pixels
    /// from 0 upward, `MATCH` or `WRAP`.
    Add {
        parent: Option<Key>,
        class: Class,
        width: i32,
        height: i32,
    },
    /// Removes a view and all below it.
    Remove(Key),
    Act {
        view: Key,
        act: Act,
    },
    /// The text of a view, its escapes resolved.
    Text {
        view: Key,
        text: &'a str,
    },
}
