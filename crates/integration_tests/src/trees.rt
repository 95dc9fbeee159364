//! The copy of a tree, which `tool` does not make, with ample memory: running out of it would meet its clause too.

use std::test::Fail;
use view_model::{Class, Facts, Text};
use view_tree::ViewTree;

/// The copy of a tree of one view is there, and has the number of that view.
#[test]
fn a_tree_is_copied_where_there_is_memory(rt: HostRuntime) -> Result<(), Fail> {
    let alloc = rt.alloc();
    let mut tree = ViewTree::new(alloc);
    let text = Text::new(alloc, "one")?;
    let made = tree.attach(None, Class::View, Facts::new(10, 20), text);
    assert!(rt; made.is_ok());
    let plain = tree.plain(alloc)?;
    assert!(rt; plain.is_some_and(|tree| tree.number == 1));
    Ok(())
}
