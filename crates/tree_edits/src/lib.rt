//! Edits of a tree of views: the effect of a line on the tree, or why it is refused.
//!
//! `apply` (`applying`) makes one `Edit` (`edits`): a view is added, removed, given a text, or gets an `Act` (`acting`,
//! `changing`), and where that may change the layout, layout is requested (`asking`). `hiding` has what is done to views that
//! leave layout, and `fault` why an edit is not made. An edit that is refused has changed nothing.
//!
//! `seen_edits` calls it and adds what has to be painted again; `view_world` makes the `Edit` of a line.
//!
//!     let added = Edit::Add { parent: Some(root), class: Class::View, width: 10, height: 20 };
//!     apply(alloc, tree, added)?                                         // Some(2): the number of the new view
//!     apply(alloc, tree, Edit::Act { view: kid, act: Act::Scroll(5) })   // refused: a `View` does not scroll
#![tactic(auto)]

mod acting;
mod applying;
mod asking;
mod changing;
mod edits;
mod fault;
mod hiding;

pub use applying::apply;
pub use asking::requests_layout;
pub use edits::Edit;
pub use fault::EditFault;
