//! The offsets of scroll views: each is brought into its range once the view is laid out.
//!
//! `bringing` has the one call, `bring_one`: of a scroll view that has bounds, the offset is cut to the range of its
//! present bounds and those of its first child; of any other view nothing changes. It says whether the offset has
//! changed, since what is seen of the children has then moved. Nothing takes memory.
//!
//! `traversal` calls it for each view whose children it has laid. The range is `range_in` of `scroll_view`.
//!
//!     bring_one(tree, view)      // true: the offset was 40, and its child, now shorter, can be moved up by 25
//!     tree.facts(view).offset    // 25
#![tactic(auto)]

mod bringing;

pub use bringing::bring_one;
