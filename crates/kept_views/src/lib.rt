//! What is kept with the views of a tree while a frame skips those of which nothing changed: definitions and laws, no
//! code.
//!
//! `IsConsistent` (`specs/Kept`) holds between two lines. `measure_pass`, `traversal`, `tree_edits`, `saved_state`,
//! `touch_dispatch` and `view_world` promise it; so each of them may skip a view that its flags and its cache allow to
//! skip.
//!
//! - `specs/Kept`: what is kept of each view, and of every tree between lines: its flags, its cache, its size and the
//!   place of its children. `specs/Pressing`: views that are forced by a request. `specs/Passes`: what is kept in a
//!   pass. `specs/Laying`: what laying out a part requires and leaves.
//! - `proofs/Lines`: each kind of edit keeps it with its request, and so does the end of a pass. `proofs/GraftedKept`:
//!   a sapling that is added; `proofs/Fresh`: a tree of new views; `proofs/Dragged`: offsets; `proofs/QuietEdits`:
//!   edits that request nothing.
//! - `proofs/Replaced`, `Edits`, `EditParts`, `Pruned`, `Grown`, `AroundEdits`, `SameCourse`: edits before their
//!   request. `proofs/Paths`, `Requested`, `PressedKept`, `Emptied`: requests. `proofs/InPass`: edits of a hook.
//! - `proofs/LaidRows`, `LaidFrames`, `LaidCalm`, `PlacedKids`, `Quiet`, `Brought`: laying out.
//!
//! As `apply` of `tree_edits` has it:
//!
//!     ensures consistent { StaysConsistent tree.old tree.new }
#![tactic(auto)]
