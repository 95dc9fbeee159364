//! What lines change of a world between frames, each part by itself: views are named, made of a layout file, added and
//! forgotten, and pointers go down, move and go up.
//!
//! `specs/World` is the plain world, of which all crates above speak, and `specs/Reply` what comes of a line. `naming`
//! finds the views that lines name; `texts` and `resources` are what lines give. `inflating` makes views from a layout
//! file, `grafting` adds views, and `opening` keeps places for them; `forgetting` is for views that go away. `pointers`
//! are those that are down, `gesture` is what becomes of a gesture, and `fault` is why a line was not carried out.
//!
//! `view_world` has the screen that these are parts of, and carries the lines out.
//!
//!     let view = resolve(&tree, Name::Number(2))?;    // refused: there is no view 2
//!     forget(&tree, &mut hooks, &mut gesture, view)   // before the view is removed
#![tactic(auto)]

mod fault;
mod forgetting;
mod gesture;
mod grafting;
mod inflating;
mod naming;
mod opening;
mod pointers;
mod resources;
mod texts;

pub use fault::StepFault;
pub use forgetting::forget;
pub use gesture::{disallow_from, has_any_scrolled, hides, slop_at};
pub use grafting::graft;
pub use inflating::{fetch, inflation_of, views_of};
pub use naming::{find, place_of, recall_tree, resolve};
pub use opening::{close_all, make_hooks, open_all};
pub use pointers::{
    down_action, event_at, event_of, ids_of, is_pressed, set_points, up_action, without_point,
};
pub use resources::value_of;
pub use texts::resolve_escapes;
