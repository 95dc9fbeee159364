//! The world of a script: what its lines so far have made, and what each line does to it.
//!
//! `World` (`world`) has a screen, and `world::marks`, what is known of the next frame. `screen` has what lines have
//! made, such as the tree, the picture, the stage and the resources, and carries commands out. `hooking` has the
//! conditions on a hook, and `saving` reads states and takes them up. The parts that need no frame are `world_parts`,
//! and what is printed is `world_replies`.
//!
//! `whole_tool` passes it the commands of a run, and `stack_worlds` keeps one for each window.
//!
//!     let mut world = World::new(alloc);
//!     world.carry(alloc, &line(b"window 100 50")?, shelf, sink, work)?;    // prints nothing
//!     world.carry(alloc, &line(b"bounds")?, shelf, sink, work)             // refused: there was no frame yet
#![tactic(auto)]

mod hooking;
mod saving;
mod screen;
mod world;

pub use screen::stage::Stage;
pub use world::World;
