//! The whole tool over objects that it is given: it carries out scripts, and prints files.
//!
//! `tool` (`whole`) is all of it. `usage` reads what the words ask for. `script` reads a source in pieces, and `run`
//! carries out each line of them as soon as it has ended, by a `carrier` (a world or a stack). `loading` runs a load,
//! `focusing` answers which view gets the focus next after a script, and `session` takes the lines of a script one at a
//! time. `status` is how a run ends. What is printed of files, and of refusals, is in `tool_replies`.
//!
//! The program `view_tool` passes it the real objects, `vindaesk_c` and tests objects in memory. Its contract is the
//! theorem: the bytes that it writes are those of the plain world.
//!
//!     tool(alloc, words, shelf, source, sink, work)    // 0 for the words `run` and a script without a refused line
#![tactic(auto)]

mod carrier;
mod focusing;
mod loading;
mod run;
mod script;
mod session;
mod status;
mod usage;
mod whole;

pub use run::Stop;
pub use session::Session;
pub use whole::tool;
