//! What a line prints.
//!
//! `response` is the response to a line that was carried out, and writes it; `bounds`, `deliveries`, `pixels`, `states`
//! and `replies` put the texts. Each text is defined in `specs/`, without a buffer and without a sink.
//!
//! `view_world` writes one response for each line that it carries out.
//!
//!     let source = ReplySource { tree: &tree, surface: &surface, log: &log, saved: &[] };
//!     write_response(&source, Response::Made(1), &mut text, sink)    // writes `v1` and a line break
#![tactic(auto)]

mod bounds;
mod deliveries;
mod pixels;
mod replies;
mod response;
mod states;

pub use pixels::{Part, part_in};
pub use response::{ReplySource, Response, write_response};
