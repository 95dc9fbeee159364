//! The values of resources that layout files may name, by their ids.
//!
//! `resources` has `Resources`, a table whose look-ups do not search it; `value` has `Value`, a colour, the word of a
//! dimension or a text; and `fault` has why one is not defined: no memory, or as many as there may be. A dimension is
//! kept as it is written and may be below 0, since only the attribute that takes it knows whether that is allowed, and
//! density counts only when a file is read; it is not made pixels when it is given.
//!
//! `view_world` keeps one for the lines `res`, and `inflater` and `attr_table` look values up.
//!
//!     let mut res = Resources::new(alloc);
//!     res.define(0x7f01_0000, Value::Color(Argb(0xff00_00ff)))?;
//!     res.get(0x7f01_0000)    // that colour; of two values the later one counts
#![tactic(auto)]

mod fault;
mod resources;
mod value;

pub use fault::ResFault;
pub use resources::Resources;
pub use value::Value;
