//! Laying a whole tree out: measuring it, and then setting the bounds of each view.
mod lay;
mod placer;
mod whole;

pub use lay::settle;
pub use whole::lay_root;
