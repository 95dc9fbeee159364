//! A view that is to be added to a tree.

use crate::class::Class;
use crate::facts::Facts;
use crate::text::Text;

/// A view that is to be added to a tree with others, and has no number yet.
#[derive(Drop)]
pub struct Sprout {
    pub class: Class,
    pub facts: Facts,
    pub text: Text,
    /// How deep it is among those that come with it: 1 for the outermost.
    pub depth: u32,
}
