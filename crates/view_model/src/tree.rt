//! Plain trees.

use crate::class::Class;
use crate::facts::Facts;
use crate::text::Text;

/// A plain tree: a view and the trees of its children, in order.
#[derive(Drop)]
pub struct Tree {
    /// The number that the view was given when it was made, from 1.
    pub number: u64,
    pub class: Class,
    pub facts: Facts,
    pub text: Text,
    pub kids: Vec<Tree>,
}
