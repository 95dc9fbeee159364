//! What the value of an attribute means.

use view_model::Text;

/// What the value of an attribute means.
#[derive(Drop)]
pub enum Given {
    Pixels(i32),
    /// A number of another kind: an id, a colour, a weight in 256ths, or as the word has it.
    Word(u32),
    Text(Text),
}
