//! What a resource holds, and an entry of a table.

/// What a resource holds: nothing, several values, or one with its type and its word.
#[derive(Clone, Copy)]
pub enum Held {
    None,
    Complex,
    Plain { kind: u8, word: u32 },
}

/// An entry of a table: the id of a resource, and what it holds.
#[derive(Clone, Copy)]
pub struct Entry {
    pub id: u32,
    pub held: Held,
}
