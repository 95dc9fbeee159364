//! Why a file is refused.
ghost use Rattle.std.specs.Prelude.{◌≡◌, ◌≤◌};
ghost use Rattle.axml_chunks.specs.Causes.{cause_number};

/// Why a file is refused.
#[derive(Clone, Copy, Debug, PartialEq, Eq)]
pub enum Cause {
    /// The file, or a chunk, has fewer bytes than it says.
    Truncated,
    /// A chunk's sizes contradict each other, or its body is shorter than its form.
    BadChunk,
    /// The sizes of a string pool contradict each other.
    BadPool,
    /// A string leaves its pool, lacks its zero or is no text.
    BadString,
    /// The first chunk is no XML document.
    NotXml,
    /// A string number that is not below the pool's count.
    BadReference,
    /// An element that ends is not the innermost open one, or one stays open.
    Unbalanced,
    /// A document without any element.
    NoElement,
    /// An element after the outermost one has ended.
    TwoRoots,
    /// A second string pool.
    SecondPool,
    /// More strings, bytes of text, elements, attributes or entries than are taken.
    TooBig,
    /// The first chunk is no resource table.
    NotTable,
}

impl Cause {
    /// The number of the cause.
    pub fn number(self) -> u8
        ensures value { result ≡ cause_number self }
        ensures first { 1 ≤ result }
        ensures last { result ≤ 42 }
    {
        match self {
            Cause::Truncated => 1,
            Cause::BadChunk => 2,
            Cause::BadPool => 3,
            Cause::BadString => 4,
            Cause::NotXml => 5,
            Cause::BadReference => 6,
            Cause::Unbalanced => 7,
            Cause::NoElement => 8,
            Cause::TwoRoots => 9,
            Cause::SecondPool => 10,
            Cause::TooBig => 11,
            Cause::NotTable => 42,
        }
    }
}
