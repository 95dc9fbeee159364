//! A document: its nodes and attributes, and what is known of each.
ghost use Rattle.axml_reader.specs.Sound.{AreShort, HaveStrings, AttrsHaveStrings, AreWithin, AreFew, HaveFewAttrs, AreRooted};

use axml_chunks::Pool;

/// The string number that means no string.
pub const NO_STRING: u32 = 0xffff_ffff;

/// An attribute. `ns`, `name` and `raw` are string numbers; `kind` and `word` are the type and the
/// word of its value, and for the type 3, a string, the word is a string number too.
#[derive(Clone, Copy)]
pub struct Attr {
    pub ns: u32,
    pub name: u32,
    pub raw: u32,
    pub kind: u8,
    pub word: u32,
}

/// A node, in the order of the file. All but `line`, `first`, `count`, `kind` and `word` are
/// string numbers.
#[derive(Clone, Copy)]
pub enum Node {
    NsStart {
        prefix: u32,
        uri: u32,
    },
    NsEnd {
        prefix: u32,
        uri: u32,
    },
    /// An element begins; its attributes are the `count` ones from `first` on in `Doc::attrs`.
    Start {
        line: u32,
        ns: u32,
        name: u32,
        first: u32,
        count: u32,
    },
    End {
        line: u32,
        ns: u32,
        name: u32,
    },
    /// Character data, with the type and the word of its value.
    Chars {
        line: u32,
        text: u32,
        kind: u8,
        word: u32,
    },
}

/// A document: its strings, the ids of the resource map, the nodes, and the attributes of all
/// elements.
#[derive(Drop)]
pub struct Doc {
    pub pool: Pool,
    pub map: Vec<u32>,
    pub nodes: Vec<Node>,
    pub attrs: Vec<Attr>,
    pub ghost short: { AreShort pool },
    pub ghost strings: { HaveStrings pool nodes.items },
    pub ghost attr_strings: { AttrsHaveStrings pool attrs.items },
    pub ghost within: { AreWithin attrs.items nodes.items },
    pub ghost few: { AreFew nodes.items },
    pub ghost few_attrs: { HaveFewAttrs nodes.items },
    pub ghost rooted: { AreRooted pool nodes.items },
}
