//! What a line asks for.

use geom_core::Argb;
use line_words::Name;
use view_model::{Act, Change, Class};

/// The greatest side of a window, in pixels.
pub const MAX_WINDOW: i64 = 4096;
/// The greatest coordinate of a point of a window, in pixels.
pub const MAX_POINT: i64 = 4095;
/// The greatest number of pixels that a line prints.
pub const MAX_PIXELS: i64 = 65536;
/// The greatest id of a pointer.
pub const MAX_POINTER: u32 = 31;
/// The least coordinate of a touch, in pixels.
pub const MIN_TOUCH: i64 = -1048576;
/// The greatest coordinate of a touch, in pixels.
pub const MAX_TOUCH: i64 = 1048576;
/// The least density, in dots an inch.
pub const MIN_DPI: u32 = 40;
/// The greatest density, in dots an inch.
pub const MAX_DPI: u32 = 1000;

/// What a line gives a resource.
#[derive(Clone, Copy)]
pub enum Given<'a> {
    Color(Argb),
    /// The word of a dimension, as a layout file has it.
    Dimen(u32),
    /// Its escapes are as written, each of them valid.
    Text(&'a str),
}

/// An edit of a hook: what it changes of which view.
#[derive(Clone, Copy)]
pub struct Asked {
    pub view: Name,
    pub change: Change,
}

impl Default for Asked {
    /// What an unused place holds; it is never made.
    fn default() -> Asked {
        Asked {
            view: Name::Number(0),
            change: Change::Weight(0),
        }
    }
}

/// What a line asks for. A dimension is a number of pixels from 0 to `MAX_SIZE`, `MATCH` or `WRAP`.
#[derive(Drop)]
pub enum Command<'a> {
    /// A new window of this size, each side from 1 to `MAX_WINDOW` pixels, without a frame.
    Window {
        w: i32,
        h: i32,
    },
    /// The density of the screen, in dots an inch, from `MIN_DPI` to `MAX_DPI`.
    Dpi(u32),
    /// The value of the resource of this id, which is not 0.
    Res {
        id: u32,
        value: Given<'a>,
    },
    /// The tree of a layout file, below a view or as the whole tree.
    Inflate {
        name: &'a str,
        into: Option<Name>,
    },
    /// A view as the last child of its parent, or as the root if that is `None`.
    Add {
        parent: Option<Name>,
        class: Class,
        width: i32,
        height: i32,
    },
    /// Takes a view away with all below it.
    Remove(Name),
    /// Sets something of a view.
    Act {
        view: Name,
        act: Act,
    },
    /// Sets the text of a view. Its escapes are as written, each of them valid.
    Text {
        view: Name,
        text: &'a str,
    },
    /// Sets whether a view and all above it are prevented from taking pointers away from their children.
    Disallow {
        view: Name,
        on: bool,
    },
    /// Arms the hook of a view: the edits that are made once it has another size, in order, as written; `edits_written`
    /// reads them. If `bad`, there is one after the first `MAX_EDITS`, or one that is not `size`, `min`, `margins`,
    /// `padding`, `weight`, `gravity` or `bg`; those are not among them.
    Hook {
        view: Name,
        edits: &'a [u8],
        bad: bool,
    },
    /// A pointer goes down. Its id is from 0 to `MAX_POINTER`, its coordinates are from `MIN_TOUCH` to `MAX_TOUCH`.
    Down {
        p: u8,
        x: i32,
        y: i32,
    },
    /// A pointer moves, within the bounds of `Down`.
    Move {
        p: u8,
        x: i32,
        y: i32,
    },
    /// A pointer goes up, with an id as that of `Down`.
    Up(u8),
    /// The gesture is taken away.
    Cancel,
    /// Lays the tree out.
    Frame,
    /// Prints the bounds of this view, or of each view in preorder if that is `None`.
    Bounds(Option<Name>),
    /// Prints the colours of a part of the picture. Its corner is from 0 to `MAX_POINT`, its sides from 1 to
    /// `MAX_WINDOW` and its area at most `MAX_PIXELS`, in window coordinates.
    Pixels {
        x: i32,
        y: i32,
        w: i32,
        h: i32,
    },
    /// Prints the digest of the picture.
    Digest,
    /// Saves the state of the tree, and prints it.
    Save,
    /// Restores the state of this text, or the saved one if that is `None`: an even number of hexadecimal digits as
    /// written, two or more.
    Restore(Option<&'a str>),
}
