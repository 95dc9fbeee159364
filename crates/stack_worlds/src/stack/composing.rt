//! All windows of a stack as one picture.

#![tactic(auto, using(text_lines::proofs::Sending::sends_both))]

ghost use Rattle.std.specs.Prelude.{◌≡◌, ◌<◌, ◌+◌, ◌-ℤ◌, unsigned_abs, Some};
ghost use Rattle.std.specs.Option.{option_map};
ghost use Rattle.pixel_raster.specs.Raster.{size_of};
ghost use Rattle.script_lines.specs.reading.Pixels.{IsPart};
ghost use Rattle.text_lines.specs.BufferedText.{Sends};
ghost use Rattle.text_lines.specs.Delivered.{Delivered};
ghost use Rattle.text_lines.specs.Joined.{◌⧺◌};
ghost use Rattle.stack_worlds.specs.Composed.{IsComposed, composed_in, part_of};
ghost use Rattle.stack_worlds.specs.KeptStack.{kept_world, stack_of};
ghost use Rattle.stack_worlds.specs.PlainStack.{color_from, color_in, color_of_picture, color_of_world, composed_text, settled_size, settled_sizes};
ghost use Rattle.view_world.specs.world.KeyedWorld.{world_of};
ghost use Rattle.world_replies.specs.Replies.{pixel_text, pixels_text, row_text, separator};
ghost use Rattle.window_stack.specs.PlainPanes.{topmost, IsPane};

use crate::stack::Stack;
use geom_core::{Argb, BLACK, Size};
use pixel_raster::Surface;
use text_lines::TextBuffer;
use tool_io::{Failed, Sink};
use view_world::{Stage, World};
use window_stack::MAX_PANES;

/// A part of a stack: its corner and its sides, in pixels.
#[derive(Clone, Copy)]
pub struct Part {
    pub left: u16,
    pub top: u16,
    pub width: u16,
    pub height: u16,
}

/// A part of a stack that is composed, and the sizes of the windows that are seen.
#[derive(Drop)]
struct Composed<'a> {
    stack: &'a Stack,
    sizes: [Option<Size>; MAX_PANES],
    part: Part,
}

impl Stack {
    /// Writes the colours of a part of all windows, one line per row.
    pub fn compose<K: Sink>(
        &self,
        x: i32,
        y: i32,
        w: i32,
        h: i32,
        sink: &mut K,
    ) -> Result<(), Failed>
        requires { IsPart x y w h }
        ensures { Delivered (K.state sink.old) (K.state sink.new) result
            (composed_text (stack_of self.now) (unsigned_abs x) (unsigned_abs y) (unsigned_abs w) (unsigned_abs h)) }
    {
        let composed = Composed {
            stack: self,
            sizes: self.settled_sizes(),
            part: part_of(x, y, w, h),
        };
        let mut text = TextBuffer::new();
        composed.put_rows(&mut text, sink);
        text.finish(sink)
    }

    /// The sizes of the windows whose last frame has settled.
    fn settled_sizes(&self) -> [Option<Size>; MAX_PANES]
        ensures { result ≡ settled_sizes (stack_of self.now) }
    {
        self.worlds.each_ref().map(|place| settled_size(place))
    }

    /// The colour of a point: that of the topmost window there, if the windows that are seen have these sizes.
    fn color_at(&self, sizes: &[Option<Size>; MAX_PANES], x: i32, y: i32) -> Argb
        ensures { result ≡ color_in (stack_of self.now) x y (topmost self.now.panes x y sizes.now) }
    {
        match self.panes.under(x, y, sizes) {
            None => BLACK,
            Some(k) => self.color_in(k, x, y),
        }
    }

    /// The colour of a point of a window, by the coordinates of the stack.
    fn color_in(&self, k: u8, x: i32, y: i32) -> Argb
        requires { IsPane k }
        ensures { result ≡ color_in (stack_of self.now) x y (Some k) }
    {
        match self.world(k) {
            None => BLACK,
            Some(world) => color_from(self.panes.corner(k), x, y, world),
        }
    }
}

/// The colour of a point of a window with this corner, by the coordinates of the stack; black without a corner.
fn color_from(corner: Option<(i32, i32)>, x: i32, y: i32, world: &World) -> Argb
    ensures { result ≡ color_from corner x y (Some (world_of world.now)) }
{
    match corner {
        None => BLACK,
        Some((left, top)) => color_of_world(world, distance(left, x), distance(top, y)),
    }
}

/// How far a coordinate is from another one.
fn distance(from: i32, to: i32) -> usize
    ensures { result ≡ unsigned_abs (to -ℤ from) }
{
    (i64::from(to) - i64::from(from)).unsigned_abs() as usize
}

/// The colour of a point of the picture of a world, black if there is none.
fn color_of_world(world: &World, column: usize, row: usize) -> Argb
    ensures { result ≡ color_of_world (Some (world_of world.now)) column row }
{
    match (world.stage(), world.surface()) {
        (Stage::Settled, Some(surface)) => color_of(surface, column, row),
        _ => BLACK,
    }
}

/// The colour of a point of a picture, black outside of it.
fn color_of(surface: &Surface, column: usize, row: usize) -> Argb
    ensures { result ≡ color_of_picture (Some (size_of surface.now)) surface.now.pixels column row }
{
    if column < surface.columns() && row < surface.rows() {
        surface.color_at(column, row)
    } else {
        BLACK
    }
}

impl Composed<'_> {
    /// The rows of the part of the picture, from top to bottom.
    fn put_rows<K: Sink>(&self, text: &mut TextBuffer, sink: &mut K)
        requires { IsComposed self.now }
        ensures { Sends (K.state sink.old) (K.state sink.new) text.old text.new
            (pixels_text (composed_in self.now) self.now.part.width self.now.part.height) }
    {
        let mut row = 0;
        while row < self.part.height {
            self.put_row(text, sink, row);
            row += 1;
        }
    }

    /// The colours of a row.
    fn put_row<K: Sink>(&self, text: &mut TextBuffer, sink: &mut K, row: u16)
        requires composed { IsComposed self.now }
        requires row { row < self.now.part.height }
        ensures { Sends (K.state sink.old) (K.state sink.new) text.old text.new
            (row_text (λ column. composed_in self.now column row) self.now.part.width) }
    {
        let mut column = 0;
        while column < self.part.width {
            self.put_color(text, sink, column, row);
            column += 1;
        }
        text.put(sink, b"\n");
    }

    /// A colour of a row, after a space if it is not the first.
    fn put_color<K: Sink>(&self, text: &mut TextBuffer, sink: &mut K, column: u16, row: u16)
        requires composed { IsComposed self.now }
        requires column { column < self.now.part.width }
        requires row { row < self.now.part.height }
        ensures { Sends (K.state sink.old) (K.state sink.new) text.old text.new
            (separator column ⧺ pixel_text (composed_in self.now column row)) }
    {
        put_separator(text, sink, column);
        text.hex(sink, self.color(column, row).0, 6);
    }

    /// The colour of a point, counted from the corner of the part: that of the topmost window that is seen there.
    fn color(&self, column: u16, row: u16) -> Argb
        requires composed { IsComposed self.now }
        requires column { column < self.now.part.width }
        requires row { row < self.now.part.height }
        ensures { result ≡ composed_in self.now column row }
    {
        let x = i32::from(self.part.left) + i32::from(column);
        let y = i32::from(self.part.top) + i32::from(row);
        self.stack.color_at(&self.sizes, x, y)
    }
}

/// What comes before a word of this place in its line.
fn put_separator<K: Sink>(text: &mut TextBuffer, sink: &mut K, place: u16)
    ensures { Sends (K.state sink.old) (K.state sink.new) text.old text.new (separator place) }
{
    match place {
        0 => {}
        _ => text.put(sink, b" "),
    }
}

/// The part of which a line asks.
fn part_of(x: i32, y: i32, w: i32, h: i32) -> Part
    requires { IsPart x y w h }
    ensures { result ≡ part_of x y w h }
{
    Part {
        left: x.unsigned_abs() as u16,
        top: y.unsigned_abs() as u16,
        width: w.unsigned_abs() as u16,
        height: h.unsigned_abs() as u16,
    }
}

/// The size of the window of a place, if its last frame has settled.
fn settled_size(place: &Option<Box<World>>) -> Option<Size>
    ensures { result ≡ settled_size (option_map world_of (kept_world place.now)) }
{
    match place {
        None => None,
        Some(world) => settled_window(world),
    }
}

/// The size of the window of a world, if its last frame has settled.
fn settled_window(world: &World) -> Option<Size>
    ensures { result ≡ settled_size (Some (world_of world.now)) }
{
    match world.stage() {
        Stage::Settled => world.window(),
        Stage::NoWindow | Stage::NoFrame | Stage::Unsettled => None,
    }
}
