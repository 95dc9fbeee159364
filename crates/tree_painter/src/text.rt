//! Texts, line by line.
ghost use Rattle.std.specs.Prelude.{◌≡◌, pos, ◌+◌, ◌*◌, ◌<◌, ◌≤◌, ◌^◌, ◌+ℤ◌, ◌-ℤ◌, not, int_lt, length};
ghost use Rattle.pixel_raster.specs.Cuts.{edge_within};
ghost use Rattle.tree_painter.specs.Areas.{strip_between};
ghost use Rattle.seen_parts.specs.Frames.{IsCanvas, IsNearerCanvas};
ghost use Rattle.tree_painter.specs.Inks.{line_ink, text_ink};
ghost use Rattle.tree_painter.specs.Painted.{IsCounted, PaintedIn, area_in};
ghost use Rattle.view_model.specs.Texts.{IsShortText};

use crate::edges::{Length, from_zero};
use crate::ink::{Place, ink_column, seen_rows};
use cell_text::{first_line, glyph};
use geom_core::Argb;
use pixel_raster::Surface;
use seen_parts::Canvas;
use view_model::Work;
use view_model::limits::{CELL_HEIGHT, CELL_WIDTH};

/// Columns of pixels from one on and before another.
#[derive(Clone, Copy)]
struct Columns {
    from: usize,
    to: usize,
}

/// How a text is painted: in lines of this many cells, and in this ink.
#[derive(Clone, Copy)]
pub struct TextStyle {
    pub cells: u32,
    pub ink: Argb,
}

/// Blends ink over the set pixels of a text. Its corner is the origin of the canvas.
pub fn ink_text(
    text: &[char],
    style: TextStyle,
    surface: &mut Surface,
    canvas: Canvas,
    work: &mut Work,
)
    requires cells { 0 < style.cells }
    requires few { IsShortText text.now }
    requires near { IsCanvas (2 ^ 35) canvas }
    ensures painted { PaintedIn canvas (text_ink style.ink style.cells text.now) surface.old surface.new }
    ensures counted { IsCounted (area_in surface.old canvas.clip) surface.old surface.new work.old work.new }
{
    let mut begin = 0;
    let mut at = canvas;
    while begin < text.len() && begins_above(at) {
        let rest = &text[begin..];
        let line = first_line(rest, style.cells);
        ink_line(&rest[..line.end], surface, at, style.ink, work);
        begin += line.next;
        at = below(at);
    }
}

/// Whether the origin of a canvas lies above the bottom of its clip.
fn begins_above(canvas: Canvas) -> bool
    ensures { result ≡ int_lt canvas.top canvas.clip.bottom }
{
    canvas.top < i64::from(canvas.clip.bottom)
}

/// The canvas of the next line of a text.
fn below(canvas: Canvas) -> Canvas
    requires { IsNearerCanvas canvas }
    ensures { result ≡ record canvas { top = canvas.top +ℤ pos 8 } }
{
    Canvas {
        top: canvas.top + i64::from(CELL_HEIGHT),
        ..canvas
    }
}

/// Blends ink over the set pixels of one line. Its corner is the origin of the canvas.
fn ink_line(line: &[char], surface: &mut Surface, canvas: Canvas, ink: Argb, work: &mut Work)
    requires few { length line.now < 2 ^ 31 }
    requires near { IsNearerCanvas canvas }
    ensures painted { PaintedIn canvas (line_ink ink line.now 0) surface.old surface.new }
    ensures counted { IsCounted (strip_between surface.old canvas.clip canvas.top (canvas.top +ℤ pos 8)) surface.old
        surface.new work.old work.new }
{
    if ends_above(canvas) {
        return;
    }
    let columns = CELL_WIDTH as usize * line.len();
    let seen = seen_columns(canvas, columns);
    let rows = seen_rows(surface, canvas);
    let mut x = seen.from;
    while x < seen.to {
        let bits = glyph(
            line[x / CELL_WIDTH as usize],
            (x % CELL_WIDTH as usize) as u8,
        );
        let place = Place {
            canvas: right_by(canvas, x),
            rows,
        };
        ink_column(bits, surface, place, ink, work);
        x += 1;
    }
}

/// Whether a line at the origin of a canvas ends above its clip.
fn ends_above(canvas: Canvas) -> bool
    requires { IsNearerCanvas canvas }
    ensures { result ≡ not (int_lt canvas.clip.top (canvas.top +ℤ pos 8)) }
{
    below(canvas).top <= i64::from(canvas.clip.top)
}

/// How far the clip of a canvas begins right of its origin.
fn clip_begin(canvas: Canvas) -> Length
    requires { IsNearerCanvas canvas }
    ensures { result.pixels ≡ canvas.clip.left -ℤ canvas.left }
{
    Length {
        pixels: i64::from(canvas.clip.left) - canvas.left,
    }
}

/// How far it ends right of its origin.
fn clip_end(canvas: Canvas) -> Length
    requires { IsNearerCanvas canvas }
    ensures { result.pixels ≡ canvas.clip.right -ℤ canvas.left }
{
    Length {
        pixels: i64::from(canvas.clip.right) - canvas.left,
    }
}

/// Which of the first columns of pixels of a canvas lie in its clip.
#[tactic(auto, unfolding(pixel_raster::specs::Cuts::edge_within))]
fn seen_columns(canvas: Canvas, columns: usize) -> Columns
    requires { IsNearerCanvas canvas }
    ensures from { result.from ≡ edge_within columns (canvas.clip.left -ℤ canvas.left) }
    ensures to { result.to ≡ edge_within columns (canvas.clip.right -ℤ canvas.left) }
    ensures most { result.to ≤ columns }
{
    Columns {
        from: columns.min(from_zero(clip_begin(canvas))),
        to: columns.min(from_zero(clip_end(canvas))),
    }
}

/// The canvas of a column of pixels.
fn right_by(canvas: Canvas, columns: usize) -> Canvas
    requires few { columns < 2 ^ 34 }
    requires near { IsNearerCanvas canvas }
    ensures value { result ≡ record canvas { left = canvas.left +ℤ pos columns } }
    ensures near { IsCanvas (2 ^ 37) result }
{
    Canvas {
        left: canvas.left + columns as i64,
        ..canvas
    }
}
