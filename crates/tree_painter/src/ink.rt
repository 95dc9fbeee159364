//! Ink in the columns of cells.
ghost use Rattle.std.specs.Prelude.{◌≡◌, ◌<◌, ◌≤◌, ◌^◌, ◌+ℤ◌, ◌≤ℤ◌, ◌<ℤ◌, pos};
ghost use Rattle.tree_painter.specs.Areas.{area_between, column_at, row_at};
ghost use Rattle.seen_parts.specs.Frames.{IsCanvas, IsNearCanvas};
ghost use Rattle.tree_painter.specs.Inks.{column_ink};
ghost use Rattle.tree_painter.specs.Painted.{IsCounted, PaintedIn};

use crate::edges::{Length, edge_at};
use geom_core::Argb;
use pixel_raster::{Strip, Surface};
use seen_parts::Canvas;
use view_model::Work;
use view_model::limits::CELL_HEIGHT;

/// The columns of a picture between these edges; right is exclusive.
#[derive(Clone, Copy)]
struct Edges {
    left: usize,
    right: usize,
}

/// The rows of a picture between these edges; bottom is exclusive.
#[derive(Clone, Copy)]
pub struct Rows {
    pub top: usize,
    pub bottom: usize,
}

/// Where a column of a cell is painted: its corner is the origin of the canvas, and it is seen in these rows.
#[derive(Clone, Copy)]
pub struct Place {
    pub canvas: Canvas,
    pub rows: Rows,
}

/// The left edge of a column of a cell at the origin of a canvas.
fn column_begin(canvas: Canvas) -> Length
    ensures { result.pixels ≡ canvas.left }
{
    Length {
        pixels: canvas.left,
    }
}

/// Its right edge, which is exclusive.
fn column_end(canvas: Canvas) -> Length
    requires { IsNearCanvas canvas }
    ensures { result.pixels ≡ canvas.left +ℤ pos 1 }
{
    Length {
        pixels: canvas.left + 1,
    }
}

/// Its top edge.
fn row_begin(canvas: Canvas) -> Length
    ensures { result.pixels ≡ canvas.top }
{
    Length { pixels: canvas.top }
}

/// Its bottom edge, which is exclusive.
fn row_end(canvas: Canvas) -> Length
    requires { IsNearCanvas canvas }
    ensures { result.pixels ≡ canvas.top +ℤ pos 8 }
{
    Length {
        pixels: canvas.top + i64::from(CELL_HEIGHT),
    }
}

/// The edges of the part of a column of a cell that is seen. Its corner is the origin of the canvas.
fn column_edges(surface: &Surface, canvas: Canvas) -> Edges
    requires { IsNearCanvas canvas }
    ensures left { result.left ≡ column_at surface.now canvas.clip canvas.left }
    ensures right { result.right ≡ column_at surface.now canvas.clip (canvas.left +ℤ pos 1) }
    ensures across { result.right ≤ surface.now.width }
{
    let columns = surface.columns();
    let clip = canvas.clip;
    Edges {
        left: edge_at(columns, clip.left, clip.right, column_begin(canvas)),
        right: edge_at(columns, clip.left, clip.right, column_end(canvas)),
    }
}

/// The rows of the part of a cell that is seen. Its corner is the origin of the canvas.
pub fn seen_rows(surface: &Surface, canvas: Canvas) -> Rows
    requires { IsNearCanvas canvas }
    ensures top { result.top ≡ row_at surface.now canvas.clip canvas.top }
    ensures bottom { result.bottom ≡ row_at surface.now canvas.clip (canvas.top +ℤ pos 8) }
    ensures down { result.bottom ≤ surface.now.height }
    ensures bound { result.bottom < 2 ^ 31 }
{
    let rows = surface.rows();
    let clip = canvas.clip;
    Rows {
        top: edge_at(rows, clip.top, clip.bottom, row_begin(canvas)),
        bottom: edge_at(rows, clip.top, clip.bottom, row_end(canvas)),
    }
}

/// How many rows of a column of a cell at the origin of a canvas lie above one of them.
fn rows_above(row: usize, canvas: Canvas) -> u8
    requires small { row < 2 ^ 31 }
    requires low { canvas.top ≤ℤ pos row }
    requires high { pos row <ℤ (canvas.top +ℤ pos 8) }
    ensures value { canvas.top +ℤ pos result ≡ pos row }
    ensures bound { result < 8 }
{
    (row as i64 - canvas.top) as u8
}

/// Blends ink over the set pixels of a column of a cell.
pub fn ink_column(bits: u8, surface: &mut Surface, place: Place, ink: Argb, work: &mut Work)
    requires canvas { IsCanvas (2 ^ 37) place.canvas }
    requires top { place.rows.top ≡ row_at surface.old place.canvas.clip place.canvas.top }
    requires bottom { place.rows.bottom ≡ row_at surface.old place.canvas.clip (place.canvas.top +ℤ pos 8) }
    requires down { place.rows.bottom ≤ surface.old.height }
    requires bound { place.rows.bottom < 2 ^ 31 }
    ensures painted { PaintedIn place.canvas (column_ink ink bits 0) surface.old surface.new }
    ensures counted { IsCounted (area_between surface.old place.canvas.clip place.canvas.left place.canvas.top
        (place.canvas.left +ℤ pos 1) (place.canvas.top +ℤ pos 8)) surface.old surface.new work.old work.new }
{
    if bits == 0 {
        return;
    }
    let seen = column_edges(surface, place.canvas);
    if seen.right <= seen.left {
        return;
    }
    let rows = place.rows;
    if rows.bottom <= rows.top {
        return;
    }
    let strip = Strip {
        column: seen.left,
        top: rows.top,
        bottom: rows.bottom,
    };
    surface.ink(strip, bits >> rows_above(rows.top, place.canvas), ink, work);
}
