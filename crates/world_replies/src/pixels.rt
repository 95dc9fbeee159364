//! Colours and digests of a picture, as text.
#![tactic(auto, using(text_lines::proofs::Sending::sends_both))]

ghost use Rattle.std.specs.Prelude.{◌≡◌, ◌<◌, ◌+ℤ◌, int_le, pos, IfSome};
ghost use Rattle.std.specs.Option.{is_some};
ghost use Rattle.hex.specs.Hex.{encode_lower};
ghost use Rattle.pixel_raster.specs.Bytes.{digest_of};
ghost use Rattle.line_words.specs.words.Numbers.{IsWithin};
ghost use Rattle.script_lines.specs.reading.Pixels.{IsPart};
ghost use Rattle.script_lines.specs.Numbers.{max_point, max_window};
ghost use Rattle.text_lines.specs.BufferedText.{Sends};
ghost use Rattle.text_lines.specs.Joined.{◌⧺◌};
ghost use Rattle.world_replies.specs.Replies.{digest_text, pixel_text, pixels_text, row_text, separator};
ghost use Rattle.world_replies.specs.Responses.{IsPartOf, color_of, part_of};
ghost use Rattle.world_replies.specs.Responses.{lies_in};

use geom_core::{Argb, Size};
use pixel_raster::Surface;
use text_lines::TextBuffer;
use tool_io::Sink;

/// A part of a picture: its corner, by column and row, and its sides, in pixels.
#[derive(Clone, Copy)]
pub struct Part {
    pub left: usize,
    pub top: usize,
    pub width: usize,
    pub height: usize,
}

/// Whether what begins at a coordinate ends within a side of the window.
fn ends_within(at: i32, length: i32, side: i32) -> bool
    requires at { IsWithin (pos 0) max_point at }
    requires length { IsWithin (pos 1) max_window length }
    ensures { result ≡ int_le (at +ℤ length) side }
{
    at + length <= side
}

/// A part by window coordinates, if it is wholly in a window of this size.
#[tactic(auto, unfolding(crate::specs::Responses::lies_in))]
pub fn part_in(window: Size, x: i32, y: i32, w: i32, h: i32) -> Option<Part>
    requires { IsPart x y w h }
    ensures some { is_some result ≡ lies_in window x y w h }
    ensures value { IfSome result (λ part. part ≡ part_of x y w h) }
{
    if !ends_within(x, w, window.w) {
        return None;
    }
    if !ends_within(y, h, window.h) {
        return None;
    }
    Some(Part {
        left: x.unsigned_abs() as usize,
        top: y.unsigned_abs() as usize,
        width: w.unsigned_abs() as usize,
        height: h.unsigned_abs() as usize,
    })
}

/// The colour of a pixel of a part, counted from its corner.
fn color_of(surface: &Surface, part: Part, column: usize, row: usize) -> Argb
    requires part { IsPartOf surface.now part }
    requires column { column < part.width }
    requires row { row < part.height }
    ensures { result ≡ color_of surface.now part column row }
{
    surface.color_at(part.left + column, part.top + row)
}

/// What comes before a word of this place in its line.
fn put_separator<K: Sink>(text: &mut TextBuffer, sink: &mut K, place: usize)
    ensures { Sends (K.state sink.old) (K.state sink.new) text.old text.new (separator place) }
{
    match place {
        0 => {}
        _ => text.put(sink, b" "),
    }
}

/// A colour.
fn put_color<K: Sink>(text: &mut TextBuffer, sink: &mut K, color: Argb)
    ensures { Sends (K.state sink.old) (K.state sink.new) text.old text.new (pixel_text color) }
{
    text.hex(sink, color.0, 6);
}

/// A colour of a row, after a space if it is not the first.
fn put_word<K: Sink>(text: &mut TextBuffer, sink: &mut K, column: usize, color: Argb)
    ensures { Sends (K.state sink.old) (K.state sink.new) text.old text.new (separator column ⧺ pixel_text color) }
{
    put_separator(text, sink, column);
    put_color(text, sink, color);
}

/// The colours of a row of a part.
fn put_row<K: Sink>(text: &mut TextBuffer, sink: &mut K, surface: &Surface, part: Part, row: usize)
    requires part { IsPartOf surface.now part }
    requires row { row < part.height }
    ensures { Sends (K.state sink.old) (K.state sink.new) text.old text.new
        (row_text (λ column. color_of surface.now part column row) part.width) }
{
    let mut column = 0;
    while column < part.width {
        put_word(text, sink, column, color_of(surface, part, column, row));
        column += 1;
    }
    text.put(sink, b"\n");
}

/// The colours of a part of a picture, one line per row.
pub fn put_pixels<K: Sink>(text: &mut TextBuffer, sink: &mut K, surface: &Surface, part: Part)
    requires { IsPartOf surface.now part }
    ensures { Sends (K.state sink.old) (K.state sink.new) text.old text.new
        (pixels_text (color_of surface.now part) part.width part.height) }
{
    let mut row = 0;
    while row < part.height {
        put_row(text, sink, surface, part, row);
        row += 1;
    }
}

/// The digits of a digest.
fn digits_of(digest: [u8; 32]) -> [u8; 64]
    ensures { result ≡ encode_lower digest }
{
    let mut digits = [0; 64];
    let _ = hex::encode_to_slice(digest, &mut digits);
    digits
}

/// The digest of a picture, in hexadecimal digits.
pub fn put_digest<K: Sink>(text: &mut TextBuffer, sink: &mut K, surface: &Surface)
    ensures { Sends (K.state sink.old) (K.state sink.new) text.old text.new
        (digest_text (digest_of surface.now.pixels)) }
{
    text.put(sink, &digits_of(surface.digest()));
    text.put(sink, b"\n");
}
