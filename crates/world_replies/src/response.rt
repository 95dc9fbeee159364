//! What is printed for a line that was carried out.
//!
//! A world keeps one buffer for its replies. A new one for each line would clear 4096 bytes.

ghost use Rattle.std.specs.Prelude.{◌≡◌, []};
ghost use Rattle.text_lines.specs.Delivered.{Delivered};
ghost use Rattle.text_lines.specs.BufferedText.{Sends};
ghost use Rattle.world_replies.specs.Responses.{IsReportable, response_text};

use crate::bounds::{put_all, put_view};
use crate::deliveries::put_deliveries;
use crate::pixels::{Part, put_digest, put_pixels};
use crate::replies::{put_added, put_framed, put_inflated};
use crate::states::put_state;
use pixel_raster::Surface;
use text_lines::TextBuffer;
use tool_io::{Failed, Sink};
use touch_dispatch::Log;
use view_tree::{Key, ViewTree};

/// The response to a line that was carried out.
#[derive(Clone, Copy)]
pub enum Response {
    Nothing,
    /// A view was made and given this number.
    Made(u64),
    /// The views of a file were made, under the numbers from the first to the last.
    Inflated {
        first: u64,
        last: u64,
        /// How many attributes were not known.
        ignored: u32,
    },
    /// A frame has settled, or not.
    Framed {
        settled: bool,
        /// How many hooks fired in it.
        fired: u8,
    },
    /// Where a view is, or each view.
    Bounds(Option<Key>),
    /// The colours of a part of the picture.
    Pixels(Part),
    /// The digest of the picture.
    Digest,
    /// The deliveries in the log, and after those of an event what the root has said to it.
    Deliveries(Option<bool>),
    /// The state that was saved.
    State,
}

impl Response {
    ghost use Rattle.std.specs.Prelude.{◌≡◌};
    ghost use Rattle.world_replies.specs.Responses.{is_nothing};

    /// Whether nothing is printed.
    fn is_nothing(self) -> bool
        ensures { result ≡ is_nothing self }
    {
        match self {
            Response::Nothing => true,
            Response::Made(_)
            | Response::Inflated { .. }
            | Response::Framed { .. }
            | Response::Bounds(_)
            | Response::Pixels(_)
            | Response::Digest
            | Response::Deliveries(_)
            | Response::State => false,
        }
    }
}

/// What the text of a response is read from: the views, the picture, the deliveries and the saved bytes, as the line has
/// left them.
#[derive(Clone, Copy)]
pub struct ReplySource<'a> {
    pub tree: &'a ViewTree,
    pub surface: &'a Surface,
    pub log: &'a Log,
    pub saved: &'a [u8],
}

/// Sends the text of a response.
fn put_response<K: Sink>(
    source: &ReplySource,
    response: Response,
    text: &mut TextBuffer,
    sink: &mut K,
)
    requires { IsReportable source.now.tree.now source.now.surface.now source.now.log.now.entries.items
        source.now.saved.now response }
    ensures { Sends (K.state sink.old) (K.state sink.new) text.old text.new
        (response_text source.now.tree.now source.now.surface.now source.now.log.now.entries.items
        source.now.saved.now response) }
{
    match response {
        Response::Nothing => {}
        Response::Made(number) => put_added(text, sink, number),
        Response::Inflated {
            first,
            last,
            ignored,
        } => put_inflated(text, sink, first, last, ignored),
        Response::Framed { settled, fired } => put_framed(text, sink, settled, fired),
        Response::Bounds(None) => put_all(source.tree, text, sink),
        Response::Bounds(Some(view)) => put_view(source.tree, view, text, sink),
        Response::Pixels(part) => put_pixels(text, sink, source.surface, part),
        Response::Digest => put_digest(text, sink, source.surface),
        Response::Deliveries(done) => put_deliveries(text, sink, source.log.entries(), done),
        Response::State => put_state(text, sink, source.saved),
    }
}

/// Writes a response, through a buffer that all responses share.
pub fn write_response<K: Sink>(
    source: &ReplySource,
    response: Response,
    text: &mut TextBuffer,
    sink: &mut K,
) -> Result<(), Failed>
    requires { IsReportable source.now.tree.now source.now.surface.now source.now.log.now.entries.items
        source.now.saved.now response }
    ensures delivered { Delivered (K.state sink.old) (K.state sink.new) result
        (response_text source.now.tree.now source.now.surface.now source.now.log.now.entries.items
        source.now.saved.now response) }
    ensures silent { response_text source.now.tree.now source.now.surface.now source.now.log.now.entries.items
        source.now.saved.now response ≡ [] → sink.new ≡ sink.old }
{
    if response.is_nothing() {
        return Ok(());
    }
    text.restart();
    put_response(source, response, text, sink);
    text.finish(sink)
}
