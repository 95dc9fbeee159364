//! Saved states, as text.

ghost use Rattle.std.specs.Prelude.{◌≡◌, ◌∷◌, []};
ghost use Rattle.hex.specs.Hex.{encode_lower};
ghost use Rattle.text_lines.specs.BufferedText.{Sends};
ghost use Rattle.world_replies.specs.Replies.{state_text};

use text_lines::TextBuffer;
use tool_io::Sink;

/// The digits of a byte.
fn digits_of(byte: u8) -> [u8; 2]
    ensures { result ≡ encode_lower (byte ∷ []) }
{
    let mut digits = [0; 2];
    let _ = hex::encode_to_slice([byte], &mut digits);
    digits
}

/// Bytes in hexadecimal digits.
fn put_bytes<K: Sink>(text: &mut TextBuffer, sink: &mut K, bytes: &[u8])
    ensures { Sends (K.state sink.old) (K.state sink.new) text.old text.new (encode_lower bytes.now) }
{
    for byte in bytes {
        text.put(sink, &digits_of(*byte));
    }
}

/// The reply with a state of these bytes.
#[tactic(auto, using(text_lines::proofs::Sending::sends_both))]
pub fn put_state<K: Sink>(text: &mut TextBuffer, sink: &mut K, bytes: &[u8])
    ensures { Sends (K.state sink.old) (K.state sink.new) text.old text.new (state_text bytes.now) }
{
    text.put(sink, b"state ");
    put_bytes(text, sink, bytes);
    text.put(sink, b"\n");
}
