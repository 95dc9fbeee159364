//! Text that goes to a sink.

use text_lines::TextBuffer;
use tool_io::{Failed, Sink};

/// A sink that takes a write whole, and keeps how many there were and the longest.
#[derive(Drop)]
struct Measured {
    writes: usize,
    longest: usize,
}

impl Sink for Measured {
    ghost use Rattle.std.specs.Prelude.{None};

    ghost state = { λ _. record { gone = None; faults = 0 } };

    /// Takes the whole piece, counts the call, and keeps the length of the longest piece.
    fn write(&mut self, piece: &[u8]) -> Result<usize, Failed> {
        self.writes = self.writes.saturating_add(1);
        self.longest = self.longest.max(piece.len());
        Ok(piece.len())
    }
}

/// 1000 texts of ten bytes go to the sink in three writes, of which the longest has 4090 bytes.
#[test]
fn gathers_text_into_large_pieces(rt: HostRuntime) {
    let mut sink = Measured {
        writes: 0,
        longest: 0,
    };
    let mut text = TextBuffer::new();
    for _ in 0..1000u32 {
        text.put(&mut sink, b"ten bytes\n");
    }
    assert!(rt; text.finish(&mut sink).is_ok());
    assert!(rt; sink.writes == 3);
    assert!(rt; sink.longest == 4090);
}
