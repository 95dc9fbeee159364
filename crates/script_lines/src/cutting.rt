//! Bytes that come in pieces, cut into lines.
//!
//! A script is never held whole. Only one carriage return, right before a line feed, is dropped; elsewhere, and at the
//! end of a last line without a line feed, it is a byte of the line. A last line counts if it is not empty. A line of
//! spaces alone is passed over as an empty one. `#` begins a comment only as the first byte; there bytes that are no
//! text are passed over, elsewhere refused. More than 1024 bytes before the line feed, a carriage return counted, are
//! refused whatever the line begins with.

ghost use Rattle.std.specs.Prelude.{◌≡◌, ◌≢◌, ℕ, ◌+◌, ◌<◌, ◌≤◌, ◌↔◌, ◌⊎◌, false, List, [], ◌++◌, length, take, drop, min, slice_index};
ghost use Rattle.std.specs.List.{list_all, position_or_len};
ghost use Rattle.script_lines.specs.cutting.Lines.{ArePassedOver, begins_passed, cut_of, is_line_feed, is_passed_over, last_of, lines_of, max_line, without_return};
ghost use Rattle.line_words.specs.words.Words.{is_space};
ghost use Rattle.script_lines.specs.cutting.LineBuffer.{LineBuffer, IsLent, IsAfter, lines_as, lines_at};
ghost use Rattle.script_lines.specs.cutting.Pieces.{FeedSequence, Feed, bytes_in, lines_in};
ghost use Rattle.line_words.specs.words.Words.{IsCut};

use line_words::offset_of;
use std::marker::Model;

/// The most bytes that a line may have before its line feed, a carriage return counted.
const MAX_LINE: usize = 1024;

/// Whether a line has ended, and how.
#[derive(Clone, Copy)]
pub enum Ended {
    No,
    /// A line of at most `MAX_LINE` bytes, a carriage return counted.
    Line,
    /// A line that is too long. Its bytes are lost.
    Long,
}

/// Whether a line has ended, and where it is.
#[derive(Clone, Copy)]
pub enum LinePlace {
    No,
    /// A line that began in this piece: this many bytes at its front.
    Piece(usize),
    /// A line that began in an earlier piece; `bytes` has it.
    Held,
    /// A line that is too long. Its bytes are lost.
    Long,
}

/// Lines at the front of a piece that are passed over.
#[derive(Clone, Copy)]
pub struct PassedOver {
    /// How many bytes these lines are, each with its line feed.
    pub bytes: usize,
    /// How many lines these are.
    pub lines: u64,
}

/// The lines of a script whose bytes come in pieces, however they are cut.
#[derive(Drop)]
pub struct Lines {
    /// The beginning of a line, at most one byte more than a line may have; and in its place the line that has just
    /// ended.
    buffer: [u8; MAX_LINE + 1],
    /// How much of the buffer belongs to the next line.
    begun: usize,
    /// How much of the buffer is the line that has just ended.
    line: usize,
}

impl Model for Lines {
    ghost use Rattle.std.specs.Prelude.{◌+◌, ◌≤◌, take};
    ghost use Rattle.script_lines.specs.cutting.LineBuffer.{LineBuffer};
    ghost use Rattle.script_lines.specs.cutting.Lines.{max_line};

    ghost Value = { LineBuffer };

    ghost view = { λ s. record { begun = take s.begun s.buffer; line = take s.line s.buffer } };

    ghost invariant = { λ s. (s.begun ≤ max_line + 1) × (s.line ≤ max_line) };
}

impl Lines {
    /// Before the first byte.
    pub fn new() -> Lines
        ensures reached { IsAfter result [] }
        ensures line { result.line ≡ [] }
    {
        Lines {
            buffer: [0; MAX_LINE + 1],
            begun: 0,
            line: 0,
        }
    }

    /// The lines at the front of a piece that are empty or begin with `#`. There are none if a line has begun. Whatever
    /// came `before`, these bytes add these lines and no beginning of another one.
    #[inline]
    pub fn passed_over(&self, piece: &[u8]) -> PassedOver
        ensures within { result.bytes ≤ length piece.now }
        ensures passed { ArePassedOver (take result.bytes piece.now) result.lines }
        ensures lines { (before : List ℕ) → IsAfter self.now before
            → (cut_of (before ++ take result.bytes piece.now)).lines
            ≡ (cut_of before).lines ++ (cut_of (take result.bytes piece.now)).lines }
        ensures reached { (before : List ℕ) → IsAfter self.now before
            → IsAfter self.now (before ++ take result.bytes piece.now) }
        ensures begun { self.now.begun ≢ [] → result.bytes ≡ 0 }
        ensures all { self.now.begun ≡ [] → begins_passed (drop result.bytes piece.now) ≡ false }
    {
        if self.begun > 0 {
            return PassedOver { bytes: 0, lines: 0 };
        }
        passed_front(piece)
    }

    /// Takes the bytes of a piece up to its first line feed, or all of them, and returns how many those are, and where
    /// the line is that they end. A line that is whole in the piece is not copied. Whatever came `before`, in pieces
    /// however they were cut, the lines are those of all the bytes.
    #[inline]
    pub fn next_line(&mut self, piece: &[u8]) -> (usize, LinePlace)
        ensures used { result.0 ≡ min (position_or_len is_line_feed piece.now + 1) (length piece.now) }
        ensures within { result.0 ≤ length piece.now }
        ensures some { 0 < length piece.now → 0 < result.0 }
        ensures all { result.1 ≡ LinePlace.No → result.0 ≡ length piece.now }
        ensures none { (result.1 ≡ LinePlace.No) ↔ (position_or_len is_line_feed piece.now ≡ length piece.now) }
        ensures lines { (before : List ℕ) → IsAfter self.old before
            → (cut_of (before ++ take result.0 piece.now)).lines
            ≡ (cut_of before).lines ++ lines_at result.1 piece.now self.new.line }
        ensures lent { IsLent result.1 (length piece.now) }
        ensures whole { self.old.begun ≡ [] → result.1 ≢ LinePlace.Held }
        ensures line { (result.1 ≡ LinePlace.Held) ⊎ (self.new.line ≡ []) }
        ensures begun { (result.1 ≡ LinePlace.No) ⊎ (self.new.begun ≡ []) }
        ensures reached { (before : List ℕ) → IsAfter self.old before
            → IsAfter self.new (before ++ take result.0 piece.now) }
    {
        let end = line_end(piece);
        self.line = 0;
        if self.begun == 0 && end < piece.len() {
            if end > MAX_LINE {
                return (end + 1, LinePlace::Long);
            }
            let len = without_return_len(&piece[..end]);
            return (end + 1, LinePlace::Piece(len));
        }
        let len = keep(&mut self.buffer, self.begun, &piece[..end]);
        if end == piece.len() {
            self.begun = len;
            return (end, LinePlace::No);
        }
        self.begun = 0;
        if len > MAX_LINE {
            return (end + 1, LinePlace::Long);
        }
        self.line = without_return_len(&self.buffer[..len]);
        (end + 1, LinePlace::Held)
    }

    /// Takes the bytes of a piece up to its first line feed, or all of them, and returns how many those are. Whatever
    /// came `before`, in pieces however they were cut, the lines are those of all the bytes.
    pub fn feed(&mut self, piece: &[u8]) -> (usize, Ended)
        ensures used { result.0 ≡ min (position_or_len is_line_feed piece.now + 1) (length piece.now) }
        ensures within { result.0 ≤ length piece.now }
        ensures some { 0 < length piece.now → 0 < result.0 }
        ensures all { result.1 ≡ Ended.No → result.0 ≡ length piece.now }
        ensures none { (result.1 ≡ Ended.No) ↔ (position_or_len is_line_feed piece.now ≡ length piece.now) }
        ensures lines { (before : List ℕ) → IsAfter self.old before
            → (cut_of (before ++ take result.0 piece.now)).lines
            ≡ (cut_of before).lines ++ lines_as result.1 self.new.line }
        ensures line { (result.1 ≡ Ended.Line) ⊎ (self.new.line ≡ []) }
        ensures reached { (before : List ℕ) → IsAfter self.old before
            → IsAfter self.new (before ++ take result.0 piece.now) }
    {
        let (used, place) = self.next_line(piece);
        match place {
            LinePlace::No => (used, Ended::No),
            LinePlace::Piece(n) => {
                self.buffer[..n].copy_from_slice(&piece[..n]);
                self.line = n;
                (used, Ended::Line)
            }
            LinePlace::Held => (used, Ended::Line),
            LinePlace::Long => (used, Ended::Long),
        }
    }

    /// Ends the script: the beginning of a line is its last one, unless it is empty. From then on another script may
    /// come. After any `course` of pieces the lines of all their bytes are those that were returned, and this one.
    pub fn finish(&mut self) -> Ended
        ensures lines { (before : List ℕ) → IsAfter self.old before
            → last_of (cut_of before).rest ≡ lines_as result self.new.line }
        ensures pieces { (first : LineBuffer) (course : List Feed)
            → IsAfter first []
            → FeedSequence first course self.old
            → lines_of (bytes_in course) ≡ lines_in course ++ lines_as result self.new.line }
        ensures none { (result ≡ Ended.No) ↔ (self.old.begun ≡ []) }
        ensures line { (result ≡ Ended.Line) ⊎ (self.new.line ≡ []) }
        ensures anew { IsAfter self.new [] }
    {
        let len = self.begun;
        self.begun = 0;
        self.line = 0;
        if len == 0 {
            return Ended::No;
        }
        if len > MAX_LINE {
            return Ended::Long;
        }
        self.line = len;
        Ended::Line
    }

    /// The line that has just ended, until more bytes are taken: without its line feed and a carriage return before
    /// that; empty if none has, if it is too long, and if it is in the piece.
    pub fn bytes(&self) -> &[u8]
        ensures line { result.now ≡ self.now.line }
        ensures short { length result.now ≤ max_line }
    {
        &self.buffer[..self.line]
    }
}

/// The lines at the front of a piece that are empty or begin with `#`.
fn passed_front(piece: &[u8]) -> PassedOver
    ensures within { result.bytes ≤ length piece.now }
    ensures passed { ArePassedOver (take result.bytes piece.now) result.lines }
    ensures all { begins_passed (drop result.bytes piece.now) ≡ false }
{
    let mut bytes = 0;
    let mut lines = 0;
    loop {
        let more = passed_len(&piece[bytes..]);
        if more == 0 {
            return PassedOver { bytes, lines };
        }
        bytes += more;
        lines += 1;
    }
}

/// How many bytes the line at the front is, with its line feed, if it is empty or begins with `#`; 0 otherwise.
#[inline]
fn passed_len(bytes: &[u8]) -> usize
    ensures within { IsCut bytes.now result }
    ensures passed { (result ≡ 0) ⊎ ArePassedOver (take result bytes.now) 1 }
    ensures none { result ≡ 0 → begins_passed bytes.now ≡ false }
{
    if bytes.is_empty() {
        return 0;
    }
    if bytes[0] == b'\n' {
        return 1;
    }
    if bytes[0] == b'#' {
        return comment_len(bytes);
    }
    0
}

/// How many bytes the line at the front is, with its line feed, where it begins with `#`; 0 if it has none or is too
/// long.
#[inline]
fn comment_len(bytes: &[u8]) -> usize
    requires some { 0 < length bytes.now }
    requires first { slice_index bytes.now 0 ≡ 35 }
    ensures within { IsCut bytes.now result }
    ensures passed { (result ≡ 0) ⊎ ArePassedOver (take result bytes.now) 1 }
    ensures none { result ≡ 0 → begins_passed bytes.now ≡ false }
{
    let end = 1 + line_end(&bytes[1..]);
    if end == bytes.len() || end > MAX_LINE {
        return 0;
    }
    end + 1
}

/// The place of the first line feed, or the length if there is none. A line feed that comes first needs no search.
#[inline]
fn line_end(bytes: &[u8]) -> usize
    ensures place { result ≡ position_or_len is_line_feed bytes.now }
    ensures within { IsCut bytes.now result }
{
    if !bytes.is_empty() && bytes[0] == b'\n' {
        return 0;
    }
    offset_of(b'\n', bytes)
}

/// Appends bytes to the first `len` of a buffer, as many as have room, and returns how many those are with the first
/// ones.
fn keep(buffer: &mut [u8], len: usize, bytes: &[u8]) -> usize
    requires { len ≤ length buffer.old }
    ensures within { result ≤ length buffer.new }
    ensures front { take result buffer.new ≡ take (length buffer.old) (take len buffer.old ++ bytes.now) }
{
    let n = bytes.len().min(buffer.len() - len);
    buffer[len..len + n].copy_from_slice(&bytes[..n]);
    len + n
}

/// How long a line is without one carriage return at its end.
#[tactic(auto, unfolding(crate::specs::cutting::Lines::without_return))]
fn without_return_len(line: &[u8]) -> usize
    ensures within { result ≤ length line.now }
    ensures bytes { take result line.now ≡ without_return line.now }
{
    if !line.is_empty() && line[line.len() - 1] == b'\r' {
        return line.len() - 1;
    }
    line.len()
}

/// Whether these bytes are spaces.
fn all_spaces(bytes: &[u8]) -> bool
    ensures { result ≡ list_all is_space bytes.now }
{
    bytes.iter().all(|b| *b == b' ')
}

/// Whether a line is passed over: it has nothing but spaces, or begins with `#`.
#[inline]
pub fn passes_over(line: &[u8]) -> bool
    ensures { result ≡ is_passed_over line.now }
{
    all_spaces(line) || (!line.is_empty() && line[0] == b'#')
}
