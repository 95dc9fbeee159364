//! A session that a handle holds.

ghost use Rattle.std.specs.Prelude.{◌≡◌, ◌==◌, false, List, ℕ, [], IfOk, OnOk};
ghost use Rattle.tool_io.specs.Fetched.{Files};
ghost use Rattle.vindaesk_c.specs.Packed.{packed, ArePacked};
ghost use Rattle.vindaesk_c.specs.Sessions.{HasAnswered, AddsAnswer};
ghost use Rattle.whole_tool.specs.Session.{answer_to, has_line_feed, with_line};
ghost use Rattle.vindaesk_c.specs.Answer.{FindsBroken};

use crate::fault::Fault;
use crate::packing::unpacked;
use crate::shelf::PackedShelf;
use std::alloc::Global;
use tool_io::MemorySink;
use whole_tool::Session;

/// The most bytes that are written at once.
const MOST: usize = 65536;

/// A session, the files that its lines may read, and the answer to its last line.
#[derive(Drop)]
pub struct OpenSession {
    session: Session,
    /// One after the other, as C gave them.
    files: Vec<u8>,
    answer: MemorySink,
}

impl OpenSession {
    /// A session of no lines yet.
    pub fn new(alloc: Global, files: &[u8]) -> Result<OpenSession, Fault>
        ensures none { (held : Files) → files.now ≡ packed held → IfOk result (HasAnswered held [] []) }
        ensures read { OnOk result (ArePacked files.now) }
        ensures broken { FindsBroken result files.now }
    {
        let _known = unpacked(alloc, files)?;
        Ok(OpenSession {
            session: Session::new(alloc),
            files: Vec::from_slice(alloc, files)?,
            answer: MemorySink::new(alloc, MOST, Vec::new(alloc)),
        })
    }

    /// Whether it takes no more lines.
    pub fn is_full(&self) -> bool
        ensures { result ≡ (self.now.session.left == 0) }
    {
        self.session.is_full()
    }

    /// Carries out one more line, whose text is then the answer. Returns whether it was refused. After an error, which is that
    /// there is no memory, the session is of no more use.
    pub fn line(&mut self, alloc: Global, bytes: &[u8]) -> Result<bool, Fault>
        requires room { (self.old.session.left == 0) ≡ false }
        requires one { has_line_feed bytes.now ≡ false }
        ensures run { (held : Files) (script answer : List ℕ)
            → HasAnswered held script answer self.old
            → OnOk result (HasAnswered held (with_line script bytes.now) (answer_to held script bytes.now) self.new) }
        ensures answered { (held : Files) (script answer : List ℕ)
            → HasAnswered held script answer self.old
            → IfOk result (AddsAnswer held script bytes.now) }
    {
        let mut sink = MemorySink::new(alloc, MOST, Vec::new(alloc));
        let mut shelf = PackedShelf::new(unpacked(alloc, self.files.as_slice())?);
        match self.session.line(bytes, &mut shelf, &mut sink) {
            Ok(refuses) => {
                self.answer = sink;
                Ok(refuses)
            }
            Err(_) => Err(Fault::NoMemory),
        }
    }

    /// The answer to the last line, empty before the first one.
    pub fn answer(&self) -> &[u8]
        ensures { result.now ≡ self.now.answer.gone }
    {
        self.answer.gone()
    }
}
