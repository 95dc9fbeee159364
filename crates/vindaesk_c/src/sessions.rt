//! Sessions: scripts whose lines come one at a time.

ghost use Rattle.std.specs.Prelude.{◌≡◌, ◌≢◌, ◌+◌, ◌↔◌, ◌⊎◌, ◌++◌, ℕ, List, [], ◌∷◌, None, false, true, is_some, IfOk, OnOk};
ghost use Rattle.tool_io.specs.Fetched.{Files};
ghost use Rattle.vindaesk_c.specs.Answer.{IsAnswer, LacksRoom, SaysBroken, KeepsBuffer, SaysNoSize, FindsBroken};
ghost use Rattle.vindaesk_c.specs.Packed.{packed, ArePacked};
ghost use Rattle.vindaesk_c.specs.Sessions.{HasAnswered, IsAt};
ghost use Rattle.whole_tool.specs.Session.{after_script, answer_to, has_line_feed, max_lines, with_line};
ghost use Rattle.tool_replies.specs.Endings.{IsComplete, IsOneOf};
ghost use Rattle.whole_tool.specs.Transcript.{transcript};

use crate::answer::{put_text, status_of};
use crate::fault::Fault;
use crate::handle::Handle;
use crate::open_session::OpenSession;
use std::alloc::Global;
use tool_replies::status::{ACCEPTED, LONG_SCRIPT, NO_MEMORY, USAGE};

/// No session is open, or one is where none should be.
const NOT_SO: u8 = 10;

/// Opens a session that has these files at hand.
#[unsafe(no_mangle)]
pub extern "C" fn vindaesk_open(alloc: Global, files: &[u8], handle: &mut Handle) -> u8
    // It has carried out no lines.
    ensures opened { (held : Files) → files.now ≡ packed held → result ≡ 0 → IsAt held [] [] handle.new.held }
    ensures is_open { result ≡ 0 → is_some handle.new.held ≡ true }

    // One is open already. That is reported before all else, and after any status but 0 nothing has changed.
    ensures state { (result ≡ 10) ↔ (is_some handle.old.held ≡ true) }
    ensures kept { result ≢ 0 → handle.new.held ≡ handle.old.held }
    ensures broken { SaysBroken result files.now }
    ensures read { result ≡ 0 → (held : Files) × (files.now ≡ packed held) }
    ensures statuses { IsOneOf result (0 ∷ 5 ∷ 9 ∷ 10 ∷ []) }
{
    if let Some(session) = handle.take(alloc) {
        handle.put(session);
        return NOT_SO;
    }
    match boxed(alloc, files) {
        Ok(session) => {
            handle.put(session);
            ACCEPTED
        }
        Err(fault) => status_of(fault),
    }
}

/// Carries out one more line of a session, and puts the text of that line into the buffer for an answer.
#[unsafe(no_mangle)]
pub extern "C" fn vindaesk_line(
    alloc: Global,
    handle: &mut Handle,
    line: &[u8],
    answer: &mut [u8],
    size: &mut usize,
) -> u8
    // Whatever script the lines so far are, with one more line it is the script of the session from now on.
    ensures next { (held : Files) (script before : List ℕ)
        → IsAt held script before handle.old.held
        → IsComplete result ⊎ (result ≡ 8)
        → IsAt held (with_line script line.now) (answer_to held script line.now) handle.new.held }
    ensures is_open { IsComplete result ⊎ (result ≡ 8) → is_some handle.new.held ≡ true }

    // The answer is what the transcript grows by, so that the answers so far are the transcript of the lines so far.
    ensures grows { (held : Files) (script before : List ℕ)
        → IsAt held script before handle.old.held
        → IsComplete result ⊎ (result ≡ 8)
        → transcript (with_line script line.now) held
        ≡ transcript script held ++ answer_to held script line.now }
    ensures complete { (held : Files) (script before : List ℕ)
        → IsAt held script before handle.old.held
        → IsComplete result
        → IsAnswer (answer_to held script line.now) answer.old answer.new size.new }
    ensures refused { (held : Files) (script before : List ℕ)
        → IsAt held script before handle.old.held
        → IsComplete result
        → (after_script held (with_line script line.now)).refused ≡ (after_script held script).refused + result }

    // It has more bytes than the buffer: the line was carried out, and the session keeps the answer.
    ensures small { (held : Files) (script before : List ℕ)
        → IsAt held script before handle.old.held
        → result ≡ 8
        → LacksRoom (answer_to held script line.now) answer.old size.new }

    // After any other status there is no answer. None is open, there is a line feed in the line, and the session has
    // taken as many lines as it may: each is reported before what comes after it, and nothing has changed.
    ensures kept { KeepsBuffer result answer.old answer.new }
    ensures no_size { SaysNoSize result size.new }
    ensures state { (result ≡ 10) ↔ (is_some handle.old.held ≡ false) }
    ensures usage { (result ≡ 2) ↔ ((is_some handle.old.held ≡ true) × (has_line_feed line.now ≡ true)) }
    ensures full { (held : Files) (script before : List ℕ)
        → IsAt held script before handle.old.held
        → result ≡ 7
        → (after_script held script).lines ≡ max_lines }
    ensures same { (result ≡ 2) ⊎ (result ≡ 7) ⊎ (result ≡ 10) → handle.new.held ≡ handle.old.held }

    // There is no memory: the session is closed.
    ensures closed { result ≡ 5 → handle.new.held ≡ None }
    ensures statuses { IsOneOf result (0 ∷ 1 ∷ 2 ∷ 5 ∷ 7 ∷ 8 ∷ 10 ∷ []) }
{
    *size = 0;
    let Some(mut session) = handle.take(alloc) else {
        return NOT_SO;
    };
    if line.contains(&b'\n') {
        handle.put(session);
        return USAGE;
    }
    if session.is_full() {
        handle.put(session);
        return LONG_SCRIPT;
    }
    match session.line(alloc, line) {
        Ok(refuses) => {
            let status = put_text(session.answer(), refuses, answer, size);
            handle.put(session);
            status
        }
        Err(_) => NO_MEMORY,
    }
}

/// Puts the answer to the last line of a session into a buffer once more.
#[unsafe(no_mangle)]
pub extern "C" fn vindaesk_answer(
    alloc: Global,
    handle: &mut Handle,
    answer: &mut [u8],
    size: &mut usize,
) -> u8
    ensures complete { (held : Files) (script before : List ℕ)
        → IsAt held script before handle.old.held
        → result ≡ 0
        → IsAnswer before answer.old answer.new size.new }
    ensures small { (held : Files) (script before : List ℕ)
        → IsAt held script before handle.old.held
        → result ≡ 8
        → LacksRoom before answer.old size.new }
    ensures kept { result ≢ 0 → answer.new ≡ answer.old }
    ensures no_size { result ≡ 10 → size.new ≡ 0 }
    ensures state { (result ≡ 10) ↔ (is_some handle.old.held ≡ false) }
    ensures same { handle.new.held ≡ handle.old.held }
    ensures statuses { IsOneOf result (0 ∷ 8 ∷ 10 ∷ []) }
{
    *size = 0;
    let Some(session) = handle.take(alloc) else {
        return NOT_SO;
    };
    let status = put_text(session.answer(), false, answer, size);
    handle.put(session);
    status
}

/// Closes a session, which frees all that it has.
#[unsafe(no_mangle)]
pub extern "C" fn vindaesk_close(alloc: Global, handle: &mut Handle) -> u8
    ensures closed { handle.new.held ≡ None }
    ensures state { (result ≡ 10) ↔ (is_some handle.old.held ≡ false) }
    ensures statuses { IsOneOf result (0 ∷ 10 ∷ []) }
{
    match handle.take(alloc) {
        Some(_) => ACCEPTED,
        None => NOT_SO,
    }
}

/// A session of no lines yet, in a box.
fn boxed(alloc: Global, files: &[u8]) -> Result<Box<OpenSession>, Fault>
    ensures none { (held : Files)
        → files.now ≡ packed held
        → IfOk result (λ session. HasAnswered held [] [] session.value) }
    ensures read { OnOk result (ArePacked files.now) }
    ensures broken { FindsBroken result files.now }
{
    Ok(Box::new(alloc, OpenSession::new(alloc, files)?)?)
}
