//! The buffer of the caller for an answer.

ghost use Rattle.std.specs.Prelude.{◌≡◌, MatchResult};
ghost use Rattle.vindaesk_c.specs.Answer.{PutsPage, ReportsFault, fault_status};

use crate::fault::Fault;
use crate::page::Page;
use tool_replies::status::{ACCEPTED, NO_MEMORY, REFUSED};

/// The answer has more bytes than its buffer.
const SMALL_BUFFER: u8 = 8;

/// The buffer of the files does not have its form.
const BROKEN_FILES: u8 = 9;

/// Puts a page into the buffer for an answer and its size into `size`, or reports why there is none. Returns the status.
pub fn put_page(outcome: Result<Page, Fault>, answer: &mut [u8], size: &mut usize) -> u8
    ensures { MatchResult outcome
        (λ page. PutsPage page.sink.gone page.is_refusing answer.old answer.new size.new result)
        (λ fault. ReportsFault fault answer.old answer.new size.new result) }
{
    match outcome {
        Ok(page) => put_text(page.sink.gone(), page.is_refusing, answer, size),
        Err(fault) => {
            *size = 0;
            status_of(fault)
        }
    }
}

/// Puts a text into the buffer for an answer, if that has room for it. Returns the status.
pub fn put_text(text: &[u8], is_refusing: bool, answer: &mut [u8], size: &mut usize) -> u8
    ensures { PutsPage text.now is_refusing answer.old answer.new size.new result }
{
    *size = text.len();
    if text.len() > answer.len() {
        return SMALL_BUFFER;
    }
    answer[..text.len()].copy_from_slice(text);
    if is_refusing { REFUSED } else { ACCEPTED }
}

/// The status of a call without a page.
pub fn status_of(fault: Fault) -> u8
    ensures { result ≡ fault_status fault }
{
    match fault {
        Fault::NoMemory => NO_MEMORY,
        Fault::BrokenFiles => BROKEN_FILES,
    }
}
