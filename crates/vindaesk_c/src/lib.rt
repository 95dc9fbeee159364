//! The tool as a library of C: a call is carried out in the caller's process, over bytes in its memory.
//!
//! `include/vindaesk.h` declares what is exported: `vindaesk_run`, `vindaesk_stack`, `vindaesk_focus`, `vindaesk_dump`
//! and `vindaesk_lookup`. `packing` reads the files of a call out of one buffer, and `shelf` has them at hand. `words`
//! and `questions` have the words that the tool is called with, `page` has it write a page in memory, `answer` puts
//! that into the caller's buffer, and `fault` says why there is none. A call keeps nothing for the next one, except
//! those of `sessions`, of scripts whose lines come one at a time: `open_session` is such a script, and `handle` is
//! what C holds of it, a box that is `loose`.
//!
//! Programs in C, Python and Java call it, and the tools of this repository where they find it.
//!
//!     /* 0 or 1: the first `size` bytes of the answer are the page; 8: the page has `size` bytes, more than 4096 */
//!     vindaesk_run(script, strlen(script), files, 0, answer, 4096, &size)
#![tactic(auto)]

ghost use Rattle.std.specs.Prelude.{◌≡◌, ◌<◌, ◌↔◌, [], ◌∷◌, length, IsFalse, IsTrue, if◌then◌else◌};
ghost use Rattle.line_words.specs.words.FileNames.{is_file_name};
ghost use Rattle.tool_io.specs.Fetched.{Files};
ghost use Rattle.vindaesk_c.specs.Answer.{IsAnswer, LacksRoom, KeepsBuffer, SaysNoSize, SaysBroken, HasRead};
ghost use Rattle.vindaesk_c.specs.Lookups.{can_look_up};
ghost use Rattle.vindaesk_c.specs.Packed.{packed};
ghost use Rattle.vindaesk_c.specs.Questions.{asked, can_ask};
ghost use Rattle.tool_replies.specs.Dump.{dump_page, refuses_file};
ghost use Rattle.whole_tool.specs.Focus.{focus_page, refuses_focus};
ghost use Rattle.tool_replies.specs.Lookup.{lookup_page, refuses_table};
ghost use Rattle.tool_replies.specs.Endings.{IsComplete, IsOneOf};
ghost use Rattle.whole_tool.specs.Transcript.{has_refusal, max_script, refuses_in_stack, stack_page, transcript};
ghost use Rattle.whole_tool.specs.Usage.{Focus};
ghost use Rattle.whole_tool.specs.declared.focusing.Question.{Question};

mod answer;
mod fault;
mod handle;
mod loose;
mod open_session;
mod packing;
mod page;
mod questions;
mod sessions;
mod shelf;
mod words;

use crate::answer::put_page;
use crate::page::{file_page, question_page, script_page, table_page};
use crate::questions::can_ask;
use crate::words::can_look_up;
use line_words::is_file_name;
use std::alloc::Global;
use tool_replies::status::{LONG_SCRIPT, USAGE};

/// The most bytes that a script may have.
const MAX_SCRIPT: usize = 16777216;

/// Carries out a script with these files at hand.
#[unsafe(no_mangle)]
pub extern "C" fn vindaesk_run(
    alloc: Global,
    script: &[u8],
    files: &[u8],
    answer: &mut [u8],
    size: &mut usize,
) -> u8
    // The first bytes of the answer are the transcript, and the rest of the buffer is as it was.
    ensures complete { (held : Files)
        → files.now ≡ packed held
        → IsComplete result
        → IsAnswer (transcript script.now held) answer.old answer.new size.new }
    ensures refused { (held : Files)
        → files.now ≡ packed held
        → IsComplete result
        → result ≡ (if has_refusal script.now held then 1 else 0) }

    // It has more bytes than the buffer: only its size is returned.
    ensures small { (held : Files)
        → files.now ≡ packed held
        → result ≡ 8
        → LacksRoom (transcript script.now held) answer.old size.new }

    // After any other status there is no answer.
    ensures kept { KeepsBuffer result answer.old answer.new }
    ensures no_size { SaysNoSize result size.new }

    // When each status comes. Files are reported as broken only if they are, and only a script that is too long and
    // running out of memory are reported before that.
    ensures long { (result ≡ 7) ↔ (max_script < length script.now) }
    ensures broken { SaysBroken result files.now }
    ensures read { HasRead result files.now }
    ensures statuses { IsOneOf result (0 ∷ 1 ∷ 5 ∷ 7 ∷ 8 ∷ 9 ∷ []) }
{
    *size = 0;
    if script.len() > MAX_SCRIPT {
        return LONG_SCRIPT;
    }
    put_page(script_page(alloc, "run", script, files), answer, size)
}

/// Carries out a script for a stack of windows.
#[unsafe(no_mangle)]
pub extern "C" fn vindaesk_stack(
    alloc: Global,
    script: &[u8],
    files: &[u8],
    answer: &mut [u8],
    size: &mut usize,
) -> u8
    // The first bytes of the answer are the texts of its lines, and the rest of the buffer is as it was.
    ensures complete { (held : Files)
        → files.now ≡ packed held
        → IsComplete result
        → IsAnswer (stack_page script.now held) answer.old answer.new size.new }
    ensures refused { (held : Files)
        → files.now ≡ packed held
        → IsComplete result
        → result ≡ (if refuses_in_stack script.now held then 1 else 0) }

    // It has more bytes than the buffer: only its size is returned.
    ensures small { (held : Files)
        → files.now ≡ packed held
        → result ≡ 8
        → LacksRoom (stack_page script.now held) answer.old size.new }

    // After any other status there is no answer.
    ensures kept { KeepsBuffer result answer.old answer.new }
    ensures no_size { SaysNoSize result size.new }

    // When each status comes. Files are reported as broken only if they are, and only a script that is too long and
    // running out of memory are reported before that.
    ensures long { (result ≡ 7) ↔ (max_script < length script.now) }
    ensures broken { SaysBroken result files.now }
    ensures read { HasRead result files.now }
    ensures statuses { IsOneOf result (0 ∷ 1 ∷ 5 ∷ 7 ∷ 8 ∷ 9 ∷ []) }
{
    *size = 0;
    if script.len() > MAX_SCRIPT {
        return LONG_SCRIPT;
    }
    put_page(script_page(alloc, "stack", script, files), answer, size)
}

/// Carries out a script, and then says which view gets the focus next, from this view to this side of it.
#[unsafe(no_mangle)]
pub extern "C" fn vindaesk_focus(
    alloc: Global,
    script: &[u8],
    side: &[u8],
    view: &[u8],
    files: &[u8],
    answer: &mut [u8],
    size: &mut usize,
) -> u8
    // The first bytes of the answer are the transcript and then the answer to the question, and the rest of the buffer is
    // as it was.
    ensures complete { (held : Files) (question : Question)
        → files.now ≡ packed held
        → asked side.now view.now ≡ Focus question
        → IsComplete result
        → IsAnswer (focus_page script.now held question) answer.old answer.new size.new }
    ensures refused { (held : Files) (question : Question)
        → files.now ≡ packed held
        → asked side.now view.now ≡ Focus question
        → IsComplete result
        → result ≡ (if refuses_focus script.now held question then 1 else 0) }
    ensures small { (held : Files) (question : Question)
        → files.now ≡ packed held
        → asked side.now view.now ≡ Focus question
        → result ≡ 8
        → LacksRoom (focus_page script.now held question) answer.old size.new }
    ensures kept { KeepsBuffer result answer.old answer.new }
    ensures no_size { SaysNoSize result size.new }

    // The words name no side or no view. That is reported before a script that is too long, and both before all else.
    ensures usage { (result ≡ 2) ↔ IsFalse (can_ask side.now view.now) }
    ensures long { (result ≡ 7) ↔ (IsTrue (can_ask side.now view.now) × (max_script < length script.now)) }
    ensures broken { SaysBroken result files.now }
    ensures read { HasRead result files.now }
    ensures statuses { IsOneOf result (0 ∷ 1 ∷ 2 ∷ 5 ∷ 7 ∷ 8 ∷ 9 ∷ []) }
{
    *size = 0;
    if !can_ask(side, view) {
        return USAGE;
    }
    if script.len() > MAX_SCRIPT {
        return LONG_SCRIPT;
    }
    put_page(
        question_page(alloc, script, side, view, files),
        answer,
        size,
    )
}

/// Prints the layout file of this name, one of these files.
#[unsafe(no_mangle)]
pub extern "C" fn vindaesk_dump(
    alloc: Global,
    name: &[u8],
    files: &[u8],
    answer: &mut [u8],
    size: &mut usize,
) -> u8
    // The first bytes of the answer are the text of the document, or why the file is refused.
    ensures complete { (held : Files)
        → files.now ≡ packed held
        → IsComplete result
        → IsAnswer (dump_page held name.now) answer.old answer.new size.new }
    ensures refused { (held : Files)
        → files.now ≡ packed held
        → IsComplete result
        → result ≡ (if refuses_file held name.now then 1 else 0) }
    ensures small { (held : Files)
        → files.now ≡ packed held
        → result ≡ 8
        → LacksRoom (dump_page held name.now) answer.old size.new }
    ensures kept { KeepsBuffer result answer.old answer.new }
    ensures no_size { SaysNoSize result size.new }

    // A layout file can't have this name.
    ensures usage { (result ≡ 2) ↔ IsFalse (is_file_name name.now) }
    ensures broken { SaysBroken result files.now }
    ensures read { HasRead result files.now }
    ensures statuses { IsOneOf result (0 ∷ 1 ∷ 2 ∷ 5 ∷ 8 ∷ 9 ∷ []) }
{
    *size = 0;
    if !is_file_name(name) {
        return USAGE;
    }
    put_page(file_page(alloc, name, files), answer, size)
}

/// Prints what resources hold in the table of this name, one of these files.
#[unsafe(no_mangle)]
pub extern "C" fn vindaesk_lookup(
    alloc: Global,
    name: &[u8],
    ids: &[u32],
    files: &[u8],
    answer: &mut [u8],
    size: &mut usize,
) -> u8
    // The first bytes of the answer are one line per id, or why the file is refused.
    ensures complete { (held : Files)
        → files.now ≡ packed held
        → IsComplete result
        → IsAnswer (lookup_page held name.now ids.now) answer.old answer.new size.new }
    ensures refused { (held : Files)
        → files.now ≡ packed held
        → IsComplete result
        → result ≡ (if refuses_table held name.now then 1 else 0) }
    ensures small { (held : Files)
        → files.now ≡ packed held
        → result ≡ 8
        → LacksRoom (lookup_page held name.now ids.now) answer.old size.new }
    ensures kept { KeepsBuffer result answer.old answer.new }
    ensures no_size { SaysNoSize result size.new }

    // No file can have this name, or there are no ids or more than 64.
    ensures usage { (result ≡ 2) ↔ IsFalse (can_look_up name.now ids.now) }
    ensures broken { SaysBroken result files.now }
    ensures read { HasRead result files.now }
    ensures statuses { IsOneOf result (0 ∷ 1 ∷ 2 ∷ 5 ∷ 8 ∷ 9 ∷ []) }
{
    *size = 0;
    if !can_look_up(name, ids) {
        return USAGE;
    }
    put_page(table_page(alloc, name, ids, files), answer, size)
}
