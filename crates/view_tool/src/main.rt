//! The program `view_tool`: the tool over standard input, standard output and the files of the current folder.
//!
//! `main` passes the words after the program's name and the adapters of `tool_io` to `tool` of `whole_tool`, and ends
//! with the status that this returns. A word that is not UTF-8 ends with the status of a wrong call, before anything is
//! read. It has no other code, since what is here has no contract: the stored run (`args`, `stdin`, `stdout`) and
//! `ci/checks` test it.
//!
//! The launcher `vindaesk`, the tools and the packages start it.
//!
//!     printf 'window 100 50\nadd root View 10 20\nframe\nbounds\n' | view_tool run
#![tactic(auto)]

use std::env;
use std::io::{self, ErrorKind};
use std::process::ExitCode;
use tool_io::{FolderShelf, StdinSource, StdoutSink};
use tool_replies::status::{NO_MEMORY, USAGE};
use view_model::Work;
use whole_tool::tool;

/// Ends with the status of the tool. Where its words can't be read, that is `NO_MEMORY` or `USAGE`, by the reason.
fn main(rt: HostRuntime) -> ExitCode {
    ExitCode::from(match arguments(&rt) {
        Ok(arguments) => status_of(&rt, arguments.as_slice()),
        Err(error) if error.kind() == ErrorKind::OutOfMemory => NO_MEMORY,
        Err(_) => USAGE,
    })
}

/// The words after the program's name. One that is not UTF-8 is an error.
fn arguments(rt: &HostRuntime) -> io::Result<Vec<String>> {
    let mut arguments = Vec::new(rt.alloc());
    for argument in env::args(rt)?.skip(1) {
        arguments.push(argument)?;
    }
    Ok(arguments)
}

/// The status of the tool over standard input, standard output and the files of the current folder.
fn status_of(rt: &HostRuntime, words: &[String]) -> u8 {
    tool(
        rt.alloc(),
        words,
        &mut FolderShelf::new(rt),
        &mut StdinSource::new(rt.stdin()),
        &mut StdoutSink::new(rt.stdout()),
        &mut Work {
            measured: 0,
            painted: 0,
        },
    )
}
