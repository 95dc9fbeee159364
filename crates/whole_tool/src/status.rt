//! The status that a run ends with.

ghost use Rattle.std.specs.Prelude.{◌≡◌};
ghost use Rattle.whole_tool.specs.Tool.{status_of};

use crate::run::Stop;
use crate::script::End;
use tool_replies::status::{
    ACCEPTED, LONG_SCRIPT, NO_MEMORY, REFUSED, SHELF_FAILED, SINK_FAILED, SOURCE_FAILED,
};

/// The status of a run.
pub fn status(outcome: Result<bool, End>) -> u8
    ensures { result ≡ status_of outcome }
{
    match outcome {
        Ok(true) => REFUSED,
        Ok(false) => ACCEPTED,
        Err(End::Source) => SOURCE_FAILED,
        Err(End::Long) => LONG_SCRIPT,
        Err(End::Stopped(Stop::Sink)) => SINK_FAILED,
        Err(End::Stopped(Stop::NoMemory)) => NO_MEMORY,
        Err(End::Stopped(Stop::Shelf)) => SHELF_FAILED,
    }
}
