//! What a line responds whose edit was made, or was not.

ghost use Rattle.std.specs.Prelude.{◌≡◌};
ghost use Rattle.view_world.specs.screen.Changed.{response_of};

use tree_edits::EditFault;
use world_parts::StepFault;
use world_replies::Response;

/// What a line responds whose edit was made, or was not.
pub fn respond(outcome: Result<Option<u64>, EditFault>) -> Result<Response, StepFault>
    ensures { result ≡ response_of outcome }
{
    match outcome? {
        None => Ok(Response::Nothing),
        Some(number) => Ok(Response::Made(number)),
    }
}
