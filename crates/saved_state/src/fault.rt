//! Why a state is not read, or not restored.
ghost use Rattle.saved_state.specs.Answers.{is_bad_at, is_other_class};

use view_model::refusals::{BAD_STATE, STATE_CLASS};
use view_model::{Detail, Fault, Refusal};

/// Why a state is not read, or not restored.
pub type StateFault = Fault;

/// The field at this place is cut short or wrong, or does not belong to the state any more.
pub fn bad_state(place: usize) -> StateFault
    ensures { is_bad_at place result }
{
    StateFault::Refused(Refusal {
        number: BAD_STATE,
        detail: Detail::At(place),
    })
}

/// Some view has the id of an entry, and no view that suits the entry has it.
pub fn other_class() -> StateFault
    ensures { is_other_class result }
{
    StateFault::Refused(Refusal::plain(STATE_CLASS))
}
