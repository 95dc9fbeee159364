//! Counts of failed calls.
//!
//! A count rises by `raised`, up to the greatest `u64`, and is no flag: so one equation says both that a call has
//! failed and that no other call has.
ghost use Rattle.std.specs.Prelude.{◌≡◌, is_ok};
ghost use Rattle.tool_io.specs.Counts.{faults_after};

/// A call on an object that was passed in has failed.
#[derive(Clone, Copy, Debug, PartialEq, Eq)]
pub struct Failed;

/// Raises a count of failed calls if this call failed.
#[tactic(auto, using(crate::proofs::Counting::raised_saturates))]
pub(crate) fn count_fault<T, E>(faults: &mut u64, outcome: &Result<T, E>)
    ensures { faults.new ≡ faults_after faults.old (is_ok outcome.now) }
{
    if outcome.is_err() {
        *faults = faults.saturating_add(1);
    }
}
