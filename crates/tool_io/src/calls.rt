//! The calls of an object in memory: how many there were, and which of them are to fail.
ghost use Rattle.std.specs.Prelude.{◌≡◌};

use crate::faults::Failed;
use std::marker::Model;

/// The calls on an object in memory: which are to fail, how many were made, how many have failed.
#[derive(Drop)]
pub(crate) struct Calls {
    fails: Vec<u64>,
    made: u64,
    faults: u64,
}

impl Model for Calls {
    ghost use Rattle.tool_io.specs.Calls.{CallsMade};

    ghost Value = { CallsMade };

    ghost view = { λ calls. record { fails = calls.fails.items; made = calls.made; faults = calls.faults } };
}

impl Calls {
    ghost use Rattle.tool_io.specs.Calls.{no_calls, fails_next, after_call, after_failed};

    /// No call was made, and those whose numbers, from 1 on, are in `fails` are to fail.
    pub(crate) fn new(fails: Vec<u64>) -> Calls
        ensures { result ≡ no_calls fails.items }
    {
        Calls {
            fails,
            made: 0,
            faults: 0,
        }
    }

    /// Counts a call, and returns whether it is one that is to fail.
    #[tactic(auto, using(crate::proofs::Counting::raised_saturates))]
    pub(crate) fn begin(&mut self) -> bool
        ensures fails { result ≡ fails_next self.old }
        ensures counted { self.new ≡ after_call self.old }
    {
        self.made = self.made.saturating_add(1);
        self.fails.contains(&self.made)
    }

    /// Counts that the call has failed.
    #[tactic(auto, using(crate::proofs::Counting::raised_saturates))]
    pub(crate) fn fail(&mut self) -> Failed
        ensures counted { self.new ≡ after_failed self.old }
    {
        self.faults = self.faults.saturating_add(1);
        Failed
    }
}
