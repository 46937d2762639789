//! Scenarios.
ghost use Rattle.std.specs.Prelude.{◌≡◌, ◌≤◌, SomeIff};
ghost use Rattle.stm_history.specs.declared.revisions.TheConstants.{HIGHEST_REVISION};
ghost use Rattle.stm_outcome.specs.Terms.{most_operations};
ghost use Rattle.stm_texts.specs.Opens.{IsSetup, setup_at, setup_of};

use std::marker::Model;
use stm_events::WorldEvent;
use stm_history::{HIGHEST_REVISION, Sequence};
use stm_outcome::MOST_OPERATIONS;

/// What the empty store of a scenario opens with: its revision, from 1 to `HIGHEST_REVISION`, and the most elements that it takes in each of a
/// transaction's three lists, from 1 to `MOST_OPERATIONS`.
#[derive(Clone, Copy, Debug, PartialEq, Eq)]
pub struct Opening {
    revision: u64,
    operations: usize,
}

impl Model for Opening {
    ghost use Rattle.stm_txn.specs.Standing.{Setup};
    ghost use Rattle.stm_texts.specs.Opens.{IsSetup, setup_at};

    ghost Value = { Setup };

    ghost view = { λ o. setup_at o.revision o.operations };

    ghost invariant = { λ o. IsSetup (setup_at o.revision o.operations) };

    ghost inverse = { λ s. record { revision = s.revision; operations = s.limit } };
}

impl Opening {
    /// A revision and a limit that are in their ranges.
    pub(crate) fn new(revision: u64, operations: usize) -> Opening
        requires { IsSetup (setup_at revision operations) }
        ensures { result ≡ setup_at revision operations }
    {
        Opening {
            revision,
            operations,
        }
    }

    /// A revision and a limit, `None` where one of them is out of its range.
    pub fn of(revision: u64, operations: usize) -> Option<Opening>
        ensures { SomeIff result (IsSetup (setup_at revision operations)) (setup_at revision operations) }
    {
        if revision < 1 {
            return None;
        }
        if revision > HIGHEST_REVISION {
            return None;
        }
        if operations < 1 {
            return None;
        }
        if operations > MOST_OPERATIONS {
            return None;
        }
        Some(Opening::new(revision, operations))
    }

    /// The revision.
    pub fn revision(self) -> u64
        ensures same { result ≡ self.revision }
        ensures positive { 1 ≤ result }
        ensures bounded { result ≤ HIGHEST_REVISION }
    {
        self.revision
    }

    /// The limit of operations. It and the revision are all that there is.
    pub fn operations(self) -> usize
        ensures same { result ≡ self.limit }
        ensures whole { setup_at self.revision result ≡ self }
        ensures some { 1 ≤ result }
        ensures few { result ≤ most_operations }
    {
        self.operations
    }
}

/// What a world is to do.
#[derive(Debug, Drop)]
pub struct Scenario {
    /// What the empty store opens with, `None` where the scenario does not say it: it is then revision 1 and `MOST_OPERATIONS`.
    pub opening: Option<Opening>,
    /// The events in order.
    pub events: Sequence<WorldEvent>,
}

/// What the store opens with where a scenario says this, or nothing.
pub fn opens_with(opening: Option<Opening>) -> Opening
    ensures setup { result ≡ setup_of opening }
{
    match opening {
        Some(opening) => opening,
        None => Opening::new(1, MOST_OPERATIONS),
    }
}
