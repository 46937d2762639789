//! What an advance of the moment answers.
use crate::refusal::Refusal;
use std::error::Error;
use std::fmt;
use stm_history::Sequence;

/// A lease that has expired.
#[derive(Debug, Clone, Copy, PartialEq, Eq)]
pub struct Expired {
    /// The lease's id.
    pub id: u64,
    /// The store's revision after the deletion of the lease's keys.
    pub revision: u64,
}

/// Why an advance stopped, and the leases that had expired by then, in order.
///
/// `Display` gives the cause's name.
#[derive(Debug, Drop)]
pub struct AdvanceRefused {
    /// The leases that expired, the first one first. They stay expired.
    pub expired: Sequence<Expired>,
    /// Why the next one did not, or the moment was not set.
    pub cause: Refusal,
}

impl fmt::Display for AdvanceRefused {
    ghost use Rattle.std.specs.Prelude.{Some};
    ghost use Rattle.stm_outcome.specs.Names.{refusal_name};

    ghost output = { λ refused. Some (refusal_name refused.cause) };

    fn fmt<W: fmt::Write>(&self, f: &mut fmt::Formatter<W>) -> fmt::Result {
        fmt::Display::fmt(&self.cause, f)
    }
}

impl Error for AdvanceRefused {}
