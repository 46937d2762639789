//! The limit of the operations of a transaction.
ghost use Rattle.std.specs.Prelude.{◌≡◌, ◌≤◌};
ghost use Rattle.stm_outcome.specs.Terms.{most_operations};

use crate::check::MOST_OPERATIONS;
use std::marker::Model;

/// The most elements that a store takes in each of a transaction's three lists, from 1 to `MOST_OPERATIONS`.
#[derive(Clone, Copy, Debug, PartialEq, Eq)]
pub struct OperationLimit {
    count: usize,
}

impl Model for OperationLimit {
    ghost use Rattle.std.specs.Prelude.{ℕ, ◌≤◌};
    ghost use Rattle.stm_outcome.specs.Terms.{most_operations};

    ghost Value = { ℕ };

    ghost view = { λ l. l.count };

    ghost invariant = { λ l. (1 ≤ l.count) × (l.count ≤ most_operations) };

    ghost inverse = { λ n. record { count = n } };
}

impl OperationLimit {
    /// The limit of `count` elements.
    pub fn new(count: usize) -> OperationLimit
        requires some { 1 ≤ count }
        requires few { count ≤ most_operations }
        ensures { result ≡ count }
    {
        OperationLimit { count }
    }

    /// The highest limit, `MOST_OPERATIONS`.
    pub fn highest() -> OperationLimit
        ensures { result ≡ most_operations }
    {
        OperationLimit::new(MOST_OPERATIONS)
    }

    /// The most elements of a list.
    pub fn count(self) -> usize
        ensures same { result ≡ self }
        ensures some { 1 ≤ result }
        ensures few { result ≤ most_operations }
    {
        self.count
    }
}
