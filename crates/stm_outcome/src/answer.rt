//! What a transaction answers.
use crate::short_list::ShortList;
use std::alloc::Global;
use std::default::MadeWith;
use stm_history::ReadAnswer;

/// The answer to one operation.
#[derive(Debug, Drop, Clone)]
pub enum OpAnswer {
    /// What a read showed.
    Get(ReadAnswer),
    /// A put was made.
    Put,
    /// How many keys a delete deleted: 0 or 1.
    Del(u64),
}

/// The first compare that did not hold.
#[derive(Debug, Clone, Copy, PartialEq, Eq)]
pub struct FailedCompare {
    /// Its place in the list of compares.
    pub index: usize,
    /// The current modification revision of its key, 0 where the key is absent.
    pub mod_rev: u64,
}

/// The answer to a transaction.
#[derive(Debug, Drop, Clone)]
pub struct TxnAnswer {
    /// Whether all compares held, so that the success list ran.
    pub succeeded: bool,
    /// The store's revision after the transaction.
    pub revision: u64,
    /// One answer for each operation of the branch that ran, in order.
    pub answers: ShortList<OpAnswer>,
    /// The first compare that failed, `None` where all held.
    pub failed: Option<FailedCompare>,
}

impl MadeWith<Global> for OpAnswer {
    fn made_with(_alloc: Global) -> OpAnswer {
        OpAnswer::Put
    }
}
