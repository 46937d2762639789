//! Commits: the read set and the write buffer of an attempt, and the transaction that they make at each level.
//!
//! The laws of `laws` say what that transaction comes to in the words of the run that it commits. Above them
//! no proof speaks of a transaction's parts.
#![tactic(auto)]

mod commit;
pub mod laws;
mod read_set;
mod write_buffer;

pub use commit::compile;
pub use read_set::ReadSet;
pub use stm_history::{Change, ReadAnswer, Sequence, Text};
pub use stm_outcome::Txn;
pub use stm_program::{Level, Write};
pub use write_buffer::WriteBuffer;
