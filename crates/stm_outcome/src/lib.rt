//! What a transaction comes to.
//!
//! The types of a transaction, of its answer and of what a call is refused for; which transactions are wrong as a whole, which compare
//! fails first, and, as definitions with their laws, what a transaction makes of a history. Beside them stand `ShortList`, and what an
//! advance of the moment answers, which the store and the lines of reports have in common. The store itself stands above.
#![tactic(auto)]

mod advance;
mod answer;
mod check;
mod compare;
pub mod laws;
mod limit;
mod refusal;
mod short_list;
mod txn;

pub use advance::{AdvanceRefused, Expired};
pub use answer::{FailedCompare, OpAnswer, TxnAnswer};
pub use check::{MOST_OPERATIONS, find_fault};
pub use compare::find_failed;
pub use limit::OperationLimit;
pub use refusal::Refusal;
pub use short_list::ShortList;
pub use stm_history::{ReadAnswer, Sequence, Text};
pub use stm_keys::Keys;
pub use txn::{Compare, Op, Order, Target, Txn};
