//! Attempts: a program evaluated on what it has read, one read after another, until it is ready to commit.
//!
//! An attempt makes no call of a store. It says which key it wants and at which revision, takes the answer,
//! and goes on; answers that were prefetched for it are taken without a call.
#![tactic(auto)]

mod attempt;
mod entering;
pub mod laws;
mod next;
mod progress;
mod ready;
mod serving;
mod wanted;

pub use attempt::Attempt;
pub use next::Next;
pub use ready::Ready;
pub use stm_compile::{ReadSet, Txn, WriteBuffer, compile};
pub use stm_history::{ReadAnswer, Sequence, Text};
pub use stm_meaning::{Run, TraceItem, Value};
pub use stm_program::{Level, Program, Write};
