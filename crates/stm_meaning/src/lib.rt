//! The meaning of programs of the transaction language.
#![tactic(auto)]

mod alone;
mod apply;
pub mod laws;

pub use alone::run_alone;
pub use apply::apply_alone;
pub use stm_history::{Sequence, Text};
pub use stm_program::{Operator, Program, Variable, Write, last_write, latest_writes};
pub use stm_sites::run_answered;
pub use stm_steps::{
    Answered, End, Fault, KeySet, Lookup, Run, Session, State, StateEntry, TraceItem, Value,
    are_equal, combine, deletion, is_below, join, number_of, put, spell, turns, wanted_key,
    wanted_text,
};
