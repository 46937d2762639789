//! The values of programs, what is computed of them, and a run in progress.
#![tactic(auto)]

mod fault;
mod key_set;
mod lookup;
mod numbers;
mod run;
mod searched;
mod session;
mod state;
mod stop;
mod texts;
mod trace_item;
mod value;
mod variables;
mod write_log;

pub use fault::Fault;
pub use key_set::KeySet;
pub use lookup::Lookup;
pub use numbers::{combine, number_of, spell};
pub use run::{Answered, End, Run};
pub use session::Session;
pub use state::{State, StateEntry};
pub use stm_history::{Sequence, Text};
pub use stm_program::{Operator, Variable, Write};
pub use stop::{Halt, Stop};
pub use texts::{are_equal, deletion, is_below, join, put, turns, wanted_key, wanted_text};
pub use trace_item::{TraceItem, are_same_traces};
pub use value::{Value, are_same_values};
