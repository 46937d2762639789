//! The keys that a program names: those that it looks up and those that it puts, as far as its spelling says them, and the texts with which it compares
//! their values. A person who misspelt one finds it so wherever it stands, also where no run comes to it.
//!
//! `specs/Named.antt`, `specs/Written.antt` and `specs/Compared.antt` say which they are.
#![tactic(auto)]

mod compared;
mod looked_up;
mod names;
mod put;
mod written;

pub use compared::{Compared, values_compared};
pub use looked_up::keys_looked_up;
pub use names::Name;
pub use put::keys_put;
pub use stm_history::{Sequence, Text};
pub use stm_program::Program;
pub use written::{Written, keys_written};
