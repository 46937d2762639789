//! Programs read from JSON and written as JSON.
#![tactic(auto)]

mod read;
mod spell;
mod words;

pub use read::{first_statement, read_program};
pub use spell::write_program;
pub use stm_json::{BadInput, Cause, ReadError};
pub use stm_program::Program;
