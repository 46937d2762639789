//! Programs printed as source.
#![tactic(auto)]

mod conditions;
mod expressions;
mod program;
mod statements;
mod text;

pub use program::{program_source, push_body};
pub use stm_program::Program;
pub use text::{push_last_number, push_next_line, push_number, push_quoted};
