//! Programs read from bytes.
#![tactic(auto)]

mod reading;

pub use reading::read_program_text;
