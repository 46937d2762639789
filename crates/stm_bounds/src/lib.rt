//! The numbers of the formats, by their digits.
//!
//! The definitions of the crates below cite the constants of the code, so that both would go wrong together. Each function here says which
//! number a constant is, and does nothing: a constant with another number is refused here.
#![tactic(auto)]

mod laws;

pub use laws::{
    bounds_of_command_lines, bounds_of_leases, bounds_of_numbers, bounds_of_programs,
    bounds_of_recipes, bounds_of_runs, bounds_of_scenarios, bounds_of_sources, bounds_of_texts,
    bounds_of_threads, bounds_of_transactions,
};
