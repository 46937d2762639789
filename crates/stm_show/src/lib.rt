//! Scenarios printed as source, and the command `show` from the bytes of a source to the text in a sink.
#![tactic(auto)]

mod events;
mod scenario;
mod showing;
mod transactions;

pub use scenario::scenario_source;
pub use showing::{ShowFault, Shown, show};
pub use stm_json::BadInput;
pub use stm_texts::Scenario;
pub use transactions::push_compares;
