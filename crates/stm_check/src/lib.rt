//! When a report is wrong: the definition that reports are checked by, and the check.
//!
//! `specs/Wrong.antt` says which line is the first wrong one, and why. It knows the events of the scenario, the lines with their
//! replies, the replay of entries, and the reply to a call of a store; it knows nothing of a world's step.
#![tactic(auto)]

mod cause;
mod checking;
mod commits;
mod count;
mod finals;
mod fits;
pub mod laws;
mod leases;
mod lookups;
mod point;
mod replayed_calls;
mod runner;
mod sources;

pub use cause::WrongCause;
pub use checking::{Checked, check};
pub use runner::Runner;
pub use sources::{CheckFault, check_sources};
pub use stm_devices::Source;
pub use stm_events::{Report, ReportLine};
pub use stm_texts::Scenario;
