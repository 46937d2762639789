//! Leases with the times they are due, and the keys that are attached to them.
//!
//! The rules are those of the Lease part of etcd's API reference. Moments and times to live are in
//! whole seconds; the caller hands the moment in.
#![tactic(auto)]

mod bounds;
mod collect;
mod copies;
mod errors;
pub mod laws;
mod lease;
mod table;
mod tournament;

pub use bounds::{HIGHEST_ID, HIGHEST_TTL};
pub use errors::{GrantError, KeysError, LeaseNotFound};
pub use table::Leases;
