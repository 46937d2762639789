//! A world, and a small one that has only the keys which its runners name: what a search through the schedules of the small one finds holds of the whole one.
//!
//! Which worlds agree on some keys since a revision, as a definition with its laws (`laws`).
#![tactic(auto)]

pub mod laws;
