//! Tests of what has to be in memory, by the public calls of the crates: devices that fail at each of their calls; jobs that
//! threads run and that are held on their way; halls, stores and worlds, by calls that no command makes; the effect of writes, and what is logged of
//! values; and a clock of a search. Cases from text to text stand in `tests/`.
//!
//! This crate has no code but tests: one module for what is tested, and players that run rows of steps. They stand here, and not beside what
//! they test, since a crate with tests is proved twice, and in one crate, since each crate proves anew how each type that it uses is dropped.
#![tactic(auto)]

#[cfg(test)]
mod attempts;
#[cfg(test)]
mod commands;
#[cfg(test)]
mod devices;
#[cfg(test)]
mod each_call;
#[cfg(test)]
mod endings;
#[cfg(test)]
mod ends;
#[cfg(test)]
mod gates;
#[cfg(test)]
mod halls;
#[cfg(test)]
mod jobs;
#[cfg(test)]
mod logged;
#[cfg(test)]
mod meaning;
#[cfg(test)]
mod restored;
#[cfg(test)]
mod revisions;
#[cfg(test)]
mod shown;
#[cfg(test)]
mod stores;
#[cfg(test)]
mod threads;
#[cfg(test)]
mod transactions;
#[cfg(test)]
mod turns;
#[cfg(test)]
mod worlds;
