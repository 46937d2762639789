//! A job.
ghost use Rattle.std.specs.Prelude.{◌≤◌};

use stm_program::{Level, Program};

/// A program to be run as a transaction.
#[derive(Drop)]
pub struct Job {
    /// The program.
    pub program: Program,
    /// The level of its reads and of its commit.
    pub level: Level,
    /// The most commits that it may send.
    pub limit: u32,
    pub ghost one_at_least: { 1 ≤ limit },
}
