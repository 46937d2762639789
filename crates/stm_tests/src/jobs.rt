//! Jobs that the tests begin with.
ghost use Rattle.std.specs.Prelude.{◌≤◌};

use crate::attempts::program;
use std::alloc::Global;
use std::test::Fail;
use stm_program::Level;
use stm_workers::Job;

/// A job that may send at most this number of commits.
fn job(alloc: Global, level: Level, text: &str, limit: u32) -> Result<Job, Fail>
    requires { 1 ≤ limit }
{
    let program = program(alloc, text)?;
    Ok(Job {
        program,
        level,
        limit,
    })
}

/// Adds a job that may send at most this number of commits.
pub(crate) fn add_job(
    alloc: Global,
    jobs: &mut Vec<Job>,
    level: Level,
    text: &str,
    limit: u32,
) -> Result<(), Fail>
    requires { 1 ≤ limit }
{
    let next = job(alloc, level, text, limit)?;
    jobs.push(next)?;
    Ok(())
}
