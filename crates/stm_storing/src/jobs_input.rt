//! Reading a scenario of jobs that is to be run over a store that is kept.
ghost use Rattle.std.specs.Prelude.{◌≡◌, IfOk, false};
ghost use Rattle.stm_storing.specs.Jobs.{IsAsked};
ghost use Rattle.stm_texts.specs.Opens.{IsOpening};

use crate::input::{InputFault, read_input, unspelled};
use std::alloc::Global;
use stm_devices::Source;
use stm_job_texts::{JobScenario, accept};
use stm_report::Opening;

/// What a scenario of jobs asks for.
#[derive(Drop)]
pub struct JobsAsked {
    /// What the store opens with where it is new, if the scenario says it.
    pub opening: Option<Opening>,
    /// The calls of the store, which are made first, and the jobs.
    pub sorted: JobScenario,
}

/// The text of a source, and the scenario of jobs that it spells.
pub fn read_jobs<S: Source>(
    alloc: Global,
    input: &mut S,
) -> Result<(Vec<u8>, JobsAsked), InputFault>
    requires { S.failed input.old ≡ false }
    ensures asked { IfOk result (λ read. IsAsked read.0.items read.1) }
    ensures opening { IfOk result (λ read. IsOpening read.1.opening) }
{
    let (bytes, scenario) = read_input(alloc, input)?;
    let opening = scenario.opening;
    match accept(alloc, scenario) {
        Ok(sorted) => Ok((bytes, JobsAsked { opening, sorted })),
        Err(error) => Err(unspelled(error)),
    }
}
