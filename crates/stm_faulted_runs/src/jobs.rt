//! The explanations of jobs.
ghost use Rattle.std.specs.Prelude.{◌≡◌, [], ◌∷◌, map, Ok as OkOf, IfOk, OnOk, string_bytes};
ghost use Rattle.stm_texts.specs.Reading.{scenario_in};
ghost use Rattle.stm_faulted_runs.specs.Lines.{IsMoreOfReported, IsLineOf, ExplainsEach, Adds};
ghost use Rattle.stm_faulted_runs.specs.Origins.{origin_in};
ghost use Rattle.stm_faulted_runs.specs.Jobs.{reported_job, reported_of_job, ExplainsJobs};

use crate::lines::line_of;
use crate::places::{Place, place_of_run};
use crate::reads::Reads;
use crate::runs::{Explained, to_explain};
use crate::scripts::Named;
use std::alloc::{AllocError, Global};
use stm_explain::Said;
use stm_history::ReadAnswer;
use stm_json::ReadError;
use stm_steps::Fault;
use stm_texts::{Scenario, read_scenario};

/// A job of a scenario that came to a fault.
#[derive(Clone, Copy)]
pub struct FaultedJob<'a> {
    /// Its number: the starts of the scenario are its jobs, numbered from 0.
    pub job: u64,
    /// The fault.
    pub fault: Fault,
    /// What its last attempt had read.
    pub reads: &'a [ReadAnswer],
}

/// Where a job came to its fault; the whole scenario, where it has no such job.
fn place_of_job(
    alloc: Global,
    explained: &Explained<'_>,
    job: &FaultedJob<'_>,
) -> Result<Place, AllocError>
    ensures { IfOk result (λ place. IsMoreOfReported (origin_in explained.now) (reported_of_job (reported_job job.now)) (string_bytes place.more)) }
{
    let reads = Reads { answers: job.reads };
    place_of_run(alloc, explained, job.job, &reads, job.fault)
}

/// The head of a job's line.
fn head_of_job(alloc: Global, job: &FaultedJob<'_>) -> Said
    ensures { IfOk result (λ head. string_bytes head ≡ (reported_of_job (reported_job job.now)).head) }
{
    let (job, fault) = (job.job, job.fault);
    format!(in alloc; "job {job}: {fault}")
}

/// The line of a job.
fn job_line(alloc: Global, explained: &Explained<'_>, job: &FaultedJob<'_>) -> Said
    ensures { IfOk result (λ line. IsLineOf (origin_in explained.now) (reported_of_job (reported_job job.now)) (string_bytes line)) }
{
    let place = place_of_job(alloc, explained, job)?;
    let head = head_of_job(alloc, job)?;
    line_of(alloc, &explained.marked, head.as_str(), &place)
}

/// Adds the line of a job.
fn push_job(
    alloc: Global,
    out: &mut String,
    explained: &Explained<'_>,
    job: &FaultedJob<'_>,
) -> Result<(), AllocError>
    ensures { OnOk result (Adds (origin_in explained.now) (reported_of_job (reported_job job.now) ∷ []) (string_bytes out.old) (string_bytes out.new)) }
{
    let line = job_line(alloc, explained, job)?;
    out.push_str(line.as_str())?;
    Ok(())
}

/// The lines of these jobs of a scenario.
fn lines_in(alloc: Global, explained: &Explained<'_>, jobs: &[FaultedJob<'_>]) -> Said
    ensures { IfOk result (λ said. ExplainsEach (origin_in explained.now) (map reported_of_job (map reported_job jobs.now)) (string_bytes said)) }
{
    let mut out = String::new(alloc);
    for job in jobs {
        push_job(alloc, &mut out, explained, job)?;
    }
    Ok(out)
}

/// The lines of these jobs of a scenario that was read from this text.
fn lines_of(alloc: Global, source: &Named<'_>, scenario: &Scenario, jobs: &[FaultedJob<'_>]) -> Said
    ensures { IfOk result (λ said. ExplainsJobs source.now.name.now source.now.text.now (OkOf scenario.now) (map reported_job jobs.now) (string_bytes said)) }
{
    let explained = to_explain(alloc, source.name, source.text, scenario)?;
    lines_in(alloc, &explained, jobs)
}

/// The same, of a scenario that is dropped then.
fn lines_of_scenario(
    alloc: Global,
    source: &Named<'_>,
    scenario: Scenario,
    jobs: &[FaultedJob<'_>],
) -> Said
    ensures { IfOk result (λ said. ExplainsJobs source.now.name.now source.now.text.now (OkOf scenario) (map reported_job jobs.now) (string_bytes said)) }
{
    let said = lines_of(alloc, source, &scenario, jobs);
    drop(scenario);
    said
}

/// A line for each of these jobs of a scenario, in this order; none where the text is no scenario.
///
/// A line is `NAME:LINE:COLUMN: job JOB: FAULT at PLACE: REASON`, as `faults_explained` has it of a run. It fails where an allocation failed.
pub fn jobs_explained(alloc: Global, source: &Named<'_>, jobs: &[FaultedJob<'_>]) -> Said
    ensures { IfOk result (λ said. ExplainsJobs source.now.name.now source.now.text.now (scenario_in source.now.text.now) (map reported_job jobs.now) (string_bytes said)) }
{
    match read_scenario(alloc, source.text.as_bytes()) {
        Ok(scenario) => lines_of_scenario(alloc, source, scenario, jobs),
        Err(ReadError::Bad(_)) => Ok(String::new(alloc)),
        Err(ReadError::OutOfMemory) => Err(AllocError),
    }
}
