//! What explains the jobs that came to a fault.
ghost use Rattle.std.specs.Prelude.{◌≡◌, ◌++◌, false, map, IfOk, OnOk, string_bytes};
ghost use Rattle.stm_texts.specs.Reading.{scenario_in};
ghost use Rattle.stm_faulted_runs.specs.Jobs.{reported_job, ExplainsJobs};
ghost use Rattle.stm_threading.specs.Threading.{faulted_job, faulted_jobs, SaysJobs, SaysOfEnds};

use std::alloc::{AllocError, Global};
use stm_devices::Sink;
use stm_explain::{KeptSource, write_text};
use stm_faulted_runs::{FaultedJob, Named, jobs_explained, said_of};
use stm_job::JobEnd;

/// Adds a job, where it came to a fault.
fn push_faulted<'a>(
    jobs: &mut Vec<FaultedJob<'a>>,
    job: u64,
    end: &'a JobEnd,
) -> Result<(), AllocError>
    ensures { OnOk result (map reported_job jobs.new.items ≡ map reported_job jobs.old.items ++ faulted_job job end.now) }
{
    match end {
        JobEnd::Faulted { fault, reads } => {
            let fault = *fault;
            let reads = reads.as_slice();
            jobs.push(FaultedJob { job, fault, reads })?;
            Ok(())
        }
        _ => Ok(()),
    }
}

/// The jobs that came to a fault, of those that ended so.
fn faulted_jobs<'a>(alloc: Global, ends: &'a [JobEnd]) -> Result<Vec<FaultedJob<'a>>, AllocError>
    ensures { IfOk result (λ jobs. map reported_job jobs.items ≡ faulted_jobs 0 ends.now) }
{
    let mut jobs = Vec::new(alloc);
    for (index, end) in ends.iter().enumerate() {
        push_faulted(&mut jobs, index as u64, end)?;
    }
    Ok(jobs)
}

/// The lines of the jobs that came to a fault, of the scenario that a text spells.
fn lines_in(alloc: Global, name: &str, text: &str, ends: &[JobEnd]) -> Result<String, AllocError>
    ensures { IfOk result (λ said. ExplainsJobs name.now text.now (scenario_in text.now) (faulted_jobs 0 ends.now) (string_bytes said)) }
{
    let jobs = faulted_jobs(alloc, ends)?;
    jobs_explained(alloc, &Named { name, text }, jobs.as_slice())
}

/// The explanations of the jobs of a scenario that came to a fault, by its text. It fails where an allocation failed, now or when the text was kept.
fn jobs_of_input<S>(
    alloc: Global,
    input: &KeptSource<'_, S>,
    ends: &[JobEnd],
) -> Result<String, AllocError>
    ensures { IfOk result (λ said. ExplainsJobs input.now.name.now input.now.bytes.items (scenario_in input.now.bytes.items) (faulted_jobs 0 ends.now) (string_bytes said)) }
{
    match input.text() {
        Some(text) => lines_in(alloc, input.name, text, ends),
        None => Err(AllocError),
    }
}

/// Explains the jobs of an input that came to a fault, of those that ended so, and gives the status of a good end.
fn report_jobs<S, E: Sink>(
    alloc: Global,
    input: &KeptSource<'_, S>,
    ends: &[JobEnd],
    err: &mut E,
) -> u8
    requires { E.failed err.old ≡ false }
    ensures status { result ≡ 0 }
    ensures says { SaysJobs input.now.name.now input.now.bytes.items ends.now (E.held err.old) (E.held err.new) (E.failed err.new) }
{
    let explained = jobs_of_input(alloc, input, ends);
    let _ = write_text(err, said_of(&explained));
    0
}

/// Explains on `err` the jobs of an input that came to a fault, of those that ended so, where they are to be explained, a line each; else nothing is said. Gives
/// the status of a good end, also where `err` fails. `err` has not failed before.
pub fn report_ends<S, E: Sink>(
    alloc: Global,
    explain: bool,
    input: &KeptSource<'_, S>,
    ends: &[JobEnd],
    err: &mut E,
) -> u8
    requires { E.failed err.old ≡ false }
    ensures status { result ≡ 0 }
    ensures says { SaysOfEnds explain input.now.name.now input.now.bytes.items ends.now (E.held err.old) (E.held err.new) (E.failed err.new) }
{
    if !explain {
        return 0;
    }
    report_jobs(alloc, input, ends, err)
}
