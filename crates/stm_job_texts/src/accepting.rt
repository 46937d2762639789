//! Which scenario is one of jobs.
ghost use Rattle.std.specs.Prelude.{◌≡◌, ◌≤◌};
ghost use Rattle.stm_json.specs.Returns.{Returns};
ghost use Rattle.stm_job_texts.specs.Accepting.{sorted_of, shift_of, add_call, add_task, add_event, accepted};

use crate::store_call::StoreCall;
use std::alloc::Global;
use stm_events::WorldEvent;
use stm_history::Sequence;
use stm_job::Job;
use stm_json::{Cause, ReadError, fault, within};
use stm_program::{Level, Program};
use stm_texts::{Opening, Scenario};

/// The events of a scenario of jobs, in their orders.
#[derive(Drop)]
pub struct JobScenario {
    /// Those that are made of the store.
    pub calls: Sequence<StoreCall>,
    /// The jobs.
    pub jobs: Sequence<Job>,
}

/// Adds a call of the store.
fn add_call(sorted: &mut JobScenario, call: StoreCall) -> Result<(), ReadError>
    ensures { Returns (λ _. sorted_of sorted.new) result (add_call (sorted_of sorted.old) call) }
{
    sorted.calls.push(call)?;
    Ok(())
}

/// Adds a job. One that may send no commit is `Shape` at its limit.
fn add_job(
    alloc: Global,
    sorted: &mut JobScenario,
    program: Program,
    level: Level,
    limit: u32,
) -> Result<(), ReadError>
    ensures { Returns (λ _. sorted_of sorted.new) result (add_task (sorted_of sorted.old) (record { program = program; level = level; limit = limit })) }
{
    if limit == 0 {
        return within(alloc, 2, Err(fault(alloc, Cause::Shape)));
    }
    sorted.jobs.push(Job {
        program,
        level,
        limit,
    })?;
    Ok(())
}

/// Adds an event: a job, or a call of the store. Any other event is `Shape`.
fn add(alloc: Global, sorted: &mut JobScenario, event: WorldEvent) -> Result<(), ReadError>
    ensures { Returns (λ _. sorted_of sorted.new) result (add_event (sorted_of sorted.old) event) }
{
    match event {
        WorldEvent::Start {
            program,
            level,
            limit,
        } => add_job(alloc, sorted, program, level, limit),
        WorldEvent::Txn { txn } => add_call(sorted, StoreCall::Txn { txn }),
        WorldEvent::Grant { id, ttl } => add_call(sorted, StoreCall::Grant { id, ttl }),
        WorldEvent::Keep { id } => add_call(sorted, StoreCall::Keep { id }),
        WorldEvent::Revoke { id } => add_call(sorted, StoreCall::Revoke { id }),
        WorldEvent::Advance { now } => add_call(sorted, StoreCall::Advance { now }),
        _ => Err(fault(alloc, Cause::Shape)),
    }
}

/// The place of the first event in a scenario's array, whose first element may name the opening.
fn first_place(opening: Option<Opening>) -> usize
    ensures place { result ≡ shift_of opening }
    ensures at_most { result ≤ 1 }
{
    match opening {
        Some(_) => 1,
        None => 0,
    }
}

/// The jobs and the calls of a scenario, or the fault of the first event that is neither: `Shape` at the event, or at the limit of a job that may
/// send no commit.
pub fn accept(alloc: Global, scenario: Scenario) -> Result<JobScenario, ReadError>
    ensures { Returns sorted_of result (accepted scenario) }
{
    let first = first_place(scenario.opening);
    let mut sorted = JobScenario {
        calls: Sequence::new(alloc),
        jobs: Sequence::new(alloc),
    };
    let mut before = 0;
    for event in scenario.events.into_vec() {
        within(alloc, first + before, add(alloc, &mut sorted, event))?;
        before += 1;
    }
    Ok(sorted)
}
