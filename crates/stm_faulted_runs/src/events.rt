//! The lines of the events of a scenario.
ghost use Rattle.std.specs.Prelude.{◌≡◌, false, IfOk, OnOk, string_bytes};
ghost use Rattle.stm_retry.specs.Returns.{ran_out};
ghost use Rattle.stm_world.specs.World.{step};
ghost use Rattle.stm_faulted_runs.specs.Lines.{reported_by, faults_from, Adds};
ghost use Rattle.stm_faulted_runs.specs.ReportedFaults.{reported_as};
ghost use Rattle.stm_faulted_runs.specs.Origins.{origin_in};

use crate::following::{begin, forget, note};
use crate::lines::{ReportedFault, fault_in, push_reported};
use crate::runs::Explained;
use std::alloc::{AllocError, Global};
use stm_retry::{Denied, Reply, State, Store, World, WorldEvent, is_out_of_memory};

/// Follows the reply to an event, which fails where that was refused because memory ran out.
fn follow(
    alloc: Global,
    runners: &mut Vec<State>,
    store: &Store,
    reply: &Result<Reply, Denied>,
) -> Result<(), AllocError>
    ensures { OnOk result (ran_out reply.now ≡ false) }
{
    if is_out_of_memory(reply) {
        return Err(AllocError);
    }
    match reply {
        Ok(Reply::Started { .. }) => begin(alloc, runners),
        Ok(reply) => note(alloc, runners.as_mut_slice(), store, reply),
        Err(_) => Ok(()),
    }
}

/// Takes the event with this number in a world, follows its reply, and returns the fault that this reports.
fn take(
    alloc: Global,
    runners: &mut Vec<State>,
    world: &mut World,
    event: &WorldEvent,
    number: u64,
) -> Result<Option<ReportedFault>, AllocError>
    ensures reported { IfOk result (λ reported. reported_by number (step event.now world.old).reply ≡ reported_as reported) }
    ensures next { OnOk result ((step event.now world.old).next ≡ world.new) }
{
    let reply = world.step(event);
    let reported = fault_in(number, &reply);
    let followed = follow(alloc, runners, world.store(), &reply);
    drop(reply);
    match followed {
        Ok(()) => Ok(reported),
        Err(_) => Err(AllocError),
    }
}

/// Forgets what a runner had read whose fault has its line.
fn forget_reported(alloc: Global, runners: &mut [State], reported: Option<ReportedFault>) {
    if let Some(reported) = reported {
        forget(alloc, runners, reported.runner);
    }
}

/// Takes events in a world, whose runners are followed, and adds a line for each run that comes to a fault.
pub(crate) fn explain_events(
    alloc: Global,
    out: &mut String,
    explained: &Explained<'_>,
    runners: &mut Vec<State>,
    world: &mut World,
    events: &[WorldEvent],
) -> Result<(), AllocError>
    ensures { OnOk result (Adds (origin_in explained.now) (faults_from world.old events.now) (string_bytes out.old) (string_bytes out.new)) }
{
    for (index, event) in events.iter().enumerate() {
        let reported = take(alloc, runners, world, event, index as u64 + 1)?;
        push_reported(alloc, out, explained, runners.as_slice(), reported)?;
        forget_reported(alloc, runners.as_mut_slice(), reported);
    }
    Ok(())
}
