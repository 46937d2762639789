//! The events of a world. Where a failed allocation stopped their run, the rest of them is run again.
//!
//! The replies to the events before the stop were lost with it. They are taken from a new world, so that all replies can be printed;
//! those after the stop, the keys, the leases and the entries are of the world that was stopped.
ghost use Rattle.std.specs.Prelude.{Some};

use crate::scenarios::scenario_of;
use anyhow::{Result, bail};
use std::alloc::{AllocError, Global};
use stm_history::Sequence;
use stm_report::{Denied, Reply, Scenario, World, WorldEvent, report};
use stm_retry::{Expired, RunStop};
use stm_texts::{Opening, opens_with};

/// Replies, one for each event.
type Replies = Vec<Result<Reply, Denied>>;

/// A new world, by a second call where the first was refused.
fn world_again(alloc: Global, opening: Opening) -> Result<World, AllocError> {
    match World::with_limits(alloc, opening.revision(), opening.operations()) {
        Ok(world) => Ok(world),
        Err(_) => World::with_limits(alloc, opening.revision(), opening.operations()),
    }
}

/// Runs events that nothing may stop any more.
fn run_whole(world: &mut World, events: &[WorldEvent]) -> Result<Replies> {
    match world.run(events) {
        Ok(replies) => Ok(replies),
        Err(_) => bail!("the run was stopped twice"),
    }
}

/// The replies of a new world to these events.
fn replies_anew(alloc: Global, opening: Opening, events: &[WorldEvent]) -> Result<Replies> {
    let mut world = World::with_limits(alloc, opening.revision(), opening.operations())?;
    let replies = run_whole(&mut world, events);
    drop(world);
    replies
}

/// The leases that expired before an advance was cut short, followed by those that expired when it was made again.
fn joined(
    before: Sequence<Expired>,
    after: Sequence<Expired>,
) -> Result<Sequence<Expired>, AllocError> {
    let mut expired = before;
    for lease in after.into_vec() {
        expired.push(lease)?;
    }
    Ok(expired)
}

/// The whole reply to an event that was stopped after these leases had expired, and then made again.
fn whole_reply(
    before: Sequence<Expired>,
    again: Result<Reply, Denied>,
) -> Result<Result<Reply, Denied>> {
    match again {
        Ok(Reply::Advanced { now, expired }) => {
            let expired = joined(before, expired)?;
            Ok(Ok(Reply::Advanced { now, expired }))
        }
        Err(Denied { cause, expired }) => {
            let expired = joined(before, expired)?;
            Ok(Err(Denied { cause, expired }))
        }
        Ok(other) => {
            if before.len() > 0 {
                bail!("leases expired by an event that is no advance");
            }
            Ok(Ok(other))
        }
    }
}

/// Adds the replies to the stopped event and to those after it.
fn add_rest(replies: &mut Replies, before: Sequence<Expired>, rest: Replies) -> Result<()> {
    let mut before = Some(before);
    for reply in rest {
        match before.take() {
            Some(expired) => replies.push(whole_reply(expired, reply)?)?,
            None => replies.push(reply)?,
        }
    }
    Ok(())
}

/// Prints how far a run had come.
fn report_stop(rt: &impl Eprint, stop: &RunStop) -> Result<()> {
    let leases = stop.expired.len();
    eprintln!(rt; "stopped after {leases} expired leases")?;
    Ok(())
}

/// Runs the rest of the events of a run that was stopped, and gives the replies to all of them.
fn go_on(
    rt: &impl Eprint,
    alloc: Global,
    opening: Opening,
    world: &mut World,
    events: &[WorldEvent],
    stop: RunStop,
) -> Result<Replies> {
    if stop.done > events.len() {
        bail!("more events were taken than there are");
    }
    report_stop(rt, &stop)?;
    let (taken, left) = events.split_at(stop.done);
    let rest = run_whole(world, left)?;
    let mut replies = replies_anew(alloc, opening, taken)?;
    add_rest(&mut replies, stop.expired, rest)?;
    Ok(replies)
}

/// The replies to all events, also where their run is stopped.
fn replies_to(
    rt: &impl Eprint,
    alloc: Global,
    opening: Opening,
    world: &mut World,
    events: &[WorldEvent],
) -> Result<Replies> {
    match world.run(events) {
        Ok(replies) => Ok(replies),
        Err(stop) => go_on(rt, alloc, opening, world, events, stop),
    }
}

/// The report, by a second call where the first was refused.
fn report_again(
    alloc: Global,
    world: &World,
    replies: &[Result<Reply, Denied>],
) -> Result<String, AllocError> {
    match report(alloc, world, replies) {
        Ok(text) => Ok(text),
        Err(_) => report(alloc, world, replies),
    }
}

/// The report of a new world's run.
fn report_from(
    rt: &impl Eprint,
    alloc: Global,
    opening: Opening,
    world: &mut World,
    events: &[WorldEvent],
) -> Result<String> {
    let replies = replies_to(rt, alloc, opening, world, events)?;
    let text = report_again(alloc, world, replies.as_slice());
    drop(replies);
    Ok(text?)
}

/// The report of a scenario's run.
fn report_of(rt: &impl Eprint, alloc: Global, scenario: &Scenario) -> Result<String> {
    let opening = opens_with(scenario.opening);
    let mut world = world_again(alloc, opening)?;
    let text = report_from(rt, alloc, opening, &mut world, scenario.events.as_slice());
    drop(world);
    text
}

/// The report of the run of the scenario of a text.
pub(crate) fn lines(rt: &impl Eprint, alloc: Global, text: &str) -> Result<String> {
    let scenario = scenario_of(alloc, text)?;
    let text = report_of(rt, alloc, &scenario);
    drop(scenario);
    text
}
