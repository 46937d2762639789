//! The explanations of the runs of a scenario.
ghost use Rattle.std.specs.Prelude.{◌≡◌, Ok as OkOf, Some, IfOk, string_bytes};
ghost use Rattle.stm_texts.specs.Reading.{scenario_in};
ghost use Rattle.stm_faulted_runs.specs.Lines.{ExplainsEach, ExplainsRun, faults_from};
ghost use Rattle.stm_world.specs.World.{opened};
ghost use Rattle.stm_faulted_runs.specs.Origins.{origin_in};

use crate::events::explain_events;
use crate::runs::{Explained, to_explain};
use std::alloc::{AllocError, Global};
use stm_explain::Said;
use stm_json::ReadError;
use stm_retry::{World, WorldEvent};
use stm_texts::{Opening, Scenario, opens_with, read_scenario};

/// A text, and the name of its file, as people know it.
#[derive(Clone, Copy)]
pub struct Named<'a> {
    /// The name.
    pub name: &'a str,
    /// The text.
    pub text: &'a str,
}

/// The lines of the runs that events begin in a world.
fn lines_in(alloc: Global, explained: &Explained<'_>, world: World, events: &[WorldEvent]) -> Said
    ensures { IfOk result (λ said. ExplainsEach (origin_in explained.now) (faults_from world events.now) (string_bytes said)) }
{
    let mut world = world;
    let mut out = String::new(alloc);
    let mut runners = Vec::new(alloc);
    let ran = explain_events(alloc, &mut out, explained, &mut runners, &mut world, events);
    drop(world);
    drop(runners);
    match ran {
        Ok(()) => Ok(out),
        Err(_) => Err(AllocError),
    }
}

/// The lines of the runs that events begin, over an empty store that opens with this.
fn lines_from(
    alloc: Global,
    explained: &Explained<'_>,
    opening: Opening,
    events: &[WorldEvent],
) -> Said
    ensures { IfOk result (λ said. ExplainsEach (origin_in explained.now) (faults_from (opened opening) events.now) (string_bytes said)) }
{
    let world = World::with_limits(alloc, opening.revision(), opening.operations())?;
    lines_in(alloc, explained, world, events)
}

/// The lines of the runs of a scenario that was read from this text.
fn lines_of(alloc: Global, source: &Named<'_>, scenario: &Scenario) -> Said
    ensures { IfOk result (λ said. ExplainsRun source.now.name.now source.now.text.now (OkOf scenario.now) (string_bytes said)) }
{
    let opening = opens_with(scenario.opening);
    let explained = to_explain(alloc, source.name, source.text, scenario)?;
    lines_from(alloc, &explained, opening, scenario.events.as_slice())
}

/// The same, of a scenario that is dropped then.
fn lines_of_scenario(alloc: Global, source: &Named<'_>, scenario: Scenario) -> Said
    ensures { IfOk result (λ said. ExplainsRun source.now.name.now source.now.text.now (OkOf scenario) (string_bytes said)) }
{
    let said = lines_of(alloc, source, &scenario);
    drop(scenario);
    said
}

/// A line for each run of a scenario that comes to a fault, in the order of their events; none, where the text is no scenario.
///
/// A line is `NAME:LINE:COLUMN: event EVENT: FAULT of runner RUNNER at PLACE: REASON`. PLACE is a JSON Pointer to the innermost node of the
/// program at which its run stopped, LINE and COLUMN are where that begins, and REASON has the values that its parts gave. Where the program does
/// not come to this fault on what its runner had read, the line ends after the runner, and is that of the start.
///
/// It fails where an allocation failed.
pub fn faults_explained(alloc: Global, source: &Named<'_>) -> Said
    ensures { IfOk result (λ said. ExplainsRun source.now.name.now source.now.text.now (scenario_in source.now.text.now) (string_bytes said)) }
{
    match read_scenario(alloc, source.text.as_bytes()) {
        Ok(scenario) => lines_of_scenario(alloc, source, scenario),
        Err(ReadError::Bad(_)) => Ok(String::new(alloc)),
        Err(ReadError::OutOfMemory) => Err(AllocError),
    }
}
