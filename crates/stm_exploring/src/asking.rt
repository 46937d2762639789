//! What a search is asked.
ghost use Rattle.std.specs.Prelude.{◌≡◌, map};
ghost use Rattle.stm_schedules.specs.Scenarios.{at_level};
ghost use Rattle.stm_serial_search.specs.Started.{is_step, HaveNoStep};
ghost use Rattle.stm_exploring.specs.Asking.{without_steps, events_at, asked};

use stm_history::Sequence;
use stm_program::Level;
use stm_texts::{Scenario, WorldEvent};

/// Whether an event is a step.
fn is_step(event: &WorldEvent) -> bool
    ensures { result ≡ is_step event.now }
{
    matches!(event, WorldEvent::Step { .. })
}

/// The events that are no steps.
fn without_steps(events: Vec<WorldEvent>) -> Vec<WorldEvent>
    ensures { result.items ≡ without_steps events.items }
{
    let mut kept = events;
    kept.retain(|event| !is_step(event));
    kept
}

/// Puts a level into an event, where it is a start.
fn put_level(event: &mut WorldEvent, named: Level)
    ensures { event.new ≡ at_level named event.old }
{
    match event {
        WorldEvent::Start { level, .. } => *level = named,
        _ => {}
    }
}

/// Puts a level into each start.
pub(crate) fn put_levels(events: &mut Vec<WorldEvent>, level: Level)
    ensures { events.new.items ≡ map (at_level level) events.old.items }
{
    for i in 0..events.len() {
        put_level(&mut events[i], level);
    }
}

/// The events, each start at the level that is named, where one is.
fn events_at(level: Option<Level>, events: Vec<WorldEvent>) -> Vec<WorldEvent>
    ensures { result.items ≡ events_at level events.items }
{
    let mut events = events;
    if let Some(level) = level {
        put_levels(&mut events, level);
    }
    events
}

/// The scenario without its steps, each start at the level that is named, where one is.
fn asked(level: Option<Level>, scenario: Scenario) -> Scenario
    ensures { result ≡ asked level scenario }
{
    let events = without_steps(scenario.events.into_vec());
    Scenario {
        opening: scenario.opening,
        events: Sequence::of(events_at(level, events)),
    }
}

/// The scenario that is asked about: without its steps, since a search makes its own, and each start at the level that is named, where one is.
pub(crate) fn ask(level: Option<Level>, scenario: Scenario) -> Scenario
    ensures value { result ≡ asked level scenario }
    ensures stepless { HaveNoStep result.events }
{
    asked(level, scenario)
}
