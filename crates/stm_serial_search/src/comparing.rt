//! Scenarios of which serial orders are enough, and the programs that they start.
ghost use Rattle.std.specs.Prelude.{◌≡◌, ◌++◌, true, IfOk, OnOk};
ghost use Rattle.stm_program.specs.Levels.{is_comparing};
ghost use Rattle.stm_serial.specs.Asked.{is_orderly, AreOrderly};
ghost use Rattle.stm_serial.specs.Serial.{is_foreign, AreForeign};
ghost use Rattle.stm_serial_search.specs.Search.{program_started, programs_started};

use std::alloc::{AllocError, Global};
use stm_program::{Level, Program};
use stm_world::WorldEvent;

/// Whether a commit at this level compares what was read.
fn compares(level: Level) -> bool
    ensures { result ≡ is_comparing level }
{
    match level {
        Level::ReadCommitted => false,
        Level::RepeatableReads | Level::Serializable | Level::SerializableSnapshot => true,
    }
}

/// Whether an event is no step, and no start at a level that does not compare.
fn is_orderly(event: &WorldEvent) -> bool
    ensures { result ≡ is_orderly event.now }
{
    match event {
        WorldEvent::Start { level, .. } => compares(*level),
        WorldEvent::Step { .. } => false,
        _ => true,
    }
}

/// Whether a scenario has no step, and all its starts are at levels that compare.
pub fn are_orderly(events: &[WorldEvent]) -> bool
    ensures { result ≡ true → AreOrderly events.now }
{
    for event in events {
        if !is_orderly(event) {
            return false;
        }
    }
    true
}

/// Whether an event is another client's: no start, and no step.
fn is_foreign(event: &WorldEvent) -> bool
    ensures { result ≡ is_foreign event.now }
{
    match event {
        WorldEvent::Start { .. } | WorldEvent::Step { .. } => false,
        _ => true,
    }
}

/// Whether all events are other clients'.
pub(crate) fn are_foreign(events: &[WorldEvent]) -> bool
    ensures { result ≡ true → AreForeign events.now }
{
    for event in events {
        if !is_foreign(event) {
            return false;
        }
    }
    true
}

/// Adds the program that an event starts, where it starts one.
fn push_program(programs: &mut Vec<Program>, event: &WorldEvent) -> Result<(), AllocError>
    ensures { OnOk result (programs.new.items ≡ programs.old.items ++ program_started event.now) }
{
    match event {
        WorldEvent::Start { program, limit, .. } => {
            if *limit == 0 {
                return Ok(());
            }
            let copy = program.clone()?;
            programs.push(copy)?;
            Ok(())
        }
        _ => Ok(()),
    }
}

/// The programs that these events start, in their order.
pub fn programs_started(alloc: Global, events: &[WorldEvent]) -> Result<Vec<Program>, AllocError>
    ensures { IfOk result (λ programs. programs.items ≡ programs_started events.now) }
{
    let mut programs = Vec::new(alloc);
    for event in events {
        push_program(&mut programs, event)?;
    }
    Ok(programs)
}
