//! A scenario with the events of a schedule, as a line.
ghost use Rattle.std.specs.Prelude.{◌≡◌, ◌++◌, [], ◌∷◌, map, IfOk, OnOk, string_bytes};
ghost use Rattle.serde_json.specs.View.{view};
ghost use Rattle.stm_report_lines.specs.Text.{line_text};
ghost use Rattle.stm_texts.specs.Writing.{written_event, opening_elements, written_scenario};
ghost use Rattle.stm_schedules.specs.Places.{event_of, left_after};
ghost use Rattle.stm_schedules.specs.Schedules.{events_along};
ghost use Rattle.stm_exploring.specs.Asking.{scheduled};

use crate::setup::setup_and_others;
use serde_json::Value as Json;
use std::alloc::{AllocError, Global};
use stm_report_lines::push_line;
use stm_schedules::Move;
use stm_texts::{Opening, Scenario, WorldEvent, event_json, opening_json};

/// Writes an event after the elements so far.
fn push_event(alloc: Global, elements: &mut Vec<Json>, event: &WorldEvent) -> Result<(), AllocError>
    ensures { OnOk result (map view elements.new.items ≡ map view elements.old.items ++ written_event event.now ∷ []) }
{
    let value = event_json(alloc, event)?;
    elements.push(value)?;
    Ok(())
}

/// Writes these events after the elements so far.
fn push_events(
    alloc: Global,
    elements: &mut Vec<Json>,
    events: &[WorldEvent],
) -> Result<(), AllocError>
    ensures { OnOk result (map view elements.new.items ≡ map view elements.old.items ++ map written_event events.now) }
{
    for event in events {
        push_event(alloc, elements, event)?;
    }
    Ok(())
}

/// Writes the event of a move after the elements so far, where it has one.
fn push_move(
    alloc: Global,
    elements: &mut Vec<Json>,
    chosen: Move,
    others: &[WorldEvent],
) -> Result<(), AllocError>
    ensures { OnOk result (map view elements.new.items ≡ map view elements.old.items ++ map written_event (event_of chosen others.now)) }
{
    match chosen {
        Move::Step { runner } => push_event(alloc, elements, &WorldEvent::Step { runner }),
        Move::Other => match others.first() {
            Some(event) => push_event(alloc, elements, event),
            None => Ok(()),
        },
    }
}

/// What the others have yet to bring after a move.
fn left_after(chosen: Move, others: &[WorldEvent]) -> &[WorldEvent]
    ensures { result.now ≡ left_after chosen others.now }
{
    match chosen {
        Move::Step { .. } => others,
        Move::Other => match others.split_first() {
            Some((_, rest)) => rest,
            None => others,
        },
    }
}

/// Writes the events of these moves after the elements so far.
fn push_moves(
    alloc: Global,
    elements: &mut Vec<Json>,
    moves: &[Move],
    others: &[WorldEvent],
) -> Result<(), AllocError>
    ensures { OnOk result (map view elements.new.items ≡ map view elements.old.items ++ map written_event (events_along moves.now others.now)) }
{
    let mut left = others;
    for chosen in moves {
        push_move(alloc, elements, *chosen, left)?;
        left = left_after(*chosen, left);
    }
    Ok(())
}

/// The elements of a scenario before its events.
fn opening_values(alloc: Global, opening: Option<Opening>) -> Result<Vec<Json>, AllocError>
    ensures { IfOk result (λ elements. map view elements.items ≡ opening_elements opening) }
{
    let mut elements = Vec::new(alloc);
    if let Some(opening) = opening {
        let value = opening_json(alloc, opening)?;
        elements.push(value)?;
    }
    Ok(elements)
}

/// The scenario with the events of a schedule, as JSON.
fn scheduled_json(alloc: Global, scenario: &Scenario, moves: &[Move]) -> Result<Json, AllocError>
    ensures { IfOk result (λ v. view v ≡ written_scenario (scheduled scenario.now moves.now)) }
{
    let (setup, others) = setup_and_others(scenario.events.as_slice());
    let mut elements = opening_values(alloc, scenario.opening)?;
    push_events(alloc, &mut elements, setup)?;
    push_moves(alloc, &mut elements, moves, others)?;
    Ok(Json::Array(elements))
}

/// Adds the line of the scenario with the events of a schedule.
pub(crate) fn push_scheduled(
    alloc: Global,
    text: &mut String,
    scenario: &Scenario,
    moves: &[Move],
) -> Result<(), AllocError>
    ensures { OnOk result (string_bytes text.new ≡ string_bytes text.old ++ line_text (written_scenario (scheduled scenario.now moves.now))) }
{
    let line = scheduled_json(alloc, scenario, moves)?;
    push_line(alloc, text, &line)
}
