//! Scenarios and programs as lines of JSON.
ghost use Rattle.std.specs.Prelude.{◌≡◌, [], ◌∷◌, ◌++◌, map, IfOk, OnOk, string_bytes};
ghost use Rattle.serde_json.specs.View.{view};
ghost use Rattle.stm_program_json.specs.Writing.{written_program};
ghost use Rattle.stm_report_lines.specs.Text.{line_text};
ghost use Rattle.stm_texts.specs.Writing.{opening_elements, written_event, written_scenario};

use serde_json::Value as Json;
use std::alloc::{AllocError, Global};
use stm_explain::Said;
use stm_program::Program;
use stm_program_json::write_program;
use stm_report_lines::push_line;
use stm_texts::{Opening, Scenario, WorldEvent, event_json, opening_json};

/// The elements of a scenario before its events.
fn opening_values(alloc: Global, opening: Option<Opening>) -> Result<Vec<Json>, AllocError>
    ensures { IfOk result (λ elements. map view elements.items ≡ opening_elements opening) }
{
    let mut elements = Vec::new(alloc);
    if let Some(opening) = opening {
        let value = opening_json(alloc, opening)?;
        elements.push(value)?;
    }
    Ok(elements)
}

/// Adds the JSON of an event to the elements so far.
fn push_event(alloc: Global, elements: &mut Vec<Json>, event: &WorldEvent) -> Result<(), AllocError>
    ensures { OnOk result (map view elements.new.items ≡ map view elements.old.items ++ written_event event.now ∷ []) }
{
    let value = event_json(alloc, event)?;
    elements.push(value)?;
    Ok(())
}

/// Adds the JSON of these events to the elements so far.
fn push_events(
    alloc: Global,
    elements: &mut Vec<Json>,
    events: &[WorldEvent],
) -> Result<(), AllocError>
    ensures { OnOk result (map view elements.new.items ≡ map view elements.old.items ++ map written_event events.now) }
{
    for event in events {
        push_event(alloc, elements, event)?;
    }
    Ok(())
}

/// A scenario as JSON.
fn scenario_json(alloc: Global, scenario: &Scenario) -> Result<Json, AllocError>
    ensures { IfOk result (λ v. view v ≡ written_scenario scenario.now) }
{
    let mut elements = opening_values(alloc, scenario.opening)?;
    push_events(alloc, &mut elements, scenario.events.as_slice())?;
    Ok(Json::Array(elements))
}

/// The line of a scenario: it as compact JSON, in its one spelling, and a line feed.
pub(crate) fn scenario_line(alloc: Global, scenario: &Scenario) -> Said
    ensures { IfOk result (λ line. string_bytes line ≡ line_text (written_scenario scenario.now)) }
{
    let value = scenario_json(alloc, scenario)?;
    let mut line = String::new(alloc);
    push_line(alloc, &mut line, &value)?;
    Ok(line)
}

/// The line of a program: it as compact JSON, in its one spelling, and a line feed.
pub(crate) fn program_line(alloc: Global, program: &Program) -> Said
    ensures { IfOk result (λ line. string_bytes line ≡ line_text (written_program program.now)) }
{
    let value = write_program(alloc, program)?;
    let mut line = String::new(alloc);
    push_line(alloc, &mut line, &value)?;
    Ok(line)
}
