//! Why steps of runners are refused: their runs had ended, or had not begun.

use crate::parts::{behind, list_of, number_at, text_at};
use serde_json::Value as Json;
use std::alloc::{AllocError, Global};
use stm_explain::Said;

/// How the run of a runner ended.
#[derive(Clone, Copy)]
struct Ended {
    runner: u64,
    how: &'static str,
    event: u64,
    /// The store's revision behind its commit.
    revision: Option<u64>,
}

/// Steps of a runner that are refused.
#[derive(Clone, Copy)]
struct Late {
    runner: u64,
    /// How its run had ended, if it had begun.
    ended: Option<Ended>,
    /// The event of the first of them.
    first: u64,
    count: u64,
}

/// How a run ended that has this word in its line; nothing of other words.
fn ending_of(word: &str) -> Option<&'static str> {
    match word {
        "committed" => Some("committed"),
        "gaveup" => Some("gave up"),
        "aborted" => Some("aborted"),
        "faulted" => Some("came to a fault"),
        "ended" => Some("was ended by the store"),
        _ => None,
    }
}

/// How a run ended with an event, by the elements of the event's line.
fn ended_in(parts: &[Json], event: u64) -> Option<Ended> {
    let how = ending_of(text_at(parts, 1)?)?;
    let runner = number_at(parts, 2)?;
    let revision = if how == "committed" {
        number_at(parts, 3)
    } else {
        None
    };
    Some(Ended {
        runner,
        how,
        event,
        revision,
    })
}

/// The events of a scenario, without what stands before them.
fn events_of(scenario: &Json) -> &[Json] {
    let elements = list_of(scenario);
    match elements.first() {
        Some(first) if text_at(list_of(first), 0) == Some("begin") => behind(elements, 1),
        _ => elements,
    }
}

/// The runner of whom the event with a number is a step.
fn runner_at(events: &[Json], number: u64) -> Option<u64> {
    let event = list_of(events.get(number.saturating_sub(1) as usize)?);
    if text_at(event, 0)? == "step" {
        number_at(event, 1)
    } else {
        None
    }
}

/// Where such steps of a runner are among these, before which its run had ended, or had not begun.
fn place_of(late: &[Late], runner: u64, has_ended: bool) -> Option<usize> {
    for place in 0..late.len() {
        let known = &late[place];
        if known.runner == runner && known.ended.is_some() == has_ended {
            return Some(place);
        }
    }
    None
}

/// Counts a step of a runner that is refused with an event.
fn count_late(
    late: &mut Vec<Late>,
    ended: &[Ended],
    runner: u64,
    event: u64,
) -> Result<(), AllocError> {
    let ended = ended.iter().find(|ended| ended.runner == runner).copied();
    if let Some(place) = place_of(late.as_slice(), runner, ended.is_some()) {
        if place < late.len() {
            late[place].count = late[place].count.saturating_add(1);
        }
        return Ok(());
    }
    late.push(Late {
        runner,
        ended,
        first: event,
        count: 1,
    })?;
    Ok(())
}

/// Whether the elements of a line say that a step is refused since its runner does not run.
fn is_late(parts: &[Json]) -> bool {
    text_at(parts, 1) == Some("refused") && text_at(parts, 2) == Some("NoRunner")
}

/// Takes a line of a report in.
fn take_line(
    late: &mut Vec<Late>,
    ended: &mut Vec<Ended>,
    events: &[Json],
    parts: &[Json],
) -> Result<(), AllocError> {
    let Some(event) = number_at(parts, 0) else {
        return Ok(());
    };
    if let Some(end) = ended_in(parts, event) {
        ended.push(end)?;
        return Ok(());
    }
    if !is_late(parts) {
        return Ok(());
    }
    match runner_at(events, event) {
        Some(runner) => count_late(late, ended.as_slice(), runner, event),
        None => Ok(()),
    }
}

/// Why steps of a runner are refused.
fn reason_of(alloc: Global, late: &Late) -> Said {
    match late.ended {
        None => String::from_str(alloc, "was not started before"),
        Some(
            Ended {
                how,
                event,
                revision: Some(revision),
                ..
            },
        ) => format!(in alloc; "{how} at event {event}, revision {revision}"),
        Some(Ended { how, event, .. }) => format!(in alloc; "{how} at event {event}"),
    }
}

/// The line of steps that are refused.
fn line_of(alloc: Global, late: &Late) -> Said {
    let reason = reason_of(alloc, late)?;
    let Late {
        runner,
        first,
        count,
        ..
    } = *late;
    if count == 1 {
        return format!(in alloc;
            "runner {runner} {reason}: its step at event {first} is refused\n"
        );
    }
    format!(in alloc;
        "runner {runner} {reason}: {count} steps are refused, from event {first} on\n"
    )
}

/// The steps that are refused in the run of a scenario with this report.
fn late_in(alloc: Global, scenario: &Json, report: &str) -> Result<Vec<Late>, AllocError> {
    let events = events_of(scenario);
    let mut late = Vec::new(alloc);
    let mut ended = Vec::new(alloc);
    for line in report.lines() {
        if let Ok(json) = Json::from_str(alloc, line) {
            take_line(&mut late, &mut ended, events, list_of(&json))?;
        }
    }
    Ok(late)
}

/// Why steps are refused as `NoRunner` in the run of a scenario, by its line of JSON and the report of the run: a line for each runner, with a line feed, in the order
/// of the first such steps. It fails only when out of memory.
pub fn late_steps_in_words(alloc: Global, scenario: &str, report: &str) -> Said {
    let mut out = String::new(alloc);
    if let Ok(scenario) = Json::from_str(alloc, scenario) {
        for late in late_in(alloc, &scenario, report)? {
            let line = line_of(alloc, &late)?;
            out.push_str(line.as_str())?;
        }
    }
    Ok(out)
}
