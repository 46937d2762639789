//! Rules and finals that are broken by a fault, and why they come to it.

use crate::audience::Audience;
use crate::beginning::{run_setup, world_of};
use crate::judging::Answer;
use crate::rules::RuleAnswer;
use crate::schedule_lines::push_scheduled;
use std::alloc::{AllocError, Global};
use stm_explain::Said;
use stm_explore::{Explored, KeyValue, Move, RunnerEnd, When, laid};
use stm_faulted_runs::{fault_on, rule_reason};
use stm_history::Text;
use stm_json::ReadError;
use stm_meaning::End;
use stm_program::Program;
use stm_retry::World;
use stm_steps::State;
use stm_texts::{Scenario, WorldEvent, read_scenario};

/// What is said where an allocation failed for a reason.
const NO_MEMORY: &str = "out of memory: why a rule comes to a fault is not known";

/// The schedule after which a rule comes to a fault, if it is broken by one.
fn schedule_to_fault(answer: &Answer) -> Option<&[Move]> {
    match answer {
        Answer::BySchedules(
            Explored::Broken {
                moves,
                end: End::Faulted(_),
            },
        ) => Some(moves.as_slice()),
        Answer::BrokenByOrder(found) => match &found.end {
            End::Faulted(_) => Some(found.moves.as_slice()),
            _ => None,
        },
        _ => None,
    }
}

/// The scenario with the events of a schedule.
fn scheduled(
    alloc: Global,
    scenario: &Scenario,
    moves: &[Move],
) -> Result<Option<Scenario>, AllocError> {
    let mut text = String::new(alloc);
    push_scheduled(alloc, &mut text, scenario, moves)?;
    match read_scenario(alloc, text.as_str().as_bytes()) {
        Ok(scheduled) => Ok(Some(scheduled)),
        Err(ReadError::Bad(_)) => Ok(None),
        Err(ReadError::OutOfMemory) => Err(AllocError),
    }
}

/// Lays over a state what a final sees of the ends of runners.
fn lay_over(
    alloc: Global,
    state: &mut State,
    ends: &[Option<RunnerEnd>],
) -> Result<(), AllocError> {
    for seen in laid(alloc, ends)? {
        let KeyValue { key, value } = seen;
        state.insert(key, value, 0)?;
    }
    Ok(())
}

/// What a final sees in a world, once these events have run in it.
fn state_behind(
    alloc: Global,
    world: &mut World,
    events: &[WorldEvent],
) -> Result<State, AllocError> {
    let ends = run_setup(alloc, world, events)?;
    let mut state = world.state()?;
    lay_over(alloc, &mut state, ends.as_slice())?;
    Ok(state)
}

/// What a final sees where a scenario has run.
fn last_state(alloc: Global, scenario: &Scenario) -> Result<State, AllocError> {
    let mut world = world_of(alloc, scenario)?;
    let state = state_behind(alloc, &mut world, scenario.events.as_slice());
    drop(world);
    state
}

/// To which fault a final comes where this has run, and why.
fn final_reason(alloc: Global, program: &Program, ran: Option<&Scenario>) -> Said {
    match ran {
        Some(scenario) => {
            let state = last_state(alloc, scenario)?;
            fault_on(alloc, program, &state)
        }
        None => Ok(String::new(alloc)),
    }
}

/// The line of a final of a name that comes to a fault after a schedule.
fn final_line(
    alloc: Global,
    scenario: &Scenario,
    name: &Text,
    program: &Program,
    moves: &[Move],
) -> Said {
    let ran = scheduled(alloc, scenario, moves)?;
    let reason = final_reason(alloc, program, ran.as_ref());
    drop(ran);
    let reason = reason?;
    let name = name.as_str();
    format!(in alloc; "the final {name} comes to {reason}")
}

/// The line of a rule of a name that comes to a fault after a schedule.
fn rule_line(
    alloc: Global,
    scenario: &Scenario,
    name: &Text,
    program: &Program,
    moves: &[Move],
) -> Said {
    let mut schedule = String::new(alloc);
    push_scheduled(alloc, &mut schedule, scenario, moves)?;
    let reason = rule_reason(alloc, program, schedule.as_str())?;
    drop(schedule);
    let name = name.as_str();
    format!(in alloc; "the rule {name} comes to {reason}")
}

/// Says of a rule or a final with a name why it comes to a fault, if it is broken by one.
fn tell_fault<O: Audience>(
    alloc: Global,
    scenario: &Scenario,
    a: &RuleAnswer,
    audience: &mut O,
) -> Result<(), AllocError> {
    let Some(name) = &a.rule.name else {
        return Ok(());
    };
    if let Some(moves) = schedule_to_fault(&a.answer) {
        let program = &a.rule.program;
        let line = match a.rule.when {
            When::Each => rule_line(alloc, scenario, name, program, moves)?,
            When::Last => final_line(alloc, scenario, name, program, moves)?,
        };
        audience.hear_fault(line.as_str());
    }
    Ok(())
}

/// Says of each rule with a name why it comes to a fault, if it is broken by one, where all is to be said. Or it says that an allocation failed for it.
pub(crate) fn tell_faults<O: Audience>(
    alloc: Global,
    scenario: &Scenario,
    answers: &[RuleAnswer],
    audience: &mut O,
) {
    if !audience.wants_all() {
        return;
    }
    for a in answers {
        if tell_fault(alloc, scenario, a, audience).is_err() {
            audience.hear(NO_MEMORY);
            return;
        }
    }
}
