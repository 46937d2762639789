//! The runs that a scenario begins, and its text.
ghost use Rattle.std.specs.Prelude.{◌≡◌, ◌≤◌, ◌++◌, [], ◌∷◌, nat_eq, if◌then◌else◌, is_some, map, slice_get, option_map, IfOk, OnOk};
ghost use Rattle.serde_json.specs.View.{view};
ghost use Rattle.stm_faulted_runs.specs.Places.{started_by, started_in, json_of};
ghost use Rattle.stm_faulted_runs.specs.Lines.{first_of, origin_of};
ghost use Rattle.stm_faulted_runs.specs.Origins.{started_as, origin_in};

use serde_json::Value as Json;
use std::alloc::{AllocError, Global};
use stm_explain::Marked;
use stm_program::Program;
use stm_retry::WorldEvent;
use stm_texts::Scenario;

/// A run that a scenario begins.
#[derive(Clone, Copy)]
pub(crate) struct StartedRun<'a> {
    /// The index of its start among the scenario's elements.
    pub(crate) element: usize,
    /// Its program.
    pub(crate) program: &'a Program,
}

/// The text of a scenario, and the runs that it begins.
#[derive(Drop)]
pub(crate) struct Explained<'a> {
    /// The text.
    pub(crate) marked: Marked<'a>,
    /// Its JSON.
    pub(crate) json: Json,
    /// The runs, in order.
    pub(crate) runs: Vec<StartedRun<'a>>,
}

/// Adds the run of a start, unless it may send no commit.
fn push_run<'a>(
    runs: &mut Vec<StartedRun<'a>>,
    element: usize,
    program: &'a Program,
    limit: u32,
) -> Result<(), AllocError>
    ensures { OnOk result (map started_as runs.new.items
        ≡ map started_as runs.old.items ++ (if nat_eq limit 0 then [] else record { element = element; program = program.now } ∷ [])) }
{
    if limit != 0 {
        runs.push(StartedRun { element, program })?;
    }
    Ok(())
}

/// Adds the run that an event begins, where it begins one.
fn push_started<'a>(
    runs: &mut Vec<StartedRun<'a>>,
    element: usize,
    event: &'a WorldEvent,
) -> Result<(), AllocError>
    ensures { OnOk result (map started_as runs.new.items ≡ map started_as runs.old.items ++ started_by element event.now) }
{
    match event {
        WorldEvent::Start { program, limit, .. } => push_run(runs, element, program, *limit),
        _ => Ok(()),
    }
}

/// The runs that events begin, of which the first is the element with this index.
fn runs_of<'a>(
    alloc: Global,
    first: usize,
    events: &'a [WorldEvent],
) -> Result<Vec<StartedRun<'a>>, AllocError>
    requires { first ≤ 1 }
    ensures { IfOk result (λ runs. map started_as runs.items ≡ started_in first events.now) }
{
    let mut runs = Vec::new(alloc);
    for (index, event) in events.iter().enumerate() {
        push_started(&mut runs, first + index, event)?;
    }
    Ok(runs)
}

/// The run with a number, counted from 0.
pub(crate) fn run_at<'a>(runs: &[StartedRun<'a>], number: u64) -> Option<StartedRun<'a>>
    ensures { option_map started_as result ≡ slice_get (map started_as runs.now) number }
{
    if number >= runs.len() as u64 {
        return None;
    }
    Some(runs[number as usize])
}

/// How many elements stand before the events of a scenario.
fn first_of(scenario: &Scenario) -> usize
    ensures is { result ≡ first_of (is_some scenario.now.opening) }
    ensures least { result ≤ 1 }
{
    if scenario.opening.is_some() { 1 } else { 0 }
}

/// The JSON that a text spells, null where it spells none.
fn json_of(alloc: Global, text: &str) -> Result<Json, AllocError>
    ensures { IfOk result (λ json. view json ≡ json_of text.now) }
{
    match Json::from_str(alloc, text) {
        Ok(json) => Ok(json),
        Err(error) => {
            if error.is_memory() {
                Err(AllocError)
            } else {
                Ok(Json::Null)
            }
        }
    }
}

/// A scenario that was read from the text under this name.
pub(crate) fn to_explain<'a>(
    alloc: Global,
    name: &'a str,
    text: &'a str,
    scenario: &'a Scenario,
) -> Result<Explained<'a>, AllocError>
    ensures { IfOk result (λ explained. origin_in explained ≡ origin_of name.now text.now scenario.now) }
{
    let events = scenario.events.as_slice();
    let first = first_of(scenario);
    let runs = runs_of(alloc, first, events)?;
    let marked = Marked::new(alloc, name, text, first + events.len())?;
    let json = json_of(alloc, text)?;
    Ok(Explained { marked, json, runs })
}
