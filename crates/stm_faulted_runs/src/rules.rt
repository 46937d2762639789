//! The explanation of a rule that comes to a fault.
ghost use Rattle.std.specs.Prelude.{◌≡◌, ◌≤◌, Ok as OkOf, Some as SomeOf, IfOk, OnOk, string_bytes};
ghost use Rattle.serde_json.specs.View.{view};
ghost use Rattle.stm_journal.specs.StateOf.{IsStateOf};
ghost use Rattle.stm_program.specs.declared.limits.TheConstants.{MAX_NODES};
ghost use Rattle.stm_program_json.specs.Reading.{first_statement, program_of};
ghost use Rattle.stm_sites.specs.Found.{fault_of};
ghost use Rattle.stm_steps.specs.States.{state_answers};
ghost use Rattle.stm_texts.specs.Reading.{scenario_in};
ghost use Rattle.stm_world.specs.World.{world_after};
ghost use Rattle.stm_faulted_runs.specs.Places.{BeginsBelow};
ghost use Rattle.stm_faulted_runs.specs.Rules.{IsRuleLine, ExplainsProgram, ExplainsOver, ExplainsRule, IsFaultSaid, IsReasonSaid, SaysFault, SaysReason, rule_head, left_by};

use crate::lines::words_of;
use crate::places::{fault_in_program, place_of_fault};
use crate::scripts::Named;
use serde_json::Value as Json;
use std::alloc::{AllocError, Global};
use stm_explain::{Said, explained_at};
use stm_json::ReadError;
use stm_program::Program;
use stm_program_json::{first_statement, read_program, write_program};
use stm_retry::{State, World, WorldEvent};
use stm_sites::FoundFault;
use stm_steps::Fault;
use stm_texts::{Scenario, opens_with, read_scenario};

/// The head of a rule's line.
fn head_of_rule(alloc: Global, fault: Fault) -> Said
    ensures { IfOk result (λ head. string_bytes head ≡ rule_head fault) }
{
    format!(in alloc; "{fault} of the rule")
}

/// The line of a rule with this JSON that comes to a fault, and of whose elements the first statement is the one with this index.
fn fault_line(
    alloc: Global,
    rule: &Named<'_>,
    json: &Json,
    first: usize,
    found: &FoundFault,
) -> Said
    requires first { first ≤ 1 }
    requires few { BeginsBelow MAX_NODES found.now.site.place }
    ensures { IfOk result (λ line. IsRuleLine rule.now.name.now rule.now.text.now first found.now (string_bytes line)) }
{
    let place = place_of_fault(alloc, json, Vec::new(alloc), first, found)?;
    let head = head_of_rule(alloc, found.fault)?;
    let words = words_of(alloc, head.as_str(), place.more.as_str())?;
    let steps = place.steps.as_slice();
    explained_at(alloc, rule.name, rule.text, steps, words.as_str())
}

/// The line of a rule with this JSON and this program, where that comes to a fault on a state.
fn explained_with(
    alloc: Global,
    rule: &Named<'_>,
    json: &Json,
    first: usize,
    program: &Program,
    state: &State,
) -> Said
    requires { first ≤ 1 }
    ensures { IfOk result (λ line. ExplainsProgram rule.now.name.now rule.now.text.now first (state_answers state.now) (OkOf program.now) (string_bytes line)) }
{
    let found = fault_in_program(alloc, program, state)?;
    let line = match &found {
        Some(found) => fault_line(alloc, rule, json, first, found),
        None => Ok(String::new(alloc)),
    };
    drop(found);
    line
}

/// The line of a rule with this JSON, where the program that it spells comes to a fault on a state.
fn explained_on(alloc: Global, rule: &Named<'_>, json: &Json, state: &State) -> Said
    ensures { IfOk result (λ line. ExplainsProgram rule.now.name.now rule.now.text.now (first_statement (view json.now)) (state_answers state.now)
        (program_of (view json.now)) (string_bytes line)) }
{
    match read_program(alloc, json) {
        Ok(program) => {
            let first = first_statement(json);
            explained_with(alloc, rule, json, first, &program, state)
        }
        Err(ReadError::Bad(_)) => Ok(String::new(alloc)),
        Err(ReadError::OutOfMemory) => Err(AllocError),
    }
}

/// The line of a rule, where its text spells a program that comes to a fault on a state.
fn explained_by(alloc: Global, rule: &Named<'_>, state: &State) -> Said
    ensures { IfOk result (λ line. ExplainsOver rule.now.name.now rule.now.text.now (state_answers state.now) (string_bytes line)) }
{
    match Json::from_str(alloc, rule.text) {
        Ok(json) => explained_on(alloc, rule, &json, state),
        Err(error) => {
            if error.is_memory() {
                Err(AllocError)
            } else {
                Ok(String::new(alloc))
            }
        }
    }
}

/// Takes these events in a world.
fn run_all(world: &mut World, events: &[WorldEvent]) -> Result<(), AllocError>
    ensures { OnOk result (world.new ≡ world_after events.now world.old) }
{
    match world.run(events) {
        Ok(replies) => {
            drop(replies);
            Ok(())
        }
        Err(_) => Err(AllocError),
    }
}

/// The state after a scenario's run.
fn state_after(alloc: Global, scenario: &Scenario) -> Result<State, AllocError>
    ensures { IfOk result (IsStateOf (left_by scenario.now)) }
{
    let opening = opens_with(scenario.opening);
    let mut world = World::with_limits(alloc, opening.revision(), opening.operations())?;
    let outcome = run_all(&mut world, scenario.events.as_slice());
    let left = world.state();
    drop(world);
    match outcome {
        Ok(()) => left,
        Err(_) => Err(AllocError),
    }
}

/// The same, of a scenario that is dropped then.
fn state_left(alloc: Global, scenario: Scenario) -> Result<State, AllocError>
    ensures { IfOk result (IsStateOf (left_by scenario)) }
{
    let state = state_after(alloc, &scenario);
    drop(scenario);
    state
}

/// The line of a rule, where its program comes to a fault on the state that a scenario leaves.
fn explained_after(alloc: Global, rule: &Named<'_>, scenario: Scenario) -> Said
    ensures { IfOk result (λ line. ExplainsRule rule.now.name.now rule.now.text.now (OkOf scenario) (string_bytes line)) }
{
    let state = state_left(alloc, scenario)?;
    explained_by(alloc, rule, &state)
}

/// A line for a rule, where its program comes to a fault on the state after the scenario that this text spells; nothing otherwise:
/// `NAME:LINE:COLUMN: FAULT of the rule at PLACE: REASON`, as `faults_explained` has it of a run.
///
/// It fails where an allocation failed.
pub fn rule_explained(alloc: Global, rule: &Named<'_>, scenario: &str) -> Said
    ensures { IfOk result (λ line. ExplainsRule rule.now.name.now rule.now.text.now (scenario_in scenario.now) (string_bytes line)) }
{
    match read_scenario(alloc, scenario.as_bytes()) {
        Ok(scenario) => explained_after(alloc, rule, scenario),
        Err(ReadError::Bad(_)) => Ok(String::new(alloc)),
        Err(ReadError::OutOfMemory) => Err(AllocError),
    }
}

/// What is said of a fault that was found in a program with this JSON, of whose elements the first statement is the one with this index.
fn fault_at_place(alloc: Global, json: &Json, first: usize, found: &FoundFault) -> Said
    requires first { first ≤ 1 }
    requires few { BeginsBelow MAX_NODES found.now.site.place }
    ensures { IfOk result (λ said. IsFaultSaid first found.now (string_bytes said)) }
{
    let place = place_of_fault(alloc, json, Vec::new(alloc), first, found)?;
    words_of(alloc, found.fault.name(), place.more.as_str())
}

/// What is said of a fault that was found in a program.
fn fault_in(alloc: Global, program: &Program, found: &FoundFault) -> Said
    requires { BeginsBelow MAX_NODES found.now.site.place }
    ensures { IfOk result (λ said. IsReasonSaid program.now (SomeOf found.now) (string_bytes said)) }
{
    let json = write_program(alloc, program)?;
    let first = first_statement(&json);
    let said = fault_at_place(alloc, &json, first, found);
    drop(json);
    said
}

/// The fault to which a program comes, run alone on a state, its place in the program's JSON, and why: `FAULT at PLACE: REASON`; nothing where it comes to
/// none.
///
/// It fails where an allocation failed.
pub fn fault_on(alloc: Global, program: &Program, state: &State) -> Said
    ensures { IfOk result (λ said. SaysFault program.now state.now (string_bytes said)) }
{
    let found = fault_in_program(alloc, program, state)?;
    let said = match &found {
        Some(found) => fault_in(alloc, program, found),
        None => Ok(String::new(alloc)),
    };
    drop(found);
    said
}

/// What is said of a rule's program that comes to a fault on the state that a scenario leaves.
fn reason_after(alloc: Global, program: &Program, scenario: Scenario) -> Said
    ensures { IfOk result (λ said. SaysReason program.now (OkOf scenario) (string_bytes said)) }
{
    let state = state_left(alloc, scenario)?;
    fault_on(alloc, program, &state)
}

/// What `fault_on` says of a rule's program on the state after the scenario that this text spells.
///
/// It fails where an allocation failed.
pub fn rule_reason(alloc: Global, program: &Program, scenario: &str) -> Said
    ensures { IfOk result (λ said. SaysReason program.now (scenario_in scenario.now) (string_bytes said)) }
{
    match read_scenario(alloc, scenario.as_bytes()) {
        Ok(scenario) => reason_after(alloc, program, scenario),
        Err(ReadError::Bad(_)) => Ok(String::new(alloc)),
        Err(ReadError::OutOfMemory) => Err(AllocError),
    }
}
