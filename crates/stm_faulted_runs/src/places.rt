//! Where a fault stands in a text of JSON, and what is said of it.
ghost use Rattle.std.specs.Prelude.{◌≡◌, ◌≤◌, ◌++◌, [], ◌∷◌, Some as SomeOf, codes, slice_get, IfOk, IfSome, OnOk, string_bytes};
ghost use Rattle.serde_json.specs.View.{view};
ghost use Rattle.stm_json.specs.Outcome.{step};
ghost use Rattle.stm_program.specs.declared.limits.TheConstants.{MAX_NODES};
ghost use Rattle.stm_sites.specs.Found.{fault_of};
ghost use Rattle.stm_faulted_runs.specs.Places.{pointer, counted_from, first_in, BeginsBelow, ReturnsPlace, IsMore, IsMoreOf};
ghost use Rattle.stm_faulted_runs.specs.Origins.{origin_in};

use crate::absent::empty_key;
use crate::reasons::{reason, reason_with_key};
use crate::runs::{Explained, StartedRun, run_at};
use serde_json::Value as Json;
use std::alloc::{AllocError, Global};
use stm_explain::Said;
use stm_program::Program;
use stm_program_json::first_statement;
use stm_sites::{FoundFault, find_fault};
use stm_steps::{Fault, Lookup};

/// Where a fault stands, and what is said of that.
#[derive(Drop)]
pub(crate) struct Place {
    /// The indices that lead there.
    pub(crate) steps: Vec<usize>,
    /// The words.
    pub(crate) more: String,
}

/// Adds an index to a JSON Pointer.
fn push_step(alloc: Global, text: &mut String, index: usize) -> Result<(), AllocError>
    ensures { OnOk result (string_bytes text.new ≡ string_bytes text.old ++ step index) }
{
    let part = format!(in alloc; "/{index}")?;
    text.push_str(part.as_str())?;
    Ok(())
}

/// The JSON Pointer of these indices.
pub(crate) fn pointer_of(alloc: Global, steps: &[usize]) -> Said
    ensures { IfOk result (λ p. string_bytes p ≡ pointer steps.now) }
{
    let mut text = String::new(alloc);
    for step in steps {
        push_step(alloc, &mut text, *step)?;
    }
    Ok(text)
}

/// What is said of a fault at a place with this pointer.
fn words_at(alloc: Global, pointer: &str, reason: &str) -> Said
    ensures { IfOk result (λ more. string_bytes more ≡ codes " at " ++ pointer.now ++ codes ": " ++ reason.now) }
{
    format!(in alloc; " at {pointer}: {reason}")
}

/// What is said of a fault at a place.
fn words_of(alloc: Global, steps: &[usize], reason: &str) -> Said
    ensures { IfOk result (λ more. ReturnsPlace steps.now (string_bytes more)) }
{
    let pointer = pointer_of(alloc, steps)?;
    words_at(alloc, pointer.as_str(), reason)
}

/// Why a fault was found, with the key that is absent, or holds "", where it is for that. These indices lead to its place in the text of this JSON.
fn reason_of(alloc: Global, whole: &Json, steps: &[usize], found: &FoundFault) -> Said {
    let site = &found.site;
    let reason = reason(alloc, found.fault, site.node, site.values.as_slice())?;
    match empty_key(whole, steps, site) {
        Some(key) => reason_with_key(alloc, reason, key),
        None => Ok(reason),
    }
}

/// What is said of a fault that was found, at its place in the text of this JSON.
fn more_of(alloc: Global, whole: &Json, steps: &[usize], found: &FoundFault) -> Said
    ensures { IfOk result (λ more. ReturnsPlace steps.now (string_bytes more)) }
{
    let reason = reason_of(alloc, whole, steps, found)?;
    let more = words_of(alloc, steps, reason.as_str());
    drop(reason);
    more
}

/// The fault by which the run of a program over a look-up ends, if there is one. Its place begins with the index of a statement, of which a program
/// has no more than it may have nodes.
pub(crate) fn fault_in_program<L: Lookup>(
    alloc: Global,
    program: &Program,
    lookup: &L,
) -> Result<Option<FoundFault>, AllocError>
    ensures found { IfOk result (λ found. found ≡ fault_of (L.answers lookup.now) program.now.statements) }
    ensures few { IfOk result (λ found. IfSome found (λ fault. BeginsBelow MAX_NODES fault.site.place)) }
{
    // The program is within its limits.
    program.statements();
    find_fault(alloc, program, lookup)
}

/// Adds the indices of a place in the statements of a program, of which the first is the element with this index.
fn push_place(steps: &mut Vec<usize>, first: usize, place: &[usize]) -> Result<(), AllocError>
    requires first { first ≤ 1 }
    requires few { BeginsBelow MAX_NODES place.now }
    ensures { OnOk result (steps.new.items ≡ steps.old.items ++ counted_from first place.now) }
{
    match place {
        [] => Ok(()),
        [index, inner @ ..] => {
            steps.push(first + *index)?;
            steps.extend_from_slice(inner)
        }
    }
}

/// The place of a fault that was found in the program to which these indices lead in this JSON, and of whose elements the first statement is the one
/// with this index.
pub(crate) fn place_of_fault(
    alloc: Global,
    whole: &Json,
    steps: Vec<usize>,
    first: usize,
    found: &FoundFault,
) -> Result<Place, AllocError>
    requires first { first ≤ 1 }
    requires few { BeginsBelow MAX_NODES found.now.site.place }
    ensures { IfOk result (λ place. ReturnsPlace (steps.items ++ counted_from first found.now.site.place) (string_bytes place.more)) }
{
    let mut steps = steps;
    push_place(&mut steps, first, found.site.place.as_slice())?;
    let more = more_of(alloc, whole, steps.as_slice(), found)?;
    Ok(Place { steps, more })
}

/// A place of which nothing more is said.
fn bare_place(alloc: Global, steps: Vec<usize>) -> Place
    ensures { string_bytes result.more ≡ [] }
{
    let more = String::new(alloc);
    Place { steps, more }
}

/// The place of an element.
fn place_of_element(alloc: Global, element: usize) -> Result<Place, AllocError>
    ensures { IfOk result (λ place. string_bytes place.more ≡ []) }
{
    let mut steps = Vec::new(alloc);
    steps.push(element)?;
    Ok(bare_place(alloc, steps))
}

/// The index of the first statement in the program of the start that is an element of a scenario with this JSON.
fn first_in(scenario: &Json, element: usize) -> usize
    ensures is { result ≡ first_in (view scenario.now) element }
    ensures least { result ≤ 1 }
{
    let Some(start) = scenario.get(element) else {
        return 0;
    };
    match start.get(3usize) {
        Some(program) => first_statement(program),
        None => 0,
    }
}

/// The place of a fault that was found in the program of the start that is an element of a scenario with this JSON.
fn place_in_element(
    alloc: Global,
    scenario: &Json,
    element: usize,
    found: &FoundFault,
) -> Result<Place, AllocError>
    requires { BeginsBelow MAX_NODES found.now.site.place }
    ensures { IfOk result (λ place. ReturnsPlace (element ∷ 3 ∷ counted_from (first_in (view scenario.now) element) found.now.site.place) (string_bytes place.more)) }
{
    let first = first_in(scenario, element);
    let mut steps = Vec::new(alloc);
    steps.push(element)?;
    steps.push(3)?;
    place_of_fault(alloc, scenario, steps, first, found)
}

/// The place of a fault that was found so, where it is this one; else that of its start.
fn place_where_same(
    alloc: Global,
    scenario: &Json,
    element: usize,
    fault: Fault,
    found: &FoundFault,
) -> Result<Place, AllocError>
    requires { BeginsBelow MAX_NODES found.now.site.place }
    ensures { IfOk result (λ place. IsMore (view scenario.now) element fault (SomeOf found.now) (string_bytes place.more)) }
{
    if found.fault == fault {
        place_in_element(alloc, scenario, element, found)
    } else {
        place_of_element(alloc, element)
    }
}

/// Where a run comes to this fault over a look-up: the node, or its start, where it comes to no such fault.
fn place_in_run<L: Lookup>(
    alloc: Global,
    scenario: &Json,
    run: &StartedRun<'_>,
    lookup: &L,
    fault: Fault,
) -> Result<Place, AllocError>
    ensures { IfOk result (λ place. IsMore (view scenario.now) run.now.element fault (fault_of (L.answers lookup.now) run.now.program.now.statements) (string_bytes place.more)) }
{
    let found = fault_in_program(alloc, run.program, lookup)?;
    let place = match &found {
        Some(found) => place_where_same(alloc, scenario, run.element, fault, found),
        None => place_of_element(alloc, run.element),
    };
    drop(found);
    place
}

/// Where the run with a number, counted from 0, comes to this fault over a look-up; the whole scenario, where there is no such run.
pub(crate) fn place_of_run<L: Lookup>(
    alloc: Global,
    explained: &Explained<'_>,
    number: u64,
    lookup: &L,
    fault: Fault,
) -> Result<Place, AllocError>
    ensures { IfOk result (λ place. IsMoreOf (view explained.now.json) (slice_get (origin_in explained.now).runs number) (L.answers lookup.now) fault (string_bytes place.more)) }
{
    match run_at(explained.runs.as_slice(), number) {
        Some(run) => place_in_run(alloc, &explained.json, &run, lookup, fault),
        None => Ok(bare_place(alloc, Vec::new(alloc))),
    }
}
