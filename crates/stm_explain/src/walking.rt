//! From the place of a fault to the value there, and to what is expected in its place.

use crate::allowed::{form_of, parts_after};
use crate::forms::{Form, Input, Part};
use serde_json::Value;
use std::alloc::{AllocError, Global};
use stm_json::worded_array;

/// A value of an input, and what is expected in its place.
#[derive(Clone, Copy)]
pub(crate) struct Found<'a> {
    /// What is expected.
    pub(crate) part: Part,
    /// The value.
    pub(crate) value: &'a Value,
}

/// What is expected in the place of the whole input; of a report, in that of a line.
pub(crate) fn whole_of(input: Input) -> Part {
    match input {
        Input::Scenario | Input::Checked | Input::Jobs | Input::Search => Part::Scenario,
        Input::Program => Part::Program,
        Input::Report => Part::Line,
    }
}

/// What is expected in such a place of this input.
fn wanted(input: Input, part: Part) -> Part {
    match (input, part) {
        (Input::Jobs, Part::Limit) => Part::JobLimit,
        _ => part,
    }
}

/// The word of a line of a report: its first element, or the one after a number.
pub(crate) fn word_of_line(line: &Value) -> Option<&Value> {
    let first = line.get(0)?;
    if first.is_number() {
        line.get(1)
    } else {
        Some(first)
    }
}

/// The form of a line of a report, where it has one.
pub(crate) fn form_of_line(line: &Value) -> Option<Form> {
    form_of(Part::Line, word_of_line(line)?.as_str()?)
}

/// The indices that a place leads by, each in the array that the ones before it lead to.
pub(crate) fn steps_of(alloc: Global, place: &str) -> Result<Vec<usize>, AllocError> {
    let mut steps = Vec::new(alloc);
    for part in place.split('/') {
        if let Ok(index) = part.parse::<usize>() {
            steps.push(index)?;
        }
    }
    Ok(steps)
}

/// Whether a value is an array that begins with the word `begin`.
fn begins(value: &Value) -> bool {
    match worded_array(value) {
        Some((word, _)) => word == "begin",
        None => false,
    }
}

/// What is expected at an index of an array that begins with a word; `None` where the word is not allowed, or has nothing there.
fn part_of(part: Part, array: &Value, index: usize) -> Option<Part> {
    let (word, _) = worded_array(array)?;
    parts_after(part, word)?.at(index)
}

/// What is expected at an index of a scenario, whose element there is this.
fn event_part(index: usize, element: &Value) -> Part {
    if index == 0 && begins(element) {
        Part::Beginning
    } else {
        Part::Event
    }
}

/// What is expected at an index of a program.
fn element_part(index: usize) -> Part {
    if index == 0 {
        Part::FirstElement
    } else {
        Part::Statement
    }
}

/// What is expected at an index of an array of this input, whose element there is this.
pub(crate) fn part_within(
    input: Input,
    part: Part,
    array: &Value,
    index: usize,
    element: &Value,
) -> Option<Part> {
    match part {
        Part::Scenario => Some(event_part(index, element)),
        Part::Program => Some(element_part(index)),
        Part::Block => Some(Part::Statement),
        Part::Keys => Some(Part::ListedKey),
        Part::Compares => Some(Part::Compare),
        Part::Operations => Some(Part::Operation),
        Part::Line | Part::OfLine => Some(Part::OfLine),
        _ => Some(wanted(input, part_of(part, array, index)?)),
    }
}

/// The element of an array that was found, and what is expected there; `None` where it has none there.
fn element<'a>(input: Input, found: Found<'a>, index: usize) -> Option<Found<'a>> {
    let value = found.value.get(index)?;
    let part = part_within(input, found.part, found.value, index, value)?;
    Some(Found { part, value })
}

/// The value that some steps lead to in an input, and what is expected in its place; `None` where they lead to none.
pub(crate) fn walk<'a>(input: Input, value: &'a Value, steps: &[usize]) -> Option<Found<'a>> {
    let part = whole_of(input);
    let mut found = Found { part, value };
    for index in steps {
        found = element(input, found, *index)?;
    }
    Some(found)
}
