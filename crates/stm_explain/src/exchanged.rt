//! Inputs that stand in each other's place.

use crate::allowed::form_of;
use crate::forms::{Input, Part};
use crate::offsets::line_length;
use crate::walking::{form_of_line, word_of_line};
use serde_json::Value;
use std::alloc::{AllocError, Global};
use stm_json::worded_array;

/// The lines of a report that have no number.
const WITHOUT_A_NUMBER: [&str; 3] = ["key", "lease", "end"];

/// Whether a value is a line of a report: an array with a number and a known word, or with a word that stands without a number.
fn is_line(value: &Value) -> bool {
    let Some(form) = form_of_line(value) else {
        return false;
    };
    match word_of_line(value) == value.get(0) {
        true => WITHOUT_A_NUMBER.contains(&form.word),
        false => true,
    }
}

/// Whether a text begins as a list of arrays, after white space and with white space between the brackets.
fn begins_a_list(text: &[u8]) -> bool {
    let mut brackets = 0u8;
    for byte in text {
        match *byte {
            b'[' if brackets == 0 => brackets = 1,
            b'[' => return true,
            b' ' | b'\t' | b'\n' | b'\r' => {}
            _ => return false,
        }
    }
    false
}

/// Whether a text begins with a line of a report.
fn begins_a_report(alloc: Global, text: &[u8]) -> Result<bool, AllocError> {
    if begins_a_list(text) {
        return Ok(false);
    }
    let line = &text[..line_length(text)];
    match Value::from_slice(alloc, line) {
        Ok(value) => Ok(is_line(&value)),
        Err(error) if error.is_memory() => Err(AllocError),
        Err(_) => Ok(false),
    }
}

/// Whether an element begins as an event, or as what opens a scenario.
fn is_event(element: &Value) -> bool {
    match worded_array(element) {
        Some((word, _)) => form_of(Part::Event, word).is_some()
            || form_of(Part::Beginning, word).is_some(),
        None => false,
    }
}

/// Whether a text is a list that begins with an event.
fn is_scenario(alloc: Global, text: &[u8]) -> Result<bool, AllocError> {
    match Value::from_slice(alloc, text) {
        Ok(value) => Ok(match value.get(0) {
            Some(first) => is_event(first),
            None => false,
        }),
        Err(error) if error.is_memory() => Err(AllocError),
        Err(_) => Ok(false),
    }
}

/// What is said of a scenario in the place of a program.
fn of_program(alloc: Global, text: &[u8]) -> Result<Option<&'static str>, AllocError> {
    if is_scenario(alloc, text)? {
        return Ok(Some("this is a scenario, where a program is wanted"));
    }
    Ok(None)
}

/// What is said of a report in the place of a scenario, and of a scenario in the place of a report or a program.
pub(crate) fn exchanged(
    alloc: Global,
    input: Input,
    text: &[u8],
) -> Result<Option<&'static str>, AllocError> {
    match input {
        Input::Program => of_program(alloc, text),
        Input::Report => {
            if begins_a_list(text) {
                return Ok(Some(
                    "this is a scenario, where a report is wanted; check takes SCENARIO and then REPORT",
                ));
            }
            Ok(None)
        }
        _ => {
            if !begins_a_report(alloc, text)? {
                return Ok(None);
            }
            Ok(Some(match input {
                Input::Checked =>
                    "this is a report, where a scenario is wanted; check takes SCENARIO and then REPORT",
                _ => "this is a report, where a scenario is wanted",
            }))
        }
    }
}
