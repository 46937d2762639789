//! Why a node stops a run, by its values.

use serde_json::{Value as Json, json};
use std::alloc::{AllocError, Global};
use stm_explain::{Said, shown};
use stm_program::Operator;
use stm_sites::Node;
use stm_steps::{Fault, Value};

/// A value as JSON.
fn json_of(alloc: Global, value: &Value) -> Result<Json, AllocError> {
    match value {
        Value::Text(text) => json!(in alloc; text.as_str()),
        Value::Number(number) => Ok(Json::from(*number)),
    }
}

/// A value in the spelling of programs; of one that is long, the front.
fn spelled(alloc: Global, value: &Value) -> Said {
    let json = json_of(alloc, value)?;
    shown(alloc, &json)
}

/// The value at an index of these, where there is one.
fn spelled_at(alloc: Global, values: &[Value], index: usize) -> Said {
    match values.get(index) {
        Some(value) => spelled(alloc, value),
        None => String::from_str(alloc, "a value"),
    }
}

/// What the result of an operator is called, of a remainder that of its division.
fn result_name(operator: Operator) -> &'static str {
    match operator {
        Operator::Add => "sum",
        Operator::Sub => "difference",
        Operator::Mul => "product",
        Operator::Div | Operator::Rem => "quotient",
    }
}

/// What the result of a node is called, and the sign of its operator.
fn operation_of(node: Node) -> (&'static str, &'static str) {
    match node {
        Node::Operation(operator) => (result_name(operator), operator.sign()),
        _ => ("result", "and"),
    }
}

/// Why the result of an operator is none.
fn of_overflow(alloc: Global, node: Node, values: &[Value]) -> Said {
    let (name, sign) = operation_of(node);
    let left = spelled_at(alloc, values, 0)?;
    let right = spelled_at(alloc, values, 1)?;
    format!(in alloc; "{name} out of range: {left} {sign} {right}")
}

/// Why a division is none.
fn of_zero(alloc: Global, node: Node, values: &[Value]) -> Said {
    let (_, sign) = operation_of(node);
    let left = spelled_at(alloc, values, 0)?;
    format!(in alloc; "division by zero: {left} {sign} 0")
}

/// Why a count is no number of turns.
fn of_count(alloc: Global, node: Node, values: &[Value]) -> Said {
    let count = spelled_at(alloc, values, 0)?;
    match node {
        Node::Loop(limit) => {
            format!(in alloc; "{count} turns are more than the loop's limit, {limit}")
        }
        _ => format!(in alloc; "{count} turns are more than the loop's limit"),
    }
}

/// How many bytes the text at an index of these has.
fn length_at(values: &[Value], index: usize) -> usize {
    match values.get(index) {
        Some(Value::Text(text)) => text.as_str().len(),
        _ => 0,
    }
}

/// Why two texts are not put together.
fn of_length(alloc: Global, values: &[Value]) -> Said {
    let front = length_at(values, 0);
    let back = length_at(values, 1);
    format!(in alloc; "a text of {front} bytes and one of {back} are more than 65536 together")
}

/// The first of these that is a text, or that is a number.
fn first_of_kind(values: &[Value], is_text: bool) -> Option<&Value> {
    for value in values {
        if matches!(value, Value::Text(_)) == is_text {
            return Some(value);
        }
    }
    None
}

/// What is said of the first of these that is no number.
fn of_text(alloc: Global, values: &[Value]) -> Said {
    match first_of_kind(values, true) {
        Some(value) => {
            let value = spelled(alloc, value)?;
            format!(in alloc; "{value} is a text, where a number is wanted")
        }
        None => String::from_str(alloc, "a number is wanted"),
    }
}

/// What is said of the first of these that is no text.
fn of_number(alloc: Global, values: &[Value]) -> Said {
    match first_of_kind(values, false) {
        Some(value) => {
            let value = spelled(alloc, value)?;
            format!(in alloc; "{value} is a number, where a text is wanted")
        }
        None => String::from_str(alloc, "a text is wanted"),
    }
}

/// What is said of two values of which one is a text and the other a number.
fn of_two_kinds(alloc: Global, values: &[Value]) -> Said {
    let left = spelled_at(alloc, values, 0)?;
    let right = spelled_at(alloc, values, 1)?;
    format!(in alloc;
        "{left} and {right} are of two kinds, where two numbers or two texts are wanted"
    )
}

/// Why values are not of the kinds that a node wants.
fn of_kind(alloc: Global, node: Node, values: &[Value]) -> Said {
    match node {
        Node::Operation(_) | Node::Loop(_) | Node::OfNumber => of_text(alloc, values),
        Node::OfText => of_number(alloc, values),
        Node::Comparison => of_two_kinds(alloc, values),
    }
}

/// Why a node stops its run by a fault, where its parts gave these values.
pub(crate) fn reason(alloc: Global, fault: Fault, node: Node, values: &[Value]) -> Said {
    match fault {
        Fault::Kind => of_kind(alloc, node, values),
        Fault::Overflow => of_overflow(alloc, node, values),
        Fault::ZeroDivisor => of_zero(alloc, node, values),
        Fault::NotANumber => {
            let value = spelled_at(alloc, values, 0)?;
            format!(in alloc; "{value} is no whole number of 64 bits")
        }
        Fault::LoopTooLong => of_count(alloc, node, values),
        Fault::TurnLimit => String::from_str(alloc, "the loops of the run have had 10000 turns"),
        Fault::TextTooLong => of_length(alloc, values),
        Fault::EmptyKey => String::from_str(alloc, "the key is \"\""),
    }
}

/// This reason, with the key whose value is the "" in it.
pub(crate) fn reason_with_key(alloc: Global, reason: String, key: &str) -> Said {
    let key = Json::String(String::from_str(alloc, key)?);
    let key = shown(alloc, &key)?;
    format!(in alloc; "{reason}; the key {key} is absent, or its value \"\"")
}
