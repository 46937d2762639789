//! The key of which a node had "" where a run stopped. Most such keys are misspelt.

use serde_json::Value as Json;
use stm_json::worded_array;
use stm_sites::{Node, Site};
use stm_steps::Value;

/// The value to which these indices lead, each in the array that the ones before it lead to.
fn value_at<'a>(whole: &'a Json, steps: &[usize]) -> Option<&'a Json> {
    let mut value = whole;
    for step in steps {
        value = value.get(*step)?;
    }
    Some(value)
}

/// The key of a `get` whose key is a text.
fn key_of(part: &Json) -> Option<&str> {
    match worded_array(part)? {
        ("get", [key]) => key.as_str(),
        _ => None,
    }
}

/// Whether a value is the text "".
fn is_empty(value: &Value) -> bool {
    match value {
        Value::Text(text) => text.as_str().is_empty(),
        Value::Number(_) => false,
    }
}

/// The index of the first part of a node that gives it a value.
fn first_part(node: Node) -> usize {
    match node {
        Node::Loop(_) => 2,
        Node::Operation(_) | Node::OfNumber | Node::OfText | Node::Comparison => 1,
    }
}

/// The key whose value "" is the first one that a node was given by the `get` of a text. The node is the one to which these indices lead.
pub(crate) fn empty_key<'a>(whole: &'a Json, steps: &[usize], site: &Site) -> Option<&'a str> {
    let node = value_at(whole, steps)?;
    let first = first_part(site.node);
    for (index, value) in site.values.as_slice().iter().enumerate() {
        if is_empty(value) {
            return key_of(node.get(first.saturating_add(index))?);
        }
    }
    None
}
