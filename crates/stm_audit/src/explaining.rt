//! Why a text is no trace, in words for people.

use crate::reading::read_trace;
use serde_json::Value as Json;
use std::alloc::{AllocError, Global};
use stm_events::{KeyState, Text};
use stm_explain::{Input, explain, explained_at, shown};
use stm_json::{BadInput, Cause, ReadError};
use stm_txn::Checkpoint;

/// What is wanted at the place to which these indices lead inside what a trace begins with.
fn wanted_of_beginning(steps: &[usize]) -> &'static str {
    match steps {
        [] => "[\"begin\",REVISION,[[KEY,VALUE,MOD],..]]",
        [1] | [2, _, 2] => "a revision, a whole number from 1 to 9223372036854775806,",
        [2] => "an array of keys [KEY,VALUE,MOD]",
        [2, _] => "a key [KEY,VALUE,MOD]",
        _ => "a text",
    }
}

/// What is wanted at the place of a trace to which these indices lead.
fn wanted(steps: &[usize]) -> &'static str {
    match steps {
        [] => "a trace, an array of commits,",
        [_] => "a commit [LEVEL,REVISION,[READ,..],[WRITE,..]]",
        [_, 0] =>
            "a level, one of ReadCommitted, RepeatableReads, Serializable, SerializableSnapshot,",
        [_, 1] => "a revision, a whole number from 1 to 9223372036854775806,",
        [_, 2] => "an array of reads [KEY,VALUE,MOD,OF]",
        [_, 2, _] => "a read [KEY,VALUE,MOD,OF]",
        [_, 2, _, 0] => "a key, which is a text,",
        [_, 2, _, 1] => "a value, which is a text, or null where the key was absent,",
        [_, 2, _, _] => "a revision, a whole number from 0 to 9223372036854775807,",
        [_, 3] => "an array of writes [\"put\",KEY,VALUE] or [\"del\",KEY]",
        [_, 3, _] => "a write, [\"put\",KEY,VALUE] or [\"del\",KEY],",
        _ => "a text",
    }
}

/// The indices of a place.
fn steps_of(alloc: Global, place: &str) -> Result<Vec<usize>, AllocError> {
    let mut steps = Vec::new(alloc);
    for part in place.split('/') {
        if let Ok(step) = part.parse::<usize>() {
            steps.push(step)?;
        }
    }
    Ok(steps)
}

/// What stands at the place of a value to which these indices lead.
fn value_at<'a>(value: &'a Json, steps: &[usize]) -> Option<&'a Json> {
    let mut at = value;
    for step in steps {
        at = at.get(*step)?;
    }
    Some(at)
}

/// The first element of an array that is a text, if it is one.
fn first_word(value: &Json) -> Option<&str> {
    value.get(0)?.as_str()
}

/// What is wanted at a place of a trace.
fn wanted_in(trace: &Json, steps: &[usize]) -> &'static str {
    match (steps, trace.get(0)) {
        ([0, rest @ ..], Some(first)) => {
            if first_word(first) == Some("begin") {
                wanted_of_beginning(rest)
            } else {
                wanted(steps)
            }
        }
        _ => wanted(steps),
    }
}

/// What is said of the place of a text to which these indices lead: what stands there, and what is wanted.
fn words_at(alloc: Global, text: &str, steps: &[usize]) -> Result<String, AllocError> {
    if let Ok(json) = Json::from_str(alloc, text) {
        let wanted = wanted_in(&json, steps);
        if let Some(value) = value_at(&json, steps) {
            let value = shown(alloc, value)?;
            return format!(in alloc; "found {value}, where {wanted} is wanted");
        }
    }
    let wanted = wanted(steps);
    format!(in alloc; "{wanted} is wanted here")
}

/// Whether a text begins with a line that is a commit: then it has them line by line, or has one alone.
fn has_bare_commits(alloc: Global, text: &str) -> bool {
    let Some(line) = text.lines().next() else {
        return false;
    };
    match Json::from_str(alloc, line) {
        Ok(json) => first_word(&json).is_some(),
        Err(_) => false,
    }
}

/// Adds that commits stand in an array, where a text has them without one.
fn add_hint(alloc: Global, text: &str, name: &str, said: String) -> Result<String, AllocError> {
    if has_bare_commits(alloc, text) {
        return format!(in alloc; "{said}{name}: a trace is one array: [ COMMIT, COMMIT ]\n");
    }
    Ok(said)
}

/// Why bytes spell no trace, by their first fault.
fn explanation_of(
    alloc: Global,
    name: &str,
    bytes: &[u8],
    bad: &BadInput,
) -> Result<String, AllocError> {
    let Ok(text) = std::str::from_utf8(bytes) else {
        return explain(alloc, Input::Program, name, bytes, bad);
    };
    let said = match bad.cause {
        Cause::Shape | Cause::Range => {
            let steps = steps_of(alloc, bad.place.as_str())?;
            let words = words_at(alloc, text, steps.as_slice())?;
            explained_at(alloc, name, text, steps.as_slice(), words.as_str())?
        }
        // What is no JSON, or too long, is explained alike of every input.
        _ => explain(alloc, Input::Program, name, bytes, bad)?,
    };
    add_hint(alloc, text, name, said)
}

/// The first of these keys that is not behind the one before it, or was put above a revision.
fn first_misfit(revision: u64, states: &[(Text, KeyState)]) -> Option<usize> {
    let mut before: Option<&Text> = None;
    for (index, entry) in states.iter().enumerate() {
        if entry.1.mod_rev > revision {
            return Some(index);
        }
        if let Some(earlier) = before {
            if entry.0 <= *earlier {
                return Some(index);
            }
        }
        before = Some(&entry.0);
    }
    None
}

/// Why no store can be as a trace says that its own was; nothing where one can.
fn misfit_of(
    alloc: Global,
    name: &str,
    bytes: &[u8],
    opening: &Checkpoint,
) -> Result<String, AllocError> {
    match (
        first_misfit(opening.revision, opening.states.as_slice()),
        std::str::from_utf8(bytes),
    ) {
        (Some(index), Ok(text)) => {
            let revision = opening.revision;
            let words = format!(in alloc;
                "here the keys do not ascend by bytes, or MOD is above the revision {revision}"
            )?;
            explained_at(alloc, name, text, &[0, 2, index], words.as_str())
        }
        _ => Ok(String::new(alloc)),
    }
}

/// Why the bytes of the file of a name spell no trace, or one that no store can have begun with: a line `NAME:LINE:COLUMN: WORDS` with the place of their
/// first fault, and a line feed. Nothing of another trace. It fails only when out of memory.
pub fn explain_trace(alloc: Global, name: &str, bytes: &[u8]) -> Result<String, AllocError> {
    match read_trace(alloc, bytes) {
        Ok(trace) => match &trace.opening {
            Some(opening) => misfit_of(alloc, name, bytes, opening),
            None => Ok(String::new(alloc)),
        },
        Err(ReadError::OutOfMemory) => Err(AllocError),
        Err(ReadError::Bad(bad)) => explanation_of(alloc, name, bytes, &bad),
    }
}
