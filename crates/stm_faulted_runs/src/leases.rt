//! Leases on which runs put, and which no event grants.

use crate::places::pointer_of;
use crate::runs::{Explained, to_explain};
use crate::scripts::Named;
use serde_json::Value as Json;
use std::alloc::{AllocError, Global};
use stm_explain::Said;
use stm_json::{ReadError, worded_array};
use stm_retry::WorldEvent;
use stm_texts::{Scenario, read_scenario};

/// How many levels a value has at most: JSON's reader takes no more than 127 arrays in each other.
const MOST_LEVELS: usize = 128;

/// A way through a program to a put on a lease that is none of those which are granted.
#[derive(Drop)]
struct Search<'a> {
    /// The leases that are granted.
    granted: &'a [u64],
    /// The indices that lead to where the way is.
    steps: Vec<usize>,
    /// The lease of the put, once it was found.
    found: Option<u64>,
}

/// The lease of a put, which is 0 where it is on none.
fn lease_of(value: &Json) -> Option<u64> {
    match worded_array(value)? {
        ("put", [_, _, lease]) => lease.as_u64(),
        _ => None,
    }
}

impl Search<'_> {
    /// Notes the lease of a value that is such a put.
    fn note(&mut self, value: &Json) {
        if let Some(lease) = lease_of(value) {
            if lease != 0 && !self.granted.contains(&lease) {
                self.found = Some(lease);
            }
        }
    }

    /// Looks for the first such put in a value, up to so many levels deep. Where there is one, the way stays there.
    fn look(&mut self, value: &Json, levels: usize) -> Result<(), AllocError> {
        if levels == 0 {
            return Ok(());
        }
        self.note(value);
        let Some(elements) = value.as_array() else {
            return Ok(());
        };
        for (index, inner) in elements.iter().enumerate() {
            if self.found.is_some() {
                return Ok(());
            }
            self.steps.push(index)?;
            self.look(inner, levels - 1)?;
            if self.found.is_none() {
                let _ = self.steps.pop();
            }
        }
        Ok(())
    }
}

/// The program of the start that is an element of a scenario with this JSON.
fn program_in(scenario: &Json, element: usize) -> Option<&Json> {
    scenario.get(element)?.get(3usize)
}

/// The way to the first put on a lease that is none of these, in the program of a start.
fn search_in<'a>(
    alloc: Global,
    granted: &'a [u64],
    scenario: &Json,
    element: usize,
) -> Result<Search<'a>, AllocError> {
    let mut steps = Vec::new(alloc);
    steps.push(element)?;
    steps.push(3)?;
    let mut search = Search {
        granted,
        steps,
        found: None,
    };
    if let Some(program) = program_in(scenario, element) {
        search.look(program, MOST_LEVELS)?;
    }
    Ok(search)
}

/// The line that begins so, of a put on a lease that no event grants.
fn line_of(
    alloc: Global,
    explained: &Explained<'_>,
    head: &str,
    steps: &[usize],
    lease: u64,
) -> Said {
    let place = pointer_of(alloc, steps)?;
    let place = place.as_str();
    let words = format!(in alloc;
        "{head} at {place}: no event grants lease {lease}: grant {lease} ttl SECONDS stands before the start"
    )?;
    explained.marked.explained_at(alloc, steps, words.as_str())
}

/// Adds a line that begins so, where the program of a start puts on a lease that is none of these.
fn push_line(
    alloc: Global,
    out: &mut String,
    explained: &Explained<'_>,
    granted: &[u64],
    element: usize,
    head: &str,
) -> Result<(), AllocError> {
    let search = search_in(alloc, granted, &explained.json, element)?;
    if let Some(lease) = search.found {
        let line = line_of(alloc, explained, head, search.steps.as_slice(), lease)?;
        out.push_str(line.as_str())?;
    }
    Ok(())
}

/// The leases that events grant.
fn granted_by(alloc: Global, events: &[WorldEvent]) -> Result<Vec<u64>, AllocError> {
    let mut granted = Vec::new(alloc);
    for event in events {
        if let WorldEvent::Grant { id, .. } = event {
            granted.push(*id)?;
        }
    }
    Ok(granted)
}

/// Adds a line for each run of a scenario that puts on a lease which is none of these.
fn push_lines(
    alloc: Global,
    out: &mut String,
    explained: &Explained<'_>,
    granted: &[u64],
    word: &str,
    first: u64,
) -> Result<(), AllocError> {
    for (index, run) in explained.runs.as_slice().iter().enumerate() {
        let number = first.saturating_add(index as u64);
        let head = format!(in alloc; "{word}{number}")?;
        push_line(alloc, out, explained, granted, run.element, head.as_str())?;
    }
    Ok(())
}

/// The lines of the runs of a scenario that was read from this text.
fn lines_of(
    alloc: Global,
    source: &Named<'_>,
    scenario: &Scenario,
    word: &str,
    first: u64,
) -> Said {
    let mut out = String::new(alloc);
    let granted = granted_by(alloc, scenario.events.as_slice())?;
    let explained = to_explain(alloc, source.name, source.text, scenario)?;
    push_lines(alloc, &mut out, &explained, granted.as_slice(), word, first)?;
    Ok(out)
}

/// A line for each run of a scenario whose program puts on a lease that no event grants, whether the run comes to that put or not, in the order of the
/// starts; none, where the text is no scenario: `NAME:LINE:COLUMN: RUN at PLACE: REASON`. RUN is this word and the number of the run, of which the first
/// has this one. PLACE is that of the first such put.
///
/// It fails where an allocation failed.
pub fn leases_explained(alloc: Global, source: &Named<'_>, word: &str, first: u64) -> Said {
    match read_scenario(alloc, source.text.as_bytes()) {
        Ok(scenario) => {
            let said = lines_of(alloc, source, &scenario, word, first);
            drop(scenario);
            said
        }
        Err(ReadError::Bad(_)) => Ok(String::new(alloc)),
        Err(ReadError::OutOfMemory) => Err(AllocError),
    }
}
