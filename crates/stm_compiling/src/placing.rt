//! Places of a source in what is said of the runs of its scenario.

use crate::fault::position_in;
use crate::program::started;
use std::alloc::{AllocError, Global};
use stm_events::WorldEvent;
use stm_history::Sequence;
use stm_marks::place_of;
use stm_source::{
    MarkedProgram, MarkedPrograms, MarkedRule, Scenario, SourceError, read_marked_programs,
    read_source,
};
use stm_tokens::Position;

/// What stands before the place of a node in a line that explains a run.
const AT: &str = " at ";

/// What stands behind the place of a line, and behind that of a node.
const BEHIND: &str = ": ";

/// A source under its name, and where the statements of its programs begin.
#[derive(Drop)]
pub struct SourcePlaces<'a> {
    name: &'a str,
    text: &'a str,
    programs: MarkedPrograms,
}

/// A line that explains a run, with its place in a source.
#[derive(Drop)]
pub struct PlacedLine<'a> {
    /// The line.
    pub words: String,
    /// The line of the source.
    pub source: &'a str,
}

/// The programs of a source, with their marks; none, where the source is bad.
fn programs_of(alloc: Global, text: &str) -> Result<MarkedPrograms, AllocError> {
    match read_marked_programs(alloc, text) {
        Ok(programs) => Ok(programs),
        Err(SourceError::Bad(_)) => Ok(MarkedPrograms {
            starts: Sequence::new(alloc),
            rules: Sequence::new(alloc),
        }),
        Err(SourceError::OutOfMemory) => Err(AllocError),
    }
}

/// The program of the rule or the final of this name.
fn program_of_rule<'a>(rules: &'a [MarkedRule], name: &str) -> Option<&'a MarkedProgram> {
    let rule = rules.iter().find(|rule| rule.name.as_str() == name)?;
    Some(&rule.program)
}

/// The name of the rule or the final that a line is about, which comes to a fault.
fn rule_in(line: &str) -> Option<&str> {
    let behind = line
        .strip_prefix("the rule ")
        .or(line.strip_prefix("the final "))?;
    let (name, _) = behind.split_once(' ')?;
    Some(name)
}

/// The number of the runner that a line is about, whose program comes to a fault.
fn runner_in(line: &str) -> Option<u64> {
    let (number, _) = line
        .strip_prefix("the program of runner ")?
        .split_once(' ')?;
    number.parse::<u64>().ok()
}

/// Whether an event begins a run.
fn begins_run(event: &WorldEvent) -> bool {
    match event {
        WorldEvent::Start { limit, .. } => *limit != 0,
        _ => false,
    }
}

/// The index of a runner's start among the elements of a scenario's JSON.
fn element_of(scenario: &Scenario, runner: u64) -> Option<usize> {
    let mut begun = 0u64;
    for (index, event) in scenario.events.as_slice().iter().enumerate() {
        if begins_run(event) {
            begun = begun.saturating_add(1);
            if begun == runner {
                return Some(match scenario.opening {
                    Some(_) => index.saturating_add(1),
                    None => index,
                });
            }
        }
    }
    None
}

/// The same of the scenario of a source.
fn start_of(alloc: Global, text: &str, runner: u64) -> Result<Option<usize>, AllocError> {
    match read_source(alloc, text.as_bytes()) {
        Ok(scenario) => Ok(element_of(&scenario, runner)),
        Err(SourceError::Bad(_)) => Ok(None),
        Err(SourceError::OutOfMemory) => Err(AllocError),
    }
}

/// The indices of a JSON Pointer; none, where it is no pointer to a node.
fn indices_of(alloc: Global, pointer: &str) -> Result<Vec<usize>, AllocError> {
    let mut indices = Vec::new(alloc);
    for step in pointer.split('/').skip(1) {
        match step.parse::<usize>() {
            Ok(index) => indices.push(index)?,
            Err(_) => return Ok(Vec::new(alloc)),
        }
    }
    Ok(indices)
}

/// What stands before the place of a node in words, that place, and what stands behind.
fn parts_of(words: &str) -> Option<(&str, &str, &str)> {
    let (head, more) = words.split_once(AT)?;
    let (pointer, reason) = more.split_once(BEHIND)?;
    Some((head, pointer, reason))
}

/// The same in a line under a name.
fn parts_under<'a>(line: &'a str, name: &str) -> Option<(&'a str, &'a str, &'a str)> {
    let (_, words) = line.strip_prefix(name)?.split_once(BEHIND)?;
    parts_of(words)
}

/// The indices of a node in a line that explains a run, `WORDS at POINTER: REASON`; none, where it says no place of a node.
pub fn indices_in(alloc: Global, line: &str) -> Result<Vec<usize>, AllocError> {
    match parts_of(line) {
        Some((_, pointer, _)) => indices_of(alloc, pointer),
        None => Ok(Vec::new(alloc)),
    }
}

/// Where in the source the node begins to which these indices lead in a program's JSON.
fn place_in(
    alloc: Global,
    program: &MarkedProgram,
    indices: &[usize],
) -> Result<Option<usize>, AllocError> {
    let [first, inner @ ..] = indices else {
        return Ok(None);
    };
    let mut path = Vec::new(alloc);
    path.push(first.saturating_sub(program.first))?;
    path.extend_from_slice(inner)?;
    Ok(place_of(&program.statements, path.as_slice()))
}

/// The line of a text with a number, counted from 1, without the spaces around it.
fn line_of(text: &str, number: usize) -> &str {
    match text.lines().nth(number.saturating_sub(1)) {
        Some(line) => line.trim(),
        None => "",
    }
}

impl<'a> SourcePlaces<'a> {
    /// The places of a source of this text. It fails only when out of memory.
    pub fn of(alloc: Global, name: &'a str, text: &'a str) -> Result<SourcePlaces<'a>, AllocError> {
        let programs = programs_of(alloc, text)?;
        Ok(SourcePlaces {
            name,
            text,
            programs,
        })
    }

    /// The program of the start that is an element of the scenario, which may be one of several of its names.
    fn started(&self, element: usize) -> Option<&MarkedProgram> {
        let starts = self.programs.starts.as_slice();
        let start = starts.iter().rev().find(|start| start.element <= element)?;
        Some(&start.program)
    }

    /// The program of the rule of a name, or else the one that is started last.
    fn named(&self, name: &str) -> Option<&MarkedProgram> {
        match program_of_rule(self.programs.rules.as_slice(), name) {
            Some(program) => Some(program),
            None => {
                let start = self.programs.starts.as_slice().last()?;
                Some(&start.program)
            }
        }
    }

    /// The words of a run's fault, of which `head` stands before the place of its node, to which these indices lead in a program, and `reason` behind, with
    /// that place in the source, and the line there.
    fn placed_in(
        &self,
        alloc: Global,
        program: Option<&MarkedProgram>,
        indices: &[usize],
        head: &str,
        reason: &str,
    ) -> Result<Option<PlacedLine<'a>>, AllocError> {
        let Some(program) = program else {
            return Ok(None);
        };
        let Some(at) = place_in(alloc, program, indices)? else {
            return Ok(None);
        };
        let Position { line, column } = position_in(self.text.as_bytes(), at);
        let name = self.name;
        let words = format!(in alloc; "{name}:{line}:{column}: {head}: {reason}")?;
        Ok(Some(PlacedLine {
            words,
            source: line_of(self.text, line),
        }))
    }

    /// A line that explains a run, as `NAME:LINE:COLUMN: WORDS at POINTER: REASON`, with the place of the statement in the source for that in the line of
    /// JSON, and the line of the source. None, where it says no place of a statement.
    pub fn placed(&self, alloc: Global, line: &str) -> Result<Option<PlacedLine<'a>>, AllocError> {
        let Some((head, pointer, reason)) = parts_under(line, self.name) else {
            return Ok(None);
        };
        let indices = indices_of(alloc, pointer)?;
        match indices.as_slice() {
            [element, 3, inner @ ..] => {
                self.placed_in(alloc, self.started(*element), inner, head, reason)
            }
            _ => Ok(None),
        }
    }
}

/// The same, of a source of this name and text, of a line `the rule NAME WORDS at POINTER: REASON`, or of a final. It fails only when out of memory.
pub fn placed_rule<'a>(
    alloc: Global,
    name: &'a str,
    text: &'a str,
    line: &str,
) -> Result<Option<PlacedLine<'a>>, AllocError> {
    let (Some(rule), Some((head, pointer, reason))) = (rule_in(line), parts_of(line)) else {
        return Ok(None);
    };
    let places = SourcePlaces::of(alloc, name, text)?;
    let indices = indices_of(alloc, pointer)?;
    let program = program_of_rule(places.programs.rules.as_slice(), rule);
    places.placed_in(alloc, program, indices.as_slice(), head, reason)
}

/// The same of a line `the program of runner NUMBER WORDS at POINTER: REASON`.
pub fn placed_runner<'a>(
    alloc: Global,
    name: &'a str,
    text: &'a str,
    line: &str,
) -> Result<Option<PlacedLine<'a>>, AllocError> {
    let (Some(runner), Some((head, pointer, reason))) = (runner_in(line), parts_of(line)) else {
        return Ok(None);
    };
    let Some(element) = start_of(alloc, text, runner)? else {
        return Ok(None);
    };
    let places = SourcePlaces::of(alloc, name, text)?;
    let indices = indices_of(alloc, pointer)?;
    places.placed_in(
        alloc,
        places.started(element),
        indices.as_slice(),
        head,
        reason,
    )
}

/// The programs of a source of this text that has a rule of a name; of another, those with the line behind it that starts the program of that name, with
/// these words as its arguments.
fn programs_with(
    alloc: Global,
    text: &str,
    name: &str,
    words: &[String],
) -> Result<MarkedPrograms, AllocError> {
    let programs = programs_of(alloc, text)?;
    if program_of_rule(programs.rules.as_slice(), name).is_some() {
        return Ok(programs);
    }
    drop(programs);
    let started = started(alloc, text.as_bytes(), name, words)?;
    let programs = programs_of(alloc, str::from_utf8(started.as_slice()).unwrap_or(""));
    drop(started);
    programs
}

/// The same of a line `FAULT at POINTER: REASON` of a run of the rule or the program of a name, with these words as its arguments.
pub fn placed_program<'a>(
    alloc: Global,
    name: &'a str,
    text: &'a str,
    program: &str,
    words: &[String],
    line: &str,
) -> Result<Option<PlacedLine<'a>>, AllocError> {
    let Some((head, pointer, reason)) = parts_of(line) else {
        return Ok(None);
    };
    let places = SourcePlaces {
        name,
        text,
        programs: programs_with(alloc, text, program, words)?,
    };
    let indices = indices_of(alloc, pointer)?;
    places.placed_in(
        alloc,
        places.named(program),
        indices.as_slice(),
        head,
        reason,
    )
}
