//! The schedules that a search of a source finds, as sources: they can be searched again, and played.
ghost use Rattle.std.specs.Prelude.{◌≤◌, length};

use crate::sources::SourceText;
use std::alloc::{AllocError, Global};
use stm_arguments::Level;
use stm_compiling::{NamedRunner, kept_text, name_of_runner, spells};
use stm_report::{ReadError, Scenario, Sequence, WorldEvent, read_scenario};
use stm_show::scenario_source;

/// What stands before the steps of a line.
const STEP: &str = "step ";

/// How many events stand up to the last start.
fn setup_length(events: &[WorldEvent]) -> usize
    ensures { result ≤ length events.now }
{
    let mut count = 0;
    for (index, event) in events.iter().enumerate() {
        if let WorldEvent::Start { .. } = event {
            count = index.saturating_add(1);
        }
    }
    count.min(events.len())
}

/// The events of a scenario behind its last start.
fn behind_starts(scenario: Scenario) -> Result<Scenario, AllocError> {
    let Scenario { events, .. } = scenario;
    let mut events = events.into_vec();
    let count = setup_length(events.as_slice());
    let others = events.split_off(count)?;
    drop(events);
    Ok(Scenario {
        opening: None,
        events: Sequence::of(others),
    })
}

/// Adds the name of a runner, where it has one, or else its number as it is spelled.
fn push_runner(out: &mut String, runners: &[NamedRunner], number: &str) -> Result<(), AllocError> {
    let name = match number.parse::<u64>() {
        Ok(runner) => name_of_runner(runners, runner),
        Err(_) => None,
    };
    out.push_str(name.unwrap_or(number))
}

/// Adds a line of events, with the names of runners in steps.
fn push_line(out: &mut String, runners: &[NamedRunner], line: &str) -> Result<(), AllocError> {
    match line.strip_prefix(STEP) {
        Some(numbers) => {
            out.push_str("step")?;
            for number in numbers.split(' ') {
                out.push(' ')?;
                push_runner(out, runners, number)?;
            }
        }
        None => out.push_str(line)?,
    }
    out.push('\n')
}

/// The word of a level.
pub(crate) fn word_of(level: Level) -> &'static str {
    match level {
        Level::SerializableSnapshot => "SerializableSnapshot",
        Level::Serializable => "Serializable",
        Level::RepeatableReads => "RepeatableReads",
        Level::ReadCommitted => "ReadCommitted",
    }
}

/// A source with the events of a scenario behind its last start in place of its own, and its starts at this level, where it then spells that scenario, which
/// is a line without its line feed.
pub(crate) fn resumed(
    alloc: Global,
    source: &SourceText,
    level: Option<Level>,
    line: &str,
) -> Result<Option<String>, AllocError> {
    let scenario = match read_scenario(alloc, line.as_bytes()) {
        Ok(scenario) => scenario,
        Err(ReadError::OutOfMemory) => return Err(AllocError),
        Err(ReadError::Bad(_)) => return Ok(None),
    };
    let others = behind_starts(scenario)?;
    let events = scenario_source(alloc, &others)?;
    drop(others);
    let mut text = kept_text(alloc, source.text.as_str().trim_start(), level.map(word_of))?;
    for line in events.as_str().lines() {
        push_line(&mut text, source.runners.as_slice(), line)?;
    }
    let whole = format!(in alloc; "{line}\n")?;
    if spells(alloc, text.as_str(), whole.as_str())? {
        Ok(Some(text))
    } else {
        Ok(None)
    }
}
