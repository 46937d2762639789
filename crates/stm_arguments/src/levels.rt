//! Levels in a command line.
ghost use Rattle.std.specs.Prelude.{◌≡◌, IfErr, IfOk, IsSomeAnd, None, option_map};
ghost use Rattle.stm_arguments.specs.Levels.{LevelAt, LevelsAt, level_named, levels_named};

use crate::words::Unasked;
use stm_program::Level;

/// The names of the levels.
pub(crate) const LEVELS: &[&str] = &[
    "SerializableSnapshot",
    "Serializable",
    "RepeatableReads",
    "ReadCommitted",
];

/// The names of the levels of a search.
pub(crate) const SEARCH_LEVELS: &[&str] = &[
    "SerializableSnapshot",
    "Serializable",
    "RepeatableReads",
    "ReadCommitted",
    "all",
];

/// At which levels a search takes the starts of a scenario.
#[derive(Clone, Copy)]
pub enum Levels {
    /// Each start at its own.
    Own,
    /// Every start at this one.
    One(Level),
    /// Every start at each of the four, in four searches.
    All,
}

/// The level of a name.
fn level_named(name: &str) -> Option<Level>
    ensures { result ≡ level_named name.now }
{
    if name == "SerializableSnapshot" {
        Some(Level::SerializableSnapshot)
    } else if name == "Serializable" {
        Some(Level::Serializable)
    } else if name == "RepeatableReads" {
        Some(Level::RepeatableReads)
    } else if name == "ReadCommitted" {
        Some(Level::ReadCommitted)
    } else {
        None
    }
}

/// The levels of a name: that of a level, or `all`.
fn levels_named(name: &str) -> Option<Levels>
    ensures { result ≡ levels_named name.now }
{
    if name == "all" {
        return Some(Levels::All);
    }
    match level_named(name) {
        Some(level) => Some(Levels::One(level)),
        None => None,
    }
}

/// The levels that a word names; each start's own, where there is none.
pub(crate) fn levels_at(word: Option<&str>) -> Result<Levels, Unasked>
    ensures levels { IfOk result (LevelsAt (option_map (λ n. n.now) word.entry)) }
    ensures unknown { IfErr result (λ _. IsSomeAnd word.entry (λ n. levels_named n.now ≡ None)) }
{
    let Some(name) = word else {
        return Ok(Levels::Own);
    };
    match levels_named(name) {
        Some(levels) => Ok(levels),
        None => Err(Unasked::Refused),
    }
}

/// The level that a word names; `SerializableSnapshot`, where there is none.
pub(crate) fn level_at(word: Option<&str>) -> Result<Level, Unasked>
    ensures level { IfOk result (LevelAt (option_map (λ n. n.now) word.entry)) }
    ensures unknown { IfErr result (λ _. IsSomeAnd word.entry (λ n. level_named n.now ≡ None)) }
{
    let Some(name) = word else {
        return Ok(Level::SerializableSnapshot);
    };
    match level_named(name) {
        Some(level) => Ok(level),
        None => Err(Unasked::Refused),
    }
}
