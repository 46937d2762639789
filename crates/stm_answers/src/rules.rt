//! Answers about rules in words.

use crate::outcomes::push_end;
use crate::parts::{at_level, behind, list_at, moves, number_at, plain};
use crate::words::Asked;
use serde_json::Value as Json;
use std::alloc::Global;
use stm_explain::Said;

/// What an answer is about, by what stands behind it in its line: a rule, and with `has_level` a level.
fn subject(alloc: Global, behind: &[Json], has_level: bool) -> Said {
    match (behind, has_level) {
        ([name, level], true) => {
            let name = plain(alloc, name)?;
            let level = plain(alloc, level)?;
            format!(in alloc; "{name} at {level}")
        }
        ([level], true) => {
            let level = plain(alloc, level)?;
            format!(in alloc; "the rule at {level}")
        }
        ([name], false) => plain(alloc, name),
        _ => String::from_str(alloc, "the rule"),
    }
}

/// That a rule is always kept.
pub(crate) fn always_words(alloc: Global, parts: &[Json], has_level: bool) -> Said {
    let rule = subject(alloc, behind(parts, 2), has_level)?;
    match number_at(parts, 1) {
        Some(length) => {
            let moves = moves(alloc, length)?;
            format!(in alloc; "{rule}: always kept (the longest schedule has {moves})")
        }
        None => format!(in alloc;
            "{rule}: always kept (by serial orders: the longest schedule is not known)"
        ),
    }
}

/// That a rule is broken.
pub(crate) fn broken_words(alloc: Global, parts: &[Json], has_level: bool) -> Said {
    let rule = subject(alloc, behind(parts, 3), has_level)?;
    let moves = moves(alloc, number_at(parts, 1).unwrap_or(0))?;
    let mut words = format!(in alloc; "{rule}: broken after {moves}: ")?;
    push_end(alloc, &mut words, list_at(parts, 2))?;
    Ok(words)
}

/// That a rule was not decided.
fn open_rule_words(alloc: Global, parts: &[Json], has_level: bool) -> Said {
    let moves = moves(alloc, number_at(parts, 1).unwrap_or(0))?;
    let rule = subject(alloc, behind(parts, 2), has_level)?;
    format!(in alloc; "{rule}: not decided (all schedules of up to {moves} keep it)")
}

/// That something was not decided: a rule, where one is asked.
pub(crate) fn open_words(alloc: Global, parts: &[Json], asked: Asked) -> Said {
    if asked.has_rules {
        return open_rule_words(alloc, parts, asked.has_level);
    }
    let at = at_level(alloc, parts, 2)?;
    let moves = moves(alloc, number_at(parts, 1).unwrap_or(0))?;
    format!(in alloc; "{at}not decided (all schedules of up to {moves} were looked at)")
}
