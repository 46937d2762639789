//! Which runners wait for which others, as the command line has it.

use crate::explaining::has_hidden;
use crate::sources::out_of_memory;
use std::alloc::{AllocError, Global};
use stm_compiling::{Beside, NamedRunner, Wait as SourceWait, runners_named};
use stm_explain::Said;
use stm_exploring::{BadWaits, Wait, waits_in};

/// What stands after a fault of an option.
const USAGE: &str = "
Usage: stmrun explore [OPTIONS] <SCENARIO>

For more information, try '--help'.";

/// The part of a text at an index, where commas stand between them.
fn part_at(text: &str, index: usize) -> &str {
    let mut parts = text.split(',');
    parts.nth(index).unwrap_or(text)
}

/// A part of a text with numbers for names, as it was typed: the text itself, or what stands between two of its commas (the last of these that are alike). What
/// is less than that has no name in it.
fn typed_part<'a>(text: &str, typed: &'a str, part: &'a str) -> &'a str {
    if part == text {
        return typed;
    }
    let mut place = None;
    for (index, numbered) in text.split(',').enumerate() {
        if numbered == part {
            place = Some(index);
        }
    }
    match place {
        Some(index) => part_at(typed, index),
        None => part,
    }
}

/// Says which part of a text, which was typed so, is no wait, and why, and gives the status.
fn refuse(rt: &HostRuntime, text: &str, typed: &str, bad: &BadWaits<'_>) -> u8 {
    let part = typed_part(text, typed, bad.part);
    let reason = bad.reason;
    if has_hidden(typed) {
        let _ = eprintln!(rt;
            "error: invalid value for '--after <RUNNER:FIRST,..>': a part of it {reason}"
        );
    } else {
        let _ = eprintln!(rt;
            "error: invalid value '{typed}' for '--after <RUNNER:FIRST,..>': '{part}' {reason}"
        );
    }
    let _ = rt.eprintln(USAGE);
    2
}

/// The waits that a text spells, which was typed so; or the status where it spells none.
fn waits_of(rt: &HostRuntime, text: &str, typed: &str) -> Result<Vec<Wait>, u8> {
    match waits_in(rt.alloc(), text) {
        Ok(Ok(waits)) => Ok(waits),
        Ok(Err(bad)) => Err(refuse(rt, text, typed, &bad)),
        Err(_) => Err(out_of_memory(rt)),
    }
}

/// Whether a word may be the number of a runner, as it begins.
fn is_numeric(word: &str) -> bool {
    match word.chars().next() {
        Some(first) => first.is_ascii_digit(),
        None => false,
    }
}

/// The word of a wait that stands where a runner does, and is none's name or number.
fn stranger_in<'a>(beside: &Beside, part: &'a str) -> Option<&'a str> {
    for (index, word) in part.split(':').enumerate() {
        if index < 2 && !word.is_empty() && !is_numeric(word) && number_of(beside, word).is_none() {
            return Some(word);
        }
    }
    None
}

/// The first such word of a text of waits.
fn first_stranger<'a>(beside: &Beside, text: &'a str) -> Option<&'a str> {
    for part in text.split(',') {
        if let Some(word) = stranger_in(beside, part) {
            return Some(word);
        }
    }
    None
}

/// Says that no runner of a source has the name of a word, and which names they have, and gives the status.
fn refuse_name(rt: &HostRuntime, text: &str, word: &str, runners: &[NamedRunner]) -> u8 {
    let Ok(names) = runners_named(rt.alloc(), runners, word) else {
        return out_of_memory(rt);
    };
    let _ = eprintln!(rt;
        "error: invalid value '{text}' for '--after <RUNNER:FIRST,..>': no runner has the name '{word}': {names}"
    );
    let _ = rt.eprintln(USAGE);
    2
}

/// Refuses words in the place of runners that are no names, where a source has names.
fn refuse_strangers(
    rt: &HostRuntime,
    text: &str,
    beside: &Beside,
    runners: &[NamedRunner],
) -> Result<(), u8> {
    if runners.is_empty() || has_hidden(text) {
        return Ok(());
    }
    match first_stranger(beside, text) {
        Some(word) => Err(refuse_name(rt, text, word, runners)),
        None => Ok(()),
    }
}

/// The number of the runner that a word names in a source, if it names one.
fn number_of(beside: &Beside, word: &str) -> Option<u64> {
    let place = beside.names.place(word)?;
    match beside.numbers.as_slice().get(place) {
        Some(number) => *number,
        None => None,
    }
}

/// Adds a wait as it is spelled, with the numbers of runners for their names.
fn push_numbered(
    alloc: Global,
    text: &mut String,
    beside: &Beside,
    part: &str,
) -> Result<(), AllocError> {
    for (index, word) in part.split(':').enumerate() {
        if index > 0 {
            text.push(':')?;
        }
        match number_of(beside, word) {
            Some(number) if index < 2 => {
                let number = format!(in alloc; "{number}")?;
                text.push_str(number.as_str())?;
            }
            _ => text.push_str(word)?,
        }
    }
    Ok(())
}

/// A text of waits, with the numbers of runners for their names.
fn numbered(alloc: Global, beside: &Beside, text: &str) -> Said {
    let mut with_numbers = String::new(alloc);
    for (index, part) in text.split(',').enumerate() {
        if index > 0 {
            with_numbers.push(',')?;
        }
        push_numbered(alloc, &mut with_numbers, beside, part)?;
    }
    Ok(with_numbers)
}

/// Adds the waits of a source.
fn push_waits(waits: &mut Vec<Wait>, more: &[SourceWait]) -> Result<(), AllocError> {
    for wait in more {
        waits.push(Wait {
            runner: wait.runner,
            first: wait.ended,
            committed: wait.committed,
        })?;
    }
    Ok(())
}

/// The waits that are spelled, where some are, by numbers of runners or by their names in a source.
fn spelled_waits(
    rt: &HostRuntime,
    after: Option<&str>,
    beside: &Beside,
    runners: &[NamedRunner],
) -> Result<Vec<Wait>, u8> {
    let Some(text) = after else {
        return Ok(Vec::new(rt.alloc()));
    };
    refuse_strangers(rt, text, beside, runners)?;
    match numbered(rt.alloc(), beside, text) {
        Ok(with_numbers) => waits_of(rt, with_numbers.as_str(), text),
        Err(_) => Err(out_of_memory(rt)),
    }
}

/// The waits that are spelled, and those of a source, which names these runners; or the status where they are spelled wrongly.
pub(crate) fn read_waits(
    rt: &HostRuntime,
    after: Option<&str>,
    beside: &Beside,
    runners: &[NamedRunner],
) -> Result<Vec<Wait>, u8> {
    let mut waits = spelled_waits(rt, after, beside, runners)?;
    match push_waits(&mut waits, beside.waits.as_slice()) {
        Ok(()) => Ok(waits),
        Err(_) => Err(out_of_memory(rt)),
    }
}

/// Refuses an option beside another, and gives the status.
pub(crate) fn refuse_beside(rt: &HostRuntime, option: &str, other: &str) -> u8 {
    let _ = eprintln!(rt; "error: '{option}' is for a search without '{other}'");
    let _ = rt.eprintln(USAGE);
    2
}

/// Refuses waits where no rule is asked, which they are for, and gives the status.
pub(crate) fn refuse_waits(rt: &HostRuntime) -> u8 {
    let _ = rt.eprintln(
        "error: '--after <RUNNER:FIRST,..>' needs a rule: '--keeps <PROGRAM>', or one in the source",
    );
    let _ = rt.eprintln(USAGE);
    2
}

/// Refuses all levels where no rule is asked, nor looked for serial orders, and gives the status.
pub(crate) fn refuse_levels(rt: &HostRuntime) -> u8 {
    let _ = rt.eprintln(
        "error: '--level all' needs a rule ('--keeps <PROGRAM>', or one in the source) or '--serial'; '--witness' takes one level",
    );
    let _ = rt.eprintln(USAGE);
    2
}
