//! What a search prints, in the form that is asked for.

use crate::explaining::say_unwritten;
use crate::noting::{Kept, Noting};
use crate::resuming::resumed;
use crate::ruling::{Question, run_rules, search_silently};
use crate::sources::{SourceText, out_of_memory};
use std::alloc::{AllocError, Global};
use stm_answers::{Asked, NamedRunner, in_words, schedule_in_words};
use stm_arguments::{Level, Levels};
use stm_commands::{Format, KeptSource, Std, script_as_to};
use stm_devices::write_all;
use stm_explain::Said;
use stm_exploring::Wait;

/// In what form a search prints what it finds: a schedule, and the lines around it.
#[derive(Clone, Copy)]
pub(crate) enum Form<'a> {
    /// As the line of the scenario with the schedule.
    Lines,
    /// As the source with the schedule.
    Source(&'a SourceText),
    /// As the table of a run of the schedule, with all else in words.
    Text(Table<'a>),
}

/// How the table of a schedule is made, and what is said below it.
#[derive(Clone, Copy)]
pub(crate) struct Table<'a> {
    /// The source, whose names the runners have.
    pub(crate) source: Option<&'a SourceText>,
    /// How many characters wide it is, where that is said.
    pub(crate) width: Option<u32>,
    /// Whether rules were asked.
    pub(crate) has_rules: bool,
    /// Which runners wait for which others.
    pub(crate) waits: &'a [Wait],
}

/// A form of a search for rules, in which these runners wait.
fn of_rules<'a>(form: Form<'a>, waits: &'a [Wait]) -> Form<'a> {
    match form {
        Form::Text(table) => Form::Text(Table {
            has_rules: true,
            waits,
            ..table
        }),
        Form::Lines | Form::Source(_) => form,
    }
}

/// With this begins a scenario that has an event, and nothing else that a search prints.
const SCENARIO: &str = "[[";

/// A scenario that has none.
const NO_EVENTS: &str = "[]";

/// With this begins the line of a broken rule.
const BROKEN: &str = "[\"broken\"";

/// With this ends the line of an answer at the strongest level, of a search at all.
const STRONGEST: &str = ",\"SerializableSnapshot\"]";

/// What stands in the words of such a line behind the rule and its level.
const IS_BROKEN: &str = ": broken";

/// What a run of a scenario prints in a format. It fails where that is none, or when out of memory.
pub(crate) fn run_of(
    alloc: Global,
    source: Option<&SourceText>,
    format: Format,
    line: &str,
) -> Said {
    let labels = match source {
        Some(source) => source.labels.as_slice(),
        None => &[],
    };
    let printed: Vec<u8> = Vec::new(alloc);
    let said: Vec<u8> = Vec::new(alloc);
    let mut out = Std::new(printed);
    let mut err = Std::new(said);
    let mut input = KeptSource::new(alloc, "", Std::new(line.as_bytes()));
    let status = script_as_to(alloc, format, labels, false, &mut input, &mut out, &mut err);
    if status != 0 {
        return Err(AllocError);
    }
    let text = str::from_utf8(out.device.as_slice()).unwrap_or("");
    String::from_str(alloc, text)
}

/// The table of a run of a scenario, behind an empty line. It fails only when out of memory.
fn table_of(alloc: Global, source: Option<&SourceText>, width: Option<u32>, line: &str) -> Said {
    let table = run_of(alloc, source, Format::Text { width }, line)?;
    let table = table.as_str();
    format!(in alloc; "\n{table}")
}

/// What is said below the table of a schedule that breaks a rule: nothing of another one.
fn notes_of(alloc: Global, form: Form<'_>, printed: &str, line: &str) -> Said {
    match (form, broken_line(printed)) {
        (Form::Text(table), Some(_)) => {
            let report = run_of(alloc, table.source, Format::Lines, line)?;
            let runners = runners_of(table.source);
            schedule_in_words(alloc, report.as_str(), runners, table.waits)
        }
        _ => Ok(String::new(alloc)),
    }
}

/// What stands above the table of a search at all levels: which rule its schedule breaks, and at which level. Nothing of another form or search.
fn heading_of(alloc: Global, form: Form<'_>, levels: Levels, printed: &str) -> Said {
    let (Form::Text(table), Levels::All, Some(line)) = (form, levels, broken_line(printed)) else {
        return Ok(String::new(alloc));
    };
    let asked = Asked {
        has_rules: true,
        has_level: true,
    };
    let words = in_words(alloc, line, printed, asked, runners_of(table.source))?;
    match words {
        Some(words) => match words.as_str().split_once(IS_BROKEN) {
            Some((rule, _)) => format!(in alloc; "\n{rule}:\n"),
            None => Ok(String::new(alloc)),
        },
        None => Ok(String::new(alloc)),
    }
}

/// A scenario with a schedule, of whose starts this is the level, in a form; none, where it stays a line.
fn schedule_in(
    alloc: Global,
    form: Form<'_>,
    level: Option<Level>,
    line: &str,
) -> Result<Option<String>, AllocError> {
    match form {
        Form::Lines => Ok(None),
        Form::Source(source) => resumed(alloc, source, level, line),
        Form::Text(Table { source, width, .. }) => {
            let table = table_of(alloc, source, width, line)?;
            Ok(Some(table))
        }
    }
}

/// The runners that the source of a scenario names, where it has one.
pub(crate) fn runners_of(source: Option<&SourceText>) -> &[NamedRunner] {
    match source {
        Some(source) => source.runners.as_slice(),
        None => &[],
    }
}

/// Adds a line of what a search printed, with a line feed: in words, where it is an answer of a search at these levels and that is the form.
fn push_answer(
    alloc: Global,
    out: &mut String,
    form: Form<'_>,
    levels: Levels,
    printed: &str,
    line: &str,
) -> Result<(), AllocError> {
    let words = match form {
        Form::Text(table) => {
            let asked = Asked {
                has_rules: table.has_rules,
                has_level: matches!(levels, Levels::All),
            };
            in_words(alloc, line, printed, asked, runners_of(table.source))?
        }
        Form::Lines | Form::Source(_) => None,
    };
    match words {
        Some(words) => out.push_str(words.as_str())?,
        None => out.push_str(line)?,
    }
    out.push('\n')
}

/// Whether a line of what a search printed is a scenario.
fn is_scenario(line: &str) -> bool {
    line.starts_with(SCENARIO) || line == NO_EVENTS
}

/// Adds a line of what a search at these levels printed, in this form, and answers whether that is a table.
fn push_found(
    alloc: Global,
    out: &mut String,
    form: Form<'_>,
    levels: Levels,
    printed: &str,
    line: &str,
) -> Result<bool, AllocError> {
    if is_scenario(line) {
        if let Some(schedule) = schedule_in(alloc, form, only_level(levels), line)? {
            let heading = heading_of(alloc, form, levels, printed)?;
            let notes = notes_of(alloc, form, printed, line)?;
            out.push_str(heading.as_str())?;
            out.push_str(schedule.as_str())?;
            out.push_str(notes.as_str())?;
            return Ok(matches!(form, Form::Text(_)));
        }
    }
    push_answer(alloc, out, form, levels, printed, line)?;
    Ok(false)
}

/// What a search at these levels printed, in this form, with an empty line behind a table.
fn found_in(alloc: Global, form: Form<'_>, levels: Levels, printed: &str) -> Said {
    let mut out = String::new(alloc);
    let mut is_behind_table = false;
    for line in printed.lines() {
        if is_behind_table {
            out.push('\n')?;
        }
        is_behind_table = push_found(alloc, &mut out, form, levels, printed, line)?;
    }
    Ok(out)
}

/// Prints bytes, and gives a status, or that of a failed output.
pub(crate) fn print(rt: &HostRuntime, bytes: &[u8], status: u8, explain: bool) -> u8 {
    let mut out = Std::new(Noting::new(rt.stdout()));
    match write_all(&mut out, bytes) {
        Ok(()) => status,
        Err(_) => {
            let _ = rt.eprintln("stmrun: device fault");
            if explain {
                say_unwritten(rt, out.device.failure);
            }
            3
        }
    }
}

/// Prints what a search at these levels printed, in this form, and gives its status; nothing of it, where memory ran out.
pub(crate) fn print_found(
    rt: &HostRuntime,
    form: Form<'_>,
    levels: Levels,
    printed: Result<Vec<u8>, AllocError>,
    status: u8,
    explain: bool,
) -> u8 {
    let Ok(printed) = printed else {
        return out_of_memory(rt);
    };
    let text = str::from_utf8(printed.as_slice()).unwrap_or("");
    match found_in(rt.alloc(), form, levels, text) {
        Ok(found) => print(rt, found.as_str().as_bytes(), status, explain),
        Err(_) => out_of_memory(rt),
    }
}

/// The level of a word.
fn level_of(word: &str) -> Option<Level> {
    match word {
        "SerializableSnapshot" => Some(Level::SerializableSnapshot),
        "Serializable" => Some(Level::Serializable),
        "RepeatableReads" => Some(Level::RepeatableReads),
        "ReadCommitted" => Some(Level::ReadCommitted),
        _ => None,
    }
}

/// Whether a line is that of a rule that is broken at the strongest level.
fn is_of_strongest(line: &str) -> bool {
    line.starts_with(BROKEN) && line.ends_with(STRONGEST)
}

/// The line of the broken rule whose schedule is shown, of the lines that a search printed: the first at the strongest level, since no level is enough where
/// there is one, and else the first.
fn broken_line(printed: &str) -> Option<&str> {
    match printed.lines().find(|line| is_of_strongest(line)) {
        Some(line) => Some(line),
        None => printed.lines().find(|line| line.starts_with(BROKEN)),
    }
}

/// The level of that rule, as the lines of a search at all levels tell it.
fn broken_level(printed: &str) -> Option<Level> {
    let line = broken_line(printed)?;
    let (_, word) = line.strip_suffix("\"]")?.rsplit_once('"')?;
    level_of(word)
}

/// Adds the scenario that breaks a rule: at the strongest level, where one is broken there, and else at the weakest at which one is.
fn push_worst(
    rt: &HostRuntime,
    question: &Question<'_>,
    printed: &mut Vec<u8>,
) -> Result<(), AllocError> {
    let text = str::from_utf8(printed.as_slice()).unwrap_or("");
    let Some(level) = broken_level(text) else {
        return Ok(());
    };
    let mut out = Std::new(Noting::new(Kept::new(rt.alloc())));
    let status = search_silently(rt, question, level, &mut out);
    let again = out.device.into_device().into_bytes()?;
    match status {
        1 => push_scenario(printed, again.as_slice()),
        3 => Err(AllocError),
        _ => Ok(()),
    }
}

/// Adds the first scenario among the lines that a search printed.
fn push_scenario(printed: &mut Vec<u8>, lines: &[u8]) -> Result<(), AllocError> {
    let lines = str::from_utf8(lines).unwrap_or("");
    match lines.lines().find(|line| line.starts_with(SCENARIO)) {
        Some(line) => printed.extend_from_slice(line.as_bytes()),
        None => Ok(()),
    }
}

/// All that a search for rules printed, which gave this status: where a table is asked of a search at all levels, with a scenario for that.
fn printed_in(
    rt: &HostRuntime,
    question: &Question<'_>,
    levels: Levels,
    form: Form<'_>,
    status: u8,
    kept: Kept,
) -> Result<Vec<u8>, AllocError> {
    let mut printed = kept.into_bytes()?;
    if let (Form::Text(_), Levels::All, 1) = (form, levels, status) {
        push_worst(rt, question, &mut printed)?;
    }
    Ok(printed)
}

/// The level at which all starts are taken, where they are taken at one.
pub(crate) fn only_level(levels: Levels) -> Option<Level> {
    match levels {
        Levels::One(level) => Some(level),
        Levels::Own | Levels::All => None,
    }
}

/// Looks for rules, and prints what was found in this form. A table of a search at all levels is that of the weakest at which a rule is broken, or of the
/// strongest, where no level is enough.
pub(crate) fn run_rules_in(
    rt: &HostRuntime,
    question: &Question<'_>,
    levels: Levels,
    form: Form<'_>,
    explain: bool,
) -> u8 {
    if let Form::Lines = form {
        let mut out = Std::new(Noting::new(rt.stdout()));
        return run_rules(rt, question, levels, explain, &mut out);
    }
    let mut out = Std::new(Noting::new(Kept::new(rt.alloc())));
    let status = run_rules(rt, question, levels, explain, &mut out);
    let kept = out.device.into_device();
    let printed = printed_in(rt, question, levels, form, status, kept);
    let form = of_rules(form, question.waits);
    print_found(rt, form, levels, printed, status, explain)
}
