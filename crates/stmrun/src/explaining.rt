//! The commands `script` and `check`, and what explains faults: where a bad input is bad, and which file the system refused and why.
ghost use Rattle.std.specs.Prelude.{◌≡◌, false};

use crate::files::{Opened, open};
use crate::found::run_of;
use crate::kinds::{Kind, begins_scenario, kind_of, say_kind, seeming};
use crate::naming::RUNNERS;
use crate::noting::{Keeping, Noting};
use crate::sources::{Given, JsonFile, OWN, say_ended, say_leases, say_of_runs};
use std::alloc::Global;
use std::io;
use std::io::{Input, Write};
use std::rt::Files;
use stm_answers::late_steps_in_words;
use stm_commands::{
    Format, KeptSource, RunnerLabel, Std, check_as_to, check_whole_to, script_as_to,
};
use stm_explain::{Said, is_hidden};

/// The status of an input that is bad.
pub(crate) const BAD: u8 = 2;

/// What is wanted in the place of a report.
const REPORT: &str = "report: script prints one without --format";

/// With this begins a start, and in JSON no text has it.
pub(crate) const START: &str = "[\"start\",";

/// The same of a step.
const STEP: &str = "[\"step\",";

/// Whether a path has a character that does something to a terminal.
pub(crate) fn has_hidden(path: &str) -> bool {
    path.chars().any(is_hidden)
}

/// The name of an input, as people know it: that of its file, if it can be shown on a terminal.
pub(crate) fn name_of(path: &str) -> &str {
    if path == "-" {
        "standard input"
    } else if has_hidden(path) {
        "the file"
    } else {
        path
    }
}

/// The file of a path, or standard input, to be read and kept.
pub(crate) fn kept<'a, R: Files + Input + AllocGlobal>(
    rt: &R,
    path: &'a str,
) -> KeptSource<'a, Std<Noting<Opened<R::File, R::Reader, &'static [u8]>>>>
    ensures { result.source.failed ≡ false }
{
    let source = Std::new(Noting::new(open(rt, path)));
    KeptSource::new(rt.alloc(), name_of(path), source)
}

/// What is read as JSON, to be read and kept.
pub(crate) fn kept_json<'a, R: Files + Input + AllocGlobal>(
    rt: &R,
    file: &'a JsonFile<'_>,
) -> KeptSource<'a, Std<Noting<Opened<R::File, R::Reader, &'a [u8]>>>>
    ensures { result.source.failed ≡ false }
{
    let source = Std::new(Noting::new(file.open(rt)));
    KeptSource::new(rt.alloc(), file.name(), source)
}

/// Says of an input that could not be read why the system refused it.
pub(crate) fn say_unread(rt: &HostRuntime, name: &str, failure: Option<io::Error>) {
    if let Some(error) = failure {
        let _ = eprintln!(rt; "{name}: cannot be read: {error}");
    }
}

/// Says of what was read as JSON why the system refused it, if it did, and what it is if that is a source, a report in another form than lines, or what explore
/// answers and no one schedule.
pub(crate) fn say_read<D>(rt: &HostRuntime, input: &KeptSource<'_, Std<Noting<D>>>) {
    let name = input.name;
    say_unread(rt, name, input.source.device.failure);
    match kind_of(input.text().unwrap_or("")) {
        Kind::Json | Kind::Unknown => {}
        kind => say_kind(rt, name, kind),
    }
}

/// Says what an input of a name seems to be, if that is known, in the place of what is wanted.
pub(crate) fn say_seeming(rt: &HostRuntime, name: &str, seems: Option<&str>, wanted: &str) {
    if let Some(seems) = seems {
        let _ = eprintln!(rt; "{name}: this is {seems}, and no {wanted}");
    }
}

/// Says of standard output that could not be written why the system refused it.
pub(crate) fn say_unwritten(rt: &HostRuntime, failure: Option<io::Error>) {
    if let Some(error) = failure {
        let _ = eprintln!(rt; "standard output: cannot be written: {error}");
    }
}

/// Runs a scenario whose runners have these labels, and says on `err` what is wrong.
fn script_on<E: Write + Drop>(
    rt: &HostRuntime,
    scenario: &JsonFile<'_>,
    format: Format,
    labels: &[RunnerLabel],
    explain: bool,
    err: &mut Std<E>,
) -> u8
    requires { err.old.failed ≡ false }
{
    let mut input = kept_json(rt, scenario);
    let mut out = Std::new(Noting::new(rt.stdout()));
    let status = script_as_to(
        rt.alloc(),
        format,
        labels,
        explain,
        &mut input,
        &mut out,
        err,
    );
    say_read(rt, &input);
    if explain {
        say_unwritten(rt, out.device.failure);
    }
    status
}

/// Says of a source that starts runners and has no steps that its script steps none of them.
fn say_still(rt: &HostRuntime, given: &Given<'_>) {
    if let JsonFile::Compiled(line, _) = &given.scenario {
        let line = line.as_str();
        if line.contains(START) && !line.contains(STEP) {
            let _ = rt.eprintln(
                "stmrun: no runner takes a step: a script has its steps, as step 1*3 2, and explore makes its own",
            );
        }
    }
}

/// Says why steps of runners are refused in the run of a scenario; nothing, where memory runs out.
fn say_late_steps(rt: &HostRuntime, given: &Given<'_>) {
    let scenario = given.scenario.text();
    if let Ok(lines) = late_steps_of(rt.alloc(), scenario) {
        say_of_runs(rt, given, RUNNERS, lines.as_str());
    }
}

/// The lines that say so, of the scenario of this line.
fn late_steps_of(alloc: Global, scenario: &str) -> Said {
    let report = run_of(alloc, None, Format::Lines, scenario)?;
    let lines = late_steps_in_words(alloc, scenario, report.as_str())?;
    let mut said = String::new(alloc);
    for line in lines.as_str().lines() {
        said.push_str(OWN)?;
        said.push_str(line)?;
        said.push_str("\n")?;
    }
    Ok(said)
}

/// Whether a format shows what a run did as a table or a picture, without the runners of refused events.
fn is_shown_in_columns(format: Format) -> bool {
    match format {
        Format::Lines | Format::Json => false,
        _ => true,
    }
}

/// Runs a scenario. What explains its faults has the places of its source, where it has one, and the names that this gives to runners.
pub(crate) fn run_script(
    rt: &HostRuntime,
    given: &Given<'_>,
    format: Format,
    labels: &[RunnerLabel],
    explain: bool,
) -> u8 {
    let status = run_given(rt, given, format, labels, explain);
    if explain && status == 0 && is_shown_in_columns(format) {
        say_late_steps(rt, given);
    }
    status
}

/// The same, of which it is not said why steps are refused.
fn run_given(
    rt: &HostRuntime,
    given: &Given<'_>,
    format: Format,
    labels: &[RunnerLabel],
    explain: bool,
) -> u8 {
    if !explain || given.text.is_none() {
        let mut err = Std::new(rt.stderr());
        return script_on(rt, &given.scenario, format, labels, explain, &mut err);
    }
    let said: Vec<u8> = Vec::new(rt.alloc());
    let mut err = Std::new(said);
    let status = script_on(rt, &given.scenario, format, labels, explain, &mut err);
    say_still(rt, given);
    say_leases(rt, given, RUNNERS);
    say_ended(rt, given, RUNNERS, status, &err)
}

/// The number of the line of which an answer says that it is wrong.
fn wrong_line_in(answer: &str) -> Option<usize> {
    let (number, _) = answer.strip_prefix("no ")?.split_once(' ')?;
    number.parse::<usize>().ok()
}

/// What script prints of a scenario in the place of a line of the report of a name.
fn due_words(alloc: Global, name: &str, scenario: &str, line: usize) -> Said {
    let report = run_of(alloc, None, Format::Lines, scenario)?;
    match report.as_str().lines().nth(line.saturating_sub(1)) {
        Some(due) => format!(in alloc; "{name}:{line}: script prints here {due}"),
        None => format!(in alloc; "{name}:{line}: what script prints has ended before this line"),
    }
}

/// The number of the first line of a report that is not the one that is due there, though each has one.
fn unlike_line(due: &str, report: &str) -> Option<usize> {
    let mut lines = report.lines();
    for (index, line) in due.lines().enumerate() {
        if lines.next()? != line {
            return Some(index + 1);
        }
    }
    None
}

/// What script prints of a scenario in the place of a line of a report to which an answer says yes though it is another line; nothing, where there is none.
fn unasked_words(alloc: Global, name: &str, scenario: &str, report: &str) -> Said {
    let due = run_of(alloc, None, Format::Lines, scenario)?;
    match unlike_line(due.as_str(), report) {
        Some(line) => {
            let words = due_words(alloc, name, scenario, line)?;
            format!(in alloc; "{words}, which a yes does not ask for (--whole does)\n")
        }
        None => Ok(String::new(alloc)),
    }
}

/// Says that of the line of which an answer says that it is wrong, or that is another one though the answer is yes; nothing, where memory runs out.
fn say_due(rt: &HostRuntime, name: &str, scenario: &str, report: &str, answer: &[u8]) {
    let answer = str::from_utf8(answer).unwrap_or("");
    if let Some(line) = wrong_line_in(answer) {
        if let Ok(words) = due_words(rt.alloc(), name, scenario, line) {
            let _ = rt.eprintln(words.as_str());
        }
    } else if answer == "yes\n" {
        if let Ok(words) = unasked_words(rt.alloc(), name, scenario, report) {
            let _ = rt.eprint(words.as_str());
        }
    }
}

/// Says of a file in the place of a report what it seems to be, unless that was explained.
fn say_no_report<S>(rt: &HostRuntime, report: &KeptSource<'_, S>, explain: bool) {
    let text = report.text().unwrap_or("");
    if !explain || !begins_scenario(text) {
        say_seeming(rt, report.name, seeming(text), REPORT);
    }
}

/// Checks the report of a path beside a scenario: each line, where it is to be whole.
pub(crate) fn run_check(
    rt: &HostRuntime,
    scenario: &JsonFile<'_>,
    report: &str,
    whole: bool,
    explain: bool,
) -> u8 {
    let text = scenario.text();
    let mut scenario = kept_json(rt, scenario);
    let mut report = kept(rt, report);
    let mut out = Std::new(Noting::new(Keeping::new(rt.alloc(), rt.stdout())));
    let mut err = Std::new(rt.stderr());
    let alloc = rt.alloc();
    let status = if whole {
        check_whole_to(
            alloc,
            explain,
            &mut scenario,
            &mut report,
            &mut out,
            &mut err,
        )
    } else {
        check_as_to(
            alloc,
            explain,
            &mut scenario,
            &mut report,
            &mut out,
            &mut err,
        )
    };
    say_read(rt, &scenario);
    say_unread(rt, report.name, report.source.device.failure);
    if status == BAD {
        say_no_report(rt, &report, explain);
    }
    if explain {
        say_unwritten(rt, out.device.failure);
    }
    if explain && !whole {
        let answer = out.device.into_device().into_bytes();
        let given = report.text().unwrap_or("");
        say_due(rt, report.name, text, given, answer.as_slice());
    }
    status
}
