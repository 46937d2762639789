//! Inputs that are read as JSON: files of it, and sources, which are compiled first.
ghost use Rattle.std.specs.Prelude.{◌≡◌, false};

use crate::explaining::{has_hidden, name_of, say_unread, say_unwritten};
use crate::files::{Opened, open, open_beside};
use crate::found::run_of;
use crate::kinds::{
    Kind, begins_json, begins_source, front_of, kind_of, say_kind, without_answers,
};
use crate::naming::{Called, RUNNERS, with_names};
use crate::noting::Noting;
use std::alloc::{AllocError, Global};
use std::io::Input;
use std::rt::Files;
use stm_answers::waits_broken;
use stm_commands::{Format, KeptSource, RunnerLabel, Std};
use stm_compiling::{
    Beside, CalledRunner, Compiled, NamedRunner, Part, PlacedLine, Printed, Refused, Rule,
    SourcePlaces, Wait, called_runners, compile_to, compiled, compiled_part, events_without_jobs,
    named_runners, notes_of, placed_program, refused_in,
};
use stm_devices::{ReadFault, read_all};
use stm_explain::Said;
use stm_faulted_runs::{Named, leases_explained};
use stm_history::{Sequence, Text};

/// What the names of sources end in.
const ENDING: &str = ".stm";

/// What stands behind the name of a source in that of its line of JSON.
const COMPILED: &str = ", compiled";

/// The path of standard input.
const STANDARD: &str = "-";

/// What stands before what a command has to say, also where it explains nothing.
pub(crate) const OWN: &str = "stmrun: ";

/// The line of a scenario without events.
const NO_EVENTS: &str = "[]";

/// What is read as JSON.
#[derive(Drop)]
pub(crate) enum JsonFile<'a> {
    /// The file of a path, or standard input.
    Json(&'a str),
    /// The line to which a source was compiled, under this name.
    Compiled(Text, String),
    /// What the file of a path had, or standard input.
    Held(Vec<u8>, &'a str),
}

impl JsonFile<'_> {
    /// What is read of it.
    pub(crate) fn open<R: Files + Input>(&self, rt: &R) -> Opened<R::File, R::Reader, &[u8]> {
        match self {
            JsonFile::Json(path) => open_beside(rt, path),
            JsonFile::Compiled(line, _) => Opened::Compiled(line.as_str().as_bytes()),
            JsonFile::Held(bytes, _) => Opened::Compiled(bytes.as_slice()),
        }
    }

    /// What is read of it, where it is no file; nothing, where it is one or no text.
    pub(crate) fn text(&self) -> &str {
        match self {
            JsonFile::Json(_) => "",
            JsonFile::Compiled(line, _) => line.as_str(),
            JsonFile::Held(bytes, _) => str::from_utf8(bytes.as_slice()).unwrap_or(""),
        }
    }

    /// Its name, as people know it.
    pub(crate) fn name(&self) -> &str {
        match self {
            JsonFile::Json(path) => name_of(path),
            JsonFile::Compiled(_, name) => name.as_str(),
            JsonFile::Held(_, path) => name_of(path),
        }
    }
}

/// Says that an allocation failed, and gives the status.
pub(crate) fn out_of_memory(rt: &HostRuntime) -> u8 {
    let _ = rt.eprintln("stmrun: out of memory");
    3
}

/// The name under which a source is explained, where it is.
fn explained_name(path: &str, explain: bool) -> Option<&str> {
    if explain { Some(name_of(path)) } else { None }
}

/// Whether a path is that of a source.
pub(crate) fn is_source(path: &str) -> bool {
    path.ends_with(ENDING)
}

/// The line of a source of a path, as it is read.
fn line_of<'a>(rt: &HostRuntime, path: &str, line: Text) -> Result<JsonFile<'a>, u8> {
    let name = name_of(path);
    match format!(in rt.alloc(); "{name}{COMPILED}") {
        Ok(name) => Ok(JsonFile::Compiled(line, name)),
        Err(_) => Err(out_of_memory(rt)),
    }
}

/// What the file of a path has, or standard input; or the status, once it was said why it cannot be read.
fn read_at(rt: &HostRuntime, path: &str) -> Result<Vec<u8>, u8> {
    let mut input = Std::new(Noting::new(open(rt, path)));
    let read = read_all(rt.alloc(), &mut input);
    match read {
        Ok(bytes) => Ok(bytes),
        Err(ReadFault::OutOfMemory) => Err(out_of_memory(rt)),
        Err(ReadFault::Device) => {
            let _ = rt.eprintln("stmrun: device fault");
            say_unread(rt, name_of(path), input.device.failure);
            Err(3)
        }
    }
}

/// What `read_at` answers, without answers of explore.
fn bytes_at(rt: &HostRuntime, path: &str) -> Result<Vec<u8>, u8> {
    let mut bytes = read_at(rt, path)?;
    without_answers(bytes.as_mut_slice());
    Ok(bytes)
}

/// The source of a path, which has these bytes, compiled; or the status, once what is wrong with it was said. It is explained, or is not; of what is no
/// source it is said what it is.
fn compiled_of(rt: &HostRuntime, path: &str, bytes: &[u8], explain: bool) -> Result<Compiled, u8> {
    let mut err = Std::new(rt.stderr());
    let kind = kind_of(front_of(bytes));
    let is_other = !matches!(kind, Kind::Source | Kind::Unknown);
    let name = explained_name(path, explain && !is_other);
    let compiled = compiled(rt.alloc(), name, &mut Std::new(bytes), &mut err);
    if is_other {
        say_kind(rt, name_of(path), kind);
    }
    compiled
}

/// A scenario, and what is known of its source.
#[derive(Drop)]
pub(crate) struct Given<'a> {
    /// The scenario.
    pub(crate) scenario: JsonFile<'a>,
    /// What its source has beside it: nothing, where it has none.
    pub(crate) beside: Beside,
    /// Its source, where it has one.
    pub(crate) text: Option<String>,
}

/// The scenario of a source of these bytes.
fn given_by<'a>(
    rt: &HostRuntime,
    path: &str,
    bytes: Vec<u8>,
    explain: bool,
) -> Result<Given<'a>, u8> {
    let Compiled { line, beside } = compiled_of(rt, path, bytes.as_slice(), explain)?;
    let scenario = line_of(rt, path, line)?;
    Ok(Given {
        scenario,
        beside,
        text: String::from_utf8(bytes).ok(),
    })
}

/// Whether a scenario is a source: that of a path which ends so, of standard input which begins so, and behind answers of explore what begins as no JSON.
fn is_spelled(path: &str, text: &str, has_answers: bool) -> bool {
    if has_answers {
        !begins_json(text)
    } else if path == STANDARD {
        begins_source(text)
    } else {
        is_source(path)
    }
}

/// A scenario that has no source.
fn given_alone<'a>(rt: &HostRuntime, scenario: JsonFile<'a>) -> Given<'a> {
    Given {
        scenario,
        beside: Beside::nothing(rt.alloc()),
        text: None,
    }
}

/// The scenario of a path, and what is known of its source; or the status, once what is wrong with that was said. It is explained, or is not.
pub(crate) fn source_at<'a>(
    rt: &HostRuntime,
    path: &'a str,
    explain: bool,
) -> Result<Given<'a>, u8> {
    let mut bytes = read_at(rt, path)?;
    let has_answers = without_answers(bytes.as_mut_slice());
    if is_spelled(path, front_of(bytes.as_slice()), has_answers) {
        given_by(rt, path, bytes, explain)
    } else {
        Ok(given_alone(rt, JsonFile::Held(bytes, path)))
    }
}

/// A source under its name.
#[derive(Clone, Copy)]
pub(crate) struct NamedSource<'a> {
    /// Its name.
    pub(crate) name: &'a str,
    /// Its text.
    pub(crate) text: &'a str,
    /// Whether the rules that are asked are its own.
    pub(crate) has_rules: bool,
}

/// A source as people read it.
#[derive(Drop)]
pub(crate) struct SourceText {
    /// Its text.
    pub(crate) text: String,
    /// The runners that it names.
    pub(crate) runners: Vec<NamedRunner>,
    /// What tables call its runners.
    pub(crate) labels: Vec<RunnerLabel>,
}

/// A source of this text, which has this beside its scenario.
fn read_source(alloc: Global, text: String, beside: &Beside) -> Result<SourceText, AllocError> {
    let runners = named_runners(alloc, text.as_bytes(), beside)?;
    let labels = labels_in_source(alloc, text.as_str())?;
    Ok(SourceText {
        text,
        runners,
        labels,
    })
}

/// A source of this text, where there is one, which has this beside its scenario; or the status, once it was said that memory ran out.
pub(crate) fn source_text(
    rt: &HostRuntime,
    text: Option<String>,
    beside: &Beside,
) -> Result<Option<SourceText>, u8> {
    let Some(text) = text else {
        return Ok(None);
    };
    match read_source(rt.alloc(), text, beside) {
        Ok(source) => Ok(Some(source)),
        Err(_) => Err(out_of_memory(rt)),
    }
}

/// The labels of runners that are called so.
fn labels_of_called(
    alloc: Global,
    called: Vec<CalledRunner>,
) -> Result<Vec<RunnerLabel>, AllocError> {
    let mut labels = Vec::new(alloc);
    for runner in called {
        let CalledRunner { name, program } = runner;
        labels.push(RunnerLabel { name, program })?;
    }
    Ok(labels)
}

/// What a source calls its runners.
pub(crate) fn labels_in_source(
    alloc: Global,
    source: &str,
) -> Result<Vec<RunnerLabel>, AllocError> {
    let called = called_runners(alloc, source)?;
    labels_of_called(alloc, called)
}

/// What a scenario's source calls the runners: nothing, where it has none; or the status, once it was said that memory ran out.
pub(crate) fn labels_of(rt: &HostRuntime, given: &Given<'_>) -> Result<Vec<RunnerLabel>, u8> {
    let Some(text) = &given.text else {
        return Ok(Vec::new(rt.alloc()));
    };
    match labels_in_source(rt.alloc(), text.as_str()) {
        Ok(labels) => Ok(labels),
        Err(_) => Err(out_of_memory(rt)),
    }
}

/// The rules of the source of a path; or the status, once what is wrong with it was said. It is explained, or is not.
pub(crate) fn rules_at(rt: &HostRuntime, path: &str, explain: bool) -> Result<Sequence<Rule>, u8> {
    let bytes = bytes_at(rt, path)?;
    let Compiled { beside, .. } = compiled_of(rt, path, bytes.as_slice(), explain)?;
    let Beside { rules, .. } = beside;
    Ok(rules)
}

/// Lines about a source, with the names that it gives to runners, which are called so.
fn named_lines(alloc: Global, lines: &str, called: Called, runners: &[NamedRunner]) -> Said {
    let mut named = String::new(alloc);
    for line in lines.lines() {
        let line = with_names(alloc, called, runners, line)?;
        named.push_str(line.as_str())?;
        named.push_str("\n")?;
    }
    Ok(named)
}

/// A line with its place in a source, and the line of the source.
fn with_source(
    alloc: Global,
    placed: &PlacedLine<'_>,
    called: Called,
    runners: &[NamedRunner],
) -> Said {
    let mut said = named_lines(alloc, placed.words.as_str(), called, runners)?;
    said.push_str("    ")?;
    said.push_str(placed.source)?;
    said.push_str("\n")?;
    Ok(said)
}

/// Says a line with its place in a source, and the line of the source; neither, where memory runs out.
pub(crate) fn say_line(
    rt: &HostRuntime,
    placed: &PlacedLine<'_>,
    called: Called,
    runners: &[NamedRunner],
) {
    if let Ok(said) = with_source(rt.alloc(), placed, called, runners) {
        let _ = rt.eprint(said.as_str());
    }
}

/// A line that explains a run, with its place in the source, if it has one there, and the line of the source.
fn placed_line(
    alloc: Global,
    line: &str,
    places: &SourcePlaces<'_>,
    called: Called,
    runners: &[NamedRunner],
) -> Said {
    match places.placed(alloc, line) {
        Ok(Some(placed)) => with_source(alloc, &placed, called, runners),
        Ok(None) => named_lines(alloc, line, called, runners),
        Err(error) => Err(error),
    }
}

/// The name of a scenario's file, also where that is a source.
fn name_of_source<'a>(given: &'a Given<'_>) -> &'a str {
    let name = given.scenario.name();
    name.strip_suffix(COMPILED).unwrap_or(name)
}

/// Says which events of a scenario's source have no place among jobs, behind the fault that stands on `err`, and answers whether there are any.
pub(crate) fn say_no_jobs(rt: &HostRuntime, given: &Given<'_>, err: &Std<Vec<u8>>) -> bool {
    let (Some(text), false) = (&given.text, err.failed) else {
        return false;
    };
    let Ok(events) = events_without_jobs(rt.alloc(), name_of_source(given), text.as_str()) else {
        return false;
    };
    if events.is_empty() {
        return false;
    }
    let said = str::from_utf8(err.device.as_slice()).unwrap_or("");
    if let Some(fault) = said.lines().next() {
        let _ = rt.eprintln(fault);
    }
    let _ = rt.eprint(events.as_str());
    true
}

/// What is said of runs by these lines: with the places of the source of their scenario, where it has one, and with the names that this gives to runners.
fn said_of_runs(alloc: Global, given: &Given<'_>, called: Called, lines: &str) -> Said {
    let runners = runners_of(alloc, given)?;
    let name = name_of_source(given);
    let text = match &given.text {
        Some(text) => text.as_str(),
        None => "",
    };
    let places = SourcePlaces::of(alloc, name, text)?;
    let mut said = String::new(alloc);
    for line in lines.lines() {
        let line = placed_line(alloc, line, &places, called, runners.as_slice())?;
        said.push_str(line.as_str())?;
    }
    Ok(said)
}

/// Says lines that explain the runs of a scenario, of runners that are called so, as its source has them, where it has one. Where memory runs out, what the
/// command itself has to say is said, and nothing is explained.
pub(crate) fn say_of_runs(rt: &HostRuntime, given: &Given<'_>, called: Called, lines: &str) {
    // The places take a second reading of the source.
    if lines.is_empty() {
        return;
    }
    match said_of_runs(rt.alloc(), given, called, lines) {
        Ok(said) => {
            let _ = rt.eprint(said.as_str());
        }
        Err(_) => {
            for line in lines.lines() {
                if line.starts_with(OWN) {
                    let _ = rt.eprintln(line);
                }
            }
        }
    }
}

/// Lines that say which rules are not asked, and which runners do not wait, with the names of runners.
fn named_notes(alloc: Global, rules: &[Rule], waits: &[Wait], runners: &[NamedRunner]) -> Said {
    let notes = notes_of(alloc, rules, waits)?;
    named_lines(alloc, notes.as_str(), RUNNERS, runners)
}

/// Says which runs of a scenario's source, which are called so, put on a lease that no event grants; nothing, where it has no source or memory runs out.
pub(crate) fn say_leases(rt: &HostRuntime, given: &Given<'_>, called: Called) {
    if let JsonFile::Compiled(line, name) = &given.scenario {
        let named = Named {
            name: name.as_str(),
            text: line.as_str(),
        };
        if let Ok(lines) = leases_explained(rt.alloc(), &named, called.word, called.first) {
            say_of_runs(rt, given, called, lines.as_str());
        }
    }
}

/// Says what a command over a scenario, which gives this status, has said on `err`, as `say_of_runs` does, and gives the status. Where `err` could not keep all of
/// it, it is said that memory ran out, unless there is an answer, which then stands alone.
pub(crate) fn say_ended(
    rt: &HostRuntime,
    given: &Given<'_>,
    called: Called,
    status: u8,
    err: &Std<Vec<u8>>,
) -> u8 {
    if err.failed {
        return if status < 2 {
            status
        } else {
            out_of_memory(rt)
        };
    }
    let said = str::from_utf8(err.device.as_slice()).unwrap_or("");
    say_of_runs(rt, given, called, said);
    status
}

/// Says which rules are not asked, and which runners do not wait, with the names of runners.
pub(crate) fn say_unasked(
    rt: &HostRuntime,
    rules: &[Rule],
    waits: &[Wait],
    runners: &[NamedRunner],
) -> Result<(), u8> {
    match named_notes(rt.alloc(), rules, waits, runners) {
        Ok(notes) => {
            let _ = rt.eprint(notes.as_str());
            Ok(())
        }
        Err(_) => Err(out_of_memory(rt)),
    }
}

/// The runners that a scenario's source names; none, where it has no source.
pub(crate) fn runners_of(alloc: Global, given: &Given<'_>) -> Result<Vec<NamedRunner>, AllocError> {
    let Some(text) = &given.text else {
        return Ok(Vec::new(alloc));
    };
    named_runners(alloc, text.as_bytes(), &given.beside)
}

/// Says which rules of a scenario's source are not asked, and which runners do not wait as these waits say.
fn say_left_out(rt: &HostRuntime, given: &Given<'_>, waits: &[Wait]) -> Result<(), u8> {
    let rules = given.beside.rules.as_slice();
    if waits.is_empty() {
        return say_unasked(rt, rules, waits, &[]);
    }
    match runners_of(rt.alloc(), given) {
        Ok(runners) => say_unasked(rt, rules, waits, runners.as_slice()),
        Err(_) => Err(out_of_memory(rt)),
    }
}

/// Says of the source of a path that it has no events, if it has none.
fn say_empty(rt: &HostRuntime, path: &str, given: &Given<'_>) {
    if let JsonFile::Compiled(line, _) = &given.scenario {
        if line.as_str().trim() == NO_EVENTS {
            let name = name_of(path);
            let _ = eprintln!(rt; "stmrun: {name} has no events");
        }
    }
}

/// The scenario of a path alone: it is said which rules of its source are not asked, which runners do not wait, and that it has no events, where that is so.
/// Else all is as with `source_at`.
pub(crate) fn given_at<'a>(
    rt: &HostRuntime,
    path: &'a str,
    explain: bool,
) -> Result<Given<'a>, u8> {
    let given = source_at(rt, path, explain)?;
    say_left_out(rt, &given, given.beside.waits.as_slice())?;
    say_empty(rt, path, &given);
    Ok(given)
}

/// The waits of a scenario's source that its steps do not keep, in a new store.
fn broken_waits(alloc: Global, given: &Given<'_>) -> Result<Vec<Wait>, AllocError> {
    let waits = given.beside.waits.as_slice();
    if waits.is_empty() {
        return Ok(Vec::new(alloc));
    }
    let report = run_of(alloc, None, Format::Lines, given.scenario.text())?;
    waits_broken(alloc, report.as_str(), waits)
}

/// The same of a scenario that is run in a new store: of the runners those alone do not wait that make a step too early.
pub(crate) fn played_at<'a>(
    rt: &HostRuntime,
    path: &'a str,
    explain: bool,
) -> Result<Given<'a>, u8> {
    let given = source_at(rt, path, explain)?;
    let broken = broken_waits(rt.alloc(), &given);
    match &broken {
        Ok(waits) => say_left_out(rt, &given, waits.as_slice())?,
        Err(_) => say_left_out(rt, &given, given.beside.waits.as_slice())?,
    }
    say_empty(rt, path, &given);
    Ok(given)
}

/// The scenario that `given_at` answers.
pub(crate) fn scenario_at<'a>(
    rt: &HostRuntime,
    path: &'a str,
    explain: bool,
) -> Result<JsonFile<'a>, u8> {
    let given = given_at(rt, path, explain)?;
    let Given { scenario, .. } = given;
    Ok(scenario)
}

/// The runners that a source of this text names.
fn runners_in(alloc: Global, text: &str) -> Result<Vec<NamedRunner>, AllocError> {
    let called = called_runners(alloc, text)?;
    let mut runners = Vec::new(alloc);
    for (index, runner) in called.into_iter().enumerate() {
        let CalledRunner { name, .. } = runner;
        if let Some(name) = name {
            let number = (index as u64).saturating_add(1);
            runners.push(NamedRunner { number, name })?;
        }
    }
    Ok(runners)
}

/// The text of a source that was read; nothing where it is none. It fails where an allocation has failed for it.
fn text_kept<'a, S>(input: &'a KeptSource<'_, S>) -> Result<Option<&'a str>, AllocError> {
    if input.is_cut {
        return Err(AllocError);
    }
    Ok(input.text())
}

/// What was said of a source that was compiled, with the names that its text gives to runners.
fn named_compiled<S>(alloc: Global, lines: &str, input: &KeptSource<'_, S>) -> Said {
    let text = text_kept(input)?;
    let runners = runners_in(alloc, text.unwrap_or(""))?;
    named_lines(alloc, lines, RUNNERS, runners.as_slice())
}

/// Says what was said of a source that was compiled; the fault alone, which is its first line, where memory runs out.
fn say_compiled<S>(rt: &HostRuntime, said: &[u8], input: &KeptSource<'_, S>) {
    let lines = str::from_utf8(said).unwrap_or("");
    match named_compiled(rt.alloc(), lines, input) {
        Ok(named) => {
            let _ = rt.eprint(named.as_str());
        }
        Err(_) => {
            if let Some(fault) = lines.lines().next() {
                let _ = rt.eprintln(fault);
            }
        }
    }
}

/// Says of a part of a path's source that it is none, by what was typed for it.
fn say_refused(rt: &HostRuntime, path: &str, name: &str, refused: &Refused) {
    let path = name_of(path);
    let _ = match refused {
        Refused::Name(words) => eprintln!(rt;
            "error: invalid value '{name}' for '[NAME]': no rule or program of {path} has this name: {words}"
        ),
        Refused::Arguments(words) => eprintln!(rt; "error: {path}: {words}"),
    };
}

/// Why the rule or program of a name, with these words as its arguments, is none of a source; nothing, where the source itself is bad, or where the name
/// cannot be shown.
fn refusal_of<S>(
    alloc: Global,
    name: &str,
    words: &[String],
    input: &KeptSource<'_, S>,
) -> Result<Option<Refused>, AllocError> {
    let Some(text) = text_kept(input)? else {
        return Ok(None);
    };
    if has_hidden(name) {
        return Ok(None);
    }
    refused_in(alloc, text.as_bytes(), name, words)
}

/// Says why a part of a path's source was not compiled, and gives the status. What is wrong with the words that were typed for a part is said of these.
fn say_bad_part<S>(
    rt: &HostRuntime,
    path: &str,
    part: Part<'_>,
    said: &[u8],
    input: &KeptSource<'_, S>,
) -> u8 {
    if let Part::Program { name, words } = part {
        match refusal_of(rt.alloc(), name, words, input) {
            Ok(Some(refused)) => {
                say_refused(rt, path, name, &refused);
                return 2;
            }
            Ok(None) => {}
            Err(_) => return out_of_memory(rt),
        }
    }
    say_compiled(rt, said, input);
    2
}

/// Says what was said of a part of a path's source that was compiled, or was not, with this status, or that memory ran out.
fn say_part<S>(
    rt: &HostRuntime,
    path: &str,
    part: Part<'_>,
    status: u8,
    err: &Std<Vec<u8>>,
    input: &KeptSource<'_, S>,
) -> u8 {
    if err.failed {
        return if status == 0 { 0 } else { out_of_memory(rt) };
    }
    if status == 2 {
        return say_bad_part(rt, path, part, err.device.as_slice(), input);
    }
    say_compiled(rt, err.device.as_slice(), input);
    status
}

/// The line of a part of a path's source that was compiled; or the status, once what is wrong with it was said.
fn line_printed<S>(
    rt: &HostRuntime,
    path: &str,
    part: Part<'_>,
    printed: Result<Printed, u8>,
    err: &Std<Vec<u8>>,
    input: &KeptSource<'_, S>,
) -> Result<Text, u8> {
    match printed {
        Ok(printed) => {
            let Printed { line, .. } = printed;
            Ok(line)
        }
        Err(status) => Err(say_part(rt, path, part, status, err, input)),
    }
}

/// The source of a path, which has these bytes, to be read and kept.
fn held_source<'a>(
    rt: &HostRuntime,
    path: &'a str,
    bytes: &'a [u8],
) -> KeptSource<'a, Std<&'a [u8]>>
    ensures { result.source.failed ≡ false }
{
    KeptSource::new(rt.alloc(), name_of(path), Std::new(bytes))
}

/// A copy of a text, where there is one; none, where an allocation fails.
fn copy_of(rt: &HostRuntime, text: Option<&str>) -> Option<String> {
    let text = text?;
    String::from_str(rt.alloc(), text).ok()
}

/// A program that is read as JSON, and the text of the source that has it, where one has.
#[derive(Drop)]
pub(crate) struct GivenProgram<'a> {
    /// The program.
    pub(crate) file: JsonFile<'a>,
    /// The text of its source.
    pub(crate) text: Option<String>,
}

/// The rule or program of a name, of the source of a path, with these words as its arguments; or the status, once what is wrong with that was said.
pub(crate) fn program_at<'a>(
    rt: &HostRuntime,
    path: &str,
    name: &str,
    words: &[String],
    explain: bool,
) -> Result<GivenProgram<'a>, u8> {
    let bytes = bytes_at(rt, path)?;
    let mut input = held_source(rt, path, bytes.as_slice());
    let said: Vec<u8> = Vec::new(rt.alloc());
    let mut err = Std::new(said);
    let part = Part::Program { name, words };
    let explained = explained_name(path, explain);
    let printed = compiled_part(rt.alloc(), part, explained, &mut input, &mut err);
    let printed = line_printed(rt, path, part, printed, &err, &input);
    let text = copy_of(rt, input.text());
    let file = line_of(rt, path, printed?)?;
    Ok(GivenProgram { file, text })
}

/// Says a line `FAULT at POINTER: REASON` of a run of a program of a path's source, with its place in the source and the line there.
pub(crate) fn say_in_program(
    rt: &HostRuntime,
    path: &str,
    text: &str,
    name: &str,
    words: &[String],
    line: &str,
) {
    let path = name_of(path);
    match placed_program(rt.alloc(), path, text, name, words, line) {
        Ok(Some(placed)) => say_line(rt, &placed, RUNNERS, &[]),
        Ok(None) => {
            let _ = eprintln!(rt; "{path}: {line}");
        }
        Err(_) => {}
    }
}

/// Prints a part of the source of a path, which has these bytes. A fault is explained, or is not.
fn compile_bytes(rt: &HostRuntime, path: &str, bytes: &[u8], part: Part<'_>, explain: bool) -> u8 {
    let mut input = held_source(rt, path, bytes);
    let mut out = Std::new(Noting::new(rt.stdout()));
    let said: Vec<u8> = Vec::new(rt.alloc());
    let mut err = Std::new(said);
    let status = compile_to(
        rt.alloc(),
        part,
        explained_name(path, explain),
        &mut input,
        &mut out,
        &mut err,
    );
    let status = say_part(rt, path, part, status, &err, &input);
    if explain {
        say_unwritten(rt, out.device.failure);
    }
    status
}

/// Prints a part of a path's source. A fault is explained, or is not; of what explore answers it is said what it lacks.
pub(crate) fn run_compile(rt: &HostRuntime, path: &str, part: Part<'_>, explain: bool) -> u8 {
    let bytes = match bytes_at(rt, path) {
        Ok(bytes) => bytes,
        Err(status) => return status,
    };
    let kind = kind_of(front_of(bytes.as_slice()));
    let is_other = !matches!(kind, Kind::Source | Kind::Json | Kind::Unknown);
    let status = compile_bytes(rt, path, bytes.as_slice(), part, explain && !is_other);
    if is_other {
        say_kind(rt, name_of(path), kind);
    }
    status
}
