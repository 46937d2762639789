//! The commands over a store that is kept in a file.
ghost use Rattle.std.specs.Prelude.{◌≡◌, ◌≤◌, List, ℕ, Ok as OkOf, IfOk, IsTrue, false};
ghost use Rattle.stm_file_disk.specs.Event.{events_of};
ghost use Rattle.stm_file_disk.specs.Replay.{replay};
ghost use Rattle.stm_texts.specs.Opens.{IsOpening};
ghost use Rattle.stm_texts.specs.Reading.{scenario_in};
ghost use Rattle.stm_workers.specs.declared.run.TheConstants.{MOST_WORKERS};

use crate::explaining::{kept_json, name_of, say_read, say_unwritten};
use crate::files::is_missing;
use crate::naming::JOBS;
use crate::noting::{Keeping, Noting};
use crate::sources::{
    Given, GivenProgram, JsonFile, is_source, out_of_memory, program_at, say_ended, say_in_program,
    scenario_at,
};
use crate::threading::{jobs_at, print_jobs};
use crate::under_way::say_under_way;
use crate::wording::{Lines, TEXT, held, print_words};
use std::io::{self, Write};
use std::sync::Wait;
use std::thread::Threads;
use stm_arguments::{RunWords, ScriptWords, Shown, StoreWords, ThreadsWords, Which};
use stm_commands::{Format, KeptSource, Std};
use stm_compiling::indices_in;
use stm_devices::Source;
use stm_explain::{Input, explained_at};
use stm_faulted_runs::{State, fault_on};
use stm_file_disk::{FileDisk, OpenError, open, open_to_read};
use stm_lasting::Kept;
use stm_storing::{
    HIGHEST_REVISION, InputFault, JobEnd, JobsAsked, Manner, Program, RecordFile, Scenario,
    StoreFault, Text, Watched, check_kept, compact_kept, read_input, read_jobs, read_program,
    run_anew, run_kept, script_kept, show_at, show_kept, show_since, threads_kept,
};
use stm_threading::report_ends;

/// Says of the file of a store why a command failed, of a disk also what the system said, and gives the status.
fn say_fault(rt: &HostRuntime, path: &str, fault: &StoreFault, refusal: Option<io::Error>) -> u8 {
    match (fault, refusal) {
        (StoreFault::Disk, Some(error)) => {
            let _ = eprintln!(rt; "stmrun: {path}: {fault}: {error}");
        }
        _ => {
            let _ = eprintln!(rt; "stmrun: {path}: {fault}");
        }
    }
    match fault {
        StoreFault::OpenAlready
        | StoreFault::FutureRevision
        | StoreFault::Compacted
        | StoreFault::CannotCompact => 2,
        _ => 3,
    }
}

/// Says why a store was not opened, of its file or of what is beside it, and gives the status.
fn say_unopened(rt: &HostRuntime, path: &str, error: &OpenError) -> u8 {
    let (beginning, rest) = error.name(path);
    let _ = eprintln!(rt; "stmrun: {beginning}{rest}: {error}");
    3
}

/// Opens the file of a store. Where that is refused, it was said why, and the status is given.
fn opened(rt: &HostRuntime, path: &str) -> Result<(RecordFile<FileDisk>, Vec<u8>), u8>
    ensures bytes { IfOk result (λ opened. (replay (events_of opened.0.disk.calls.items)).seen ≡ opened.1.items) }
    ensures usable { IfOk result (λ opened. IsTrue (replay (events_of opened.0.disk.calls.items)).is_usable) }
    ensures durable { IfOk result (λ opened. (c : List ℕ) → (replay (events_of opened.0.disk.calls.items)).may c → c ≡ opened.1.items) }
{
    match open(rt, path) {
        Ok((disk, bytes)) => {
            let records = RecordFile {
                alloc: rt.alloc(),
                disk,
                end: bytes.len(),
            };
            Ok((records, bytes))
        }
        Err(error) => Err(say_unopened(rt, path, &error)),
    }
}

/// Opens the file of a store that is there already, to be read: it is not changed.
fn read_there(rt: &HostRuntime, path: &str) -> Result<(RecordFile<FileDisk>, Vec<u8>), u8>
    ensures bytes { IfOk result (λ opened. (replay (events_of opened.0.disk.calls.items)).seen ≡ opened.1.items) }
    ensures usable { IfOk result (λ opened. IsTrue (replay (events_of opened.0.disk.calls.items)).is_usable) }
    ensures durable { IfOk result (λ opened. (c : List ℕ) → (replay (events_of opened.0.disk.calls.items)).may c → c ≡ opened.1.items) }
{
    match open_to_read(rt, path) {
        Ok((disk, bytes)) => {
            say_empty(rt, path, &bytes);
            let records = RecordFile {
                alloc: rt.alloc(),
                disk,
                end: bytes.len(),
            };
            Ok((records, bytes))
        }
        Err(error) => Err(say_unopened(rt, path, &error)),
    }
}

/// Opens the file of a store that is there already. One with no bytes is only read, since there is nothing in it to be written anew.
fn opened_there(rt: &HostRuntime, path: &str) -> Result<(RecordFile<FileDisk>, Vec<u8>), u8>
    ensures bytes { IfOk result (λ opened. (replay (events_of opened.0.disk.calls.items)).seen ≡ opened.1.items) }
    ensures usable { IfOk result (λ opened. IsTrue (replay (events_of opened.0.disk.calls.items)).is_usable) }
    ensures durable { IfOk result (λ opened. (c : List ℕ) → (replay (events_of opened.0.disk.calls.items)).may c → c ≡ opened.1.items) }
{
    let (records, bytes) = read_there(rt, path)?;
    if bytes.is_empty() {
        return Ok((records, bytes));
    }
    drop(records);
    opened(rt, path)
}

/// What becomes of bytes that are no whole record, in a file that is only read.
const LEFT: &str = "they stay";

/// What became of them in one that is written.
const CUT: &str = "they were cut off";

/// Says which bytes of the file of a store are no whole record, and what became of them; nothing, where there are none.
fn say_torn(rt: &HostRuntime, path: &str, disk: &FileDisk, outcome: &str) {
    if let Some((at, count)) = disk.torn() {
        let _ = eprintln!(rt;
            "stmrun: {path}: {count} bytes behind byte {at} are no whole record: torn in a crash, or damaged; {outcome}"
        );
    }
}

/// Says that the file of a store has no bytes, where it has none.
fn say_empty(rt: &HostRuntime, path: &str, bytes: &[u8]) {
    if bytes.is_empty() {
        let _ = eprintln!(rt; "stmrun: {path} is empty: it has no store yet");
    }
}

/// The format of a report over a store that is kept: that of this name, lines where there is none. Rows number the runners of their own scenario, and
/// so are no format of one that goes on.
fn format_of(rt: &HostRuntime, word: Option<&str>) -> Result<Format, u8> {
    match word {
        None | Some("lines") => Ok(Format::Lines),
        Some("json") => Ok(Format::Json),
        Some(_) => {
            let _ = rt.eprintln(
                "error: unknown format for '--format <FORMAT>' with '--store <STORE>'\n  [possible values: lines, json]\n  Without --store a scenario is played over a new store in any format; stmrun store <STORE> --format text prints what this one has",
            );
            Err(2)
        }
    }
}

/// Says why an input was not read, and gives the status. A text that is none is called this, and is explained, or is not.
fn say_input<S>(
    rt: &HostRuntime,
    what: &'static str,
    form: Input,
    input: &KeptSource<'_, S>,
    fault: &InputFault,
    explain: bool,
) -> u8 {
    match fault {
        InputFault::OutOfMemory => out_of_memory(rt),
        InputFault::Device => {
            let _ = rt.eprintln("stmrun: device fault");
            3
        }
        InputFault::Bad(bad) => {
            let place = bad.place.as_str();
            let cause = bad.cause.name();
            let _ = eprintln!(rt; "stmrun: bad {what} at {place}: {cause}");
            if explain {
                let more = input.explanation(rt.alloc(), form, bad);
                let _ = rt.eprint(more.as_str());
            }
            2
        }
    }
}

/// The text of a scenario, and the scenario; or the status, once it was said why there is none.
fn scenario_of(
    rt: &HostRuntime,
    file: &JsonFile<'_>,
    explain: bool,
) -> Result<(Vec<u8>, Scenario), u8>
    ensures spelled { IfOk result (λ read. scenario_in read.0.items ≡ OkOf read.1) }
    ensures opening { IfOk result (λ read. IsOpening read.1.opening) }
{
    let mut input = kept_json(rt, file);
    let read = match read_input(rt.alloc(), &mut input) {
        Ok(read) => Ok(read),
        Err(fault) => Err(say_input(rt, "scenario", Input::Scenario, &input, &fault, explain)),
    };
    say_read(rt, &input);
    read
}

/// The text of a program, and the program; or the status, once it was said why there is none.
fn program_in(
    rt: &HostRuntime,
    file: &JsonFile<'_>,
    explain: bool,
) -> Result<(Vec<u8>, Program), u8> {
    let mut input = kept_json(rt, file);
    let read = match read_program(rt.alloc(), &mut input) {
        Ok(read) => Ok(read),
        Err(fault) => Err(say_input(rt, "program", Input::Program, &input, &fault, explain)),
    };
    say_read(rt, &input);
    read
}

/// The number of the first runner that a report in lines says was started.
fn first_started(report: &str) -> Option<&str> {
    let (_, behind) = report.split_once(",\"started\",")?;
    let (number, _) = behind.split_once(']')?;
    Some(number)
}

/// Says of a report in which a step found no runner that the store's runners go on counting, where they do: a source means its own by their names.
fn say_unstepped(rt: &HostRuntime, report: &[u8]) {
    if !has_part(report, ",\"refused\",\"NoRunner\",") {
        return;
    }
    match first_started(str::from_utf8(report).unwrap_or("")) {
        None | Some("1") => {}
        Some(number) => {
            let _ = eprintln!(rt;
                "stmrun: a step found no runner: a source's names stand for 1, 2 and so on, and the first start here is runner {number} of the store"
            );
        }
    }
}

/// Goes on with the scenario of a path, or that on standard input, over the store of a file.
fn run_script(
    rt: &HostRuntime,
    store: &str,
    words: &ScriptWords<'_>,
    explain: bool,
) -> Result<(), u8> {
    let format = format_of(rt, words.format)?;
    let file = scenario_at(rt, words.scenario.unwrap_or("-"), explain)?;
    let (text, scenario) = scenario_of(rt, &file, explain)?;
    let (mut records, bytes) = opened(rt, store)?;
    let mut out = Std::new(Noting::new(Keeping::new(rt.alloc(), rt.stdout())));
    let kept = script_kept(format, &mut records, bytes, &text, &scenario, &mut out);
    say_torn(rt, store, &records.disk, CUT);
    say_unwritten(rt, out.device.failure.take());
    match kept {
        Ok(()) => {
            say_unstepped(rt, out.device.into_device().into_bytes().as_slice());
            Ok(())
        }
        Err(fault) => Err(say_fault(rt, store, &fault, records.disk.failure())),
    }
}

/// The jobs and the calls of a scenario of jobs; or the status, once it was said why there are none.
fn jobs_of<S: Source>(
    rt: &HostRuntime,
    input: &mut KeptSource<'_, S>,
    explain: bool,
) -> Result<JobsAsked, u8>
    requires { S.failed input.old.source ≡ false }
    ensures { IfOk result (λ asked. IsOpening asked.opening) }
{
    match read_jobs(rt.alloc(), input) {
        Ok((_, asked)) => Ok(asked),
        Err(fault) => Err(say_input(rt, "scenario", Input::Jobs, input, &fault, explain)),
    }
}

/// Explains the jobs that came to a fault, or does not.
fn say_ends<S>(
    rt: &HostRuntime,
    given: &Given<'_>,
    input: &KeptSource<'_, S>,
    ends: &[JobEnd],
    explain: bool,
) {
    let said: Vec<u8> = Vec::new(rt.alloc());
    let mut err = Std::new(said);
    report_ends(rt.alloc(), explain, input, ends, &mut err);
    say_ended(rt, given, JOBS, 0, &err);
}

/// Runs the jobs of a scenario over the store of a file, by several threads, and prints on `out` what they came to.
fn jobs_on<T: Threads + Wait + Sync, W: Write + Drop>(
    rt: &HostRuntime,
    threads: &T,
    store: &str,
    given: &Given<'_>,
    words: &ThreadsWords<'_>,
    explain: bool,
    out: &mut Std<Noting<W>>,
) -> Result<(), u8>
    requires workers { (1 ≤ words.now.workers) × (words.now.workers ≤ MOST_WORKERS) }
    requires out_works { out.old.failed ≡ false }
{
    let mut input = kept_json(rt, &given.scenario);
    let read = jobs_of(rt, &mut input, explain);
    say_read(rt, &input);
    let asked = read?;
    let (mut records, bytes) = opened(rt, store)?;
    let ran = threads_kept(
        threads,
        &mut records,
        bytes,
        &asked,
        words.workers,
        words.ends,
        out,
    );
    say_torn(rt, store, &records.disk, CUT);
    say_unwritten(rt, out.device.failure.take());
    match ran {
        Ok(ends) => {
            say_ends(rt, given, &input, ends.as_slice(), explain);
            Ok(())
        }
        Err(fault) => Err(say_fault(rt, store, &fault, records.disk.failure())),
    }
}

/// What was done, by its status.
fn done_of(status: u8) -> Result<(), u8> {
    match status {
        0 => Ok(()),
        _ => Err(status),
    }
}

/// Runs the jobs of the scenario of a path, or of that on standard input, over the store of a file, and prints what they came to, in words or as lines.
fn run_jobs<T: Threads + Wait + Sync>(
    rt: &HostRuntime,
    threads: &T,
    store: &str,
    words: &ThreadsWords<'_>,
    explain: bool,
) -> Result<(), u8>
    requires { (1 ≤ words.now.workers) × (words.now.workers ≤ MOST_WORKERS) }
{
    if words.repeat.is_some() {
        let _ = rt.eprintln(
            "error: the argument '--repeat <RUNS>' cannot be used with '--store <STORE>'",
        );
        return Err(2);
    }
    let given = jobs_at(rt, words.scenario.unwrap_or("-"), explain)?;
    if words.format == Some(TEXT) {
        let mut out = held(rt);
        jobs_on(rt, threads, store, &given, words, explain, &mut out)?;
        return done_of(print_jobs(rt, &given, out, 0, true));
    }
    let mut out = Std::new(Noting::new(rt.stdout()));
    jobs_on(rt, threads, store, &given, words, explain, &mut out)
}

/// Runs a program over the store of a file that is not there, which is not made. Where it would not commit, its line was printed, and is given.
fn tried(
    rt: &HostRuntime,
    store: &str,
    program: Program,
    manner: Manner,
) -> Result<Option<Vec<u8>>, u8> {
    let mut out = Std::new(Noting::new(Keeping::new(rt.alloc(), rt.stdout())));
    let would = run_anew(rt.alloc(), program, manner, &mut out);
    say_unwritten(rt, out.device.failure.take());
    let line = out.device.into_device().into_bytes();
    match would {
        Ok(true) => Ok(None),
        Ok(false) => Ok(Some(line)),
        Err(fault) => Err(say_fault(rt, store, &fault, None)),
    }
}

/// Runs a program of this text over the store of a file, and prints its line, which is given where it has not committed.
fn ran(
    rt: &HostRuntime,
    store: &str,
    text: &[u8],
    program: Program,
    manner: Manner,
) -> Result<Option<Vec<u8>>, u8> {
    let (mut records, bytes) = opened(rt, store)?;
    let mut out = Std::new(Noting::new(Keeping::new(rt.alloc(), rt.stdout())));
    let ran = run_kept(&mut records, bytes, text, program, manner, &mut out);
    say_torn(rt, store, &records.disk, CUT);
    say_unwritten(rt, out.device.failure.take());
    let line = out.device.into_device().into_bytes();
    match ran {
        Ok(true) => Ok(None),
        Ok(false) => Ok(Some(line)),
        Err(fault) => Err(say_fault(rt, store, &fault, records.disk.failure())),
    }
}

/// A copy of a program, or the status where no memory is left.
fn copy_of(rt: &HostRuntime, program: &Program) -> Result<Program, u8> {
    match program.clone() {
        Ok(program) => Ok(program),
        Err(_) => Err(out_of_memory(rt)),
    }
}

/// Runs a program of this text over the store of a file, which is made only where the program commits. The line of one that does not was printed, and is given.
fn run_over(
    rt: &HostRuntime,
    store: &str,
    text: &[u8],
    program: &Program,
    manner: Manner,
) -> Result<Option<Vec<u8>>, u8> {
    if is_missing(rt, store) {
        let line = tried(rt, store, copy_of(rt, program)?, manner)?;
        if line.is_some() {
            return Ok(line);
        }
    }
    ran(rt, store, text, copy_of(rt, program)?, manner)
}

/// Whether a line of a report has a part.
fn has_part(line: &[u8], part: &str) -> bool {
    match str::from_utf8(line) {
        Ok(line) => line.contains(part),
        Err(_) => false,
    }
}

/// Whether a line of a report says that a run came to a fault.
fn is_faulted(line: &[u8]) -> bool {
    has_part(line, ",\"faulted\",")
}

/// Whether a line of a report says that the store ended a run, since a lease is not there.
fn is_without_lease(line: &[u8]) -> bool {
    has_part(line, ",\"ended\",") && has_part(line, ",\"LeaseNotFound\"]")
}

/// What is said of a program that puts on a lease which the store does not have.
const NO_LEASE: &str =
    "stmrun: the store has no such lease, or it has expired: a scenario grants one, as script --store does with grant 7 ttl 60";

/// The state of the store of a world.
fn state_kept(kept: Kept) -> Option<State> {
    let state = kept.world.state();
    drop(kept);
    state.ok()
}

/// The state of the store of a file, empty where that is not there; none, where it cannot be had.
fn state_of(rt: &HostRuntime, store: &str) -> Option<State> {
    if is_missing(rt, store) {
        return Some(State::new(rt.alloc()));
    }
    match open_to_read(rt, store) {
        Ok((mut disk, bytes)) => match stm_lasting::open(rt.alloc(), &mut disk, bytes) {
            Ok(kept) => state_kept(kept),
            Err(_) => None,
        },
        Err(_) => None,
    }
}

/// The fault to which a program comes, run alone over the store of a file, its place, and why: `FAULT at POINTER: REASON`; nothing, where it comes to none now,
/// or where that cannot be had.
fn fault_over(rt: &HostRuntime, store: &str, program: &Program) -> String {
    let Some(state) = state_of(rt, store) else {
        return String::new(rt.alloc());
    };
    match fault_on(rt.alloc(), program, &state) {
        Ok(line) => line,
        Err(_) => String::new(rt.alloc()),
    }
}

/// Says a line `FAULT at POINTER: REASON` of a run of a program of this JSON, with its place there.
fn say_in_json(rt: &HostRuntime, path: &str, text: &[u8], line: &str) {
    let text = str::from_utf8(text).unwrap_or("");
    let Ok(steps) = indices_in(rt.alloc(), line) else {
        return;
    };
    if let Ok(said) = explained_at(rt.alloc(), name_of(path), text, steps.as_slice(), line) {
        let _ = rt.eprint(said.as_str());
    }
}

/// Says where the program of this text stops, run over the store that words name, and why: in its source, where one has it.
fn say_stop(
    rt: &HostRuntime,
    words: &RunWords<'_>,
    given: &GivenProgram<'_>,
    text: &[u8],
    program: &Program,
) {
    let line = fault_over(rt, words.store, program);
    let line = line.as_str();
    let path = words.input.unwrap_or("-");
    match (&given.text, words.program) {
        _ if line.is_empty() => {}
        (Some(source), Some(name)) => {
            say_in_program(rt, path, source.as_str(), name, words.arguments, line);
        }
        // Memory ran out for the text of the source, which alone has its lines.
        (None, Some(_)) => {}
        _ => say_in_json(rt, path, text, line),
    }
}

/// Runs a program over the store that words name. A fault is explained, or is not.
fn run_program(
    rt: &HostRuntime,
    words: &RunWords<'_>,
    given: &GivenProgram<'_>,
    explain: bool,
) -> Result<(), u8> {
    let manner = Manner {
        level: words.level,
        attempts: words.attempts,
    };
    let (text, program) = program_in(rt, &given.file, explain)?;
    match run_over(rt, words.store, &text, &program, manner)? {
        None => Ok(()),
        Some(line) => {
            if explain && is_faulted(&line) {
                say_stop(rt, words, given, &text, &program);
            }
            if explain && is_without_lease(&line) {
                let _ = rt.eprintln(NO_LEASE);
            }
            Err(1)
        }
    }
}

/// The program that is to be run: a file of JSON, that of a name of a source, or standard input.
fn program_of<'a>(
    rt: &HostRuntime,
    words: &RunWords<'a>,
    explain: bool,
) -> Result<GivenProgram<'a>, u8> {
    let path = words.input.unwrap_or("-");
    match words.program {
        Some(name) => program_at(rt, path, name, words.arguments, explain),
        None if is_source(path) => {
            let path = name_of(path);
            let _ = eprintln!(rt;
                "stmrun: {path} is a source: stmrun run --store STORE {path} NAME ARGUMENT .. runs a program of it"
            );
            Err(2)
        }
        None => Ok(GivenProgram {
            file: JsonFile::Json(path),
            text: None,
        }),
    }
}

/// Runs the program that words ask for.
fn run_words(rt: &HostRuntime, words: &RunWords<'_>, explain: bool) -> Result<(), u8> {
    let given = program_of(rt, words, explain)?;
    run_program(rt, words, &given, explain)
}

/// The format of what a store has: that of this name, lines where there is none. Words are made of lines.
fn shown_format(rt: &HostRuntime, word: Option<&str>) -> Result<Format, u8> {
    match word {
        None | Some("lines" | TEXT) => Ok(Format::Lines),
        Some("json") => Ok(Format::Json),
        Some(_) => {
            let _ = rt.eprintln(
                "error: unknown format for '--format <FORMAT>'\n  [possible values: lines, json, text]",
            );
            Err(2)
        }
    }
}

/// Prints on `out` what the store of a file has, in a format.
fn show_on<W: Write + Drop>(
    rt: &HostRuntime,
    store: &str,
    format: Format,
    out: &mut Std<Noting<W>>,
) -> Result<(), u8>
    requires { out.old.failed ≡ false }
{
    let (mut records, bytes) = read_there(rt, store)?;
    let shown = show_kept(format, &mut records, bytes, out);
    say_torn(rt, store, &records.disk, LEFT);
    say_unwritten(rt, out.device.failure.take());
    match shown {
        Ok(()) => Ok(()),
        Err(fault) => Err(say_fault(rt, store, &fault, records.disk.failure())),
    }
}

/// Prints what the store of a file has.
fn show(rt: &HostRuntime, store: &str, word: Option<&str>) -> Result<(), u8> {
    let format = shown_format(rt, word)?;
    if word == Some(TEXT) {
        let mut out = held(rt);
        show_on(rt, store, format, &mut out)?;
        return done_of(print_words(rt, Lines::OfStore, out, 0, true));
    }
    let mut out = Std::new(Noting::new(rt.stdout()));
    show_on(rt, store, format, &mut out)
}

/// The revision that a word spells, from 1 on.
fn revision_of(rt: &HostRuntime, word: &str) -> Result<u64, u8> {
    let revision = word.parse::<u64>().unwrap_or(0);
    if revision == 0 || revision > HIGHEST_REVISION {
        let _ = rt.eprintln("error: a revision is from 1 to 9223372036854775806");
        return Err(2);
    }
    Ok(revision)
}

/// Prints the keys that the store of a file had at the revision of a word.
fn show_past(rt: &HostRuntime, store: &str, word: &str) -> Result<(), u8> {
    let revision = revision_of(rt, word)?;
    let (mut records, bytes) = read_there(rt, store)?;
    let mut out = Std::new(Noting::new(rt.stdout()));
    let shown = show_at(&mut records, bytes, revision, &mut out);
    say_torn(rt, store, &records.disk, LEFT);
    say_unwritten(rt, out.device.failure);
    match shown {
        Ok(()) => Ok(()),
        Err(fault) => Err(say_fault(rt, store, &fault, records.disk.failure())),
    }
}

/// A copy of a word, or the status where no memory is left.
fn copied(rt: &HostRuntime, word: &str) -> Result<Text, u8> {
    match Text::copy_of(rt.alloc(), word) {
        Ok(text) => Ok(text),
        Err(_) => Err(out_of_memory(rt)),
    }
}

/// The keys whose events are asked for: none where all are.
fn watched_of(rt: &HostRuntime, which: Which<'_>) -> Result<Option<Watched>, u8> {
    match which {
        Which::All => Ok(None),
        Which::Key(key) => Ok(Some(Watched::Key(copied(rt, key)?))),
        Which::Range(first, end) => {
            let first = copied(rt, first)?;
            let end = copied(rt, end)?;
            Ok(Some(Watched::Range { first, end }))
        }
    }
}

/// Prints the events of the store of a file from the revision of a word on, those of these keys.
fn show_events(rt: &HostRuntime, store: &str, word: &str, which: Which<'_>) -> Result<(), u8> {
    let wanted = watched_of(rt, which)?;
    let from = revision_of(rt, word)?;
    let (mut records, bytes) = read_there(rt, store)?;
    let mut out = Std::new(Noting::new(rt.stdout()));
    let shown = show_since(&mut records, bytes, from, &wanted, &mut out);
    say_torn(rt, store, &records.disk, LEFT);
    say_unwritten(rt, out.device.failure);
    match shown {
        Ok(()) => Ok(()),
        Err(fault) => Err(say_fault(rt, store, &fault, records.disk.failure())),
    }
}

/// Says whether the file of a store is whole.
fn check(rt: &HostRuntime, store: &str) -> Result<(), u8> {
    let (mut records, bytes) = read_there(rt, store)?;
    let checked = check_kept(&mut records, bytes);
    say_torn(rt, store, &records.disk, LEFT);
    let said = match checked {
        Ok(checked) => {
            let said = println!(rt; "yes {} {}", checked.records, checked.bytes);
            said.is_ok()
        }
        Err(StoreFault::Damaged(at)) => {
            let _ = println!(rt; "no {at} Damaged");
            return Err(1);
        }
        Err(StoreFault::NoScenario(at)) => {
            let _ = println!(rt; "no {at} NoScenario");
            return Err(1);
        }
        Err(fault) => return Err(say_fault(rt, store, &fault, records.disk.failure())),
    };
    if said { Ok(()) } else { Err(3) }
}

/// Drops what is below a revision of the store of a file, that of a word or else its own.
fn compact(rt: &HostRuntime, store: &str, word: Option<&str>) -> Result<(), u8> {
    let from = match word {
        Some(word) => Some(revision_of(rt, word)?),
        None => None,
    };
    let (mut records, bytes) = opened_there(rt, store)?;
    let compacted = compact_kept(&mut records, bytes, from);
    say_torn(rt, store, &records.disk, CUT);
    match compacted {
        Ok(checked) => {
            let said = println!(rt; "yes {} {}", checked.records, checked.bytes);
            if said.is_ok() { Ok(()) } else { Err(3) }
        }
        Err(StoreFault::CannotCompact) => {
            drop(records);
            let status = say_fault(rt, store, &StoreFault::CannotCompact, None);
            say_under_way(rt, store);
            Err(status)
        }
        Err(fault) => Err(say_fault(rt, store, &fault, records.disk.failure())),
    }
}

/// The status of what was done, or was not.
fn status_of(done: Result<(), u8>) -> u8 {
    match done {
        Ok(()) => 0,
        Err(status) => status,
    }
}

/// Goes on with a scenario over the store of a file, and gives the status.
pub(crate) fn run_stored_script(
    rt: &HostRuntime,
    store: &str,
    words: &ScriptWords<'_>,
    explain: bool,
) -> u8 {
    status_of(run_script(rt, store, words, explain))
}

/// Runs jobs over the store of a file, and gives the status.
pub(crate) fn run_stored_jobs<T: Threads + Wait + Sync>(
    rt: &HostRuntime,
    threads: &T,
    store: &str,
    words: &ThreadsWords<'_>,
    explain: bool,
) -> u8
    requires { (1 ≤ words.now.workers) × (words.now.workers ≤ MOST_WORKERS) }
{
    status_of(run_jobs(rt, threads, store, words, explain))
}

/// Runs a program over the store of a file, and gives the status.
pub(crate) fn run_stored_program(rt: &HostRuntime, words: &RunWords<'_>, explain: bool) -> u8 {
    status_of(run_words(rt, words, explain))
}

/// Prints what of the store of a file is asked for, and gives the status.
pub(crate) fn run_shown(rt: &HostRuntime, words: &StoreWords<'_>) -> u8 {
    let store = words.store;
    status_of(match words.shown {
        Shown::Now => show(rt, store, words.format),
        Shown::At(revision) => show_past(rt, store, revision),
        Shown::Since(revision, which) => show_events(rt, store, revision, which),
        Shown::Whole => check(rt, store),
        Shown::Compacted(from) => compact(rt, store, from),
    })
}
