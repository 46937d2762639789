//! The program: runs scenarios of transactional programs over one store, by itself or by several threads, and reports what happened, checks
//! reports, looks through the interleavings of a scenario, audits traces, compiles sources, and prints the programs of recipes.
#![tactic(auto)]

ghost use Rattle.std.specs.Prelude.{◌≡◌, ◌≤◌, List, ℕ, Some, None, option_map};
ghost use Rattle.stm_workers.specs.declared.run.TheConstants.{MOST_WORKERS};
ghost use Rattle.stm_report.specs.declared.format.Format.TheVariants.{Lines};
ghost use Rattle.stm_report.specs.Format.{format_named};

mod auditing;
mod explaining;
mod exploring;
mod files;
mod found;
mod kinds;
mod naming;
mod noting;
mod resuming;
mod rules;
mod ruling;
mod showing;
mod sources;
mod storing;
mod terminals;
mod threading;
mod under_way;
mod waits;
mod wording;

use auditing::run_audit;
use explaining::{name_of, run_check, run_script};
use exploring::run_search;
use showing::run_show;
use sources::{Given, is_source, labels_of, played_at, run_compile};
use std::alloc::{AllocError, Global};
use std::process::ExitCode;
use std::sync::Wait;
use std::thread::Threads;
use stm_arguments::{
    Asked, CheckWords, CompileWords, CutWords, ExploreWords, PlainWords, ScriptWords, ThreadsWords,
    asked_of, cut_words, plain_words, print_topic, read_words, topic_of,
};
use stm_commands::{Format, RecipeWords, RunnerLabel, Std, no_format_to, recipe_to};
use stm_compiling::Part;
use stm_threading::ThreadsOptions;
use storing::{run_shown, run_stored_jobs, run_stored_program, run_stored_script};
use terminals::is_shown;
use threading::{printing_of, run_threads};
use wording::TEXT;

/// The path of an input that may be named: that of standard input where it is not.
fn path_of(named: Option<&str>) -> &str {
    named.unwrap_or("-")
}

/// The format of this name, or that of lines.
fn format_of(word: Option<&str>) -> Option<Format>
    ensures named { (name : List ℕ) → option_map (λ w. w.now) word.entry ≡ Some name → result ≡ format_named name }
    ensures lines { word.entry ≡ None → result ≡ Some Lines }
{
    match word {
        Some(word) => Format::named(word),
        None => Some(Format::Lines),
    }
}

/// What a report in a format calls the runners of a scenario: in lines and objects they have their numbers alone.
fn labels_in(rt: &HostRuntime, given: &Given<'_>, format: Format) -> Result<Vec<RunnerLabel>, u8> {
    match format {
        Format::Lines | Format::Json => Ok(Vec::new(rt.alloc())),
        _ => labels_of(rt, given),
    }
}

/// Writes the report of the scenario of a path in a format. A fault is explained, or is not.
fn report_script(rt: &HostRuntime, path: &str, format: Format, explain: bool) -> Result<u8, u8> {
    let given = played_at(rt, path, explain)?;
    let labels = labels_in(rt, &given, format)?;
    Ok(run_script(rt, &given, format, labels.as_slice(), explain))
}

/// Runs the scenario of a path, or that on standard input, where its word names a format. A fault is explained, or is not.
fn run_script_in(rt: &HostRuntime, words: &ScriptWords<'_>, explain: bool) -> u8 {
    let Some(format) = format_of(words.format) else {
        return no_format_to(&mut Std::new(rt.stderr()));
    };
    let format = format.with_width(words.width);
    match report_script(rt, path_of(words.scenario), format, explain) {
        Ok(status) => status,
        Err(status) => status,
    }
}

/// Checks a report beside its scenario: each line, where it is to be whole. A fault is explained, or is not. Only one of the two can be standard input.
fn check_report(rt: &HostRuntime, words: &CheckWords<'_>, explain: bool) -> u8 {
    let report = words.report;
    if words.scenario == "-" && report == "-" {
        let _ = rt.eprintln("stmrun: standard input can be only one of SCENARIO and REPORT");
        return 2;
    }
    match played_at(rt, words.scenario, explain) {
        Ok(given) => run_check(rt, &given.scenario, report, words.whole, explain),
        Err(status) => status,
    }
}

/// Looks through the interleavings of a scenario, and gives the status.
fn run_explore(rt: &HostRuntime, words: &ExploreWords<'_>, explain: bool) -> u8 {
    match run_search(rt, words, explain) {
        Ok(status) => status,
        Err(status) => status,
    }
}

/// Prints the program of the recipe that these words name.
fn run_recipe(rt: &HostRuntime, words: &RecipeWords<'_>) -> u8 {
    let mut out = Std::new(rt.stdout());
    let mut err = Std::new(rt.stderr());
    recipe_to(rt.alloc(), words, &mut out, &mut err)
}

/// What of a source is printed: the program of a name with these words as its arguments, or its scenario, where no program is named.
fn part_of<'a>(program: Option<&'a str>, words: &'a [String]) -> Part<'a> {
    match program {
        Some(name) => Part::Program { name, words },
        None => Part::Scenario,
    }
}

/// Whether faults are explained: where they are to be, or where standard error is a terminal, unless they are not to be.
fn explains(rt: &HostRuntime, plain: &PlainWords, explain: bool) -> bool {
    !plain.is_silent && (explain || is_shown(rt))
}

/// Runs a scenario: over the store that it goes on from, where one is named, or by itself.
fn run_scenario(rt: &HostRuntime, words: &ScriptWords<'_>, explain: bool) -> u8 {
    match words.store {
        Some(store) => run_stored_script(rt, store, words, explain),
        None => run_script_in(rt, words, explain),
    }
}

/// Prints the part of a source that is asked for.
fn run_part(rt: &HostRuntime, words: &CompileWords<'_>, explain: bool) -> u8 {
    let part = part_of(words.program, words.arguments);
    run_compile(rt, path_of(words.source), part, explain)
}

/// Runs the jobs that the words of `threads` ask for, over the store that they go on from, where one is named.
fn run_jobs<T: Threads + Wait + Sync>(
    rt: &HostRuntime,
    threads: &T,
    words: &ThreadsWords<'_>,
    explain: bool,
) -> u8
    requires { (1 ≤ words.now.workers) × (words.now.workers ≤ MOST_WORKERS) }
{
    if let Some(store) = words.store {
        return run_stored_jobs(rt, threads, store, words, explain);
    }
    let options = ThreadsOptions {
        workers: words.workers,
        printing: printing_of(words.ends, words.repeat),
        explain,
    };
    let path = path_of(words.scenario);
    run_threads(rt, threads, path, options, words.format == Some(TEXT))
}

/// Does what these words ask for, with the arguments behind them, and gives the status. A run of jobs starts threads and waits for them.
fn answer<T: Threads + Wait + Sync>(
    rt: &HostRuntime,
    threads: &T,
    plain: &PlainWords,
    arguments: &[String],
) -> u8 {
    match asked_of(rt, rt.alloc(), plain.words.as_slice(), arguments) {
        Ok(Asked::Script(words)) => run_scenario(rt, &words, explains(rt, plain, words.explain)),
        Ok(Asked::Check(words)) => check_report(rt, &words, explains(rt, plain, words.explain)),
        Ok(Asked::Threads(words)) => {
            run_jobs(rt, threads, &words, explains(rt, plain, words.explain))
        }
        Ok(Asked::Recipe(words)) => run_recipe(rt, &words),
        Ok(Asked::Explore(words)) => run_explore(rt, &words, explains(rt, plain, words.explain)),
        Ok(Asked::Audit(words)) => run_audit(rt, &words, explains(rt, plain, words.explain)),
        Ok(Asked::Show(words)) => run_show(rt, &words, explains(rt, plain, words.explain)),
        Ok(Asked::Compile(words)) => run_part(rt, &words, explains(rt, plain, words.explain)),
        Ok(Asked::Run(words)) => run_stored_program(rt, &words, explains(rt, plain, words.explain)),
        Ok(Asked::Store(words)) => run_shown(rt, &words),
        Err(status) => status,
    }
}

/// The words of a command line as they are read, and the arguments behind them of a program of a source. It fails where an allocation failed.
fn plain_of(alloc: Global, words: Vec<String>) -> Result<(PlainWords, Vec<String>), AllocError> {
    let CutWords { words, arguments } = cut_words(words)?;
    let plain = plain_words(alloc, words)?;
    Ok((plain, arguments))
}

/// Does what the command line asks for, and gives the status.
fn run<T: Threads + Wait + Sync>(rt: &HostRuntime, threads: &T) -> u8 {
    let words = match read_words(rt) {
        Ok(words) => words,
        Err(status) => return status,
    };
    if let Some(topic) = topic_of(words.as_slice()) {
        return print_topic(rt, topic);
    }
    match plain_of(rt.alloc(), words) {
        Ok((plain, arguments)) => answer(rt, threads, &plain, arguments.as_slice()),
        Err(_) => {
            let _ = rt.eprintln("stmrun: out of memory");
            3
        }
    }
}

fn main(rt: HostRuntime) -> ExitCode {
    ExitCode::from(run(&rt, &rt))
}
