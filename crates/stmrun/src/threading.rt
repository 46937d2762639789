//! The command `threads` on the file of a path.
ghost use Rattle.std.specs.Prelude.{◌≡◌, ◌≤◌, ℕ, Some, None, true, false};
ghost use Rattle.stm_threading.specs.declared.shown.Printing.TheVariants.{Values, Ends, Outcomes};
ghost use Rattle.stm_workers.specs.declared.run.TheConstants.{MOST_WORKERS};

use crate::explaining::{START, kept_json, say_read, say_unwritten};
use crate::naming::JOBS;
use crate::noting::{Kept, Noting};
use crate::sources::{
    Given, JsonFile, given_at, out_of_memory, runners_of, say_ended, say_leases, say_no_jobs,
};
use crate::wording::{Lines, held, print_words};
use std::io::Write;
use std::sync::Wait;
use std::thread::Threads;
use stm_commands::Std;
use stm_threading::{Printing, ThreadsOptions, threads_as_to};

/// The status of a scenario that is none of jobs.
const BAD: u8 = 2;

/// With this begins an advance, and in JSON no text has it.
const ADVANCE: &str = "[\"advance\",";

/// What is printed of jobs: what several runs of them come to, or one run, with the ends of the jobs or without.
pub(crate) fn printing_of(ends: bool, repeat: Option<u32>) -> Printing
    ensures outcomes { (runs : ℕ) → repeat ≡ Some runs → result ≡ Outcomes runs }
    ensures ends { repeat ≡ None → ends ≡ true → result ≡ Ends }
    ensures values { repeat ≡ None → ends ≡ false → result ≡ Values }
{
    match repeat {
        Some(runs) => Printing::Outcomes(runs),
        None if ends => Printing::Ends,
        None => Printing::Values,
    }
}

/// Runs the jobs of a scenario by threads, prints on `out` what they came to, and says on `err` what is wrong.
fn threads_on<T: Threads + Wait + Sync, W: Write + Drop, E: Write + Drop>(
    rt: &HostRuntime,
    threads: &T,
    scenario: &JsonFile<'_>,
    options: ThreadsOptions,
    out: &mut Std<Noting<W>>,
    err: &mut Std<E>,
) -> u8
    requires workers { (1 ≤ options.workers) × (options.workers ≤ MOST_WORKERS) }
    requires out_works { out.old.failed ≡ false }
    requires err_works { err.old.failed ≡ false }
{
    let explain = options.explain;
    let mut input = kept_json(rt, scenario);
    let status = threads_as_to(threads, rt.alloc(), options, &mut input, out, err);
    say_read(rt, &input);
    if explain {
        say_unwritten(rt, out.device.failure.take());
    }
    status
}

/// Runs the jobs of a scenario, and prints on `out` what they came to. A fault is explained with its place in the source, where the scenario has one.
fn given_threads_on<T: Threads + Wait + Sync, W: Write + Drop>(
    rt: &HostRuntime,
    threads: &T,
    given: &Given<'_>,
    options: ThreadsOptions,
    out: &mut Std<Noting<W>>,
) -> u8
    requires workers { (1 ≤ options.workers) × (options.workers ≤ MOST_WORKERS) }
    requires out_works { out.old.failed ≡ false }
{
    if given.text.is_none() {
        let mut err = Std::new(rt.stderr());
        return threads_on(rt, threads, &given.scenario, options, out, &mut err);
    }
    let said: Vec<u8> = Vec::new(rt.alloc());
    let mut err = Std::new(said);
    let status = threads_on(rt, threads, &given.scenario, options, out, &mut err);
    if options.explain && status == BAD && say_no_jobs(rt, given, &err) {
        return status;
    }
    if options.explain {
        say_leases(rt, given, JOBS);
    }
    say_ended(rt, given, JOBS, status, &err)
}

/// Prints what jobs of a scenario printed, in words, and gives a status, or that of a failed output.
pub(crate) fn print_jobs(
    rt: &HostRuntime,
    given: &Given<'_>,
    out: Std<Noting<Kept>>,
    status: u8,
    explain: bool,
) -> u8 {
    match runners_of(rt.alloc(), given) {
        Ok(runners) => print_words(rt, Lines::OfJobs(runners.as_slice()), out, status, explain),
        Err(_) => out_of_memory(rt),
    }
}

/// The scenario of a path, whose starts are to be jobs: of a source with an advance behind a start it is said that this comes before all jobs. Else all is
/// as with `given_at`.
pub(crate) fn jobs_at<'a>(rt: &HostRuntime, path: &'a str, explain: bool) -> Result<Given<'a>, u8> {
    let given = given_at(rt, path, explain)?;
    if let JsonFile::Compiled(line, _) = &given.scenario {
        match line.as_str().split_once(START) {
            Some((_, behind)) if behind.contains(ADVANCE) => {
                let _ = rt.eprintln(
                    "stmrun: an advance that stands behind a start comes before all jobs",
                );
            }
            _ => {}
        }
    }
    Ok(given)
}

/// Runs the jobs of a path's scenario as these options say, and prints what they came to, in words or as lines.
pub(crate) fn run_threads<T: Threads + Wait + Sync>(
    rt: &HostRuntime,
    threads: &T,
    path: &str,
    options: ThreadsOptions,
    is_text: bool,
) -> u8
    requires { (1 ≤ options.workers) × (options.workers ≤ MOST_WORKERS) }
{
    let explain = options.explain;
    let given = match jobs_at(rt, path, explain) {
        Ok(given) => given,
        Err(status) => return status,
    };
    if is_text {
        let mut out = held(rt);
        let status = given_threads_on(rt, threads, &given, options, &mut out);
        return print_jobs(rt, &given, out, status, explain);
    }
    let mut out = Std::new(Noting::new(rt.stdout()));
    given_threads_on(rt, threads, &given, options, &mut out)
}
