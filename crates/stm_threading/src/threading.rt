//! The command `threads` over devices.
ghost use Rattle.std.specs.Prelude.{◌≡◌, ◌≤◌, ◌+◌, [], false};
ghost use Rattle.stm_devices.specs.declared.transfer.TheConstants.{MOST_READ};
ghost use Rattle.stm_workers.specs.declared.run.TheConstants.{MOST_WORKERS};
ghost use Rattle.stm_threading.specs.declared.shown.Printing.TheVariants.{Values};
ghost use Rattle.stm_threading.specs.Threading.{Ends};

use crate::faults::report_ends;
use crate::messages::{report_by, report_fault};
use crate::running::run_jobs;
use crate::shown::Printing;
use std::alloc::Global;
use std::sync::Wait;
use std::thread::Threads;
use stm_devices::{Sink, Source};
use stm_explain::KeptSource;

/// How the command `threads` runs, and what it prints.
#[derive(Debug, Clone, Copy, PartialEq, Eq)]
pub struct ThreadsOptions {
    /// How many threads run the jobs, from 1 to `MOST_WORKERS`.
    pub workers: usize,
    /// What is printed.
    pub printing: Printing,
    /// Whether a bad scenario is explained, and jobs that came to a fault.
    pub explain: bool,
}

/// Runs the starts of the scenario of `input` as jobs, by `workers` threads under one lock, from 1 to `MOST_WORKERS`. Its txn, grant, keep, revoke
/// and advance events are applied to the store first, in their order. To `out` go the number of jobs, how many committed, the value of each key that
/// is present, and the revision, whole or not at all but for a failed `out`.
///
/// Gives the status: 0 where they were written, 2 where the input is no scenario or has another event or a limit of 0, 3 where memory ran out or
/// a thread could not be started, `input` or `out` failed, or the end of a job does not stand. On `err` it says what went wrong, and takes no memory
/// for it: `stmrun: bad scenario at PLACE: CAUSE`, `stmrun: out of memory`, `stmrun: device fault`, `stmrun: no thread` or
/// `stmrun: audit JOB`, whole where `err` then has not failed. That `err` fails changes no status. None of the devices has failed before.
/// `input` is read at most 16777217 times. Nothing is said of whether it returns.
pub fn threads_to<R: Threads + Wait + Sync, S: Source, W: Sink, E: Sink>(
    rt: &R,
    alloc: Global,
    input: &mut S,
    workers: usize,
    out: &mut W,
    err: &mut E,
) -> u8
    requires workers { (1 ≤ workers) × (workers ≤ MOST_WORKERS) }
    requires input_works { S.failed input.old ≡ false }
    requires out_works { W.failed out.old ≡ false }
    requires err_works { E.failed err.old ≡ false }
    ensures ends { Ends false [] [] Values (record {
      input = S.left input.old;
      before = W.held out.old;
      after = W.held out.new;
      source_failed = S.failed input.new;
      sink_failed = W.failed out.new;
    }) (E.held err.old) (E.held err.new) (E.failed err.new) result }
    ensures bounded { S.reads input.new ≤ S.reads input.old + MOST_READ }
{
    match run_jobs(rt, alloc, input, workers, Printing::Values, out) {
        Ok(_) => 0,
        Err(fault) => report_fault(err, &fault),
    }
}

/// Does what `threads_to` does, and prints what the options say: of one run these lines, with a line for the end of each job after the number of
/// commits or without, or of several runs, each on a store of its own, a line for each outcome, once, with how often it came, and after them their
/// number. One run that is broken off breaks off all.
///
/// Where the options say so there stands after what is said of a bad scenario its explanation, as a line `NAME:LINE:COLUMN: WORDS`, and of one run a
/// line for each job that came to a fault, in their order, `NAME:LINE:COLUMN: job JOB: FAULT at PLACE: REASON`; or nothing where an allocation failed
/// for these.
pub fn threads_as_to<R: Threads + Wait + Sync, S: Source, W: Sink, E: Sink>(
    rt: &R,
    alloc: Global,
    options: ThreadsOptions,
    input: &mut KeptSource<'_, S>,
    out: &mut W,
    err: &mut E,
) -> u8
    requires workers { (1 ≤ options.workers) × (options.workers ≤ MOST_WORKERS) }
    requires input_works { S.failed input.old.source ≡ false }
    requires out_works { W.failed out.old ≡ false }
    requires err_works { E.failed err.old ≡ false }
    ensures ends { Ends options.explain input.new.name.now input.new.bytes.items options.printing (record {
      input = S.left input.old.source;
      before = W.held out.old;
      after = W.held out.new;
      source_failed = S.failed input.new.source;
      sink_failed = W.failed out.new;
    }) (E.held err.old) (E.held err.new) (E.failed err.new) result }
    ensures bounded { S.reads input.new.source ≤ S.reads input.old.source + MOST_READ }
{
    match run_jobs(rt, alloc, input, options.workers, options.printing, out) {
        Ok(ends) => report_ends(alloc, options.explain, input, ends.as_slice(), err),
        Err(fault) => report_by(alloc, options.explain, input, &fault, err),
    }
}
