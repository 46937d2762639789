//! The command line of `threads`.
ghost use Rattle.std.specs.Prelude.{◌≡◌, IfOk};
ghost use Rattle.clap.specs.Words.{found_of, rows_of};
ghost use Rattle.stm_arguments.specs.Asking.{IsThreads};

use crate::exploring::FORMATS;
use crate::numbers::{MOST_RUNS, MOST_WORKERS, runs_at, workers_in};
use crate::tables::{Beside, EXPLAIN, Form, Table, with_command};
use crate::words::{Unasked, flag_of, required_word, word_of};
use clap::builder::ValueParser;
use clap::{ArgMatches, Command};
use std::alloc::{AllocError, Global};

const EXAMPLE: &str =
    "Each start of the scenario is a job, numbered from 0. Its txn, grant, keep, revoke and advance events are
applied to the store first, in their order; another event, and a limit of 0, is bad input. The threads
draw jobs, run them on one store under one lock, and a job whose commit fails is tried again until it has
sent LIMIT commits. Printed are how many jobs there are, how many of them committed, the value of each key
that is present, and the revision. If s.json holds

  [[\"txn\",[],[[\"put\",\"a\",\"1\",0]],[]],[\"start\",\"Serializable\",1,[[\"put\",\"b\",[\"get\",\"a\"],0]]]]

then stmrun threads --workers 2 s.json prints

  [\"jobs\",1]
  [\"committed\",1]
  [\"value\",\"a\",\"1\"]
  [\"value\",\"b\",\"1\"]
  [\"end\",3]

With --ends stand after the second line how many attempts were made in all, [\"attempts\",1] here, for each key over which commits
failed how many did, as [\"conflicts\",\"a\",37], and a line for each job, [\"job\",0,\"committed\",3,1]: the job's number, how it
ended, the revision after its commit, its abort's text, its fault, why it was refused (ended), or the key of
its last conflict (gaveup), and how many attempts of it were made.

With --repeat RUNS the jobs are run RUNS times, each time on a new store, and what these runs came to is printed as
stmrun explore prints it, with how often each outcome came: the keys with their values, how each job ended, and the number
of runs that came to that. The last line has the number of all. Of the same file, --repeat 1000 prints

  [\"outcome\",[[\"a\",\"1\"],[\"b\",\"1\"]],[[\"committed\",[]]],1000]
  [\"runs\",1000]

With --format text all of this is in words, with the names that a source gives to its runs, as ana (job 0): committed at
revision 3 (attempts: 1).

With --store STORE the jobs go on from the store of that file, which is made where it is missing, and all that they have
changed is put on the disk at once, before anything is printed. stmrun store --help has more of such stores.

Which job goes first is not said, nor that the run ends. Statuses: 0 done, 2 bad input or usage, 3 out of
memory, a failed disk or device, no thread, a job whose end is not what the store says (audit JOB), or a store that
another process has open.";

/// The words of `threads`.
#[derive(Clone, Copy)]
pub struct ThreadsWords<'a> {
    /// The path of the store that the jobs go on from, where it is one that lasts.
    pub store: Option<&'a str>,
    /// The path of the scenario; standard input, where there is none.
    pub scenario: Option<&'a str>,
    /// How many threads run jobs, from 1 to `MOST_WORKERS`.
    pub workers: usize,
    /// Whether the end of each job is shown.
    pub ends: bool,
    /// Where a number from 1 to `MOST_RUNS` is named: that many runs are made, and what they come to is shown.
    pub repeat: Option<u32>,
    /// The name of the form of what is printed: lines, where there is none.
    pub format: Option<&'a str>,
    /// Whether a fault is explained.
    pub explain: bool,
}

/// The command `threads`.
const THREADS: Table = Table {
    name: "threads",
    about: "Runs the starts of a scenario as jobs, by several threads on one store",
    example: EXAMPLE,
    arguments: &[
        (
            "FILE",
            Form::Optional,
            "The file of the scenario, in the place of standard input",
        ),
        (
            "workers",
            Form::RequiredValue("N", ValueParser::Unsigned(1, MOST_WORKERS as u64)),
            "How many threads run the jobs, from 1 to 16",
        ),
        (
            "store",
            Form::Value("STORE", ValueParser::String),
            "The file of a store that the jobs go on from, which is made where it is missing",
        ),
        (
            "ends",
            Form::Flag,
            "Whether the end of each job is printed, and how often commits failed over each key",
        ),
        (
            "repeat",
            Form::Value("RUNS", ValueParser::Unsigned(1, MOST_RUNS)),
            "How many runs are made, from 1 to 1000000, of which is printed what they come to, and how often",
        ),
        (
            "format",
            Form::Value("FORMAT", ValueParser::Names(FORMATS)),
            "The form of what is printed: lines (the default), for programs, or text, for people",
        ),
        EXPLAIN,
    ],
    rules: &[("repeat", Beside::Without, &["ends"])],
};

/// A command with `threads`.
pub(crate) fn with_threads<'a>(
    alloc: Global,
    command: Command<'a>,
) -> Result<Command<'a>, AllocError> {
    with_command(alloc, command, &THREADS)
}

/// The words of `threads` that were found.
pub(crate) fn threads_of<'a>(found: &ArgMatches<'a>) -> Result<ThreadsWords<'a>, Unasked>
    ensures { IfOk result (IsThreads (rows_of (found_of found.now))) }
{
    let store = word_of(found, "store");
    let scenario = word_of(found, "FILE");
    let text = required_word(found, "workers")?;
    let workers = workers_in(text)?;
    let ends = flag_of(found, "ends");
    let named = word_of(found, "repeat");
    let repeat = runs_at(named)?;
    let format = word_of(found, "format");
    let explain = flag_of(found, "explain");
    Ok(ThreadsWords {
        store,
        scenario,
        workers,
        ends,
        repeat,
        format,
        explain,
    })
}
