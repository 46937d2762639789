//! The command line of `check`.
ghost use Rattle.std.specs.Prelude.{◌≡◌, IfOk};
ghost use Rattle.clap.specs.Words.{found_of, rows_of};
ghost use Rattle.stm_arguments.specs.Asking.{IsCheck};

use crate::tables::{EXPLAIN, Form, Table, with_command};
use crate::words::{Unasked, flag_of, required_word};
use clap::{ArgMatches, Command};
use std::alloc::{AllocError, Global};

const EXAMPLE: &str =
    "Prints yes where no line of the report is wrong, and else no LINE CAUSE: the first wrong line, counted
from 1, and why it is wrong:

  Count     it is missing, or stands after the end line
  Event     it stands in an event's place, and is no line that this event can have there
  Replay    it says of a commit, a change or a refusal something else than the replay gives
  Final     it stands after the events' lines, and is not the key, lease or end line that is due there

What was fetched, what failed and what a watcher was given is not compared. With --whole every line is, with
what script prints, and yes means that REPORT is just that. Else no LINE Differs is printed, with the first
line that is not alike, missing or too many, and on standard error what is expected there.

If s.json holds the example of stmrun --help and r.txt its report,

  stmrun check s.json r.txt

prints yes. Where r.txt has another value in the line of key a, it prints no 3 Final.

Statuses: 0 yes, 1 no, 2 bad input or usage, 3 out of memory or a failed device.";

/// The words of `check`.
#[derive(Clone, Copy)]
pub struct CheckWords<'a> {
    /// The path of the scenario.
    pub scenario: &'a str,
    /// The path of the report.
    pub report: &'a str,
    /// Whether every line is compared.
    pub whole: bool,
    /// Whether a fault is explained.
    pub explain: bool,
}

/// The command `check`.
const CHECK: Table = Table {
    name: "check",
    about: "Says whether REPORT is a report of SCENARIO, and if not, which line is wrong first",
    example: EXAMPLE,
    arguments: &[
        ("SCENARIO", Form::Required, "The file of the scenario"),
        ("REPORT", Form::Required, "The file of the report"),
        (
            "whole",
            Form::Flag,
            "Whether REPORT is, line by line, what script prints for SCENARIO",
        ),
        EXPLAIN,
    ],
    rules: &[],
};

/// A command with `check`.
pub(crate) fn with_check<'a>(
    alloc: Global,
    command: Command<'a>,
) -> Result<Command<'a>, AllocError> {
    with_command(alloc, command, &CHECK)
}

/// The words of `check` that were found.
pub(crate) fn check_of<'a>(found: &ArgMatches<'a>) -> Result<CheckWords<'a>, Unasked>
    ensures { IfOk result (IsCheck (rows_of (found_of found.now))) }
{
    let scenario = required_word(found, "SCENARIO")?;
    let report = required_word(found, "REPORT")?;
    let whole = flag_of(found, "whole");
    let explain = flag_of(found, "explain");
    Ok(CheckWords {
        scenario,
        report,
        whole,
        explain,
    })
}
