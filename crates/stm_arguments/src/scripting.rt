//! The command line of `script`.
ghost use Rattle.std.specs.Prelude.{◌≡◌, IfOk};
ghost use Rattle.clap.specs.Words.{found_of, rows_of};
ghost use Rattle.stm_arguments.specs.Asking.{IsScript};

use crate::numbers::{LEAST_WIDTH, MOST_WIDTH, width_at};
use crate::tables::{EXPLAIN, Form, Table, with_command};
use crate::words::{Unasked, flag_of, word_of};
use clap::builder::ValueParser;
use clap::{ArgMatches, Command};
use std::alloc::{AllocError, Global};

const EXAMPLE: &str = "If s.stm is a source, which has a runner and the steps that it takes,

  start { put(\"a\", \"1\") } as ana
  step ana

then stmrun script s.stm prints its report:

  [1,\"started\",1]
  [2,\"committed\",1,2,1,[],[],[]]
  [\"key\",\"a\",\"1\",2,2,1,0]
  [\"end\",2,1]

So does stmrun script < s.stm, and stmrun script s.json of its JSON. A schedule that explore prints is played with the answers in front:
stmrun explore FILE.stm | stmrun script. The report is printed once it is whole, and nothing of it where the scenario is bad: then the
place of its first fault and the cause stand on standard error. With --format FORMAT it has another form:

  lines   the default: each line is a JSON array, which stmrun check reads
  json    each line is a JSON object with named fields
  text    a row for each event, in the column of its runner or of the store; then the keys that are present,
          and which runners are unfinished; with --width N for a terminal of N characters, as ./stmrun does by itself
  svg     the rows of the text as a picture
  html    the same as a page, with the keys and the runners at each event

From this scenario of JSON, which lacks the runner of its step,

  [[\"step\"]]

it prints no report, but says

  stmrun: bad scenario at /0: Shape

The place is a JSON Pointer: the indices of the arrays around it, counted from 0. stmrun help causes has the causes,
and those of refused events and of programs that fault.

With --explain, or where standard error is a terminal, more lines say where that is, what was found there and what is
allowed, and so of up to nine other faults; --explain=never ends that. So do check, threads and explore:

  s.json:1:2: elements after \"step\": 0 found, 1 wanted: [\"step\",RUNNER]

After the report of a good scenario it says of each run that came to a fault, threads of each job and explore of
a rule that did, at which place the program stopped and on which values:

  s.json:3:38: event 4: NotANumber of runner 1 at /1/3/0/2/1/1: \"seven\" is no whole number of 64 bits

With --store STORE the scenario goes on from the store of that file, which is made where it is missing, and its report is
printed once it is on the disk: lines or json. Its events are numbered from 1, its runners and watchers go on counting, and it may
begin with [\"begin\",..] only where the store is new. stmrun store --help has more of such stores.

stmrun help language has what a source may have.

Statuses: 0 done, 2 bad input or usage, 3 out of memory, a failed disk or device, or a store that another process has open.";

/// The words of `script`.
#[derive(Clone, Copy)]
pub struct ScriptWords<'a> {
    /// The path of the store that the scenario goes on from, where it is one that lasts.
    pub store: Option<&'a str>,
    /// The path of the scenario; standard input, where there is none.
    pub scenario: Option<&'a str>,
    /// The name of the report's format; lines, where there is none.
    pub format: Option<&'a str>,
    /// How many characters wide a report of text is, from `LEAST_WIDTH` to `MOST_WIDTH`, where that is said.
    pub width: Option<u32>,
    /// Whether a fault is explained.
    pub explain: bool,
}

/// The command `script`.
const SCRIPT: Table = Table {
    name: "script",
    about: "Runs a scenario, and prints its report",
    example: EXAMPLE,
    arguments: &[
        (
            "FILE",
            Form::Optional,
            "The file of the scenario, in the place of standard input",
        ),
        (
            "store",
            Form::Value("STORE", ValueParser::String),
            "The file of a store that the scenario goes on from, which is made where it is missing",
        ),
        (
            "format",
            Form::Value("FORMAT", ValueParser::String),
            "The form of the report: lines (the default), json, text, svg or html",
        ),
        (
            "width",
            Form::Value("N", ValueParser::Unsigned(LEAST_WIDTH, MOST_WIDTH)),
            "How many characters wide a report of text is, from 20 to 1000",
        ),
        EXPLAIN,
    ],
    rules: &[],
};

/// A command with `script`.
pub(crate) fn with_script<'a>(
    alloc: Global,
    command: Command<'a>,
) -> Result<Command<'a>, AllocError> {
    with_command(alloc, command, &SCRIPT)
}

/// The words of `script` that were found.
pub(crate) fn script_of<'a>(found: &ArgMatches<'a>) -> Result<ScriptWords<'a>, Unasked>
    ensures { IfOk result (IsScript (rows_of (found_of found.now))) }
{
    let store = word_of(found, "store");
    let scenario = word_of(found, "FILE");
    let format = word_of(found, "format");
    let width = width_at(word_of(found, "width"))?;
    let explain = flag_of(found, "explain");
    Ok(ScriptWords {
        store,
        scenario,
        format,
        width,
        explain,
    })
}
