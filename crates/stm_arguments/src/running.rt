//! The command line of `run`.
ghost use Rattle.std.specs.Prelude.{◌≡◌, map, string_bytes, IfOk};
ghost use Rattle.clap.specs.Words.{found_of, rows_of};
ghost use Rattle.stm_arguments.specs.Asking.{IsRun};

use crate::levels::{LEVELS, level_at};
use crate::numbers::{MOST_ATTEMPTS, attempts_at};
use crate::tables::{EXPLAIN, Form, Table, with_command};
use crate::words::{Unasked, flag_of, required_word, word_of};
use clap::builder::ValueParser;
use clap::{ArgMatches, Command};
use std::alloc::{AllocError, Global};
use stm_program::Level;

const EXAMPLE: &str =
    "Runs one program alone over the store of the file STORE, and prints the line of its last event, as a report has it: of the
program [[\"put\",\"a\",\"1\",0]] over a new store

  [2,\"committed\",1,2,1,[],[],[]]

A commit is printed once it is on the disk. Where the program aborts, comes to a fault, or is refused, nothing is kept.
A FILE whose name ends in .stm is a source: NAME is a program of it, and the words behind NAME are its arguments, numbers or texts
as the program needs them, as stmrun compile FILE NAME takes them; behind the word --text each is a text. Another FILE has an array of statements, as stmrun recipe prints one; stmrun help formats has them.

Statuses: 0 committed, 1 not committed, 2 bad input or usage, 3 out of memory, a failed disk or device, or a store that another process has open.";

/// The words of `run`.
#[derive(Clone, Copy)]
pub struct RunWords<'a> {
    /// The path of the store.
    pub store: &'a str,
    /// The path of the program, or of the source that has it; standard input, where there is none.
    pub input: Option<&'a str>,
    /// The name of the program in that source.
    pub program: Option<&'a str>,
    /// The program's arguments, as they are spelled: what stands behind its name.
    pub arguments: &'a [String],
    /// The level at which it runs: `SerializableSnapshot`, if not said.
    pub level: Level,
    /// How many commits it may send, from 1 on: 1, if not said.
    pub attempts: u32,
    /// Whether a fault is explained.
    pub explain: bool,
}

/// The command `run`.
const RUN: Table = Table {
    name: "run",
    about: "Runs a program over a store that is kept in a file",
    example: EXAMPLE,
    arguments: &[
        (
            "FILE",
            Form::Optional,
            "The file of the program, or of a source that has it, in the place of standard input",
        ),
        (
            "NAME",
            Form::Named("NAME [ARGUMENT].."),
            "A program of the source; what stands behind it are its arguments",
        ),
        (
            "store",
            Form::RequiredValue("STORE", ValueParser::String),
            "The file of the store, which is made where it is missing",
        ),
        (
            "level",
            Form::Value("LEVEL", ValueParser::Names(LEVELS)),
            "Its level, SerializableSnapshot if not said",
        ),
        (
            "attempts",
            Form::Value("N", ValueParser::Unsigned(1, MOST_ATTEMPTS)),
            "How many commits it may send, 1 if not said",
        ),
        EXPLAIN,
    ],
    rules: &[],
};

/// A command with `run`.
pub(crate) fn with_run<'a>(alloc: Global, command: Command<'a>) -> Result<Command<'a>, AllocError> {
    with_command(alloc, command, &RUN)
}

/// The words of `run` that were found, and the arguments that stand behind them.
pub(crate) fn run_of<'a>(
    found: &ArgMatches<'a>,
    arguments: &'a [String],
) -> Result<RunWords<'a>, Unasked>
    ensures { IfOk result (IsRun (rows_of (found_of found.now)) (map string_bytes arguments.now)) }
{
    let store = required_word(found, "store")?;
    let input = word_of(found, "FILE");
    let program = word_of(found, "NAME");
    let level = level_at(word_of(found, "level"))?;
    let attempts = attempts_at(word_of(found, "attempts"))?;
    let explain = flag_of(found, "explain");
    Ok(RunWords {
        store,
        input,
        program,
        arguments,
        level,
        attempts,
        explain,
    })
}
