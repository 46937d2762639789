//! The command line of `compile`.
ghost use Rattle.std.specs.Prelude.{◌≡◌, map, string_bytes};
ghost use Rattle.clap.specs.Words.{found_of, rows_of};
ghost use Rattle.stm_arguments.specs.Asking.{IsCompile};

use crate::tables::{EXPLAIN, Form, Table, with_command};
use crate::words::{flag_of, word_of};
use clap::{ArgMatches, Command};
use std::alloc::{AllocError, Global};

const EXAMPLE: &str =
    "Prints the scenario that a source spells as one line of JSON, as script reads it. If s.stm holds

  txn { put(\"x\", \"1\") }
  start {
      let seen = get(\"x\")
      put(\"y\", seen)
  } as reader at Serializable limit 1
  step reader*2

then stmrun compile s.stm prints

  [[\"txn\",[],[[\"put\",\"x\",\"1\",0]],[]],[\"start\",\"Serializable\",1,[[\"set\",0,[\"get\",\"x\"]],[\"put\",\"y\",[\"var\",0],0]]],[\"step\",1],[\"step\",1]]

A file whose name ends in .stm is such a source for script, check, threads and explore, too. stmrun show prints the source of
a scenario that is JSON.

With NAME it prints the program, or the rule, of that name, with the words behind NAME in place of its parameters: a text where the
program needs one, else a number where it is spelled as a whole number of 64 bits, else a text. Behind the word --text each is a
text. If s.stm holds

  program claim(job, holder, lease) { if get(job) == \"\" { put(job, holder, lease) } }

then stmrun compile s.stm claim job/1 ada 7 prints

  [[\"if\",[\"eq\",[\"get\",\"job/1\"],\"\"],[[\"put\",\"job/1\",\"ada\",7]],[]]]

It is what start claim(\"job/1\", \"ada\", 7) starts, as one more line of s.stm.

Of a bad source it says where its first fault stands, by line and column, and why:

  stmrun: bad source at 3:5: Syntax

With --explain, or where standard error is a terminal, one more line says what was found there and what is wanted.

Statuses: 0 done, 2 bad input or usage, 3 out of memory or a failed device.";

/// The words of `compile`.
#[derive(Clone, Copy)]
pub struct CompileWords<'a> {
    /// The path of the source; standard input, where there is none.
    pub source: Option<&'a str>,
    /// The name of the program that is asked for in the place of the scenario.
    pub program: Option<&'a str>,
    /// The program's arguments, as they are spelled: what stands behind its name.
    pub arguments: &'a [String],
    /// Whether a fault is explained.
    pub explain: bool,
}

/// The command `compile`.
const COMPILE: Table = Table {
    name: "compile",
    about: "Prints the scenario of a source as JSON, or one of its programs",
    example: EXAMPLE,
    arguments: &[
        (
            "FILE",
            Form::Optional,
            "The file of the source, in the place of standard input",
        ),
        (
            "NAME",
            Form::Named("NAME [ARGUMENT].."),
            "A program of the source, which is printed in place of the scenario; what stands behind it are its arguments",
        ),
        EXPLAIN,
    ],
    rules: &[],
};

/// A command with `compile`.
pub(crate) fn with_compile<'a>(
    alloc: Global,
    command: Command<'a>,
) -> Result<Command<'a>, AllocError> {
    with_command(alloc, command, &COMPILE)
}

/// The words of `compile` that were found, and the arguments that stand behind them.
pub(crate) fn compile_of<'a>(found: &ArgMatches<'a>, arguments: &'a [String]) -> CompileWords<'a>
    ensures { IsCompile (rows_of (found_of found.now)) (map string_bytes arguments.now) result }
{
    CompileWords {
        source: word_of(found, "FILE"),
        program: word_of(found, "NAME"),
        arguments,
        explain: flag_of(found, "explain"),
    }
}
