//! The command line of `show`.
ghost use Rattle.std.specs.Prelude.{◌≡◌};
ghost use Rattle.clap.specs.Words.{found_of, rows_of};
ghost use Rattle.stm_arguments.specs.Asking.{IsShow};

use crate::tables::{EXPLAIN, Form, Table, with_command};
use crate::words::{flag_of, word_of};
use clap::{ArgMatches, Command};
use std::alloc::{AllocError, Global};

const EXAMPLE: &str =
    "Prints a scenario as a source, in one form: each event on lines of its own, in their order, indented by 4 spaces a block, the
variables under their names v0 to v15, and neighbouring steps in one line. If s.json holds

  [[\"start\",\"Serializable\",1,[[\"if\",[\"eq\",[\"get\",\"a\"],\"\"],[[\"put\",\"a\",\"1\",0]],[]]]],[\"step\",1],[\"step\",1]]

then stmrun show s.json prints

  start {
      if get(\"a\") == \"\" {
          put(\"a\", \"1\")
      }
  } at Serializable limit 1
  step 1 1

With --program the input is a program, as stmrun recipe prints one, and what is printed is the body of a start.

Statuses: 0 done, 2 bad input or usage, 3 out of memory or a failed device.";

/// The words of `show`.
#[derive(Clone, Copy)]
pub struct ShowWords<'a> {
    /// The path of the scenario or of the program; standard input, where there is none.
    pub input: Option<&'a str>,
    /// Whether it is a program.
    pub program: bool,
    /// Whether a fault is explained.
    pub explain: bool,
}

/// The command `show`.
const SHOW: Table = Table {
    name: "show",
    about: "Prints a scenario, or a program, as a source",
    example: EXAMPLE,
    arguments: &[
        (
            "FILE",
            Form::Optional,
            "The file of the scenario or of the program, in the place of standard input",
        ),
        (
            "program",
            Form::Flag,
            "Whether the input is a program, and no scenario",
        ),
        EXPLAIN,
    ],
    rules: &[],
};

/// A command with `show`.
pub(crate) fn with_show<'a>(
    alloc: Global,
    command: Command<'a>,
) -> Result<Command<'a>, AllocError> {
    with_command(alloc, command, &SHOW)
}

/// The words of `show` that were found.
pub(crate) fn show_of<'a>(found: &ArgMatches<'a>) -> ShowWords<'a>
    ensures { IsShow (rows_of (found_of found.now)) result }
{
    ShowWords {
        input: word_of(found, "FILE"),
        program: flag_of(found, "program"),
        explain: flag_of(found, "explain"),
    }
}
