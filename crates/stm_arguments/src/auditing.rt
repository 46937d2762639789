//! The command line of `audit`.
ghost use Rattle.std.specs.Prelude.{◌≡◌};
ghost use Rattle.clap.specs.Words.{found_of, rows_of};
ghost use Rattle.stm_arguments.specs.Asking.{IsAudit};

use crate::exploring::FORMATS;
use crate::tables::{EXPLAIN, Form, Table, with_command};
use crate::words::{flag_of, word_of};
use clap::builder::ValueParser;
use clap::{ArgMatches, Command};
use std::alloc::{AllocError, Global};

const EXAMPLE: &str =
    "A trace is a JSON array of commits, in the order in which the store took them:

  [LEVEL,REVISION,[[KEY,VALUE,MOD,OF],..],[WRITE,..]]

REVISION is the store's after the commit. A read says what KEY had at the revision OF: VALUE, null where it was absent, and
the modification revision MOD, 0 where it was absent. A WRITE is [\"put\",KEY,VALUE] or [\"del\",KEY]. The end of a lease is a
commit that deletes its keys. A trace has every commit since its first one, before which no key is present, unless the first
element is

  [\"begin\",REVISION,[[KEY,VALUE,MOD],..]]

the store's revision before the first commit, and the keys that were present then, ascending by bytes. If t.json holds

  [[\"ReadCommitted\",2,[[\"n\",null,0,1]],[[\"put\",\"n\",\"1\"]]],
   [\"ReadCommitted\",3,[[\"n\",null,0,1]],[[\"put\",\"n\",\"1\"]]]]

then stmrun audit t.json prints that the second one overwrote what the first one put, and how many commits there are:

  [\"found\",2,\"LostUpdate\",\"n\",0,2]
  [\"commits\",2]

COMMIT, ANOMALY, KEY, the modification revision that was read and the one at the commit stand after \"found\", where the level
allows the anomaly, and after \"broken\", where it promises that it does not come. The anomalies are

  DirtyRead       a read says what its key was not at the revision OF
  LostUpdate      a key that was read had been changed, and the commit writes it
  FracturedRead   the same, and another read shows a change that was made with that one or later
  WriteSkew       the same, by a commit that had read what this one writes
  StaleRead       a key that was read had been changed, and none of these holds
  BlindWrite      a key that is written was put after the transaction's first read

With --format text these lines are in words. A line [\"off\",COMMIT] at the end says that the revision of a commit is not the store's: commits are missing.

Statuses: 0 all promises are kept, 1 one is broken, or commits are missing, 2 bad input or usage, 3 out of memory or a
failed device.";

/// The words of `audit`.
#[derive(Clone, Copy)]
pub struct AuditWords<'a> {
    /// The path of the trace; standard input, where there is none.
    pub trace: Option<&'a str>,
    /// The name of the form of what is printed: lines, where there is none.
    pub format: Option<&'a str>,
    /// Whether a fault is explained.
    pub explain: bool,
}

/// The command `audit`.
const AUDIT: Table = Table {
    name: "audit",
    about: "Says of transactions that committed elsewhere whether each kept its level's promise",
    example: EXAMPLE,
    arguments: &[
        (
            "FILE",
            Form::Optional,
            "The file of the trace, in the place of standard input",
        ),
        (
            "format",
            Form::Value("FORMAT", ValueParser::Names(FORMATS)),
            "The form of what is printed: lines (the default), for programs, or text, for people",
        ),
        EXPLAIN,
    ],
    rules: &[],
};

/// A command with `audit`.
pub(crate) fn with_audit<'a>(
    alloc: Global,
    command: Command<'a>,
) -> Result<Command<'a>, AllocError> {
    with_command(alloc, command, &AUDIT)
}

/// The words of `audit` that were found.
pub(crate) fn audit_of<'a>(found: &ArgMatches<'a>) -> AuditWords<'a>
    ensures { IsAudit (rows_of (found_of found.now)) result }
{
    AuditWords {
        trace: word_of(found, "FILE"),
        format: word_of(found, "format"),
        explain: flag_of(found, "explain"),
    }
}
