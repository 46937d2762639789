//! The command line of `explore`.
ghost use Rattle.std.specs.Prelude.{◌≡◌, IfOk};
ghost use Rattle.clap.specs.Words.{found_of, rows_of};
ghost use Rattle.stm_arguments.specs.Asking.{IsExplore};

use crate::levels::{Levels, SEARCH_LEVELS, levels_at};
use crate::numbers::{LEAST_WIDTH, MOST_WIDTH, budget_at, width_at};
use crate::tables::{EXPLAIN, Form, Table, with_command};
use crate::words::{Unasked, flag_of, required_word, word_of, words_of};
use clap::builder::ValueParser;
use clap::{ArgMatches, Command};
use std::alloc::{AllocError, Global};

const EXAMPLE: &str = "If s.stm is a source, which has two runners and a rule,

  start { if get(\"b\") == \"\" { put(\"a\", \"1\") } } as ana
  start { if get(\"a\") == \"\" { put(\"b\", \"1\") } } as ben
  rule one { if get(\"a\") == \"1\" && get(\"b\") == \"1\" { abort(\"both\") } }

then stmrun explore s.stm --level all --format text says from which level on the rule is always kept, and shows a schedule
that breaks it:

  one at ReadCommitted: broken after 4 moves: aborted \"both\"

A source may have finals, too, as finally NAME { .. }: they are asked where nothing is left to do, and of how runners ended, as
end(ana) == \"committed\". stmrun help language has both.

The steps of SCENARIO are left out. Its events up to the last start are run first. Then every schedule is looked
at: each way in which the runners' steps and the events after the last start, in their order, can be mixed, and each
beginning of such a way, the shortest first.

With --keeps, PROGRAM is a rule: a program, as a start has one, that is run alone on the state after each schedule. Where
it comes to its last statement the schedule keeps the rule; where it aborts, or comes to a fault, the rule is broken:

  [\"always\",LENGTH]        every schedule keeps it, and the longest has LENGTH moves
  [\"always\",null]          the same, by the orders alone in which the programs run one after another: at levels that
                           compare reads these are enough. They are looked at once 4000 moves decided nothing, and
                           a broken rule that they find need not be the first, nor the shortest
  [\"broken\",LENGTH,END]    this is the first that does not, with [\"aborted\",TEXT] or [\"faulted\",FAULT], and the next line
                           is the scenario with its steps in it, which stmrun script takes
  [\"open\",LENGTH]          N moves were made before that was decided; every schedule of up to LENGTH moves keeps it

PROGRAM is a file of JSON, or a source: FILE.stm for each rule in it, FILE.stm:NAME for one of them, or for a program of it
without parameters. A SCENARIO that is a source asks its own rules where no --keeps is said, and its runners wait as its after
says. Several rules have a line each, which ends with the rule's name, as [\"always\",11,\"at_least_one\"]; the next line, if
one is broken, is the scenario that breaks the first that is.

With --level all the rules are searched for at each level, the weakest first. Each line ends with the level, and the last one is
[\"enough\",LEVEL]: from that level on every schedule keeps them, at none where LEVEL is null.

Where a source has no after, --after 3:1 says that runner 3, as starts are numbered from 1, makes no step before runner 1 has
ended; --after 3:1:committed: none at all unless that one committed. A search in which runners wait asks rules and finals alone,
and looks at no serial orders.

Without a rule, what whole schedules come to is printed, after which no move is left, each once: the keys with their
values, and how each runner ended ([\"committed\",OUTPUT], [\"gaveup\",KEY], [\"aborted\",TEXT], [\"faulted\",FAULT] or
[\"ended\",CAUSE]). Where s.stm has no rule, stmrun explore s.stm --level ReadCommitted prints

  [\"outcome\",[[\"a\",\"1\"],[\"b\",\"1\"]],[[\"committed\",[]],[\"committed\",[]]]]
  [\"outcome\",[[\"a\",\"1\"]],[[\"committed\",[]],[\"committed\",[]]]]
  [\"outcome\",[[\"b\",\"1\"]],[[\"committed\",[]],[\"committed\",[]]]]
  [\"outcomes\",3]

and at Serializable none of the lines has both keys. With --witness a line behind each outcome is the
scenario with the steps of a schedule that comes to it, as short as there is one: stmrun script takes it.

A rule that is always kept says little where a program never committed, a misspelt key is asked for, an event is refused, the
rule has no abort, or nothing is started: standard error says so, and --strict makes the status 1 then, as a check that runs by
itself wants it.

With --serial no rule is needed. It is looked whether each outcome is what some serial order of the runners comes to, in which
one after another makes all its steps, among the events of others. A run that gave up, or that the store ended, has changed
nothing, and counts as one that never began.

  [\"serial\",COUNT]        each of the COUNT outcomes is
  [\"anomaly\",LENGTH,STATE,ENDS]
                           this one is not, and the next line is the scenario with a schedule of LENGTH moves that
                           comes to it
  [\"open\",LENGTH]          N moves were made before that was decided

With --level all there is a line for each level, the weakest first, without the scenario, and then [\"enough\",LEVEL]. With
--witness and --serial a source's rules are not asked.

Where SCENARIO is a source, a source stands in the place of each scenario that is printed. With --format text a table does, as
script --format text prints it, by --width N for a terminal of N characters, and the lines are words; with --level all and a rule, a
last one is the table of the weakest level at which a rule is broken, or, where none is enough, of the strongest.

stmrun help language has what a source may have.

Statuses: 0 always, serial, or all outcomes were found, 1 broken or an anomaly, 2 bad input or usage, 3 out of memory or a
failed device, 4 open.";

/// The names of the forms of what is printed: lines, and words.
pub(crate) const FORMATS: &[&str] = &["lines", "text"];

/// The words of `explore`.
#[derive(Drop)]
pub struct ExploreWords<'a> {
    /// The path of the scenario.
    pub scenario: &'a str,
    /// The rules, in their order: each the path of a program, that of a source, or `SOURCE.stm:NAME`.
    pub keeps: Vec<&'a str>,
    /// At which levels the starts are taken.
    pub levels: Levels,
    /// At most this many moves are made.
    pub budget: u64,
    /// Which runners wait for which others, as it is spelled.
    pub after: Option<&'a str>,
    /// Whether a schedule is printed of each outcome.
    pub witness: bool,
    /// Whether it is looked whether serial orders come to each outcome.
    pub serial: bool,
    /// Whether an answer that is worth little has status 1.
    pub strict: bool,
    /// The name of the form of what is printed: lines, where there is none.
    pub format: Option<&'a str>,
    /// How many characters wide a table is, from `LEAST_WIDTH` to `MOST_WIDTH`, where that is said.
    pub width: Option<u32>,
    /// Whether a fault is explained.
    pub explain: bool,
}

/// The command `explore`.
const EXPLORE: Table = Table {
    name: "explore",
    about: "Looks through every interleaving of a scenario, for one that breaks a rule or for what they come to",
    example: EXAMPLE,
    arguments: &[
        ("SCENARIO", Form::Required, "The file of the scenario"),
        (
            "keeps",
            Form::Values("PROGRAM"),
            "The file of a rule, which is asked after every schedule: of a program, of a source with rules, or FILE.stm:NAME; as often as need be",
        ),
        (
            "level",
            Form::Value("LEVEL", ValueParser::Names(SEARCH_LEVELS)),
            "The level of every start, in the place of its own; all: a search at each of the four",
        ),
        (
            "budget",
            Form::Value("N", ValueParser::Unsigned(0, u64::MAX)),
            "How many moves are made at most, 1500000 if not said",
        ),
        (
            "after",
            Form::Value("RUNNER:FIRST,..", ValueParser::String),
            "Which runners make no step before another has ended; RUNNER:FIRST:committed: and none at all unless that one committed",
        ),
        (
            "witness",
            Form::Flag,
            "Prints the outcomes of whole schedules, and of each the scenario with a schedule that comes to it",
        ),
        (
            "serial",
            Form::Flag,
            "Looks for an outcome of a whole schedule that no serial order of the runners comes to; no rule is needed",
        ),
        (
            "strict",
            Form::Flag,
            "Status 1 also where a rule is kept, and standard error says why that is worth little, as of a runner that never committed",
        ),
        (
            "format",
            Form::Value("FORMAT", ValueParser::Names(FORMATS)),
            "The form of what is printed: lines (the default), for programs, or text, for people: words, and schedules as tables",
        ),
        (
            "width",
            Form::Value("N", ValueParser::Unsigned(LEAST_WIDTH, MOST_WIDTH)),
            "How many characters wide a table is, from 20 to 1000",
        ),
        EXPLAIN,
    ],
    rules: &[],
};

/// A command with `explore`.
pub(crate) fn with_explore<'a>(
    alloc: Global,
    command: Command<'a>,
) -> Result<Command<'a>, AllocError> {
    with_command(alloc, command, &EXPLORE)
}

/// The words of `explore` that were found.
pub(crate) fn explore_of<'a>(
    alloc: Global,
    found: &ArgMatches<'a>,
) -> Result<ExploreWords<'a>, Unasked>
    ensures { IfOk result (IsExplore (rows_of (found_of found.now))) }
{
    let scenario = required_word(found, "SCENARIO")?;
    let levels = levels_at(word_of(found, "level"))?;
    let budget = budget_at(word_of(found, "budget"))?;
    let after = word_of(found, "after");
    let witness = flag_of(found, "witness");
    let serial = flag_of(found, "serial");
    let strict = flag_of(found, "strict");
    let format = word_of(found, "format");
    let width = width_at(word_of(found, "width"))?;
    let explain = flag_of(found, "explain");
    let keeps = words_of(alloc, found, "keeps")?;
    Ok(ExploreWords {
        scenario,
        keeps,
        levels,
        budget,
        after,
        witness,
        serial,
        strict,
        format,
        width,
        explain,
    })
}
