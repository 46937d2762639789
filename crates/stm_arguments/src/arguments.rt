//! What the words of a command line ask for.
ghost use Rattle.std.specs.Prelude.{◌≡◌, map, string_bytes, ◌⊎◌, IfErr, IfOk};
ghost use Rattle.clap.specs.Words.{found_of, kind_of, rows_of, subcommand_rows_of};
ghost use Rattle.stm_arguments.specs.Asking.{AsksAt, AsksBy, IsAsked};
ghost use Rattle.stm_arguments.specs.Statuses.{IsReportedBy};

use crate::auditing::{AuditWords, audit_of, with_audit};
use crate::checking::{CheckWords, check_of, with_check};
use crate::compiling::{CompileWords, compile_of, with_compile};
use crate::exploring::{ExploreWords, explore_of, with_explore};
use crate::recipes::{recipe_of, with_recipe};
use crate::running::{RunWords, run_of, with_run};
use crate::scripting::{ScriptWords, script_of, with_script};
use crate::showing::{ShowWords, show_of, with_show};
use crate::storing::{StoreWords, store_of, with_store};
use crate::threading::{ThreadsWords, threads_of, with_threads};
use crate::words::Unasked;
use clap::error::ErrorKind;
use clap::{ArgMatches, Command, Error};
use std::alloc::{AllocError, Global};
use stm_recipe_lines::RecipeWords;

/// What a command line asks for.
#[derive(Drop)]
pub enum Asked<'a> {
    /// `script`: a scenario is run, and its report is printed.
    Script(ScriptWords<'a>),
    /// `check`: a report is compared with its scenario.
    Check(CheckWords<'a>),
    /// `threads`: the starts of a scenario are run as jobs, by several threads.
    Threads(ThreadsWords<'a>),
    /// `recipe`: the program of a recipe is printed.
    Recipe(RecipeWords<'a>),
    /// `explore`: the interleavings of a scenario are looked through.
    Explore(ExploreWords<'a>),
    /// `audit`: a trace of transactions is judged.
    Audit(AuditWords<'a>),
    /// `show`: a scenario or a program is printed as a source.
    Show(ShowWords<'a>),
    /// `compile`: what a source spells is printed as JSON.
    Compile(CompileWords<'a>),
    /// `run`: a program is run over a store that is kept.
    Run(RunWords<'a>),
    /// `store`: what a store that is kept has is printed.
    Store(StoreWords<'a>),
}

/// What `--version` prints after the name: the program's version, and the kit that it is proved with.
const VERSION: &str = "0.1.0 (rattle-kit-13f)";

const EXAMPLE: &str =
    "A scenario is a source, a file NAME.stm, or JSON. This source has a program that is started twice, and a rule:

  program leave(me, other) {
      if get(other) == \"yes\" { put(me, \"no\") }
  }
  txn { put(\"ana\", \"yes\") put(\"ben\", \"yes\") }
  start leave(\"ana\", \"ben\") as a
  start leave(\"ben\", \"ana\") as b
  rule somebody {
      if get(\"ana\") != \"yes\" && get(\"ben\") != \"yes\" { abort(\"nobody is left\") }
  }

Where it is on_call.stm, this says from which level on the rule is always kept, and shows a schedule that breaks it:

  stmrun explore on_call.stm --level all --format text

stmrun help language has what a source may have. As JSON a scenario is an array of events, in their order:

  [\"start\",LEVEL,LIMIT,PROGRAM]       a runner gets the program, whose run may send LIMIT commits
  [\"step\",RUNNER]                     the runner fetches its list or a key, or commits
  [\"txn\",[CMP,..],[OP,..],[OP,..]]    another client's transaction: compares, success, failure
  [\"grant\",ID,TTL]                    a lease is granted for TTL seconds
  [\"keep\",ID] and [\"revoke\",ID]       a lease is renewed, or ends with its keys
  [\"advance\",NOW]                     the moment is set, and the leases that are due end with their keys
  [\"compact\",REVISION]                the revisions below this one are dropped
  [\"watch_key\",KEY,FROM]              a key is watched from a revision on (0: the next one)
  [\"watch_range\",FIRST,END,FROM]      so are the keys from FIRST to before END, by bytes
  [\"poll\",WATCHER,MAX]                a watcher is given what is pending, of at most MAX revisions
  [\"cancel\",WATCHER]                  a watcher is given up

The first element may be [\"begin\",REVISION] or [\"begin\",REVISION,OPERATIONS]: the revision at which the store opens, and
how many operations it takes in each list of a transaction, 1 to 128.

LEVEL is ReadCommitted, RepeatableReads, Serializable or SerializableSnapshot. PROGRAM is an array of
statements: stmrun help formats has them, with the compares and operations of a txn, and stmrun help causes
has why a text, an event or a program is refused; stmrun recipe prints ready programs. This scenario starts a program
that puts a key, and lets it take a step:

  [[\"start\",\"Serializable\",1,[[\"put\",\"a\",\"1\",0]]],[\"step\",1]]

Its report has a line for each event, one for each key that is present, one for each live lease, and
the end line:

  [1,\"started\",1]
  [2,\"committed\",1,2,1,[],[],[]]
  [\"key\",\"a\",\"1\",2,2,1,0]
  [\"end\",2,1]

A store that lasts stands in a file: script, threads and run go on from it with --store FILE, and stmrun store FILE
prints what it has (stmrun store --help).

Statuses: 0 done or yes, 1 no, 2 bad input or usage, 3 out of memory, a failed device, or a run of threads
that was broken off; of explore also 1 for a rule that is broken, and 4 where all its moves were made.";

/// The command without its subcommands.
fn bare_command<'a>(alloc: Global) -> Command<'a> {
    Command::new(alloc, "stmrun")
        .about("Runs transactional programs over an etcd-like store, one event at a time")
        .after_long_help(EXAMPLE)
        .version(VERSION)
        .subcommand_required(true)
}

/// The command, with its subcommands in the order of the help.
fn command<'a>(alloc: Global) -> Result<Command<'a>, AllocError> {
    let mut command = bare_command(alloc);
    command = with_script(alloc, command)?;
    command = with_check(alloc, command)?;
    command = with_threads(alloc, command)?;
    command = with_recipe(alloc, command)?;
    command = with_explore(alloc, command)?;
    command = with_audit(alloc, command)?;
    command = with_show(alloc, command)?;
    command = with_compile(alloc, command)?;
    command = with_run(alloc, command)?;
    with_store(alloc, command)
}

/// The status of a command line that is refused, or that asks for help or the version, once its text is printed: 0 for help and
/// version that were printed, 3 where an allocation failed or they could not be printed, and 2 for usage, printed or not.
fn reported<R: Print + Eprint>(rt: &R, error: &Error) -> u8
    ensures { IsReportedBy (kind_of error.now) result }
{
    match error.kind() {
        ErrorKind::OutOfMemory => fail(rt, "stmrun: out of memory", 3),
        ErrorKind::DisplayHelp | ErrorKind::DisplayVersion => match error.print(rt) {
            Ok(()) => 0,
            Err(_) => fail(rt, "stmrun: device fault", 3),
        },
        _ => {
            let _ = error.print(rt);
            2
        }
    }
}

/// The status of a command line that is refused, once the line is printed. That printing fails changes no status.
pub(crate) fn fail<R: Eprint>(rt: &R, line: &str, status: u8) -> u8
    ensures { result ≡ status }
{
    let _ = rt.eprintln(line);
    status
}

/// What the command of this name asks for, by what was found of it and the arguments of a program behind its words.
fn asked_at<'a>(
    alloc: Global,
    name: &str,
    found: &ArgMatches<'a>,
    arguments: &'a [String],
) -> Result<Asked<'a>, Unasked>
    ensures { IfOk result (AsksAt name.now (rows_of (found_of found.now)) (map string_bytes arguments.now)) }
{
    if name == "script" {
        return Ok(Asked::Script(script_of(found)?));
    }
    if name == "check" {
        return Ok(Asked::Check(check_of(found)?));
    }
    if name == "threads" {
        return Ok(Asked::Threads(threads_of(found)?));
    }
    if name == "recipe" {
        return Ok(Asked::Recipe(recipe_of(found)?));
    }
    if name == "explore" {
        return Ok(Asked::Explore(explore_of(alloc, found)?));
    }
    if name == "audit" {
        return Ok(Asked::Audit(audit_of(found)));
    }
    if name == "show" {
        return Ok(Asked::Show(show_of(found)));
    }
    if name == "compile" {
        return Ok(Asked::Compile(compile_of(found, arguments)));
    }
    if name == "run" {
        return Ok(Asked::Run(run_of(found, arguments)?));
    }
    if name == "store" {
        return Ok(Asked::Store(store_of(found)?));
    }
    Err(Unasked::Refused)
}

/// What is asked for by what `clap` has found in a command line, and by the arguments of a program behind its words.
fn asked_by<'a>(
    alloc: Global,
    matches: &ArgMatches<'a>,
    arguments: &'a [String],
) -> Result<Asked<'a>, Unasked>
    ensures { IfOk result (AsksBy (subcommand_rows_of matches.now) (map string_bytes arguments.now)) }
{
    match matches.subcommand() {
        Some((name, found)) => asked_at(alloc, name, found, arguments),
        None => Err(Unasked::Refused),
    }
}

/// Options that there are not, by which people ask for a final, for a rule, and for outcomes.
const FINAL: &str = "--finally";

const RULE: &str = "--rule";

const OUTCOMES: &str = "--outcomes";

/// Which numbers the options take, where a word in the place of one is none.
const NUMBERS: &str =
    "in digits alone, as 1000000: --budget 0 to 18446744073709551615, --width 20 to 1000, --workers 1 to 16, --repeat 1 to 1000000, --attempts 1 to 4294967295";

/// Whether one of these words is an option.
fn have(words: &[String], option: &str) -> bool {
    words.iter().any(|word| word.as_str() == option)
}

/// Whether words have a file of JSON behind the scenario of a search, where a rule has no place.
fn name_a_rule(words: &[String]) -> bool {
    match words {
        [_, command, _, rule, ..] => command.as_str() == "explore"
            && rule.as_str().ends_with(".json"),
        _ => false,
    }
}

/// Whether words have a file in the place of the command.
fn begin_with_a_file(words: &[String]) -> bool {
    match words {
        [_, word, ..] => word.as_str().ends_with(".stm") || word.as_str().ends_with(".json"),
        _ => false,
    }
}

/// How to ask for what these words ask for, and are refused; nothing, where that is not known.
fn tip_for(words: &[String]) -> &'static str {
    if have(words, FINAL) {
        return "a final stands in a source, as finally NAME { .. }: explore FILE.stm asks it, and --keeps FILE.stm:NAME it alone";
    }
    if have(words, RULE) {
        return "explore FILE.stm asks the rules of a source, and --keeps FILE.stm:NAME one of them alone";
    }
    if have(words, OUTCOMES) {
        return "explore prints the outcomes of a file without rules, and with --witness those of any file, each with its schedule";
    }
    if begin_with_a_file(words) {
        return "a command stands before the file: explore FILE goes through every interleaving, and script FILE plays one";
    }
    if name_a_rule(words) {
        return "a rule that is a file of its own is asked by --keeps: explore SCENARIO --keeps RULE.json";
    }
    ""
}

/// What `reported` does, and behind it a tip, where there is one.
fn refused<R: Print + Eprint>(rt: &R, words: &[String], error: &Error) -> u8
    ensures { IsReportedBy (kind_of error.now) result }
{
    let status = reported(rt, error);
    let tip = match error.kind() {
        ErrorKind::ValueValidation => NUMBERS,
        _ => tip_for(words),
    };
    if status == 2 && !tip.is_empty() {
        let _ = rt.eprint("\n  tip: ");
        let _ = rt.eprintln(tip);
    }
    status
}

/// What these words ask for, of which the first is the program's name, with the arguments of a program behind them.
///
/// Where they are refused, or ask for help or the version, the answer was printed, and this is the status: 0 for help and version, 2 for usage, printed
/// or not, and 3 where an allocation failed or help or version could not be printed.
pub fn asked_of<'a, R: Print + Eprint>(
    rt: &R,
    alloc: Global,
    words: &'a [String],
    arguments: &'a [String],
) -> Result<Asked<'a>, u8>
    ensures asked { IfOk result (IsAsked (map string_bytes arguments.now)) }
    ensures status { IfErr result (λ status. (status ≡ 0) ⊎ ((status ≡ 2) ⊎ (status ≡ 3))) }
{
    let Ok(command) = command(alloc) else {
        return Err(fail(rt, "stmrun: out of memory", 3));
    };
    match command.try_get_matches_from(words) {
        Ok(matches) => match asked_by(alloc, &matches, arguments) {
            Ok(asked) => Ok(asked),
            Err(Unasked::OutOfMemory) => Err(fail(rt, "stmrun: out of memory", 3)),
            Err(Unasked::Refused) => Err(fail(rt, "stmrun: bad command line", 2)),
        },
        Err(error) => Err(refused(rt, words, &error)),
    }
}
