//! The command line of `store`.
ghost use Rattle.std.specs.Prelude.{◌≡◌, codes, IfOk, map, option_map};
ghost use Rattle.clap.specs.Words.{found_of, rows_of};
ghost use Rattle.stm_arguments.specs.Asking.{IsStore, IsShown, IsWhich, range_in, words_at};

use crate::tables::{Beside, Form, Table, with_command};
use crate::words::{Unasked, flag_of, required_word, word_of};
use clap::builder::ValueParser;
use clap::{ArgMatches, Command};
use std::alloc::{AllocError, Global};

const EXAMPLE: &str =
    "Prints the keys that are present in the store of FILE, its live leases and its revision, as the last lines of a report; with
--format json as objects, with --format text for people to read.
With --at its keys as they were at a revision are printed, and with --since what has happened from a revision on, an event a line:
[\"PUT\",KEY,VALUE,CREATE,MOD,VERSION,LEASE] or [\"DELETE\",KEY,REVISION]; of one key with --key, of the keys from FIRST to
before END, by bytes, with --range. A revision that was compacted is refused with status 2, with --at also one that is yet to come.
With --check the file is read whole: yes RECORDS BYTES says that it is as it was written, and no OFFSET Damaged or
no OFFSET NoScenario that the record at that byte is not. Nothing behind such a record is served, and nothing is changed.
Bytes behind the last whole record, of a crash or damaged, are counted on standard error; they stay, but with --compact.
With --compact the file is written anew, as one record without what is below the store's revision, or that of --since, and
yes RECORDS BYTES says how long it is then: revisions, versions and leases stay as they were. Where a runner runs,
or a watcher is open, it is refused with status 2.

A store is kept in a file by stmrun script --store FILE, which makes it where it is missing:

  stmrun script --store kept first.json
  stmrun script --store kept second.json
  stmrun store kept

The second scenario goes on where the first one ended: its store has the keys, leases, watchers and runners of the first.
A report is printed only once its scenario is on the disk. After a crash at any moment the file has each scenario
whose report was printed, and of one that was under way all or nothing.

Beside FILE stand FILE.lock, which one process that writes holds, or several that read, and now and then FILE.next.

Statuses: 0 done or yes, 1 no, 2 usage or no such revision, 3 out of memory, a failed disk or device, or a store that another process has open.";

/// The words of a range of keys.
const RANGE: &[&str] = &["FIRST", "END"];

/// The words of `store`.
#[derive(Clone, Copy)]
pub struct StoreWords<'a> {
    /// The path of the store.
    pub store: &'a str,
    /// The format of what it has now, by its name.
    pub format: Option<&'a str>,
    /// What of it is printed.
    pub shown: Shown<'a>,
}

/// What of a store that is kept is printed.
#[derive(Clone, Copy)]
pub enum Shown<'a> {
    /// What it has now.
    Now,
    /// The keys that it had at the revision of this word.
    At(&'a str),
    /// What has happened to these keys from the revision of this word on.
    Since(&'a str, Which<'a>),
    /// Whether its file is whole.
    Whole,
    /// How many records its file has once what is below the revision of this word, or else the store's, is dropped.
    Compacted(Option<&'a str>),
}

/// Of which keys the events are printed.
#[derive(Clone, Copy)]
pub enum Which<'a> {
    /// Of every key.
    All,
    /// Of this one.
    Key(&'a str),
    /// Of those from the first to before the second.
    Range(&'a str, &'a str),
}

/// The command `store`.
const STORE: Table = Table {
    name: "store",
    about: "Prints what a store that is kept in a file has",
    example: EXAMPLE,
    arguments: &[
        ("FILE", Form::Required, "The file of the store"),
        (
            "format",
            Form::Value("FORMAT", ValueParser::String),
            "lines (the default), json or text",
        ),
        ("check", Form::Flag, "Whether the file is whole"),
        (
            "compact",
            Form::Flag,
            "Drop what is below the present revision, or that of --since",
        ),
        (
            "at",
            Form::Value("REVISION", ValueParser::String),
            "The keys at this revision",
        ),
        (
            "since",
            Form::Value("REVISION", ValueParser::String),
            "The events from this revision on",
        ),
        (
            "key",
            Form::Value("KEY", ValueParser::String),
            "Only the events of this key",
        ),
        (
            "range",
            Form::Texts(RANGE),
            "Only the events of the keys from FIRST to before END",
        ),
    ],
    rules: &[
        (
            "format",
            Beside::Without,
            &["at", "since", "check", "compact"],
        ),
        ("check", Beside::Without, &["at", "since"]),
        ("compact", Beside::Without, &["at", "check"]),
        ("at", Beside::Without, &["since"]),
        ("key", Beside::With, &["since"]),
        ("range", Beside::With, &["since"]),
        ("range", Beside::Without, &["key"]),
    ],
};

/// A command with `store`.
pub(crate) fn with_store<'a>(
    alloc: Global,
    command: Command<'a>,
) -> Result<Command<'a>, AllocError> {
    with_command(alloc, command, &STORE)
}

/// The two keys of a range, where there are two words.
#[tactic(auto, using(crate::proofs::RangeLemmas::of_two, crate::proofs::RangeLemmas::of_others))]
fn range_in<'a>(words: &[&'a str]) -> Option<(&'a str, &'a str)>
    ensures { option_map (λ keys. (keys.0.now, keys.1.now)) result ≡ range_in (map (λ word. word.now) words.now) }
{
    if words.len() == 2 {
        Some((words[0], words[1]))
    } else {
        None
    }
}

/// The first key of a range, and the one that ends it, where they are named.
fn range_of<'a>(found: &ArgMatches<'a>) -> Option<(&'a str, &'a str)>
    ensures { option_map (λ keys. (keys.0.now, keys.1.now)) result ≡ range_in (words_at (codes "range") (rows_of (found_of found.now))) }
{
    match found.get_strs("range") {
        Some(words) => range_in(words),
        None => None,
    }
}

/// Of which keys the events are printed.
fn which_of<'a>(found: &ArgMatches<'a>) -> Which<'a>
    ensures { IsWhich (rows_of (found_of found.now)) result }
{
    if let Some(key) = word_of(found, "key") {
        return Which::Key(key);
    }
    match range_of(found) {
        Some((first, end)) => Which::Range(first, end),
        None => Which::All,
    }
}

/// What of a store is printed.
fn shown_of<'a>(found: &ArgMatches<'a>) -> Shown<'a>
    ensures { IsShown (rows_of (found_of found.now)) result }
{
    if flag_of(found, "check") {
        return Shown::Whole;
    }
    if flag_of(found, "compact") {
        return Shown::Compacted(word_of(found, "since"));
    }
    if let Some(revision) = word_of(found, "at") {
        return Shown::At(revision);
    }
    match word_of(found, "since") {
        Some(revision) => Shown::Since(revision, which_of(found)),
        None => Shown::Now,
    }
}

/// The words of `store` that were found.
pub(crate) fn store_of<'a>(found: &ArgMatches<'a>) -> Result<StoreWords<'a>, Unasked>
    ensures { IfOk result (IsStore (rows_of (found_of found.now))) }
{
    let store = required_word(found, "FILE")?;
    let format = word_of(found, "format");
    let shown = shown_of(found);
    Ok(StoreWords {
        store,
        format,
        shown,
    })
}
