//! What is said of words and signs that people bring along from other languages.

use crate::spots::{Place, Spot, open_behind};
use crate::wanted::{begins_anew_at, is_behind_number_name, is_level};

/// The first of these that says something; nothing where none does.
pub(crate) fn first_said(all: &[&'static str]) -> &'static str {
    match all.iter().find(|said| !said.is_empty()) {
        Some(said) => *said,
        None => "",
    }
}

/// What is said of words that have no place in a source, which people know from elsewhere; nothing of others.
pub(crate) fn said_of_word(word: &str) -> &'static str {
    match word {
        "var" => "a new variable is let NAME = VALUE",
        "const" => "a constant is let NAME = VALUE",
        "func" | "fn" | "def" => "a program is program NAME(PARAMETER, ..) { .. }",
        "switch" | "case" | "match" => "choices are if, else if and else",
        "elif" | "elsif" | "elseif" => "another choice is else if CONDITION { .. }",
        "els" | "esle" => "the other choice of an if is else { .. }",
        "and" | "or" => "conditions are joined by && and ||",
        "not" => "a condition is turned round by !( .. )",
        "while" | "loop" | "range" =>
            "a loop is for NAME in 0..COUNT { .. }, or for NAME in ITEM, ITEM { .. }",
        "nil" | "null" | "none" | "None" => "an absent key has the value \"\"",
        "true" | "false" => "no value is true or false: a condition compares two values",
        "delete" => "a key is deleted by del(KEY)",
        "print" | "println" => "a value is put out by emit(VALUE)",
        "panic" | "error" | "throw" | "raise" | "fail" => "a run is broken off by abort(TEXT)",
        "assert" => "what is not to be stands in an if: if CONDITION { abort(TEXT) }",
        "err" =>
            "nothing gives an error: a fault or abort(TEXT) ends the run, and nothing is committed",
        "try" | "catch" | "defer" | "recover" => "a fault ends the run, and nothing is committed",
        "go" | "async" | "await" | "select" => "what runs beside others has a start of its own",
        "map" => "a map is a key for each of its entries: put(\"m/\" ++ NAME, VALUE)",
        "invariant" => {
            "a rule says what is not to be: rule NAME { if CONDITION { abort(TEXT) } }"
        }
        "import" | "package" | "type" | "struct" => {
            "a source has programs, rules and events alone"
        }
        _ => "",
    }
}

/// What is said of a word for how a runner ends, in whose place a value is wanted; nothing of others.
pub(crate) fn said_of_ending(word: &str) -> &'static str {
    match word {
        "committed" | "aborted" | "faulted" | "gaveup" | "ended" =>
            "how a runner ended is a text, in quotes",
        _ => "",
    }
}

/// What is said of a token in the place of an event that has its place in a block, or is the name of a program; nothing of others.
pub(crate) fn said_of_no_event(spot: Spot<'_>) -> &'static str {
    match spot.ahead(0) {
        "put" | "del" => "it stands in a program, or among the operations of txn { .. }",
        "if" | "for" | "emit" | "abort" | "return" => {
            "it stands in a program: program NAME(PARAMETER, ..) { .. }"
        }
        _ if !spot.name().is_empty() && spot.ahead(1) == "(" => {
            "a run begins by start NAME(ARGUMENT, ..)"
        }
        _ => "",
    }
}

/// What is said of a word with which people have a start wait, or of what they put behind it; nothing of others.
pub(crate) fn said_of_waiting(spot: Spot<'_>) -> &'static str {
    let is_behind_runner = match spot.back(0) {
        _ if spot.event != "start" => false,
        "committed" => spot.back(2) == "after",
        _ => spot.back(1) == "after",
    };
    match spot.ahead(0) {
        _ if spot.place != Place::Events || !begins_anew_at(spot) => "",
        "," | "and" | "or" | "&&" | "||" | "after" if is_behind_runner => {
            "a start waits for one runner: after RUNNER, or after RUNNER committed"
        }
        "aborted" | "faulted" | "gaveup" | "ended" if is_behind_runner => {
            "a start waits for an end, whatever it is, by after RUNNER, or for a commit by after RUNNER committed"
        }
        "committed" => "it stands behind the runner that a start waits for: after RUNNER committed",
        "after" if matches!(spot.back(1), "rule" | "finally") || spot.event != "start" => {
            "it stands in a start alone: start NAME(ARGUMENT, ..) after RUNNER"
        }
        "as" | "at" | "limit" | "after" if spot.event == "start" => "it stands once in a start",
        _ => "",
    }
}

/// What is said of a name or a symbol outside of all brackets, behind an event; nothing of others.
pub(crate) fn said_of_event(spot: Spot<'_>) -> &'static str {
    match (spot.ahead(0), spot.event) {
        ("begin", _) if !is_behind_number_name(spot) => "it stands before all other events, once",
        ("prefix", _) => "the keys of a range are watch FIRST..END",
        ("commit" | "commits", "start") => {
            "a runner that waits for a commit has after RUNNER committed"
        }
        (word, "start") if is_level(word) => "a level stands behind at",
        ("Snapshot" | "snapshot", _) => "the level is SerializableSnapshot",
        (";", _) => "events stand one behind another, without it",
        ("}" | ")", _) => "no bracket is open before it",
        ("/", _) => "a comment begins with //",
        ("-", _) => "a name has letters, digits and _ alone",
        (",", _) if spot.back(1) == "grant" => {
            "a time to live stands behind ttl: grant ID ttl SECONDS"
        }
        (",", "step") => "runners stand one behind another, without it",
        (",", "start") => "each run has a start of its own",
        ("(", _) if is_behind_number_name(spot) => "an event has its numbers without parentheses",
        _ => said_of_declaration(spot),
    }
}

/// What is said of the bracket behind the name of a program, a rule or a final; nothing of others.
fn said_of_declaration(spot: Spot<'_>) -> &'static str {
    match (spot.back(1), spot.ahead(0)) {
        ("program", "{") => {
            "a program has parentheses behind its name: program NAME(PARAMETER, ..) { .. }"
        }
        ("rule", "(") => "a rule has no parameters: rule NAME { .. }",
        ("finally", "(") => "a final has no parameters: finally NAME { .. }",
        _ => "",
    }
}

/// What is said of a token among the operations of a transaction; nothing of others.
pub(crate) fn said_of_operation(spot: Spot<'_>) -> &'static str {
    match spot.ahead(0) {
        "," => "operations stand one behind another, without it",
        "if" => "compares stand before the braces: txn if COMPARE && .. { .. } else { .. }",
        _ => said_of_lease(spot),
    }
}

/// What is said of the word behind which people expect a put's lease; nothing of others.
pub(crate) fn said_of_lease(spot: Spot<'_>) -> &'static str {
    match (spot.back(0), spot.ahead(0)) {
        (")", "with") => "a lease is the last value of put(KEY, VALUE, LEASE)",
        _ => "",
    }
}

/// What is said of digits that go on with letters.
pub(crate) fn said_of_digits(spot: Spot<'_>) -> &'static str {
    match spot.back(1) {
        "grant" | "keep" | "revoke" => {
            "a number has the digits 0 to 9 alone: of a lease that etcdctl prints, printf %d 0xID makes one"
        }
        _ => "a number has the digits 0 to 9 alone",
    }
}

/// Whether all brackets of a source are closed.
pub(crate) fn closes_all(spot: Spot<'_>) -> bool {
    let mut open = 0;
    for token in spot.before {
        open = open_behind(open, token);
    }
    for token in spot.from {
        open = open_behind(open, token);
    }
    open == 0
}

/// What is said behind a word in a block that stands outside of blocks alone.
pub(crate) fn said_of_outer(spot: Spot<'_>) -> &'static str {
    if !closes_all(spot) {
        return ": a } is missing before it";
    }
    if spot.name() == "txn" {
        return ", and a program is one transaction as a whole: if get(KEY) == TEXT { put(KEY, VALUE) }";
    }
    ""
}
