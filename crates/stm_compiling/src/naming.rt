//! What is said of a name that cannot stand in its place.

use crate::calls::{is_argument, is_parameter};
use crate::habits::first_said;
use crate::spots::{Place, Spot, behind, is_comparison, last_from, spelled_at};
use crate::wanted::is_behind_number_name;
use stm_tokens::Token;

/// What is said of a function that is none.
pub(crate) const ANY_FUNCTION: &str =
    "the functions are get(KEY), rev(KEY), num_of(TEXT) and text_of(NUMBER)";

/// What is said of a function that people know from elsewhere, by its name; nothing of others.
fn said_of_known(name: &str) -> &'static str {
    match name {
        "atoi" | "Atoi" | "ParseInt" | "parseInt" | "int" => "the number of a text is num_of(TEXT)",
        "itoa" | "Itoa" | "FormatInt" | "str" | "string" | "String" => {
            "the text of a number is text_of(NUMBER)"
        }
        "Sprint" | "Sprintf" => "texts are joined by ++, and text_of(NUMBER) makes one of a number",
        "Get" | "read" => "a key is looked up by get(KEY)",
        "Rev" => "the revision at which a key was put last is rev(KEY)",
        "Put" | "write" => "a key is put by put(KEY, VALUE)",
        "Del" | "Delete" => "a key is deleted by del(KEY)",
        "WithLease" => "a lease is the last value of put(KEY, VALUE, LEASE)",
        "exists" | "Exists" | "has" | "Has" => "a key is there where rev(KEY) != 0",
        "min" | "max" => "an if takes one of two numbers: if NUMBER < n { n = NUMBER }",
        "Print" | "Printf" | "Println" | "Fatal" | "Fatalf" => "a value is put out by emit(VALUE)",
        "New" | "Errorf" | "Wrap" => "a run is broken off by abort(TEXT)",
        "NewSTM" => "a run begins by start NAME(ARGUMENT, ..)",
        "append" | "make" | "push" => {
            "there are no lists to add to: a value is put out by emit(VALUE), and an element is a key of its own"
        }
        "set" | "Set" => "a key is put by put(KEY, VALUE), and a variable set by NAME = VALUE",
        "len"
        | "contains"
        | "Contains"
        | "split"
        | "Split"
        | "HasPrefix"
        | "Fields"
        | "startswith"
        | "startsWith"
        | "Index"
        | "Trim"
        | "TrimPrefix" => {
            "no text is taken apart: each part that a program looks at has a key of its own"
        }
        "now" | "Now" | "time" | "rand" | "random" | "Intn" => {
            "what differs from run to run is an argument of its start"
        }
        "end" | "why" | "out" => "how a runner ended is asked in a finally alone",
        _ => "",
    }
}

/// The same of each name that stands in the place of a function.
pub(crate) fn said_of_function(name: &str) -> &'static str {
    first_said(&[said_of_known(name), ANY_FUNCTION])
}

/// The same of each name that is called as a statement, or as an event.
pub(crate) fn said_of_call(name: &str) -> &'static str {
    first_said(&[said_of_known(name), "a program is called by start alone"])
}

/// Whether a name stands among those of the runners that a start waits for.
pub(crate) fn is_awaited(spot: Spot<'_>) -> bool {
    spot.last_of(&["after", "as", "start"]) == "after"
}

/// Whether a place is in the value of a definition with parameters.
fn is_in_definition(spot: Spot<'_>) -> bool {
    let words = ["let", "program", "rule", "finally", "start", "{"];
    let from = last_from(spot.before, &words);
    spelled_at(from, 0) == "let" && spelled_at(from, 2) == "("
}

/// What is said of a name that stands outside of programs.
fn said_in_event(spot: Spot<'_>) -> &'static str {
    match spot.back(0) {
        _ if spot.is_in_list() || spot.back(2) == "let" => {
            "is no constant above: an item is a text or a number as it stands, or the name of one"
        }
        _ if is_in_definition(spot) => "is no parameter, and no constant or definition above",
        "start" | "=" => {
            "is no program above: program NAME(PARAMETER, ..) { .. } stands before what starts it"
        }
        "program" | "rule" | "finally" | "let" => {
            "cannot be given here: another one has this name, or it is one of v0 to v15"
        }
        "watch" => {
            "is no constant above: a watched key is a text in quotes, watch \"KEY\", or the name of one"
        }
        _ if spot.event == "step" || is_awaited(spot) => {
            "is no runner above: a runner has the name that its start gives it by as NAME, or its number"
        }
        _ if is_behind_number_name(spot) => {
            "is no constant above: a number stands here, or the name of one"
        }
        _ => {
            "cannot be given here: another runner has this name, or it is one of v0 to v15, which are variables"
        }
    }
}

/// Whether a name is given to a list by these tokens from the one before it on: by a `let` with a comma behind the first item, or as a last parameter.
fn gives_list(from: &[Token], name: &str) -> bool {
    let comma = if spelled_at(from, 3) == "-" { 5 } else { 4 };
    let (sign, place) = match spelled_at(from, 0) {
        "let" => (",", comma),
        _ => ("..", 2),
    };
    spelled_at(from, 1) == name && spelled_at(from, place) == sign
}

/// Whether a name is given to a list above.
fn is_list(spot: Spot<'_>) -> bool {
    let name = spot.name();
    !name.is_empty()
        && (0..spot.before.len()).any(|index| gives_list(behind(spot.before, index), name))
}

/// What is said of a name that stands in a program, or in its head.
fn said_in_program(spot: Spot<'_>) -> &'static str {
    match (spot.back(0), spot.ahead(1)) {
        (_, "..") if spot.is_item() => {
            "is no item, and a loop that counts begins at 0: for k in 0..TO - FROM max 100 { let i = FROM + k .. }"
        }
        _ if spot.is_item() => {
            "is no item: those are texts and numbers as they stand, parameters, constants and lists, and no variables"
        }
        ("for", sign) if is_comparison(sign) => {
            "is compared, and a loop has no condition: for NAME in 0..COUNT max 100 { .. }"
        }
        ("let" | "for", _) => {
            "cannot be given here: it is the name of something in sight, or one of v0 to v15, which are never let and stand beside no other names"
        }
        _ if is_parameter(spot) => {
            "cannot be given here: it is the name of something in sight, or one of v0 to v15"
        }
        _ if is_argument(spot) => "is no argument: those are texts and whole numbers",
        _ if spot.call.word == "prefetch" => {
            "is no key of the list: that is a text as it stands, or a parameter"
        }
        ("max", _) => "is no number of turns: that is a number as it stands, or a parameter",
        _ if spot.call.word == "put" && spot.call.values > 1 => {
            "is no lease: that is a number as it stands, or a parameter"
        }
        (_, "=" | "+=" | "-=" | "++=") => {
            "is no variable in sight: a new one is let NAME = VALUE, and a parameter is not set"
        }
        _ if is_list(spot) => {
            "is a list, which stands as an item of a for alone: for NAME in LIST"
        }
        _ => "is no variable and no parameter in sight",
    }
}

/// What is said of a name, behind it, in whose place none of that name can stand.
pub(crate) fn said_of_place(spot: Spot<'_>) -> &'static str {
    match spot.place {
        Place::Events => said_in_event(spot),
        _ => said_in_program(spot),
    }
}

/// Whether a name stands in the place of a function: in a program, with parentheses behind it.
pub(crate) fn is_called(spot: Spot<'_>) -> bool {
    spot.place != Place::Events && spot.ahead(1) == "("
}
