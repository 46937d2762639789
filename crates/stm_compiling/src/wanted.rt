//! What is wanted in a place of a source.

use crate::calls::{behind_asked, behind_value, is_argument, is_asked, is_parameter, value_in};
use crate::compares::{is_chained, wanted_of_compares};
use crate::forms::form_of;
use crate::spots::{Place, Spot, is_comparison, is_one_of, spelled};
use std::alloc::{AllocError, Global};
use stm_explain::Said;
use stm_tokens::TokenKind;
use strsim::osa_distance;

/// A word of more bytes than this has no near miss.
const MOST_NEAR: usize = 60;

/// The words that begin an event, or what stands beside events.
pub const EVENTS: [&str; 16] = [
    "program", "start", "step", "txn", "grant", "keep", "revoke", "advance", "watch", "poll",
    "cancel", "compact", "begin", "rule", "finally", "let",
];

/// What may stand behind the program of a start.
const OPTIONS: [&str; 19] = [
    "as", "at", "limit", "after", "program", "start", "step", "txn", "grant", "keep", "revoke",
    "advance", "watch", "poll", "cancel", "compact", "rule", "finally", "let",
];

const ORDERS: [&str; 4] = ["==", "!=", "<", ">"];

/// What is wanted where one of these words may begin it.
pub(crate) const EVENT_NOUN: &str = "event";

/// The same behind the program of a start.
pub(crate) const OPTION_NOUN: &str = "event, and nothing of a start";

/// The same in a program.
pub(crate) const STATEMENT: &str = "statement";

const STATEMENTS: [&str; 8] = ["put", "del", "emit", "abort", "let", "if", "for", "return"];

/// What is wanted in a program behind a whole statement, where no word stands.
const STATEMENT_OR_END: &str = "an operator, a statement, or the } that ends the block";

/// The words behind which the parentheses of a value stand.
pub(crate) const FUNCTIONS: [&str; 4] = ["get", "rev", "num_of", "text_of"];

const OPERATIONS: [&str; 3] = ["put", "get", "del"];

const COMPARES: [&str; 5] = ["mod", "create", "version", "lease", "value"];

const LEVELS: [&str; 4] = [
    "ReadCommitted",
    "RepeatableReads",
    "Serializable",
    "SerializableSnapshot",
];

/// The signs behind which a value is wanted, beside those that compare two.
const OPERATORS: [&str; 13] = [
    "(", ",", "..", "=", "+=", "-=", "++=", "+", "-", "*", "/", "%", "++",
];

/// The names behind which a number stands.
const NUMBER_NAMES: [&str; 12] = [
    "begin", "limit", "grant", "ttl", "keep", "revoke", "to", "poll", "max", "cancel", "compact",
    "from",
];

/// Whether a word is a level.
pub(crate) fn is_level(word: &str) -> bool {
    is_one_of(word, &LEVELS)
}

/// What is wanted in a place.
#[derive(Clone, Copy)]
pub(crate) enum Wanted {
    /// One of these words, which begin such a thing; with others beside them, where that text is not empty.
    Words(&'static str, &'static [&'static str], &'static str),
    /// Something that this text says.
    Said(&'static str),
    /// An operator, or what this text says.
    OperatorOr(&'static str),
}

/// Whether what stands before a place is a name behind which a number stands.
pub(crate) fn is_behind_number_name(spot: Spot<'_>) -> bool {
    is_one_of(spot.back(0), &NUMBER_NAMES)
}

/// What is wanted where a number stands, of which a name has no place in all.
fn number_wanted(spot: Spot<'_>) -> Wanted {
    if spot.name().is_empty() {
        return Wanted::Said("a whole number");
    }
    Wanted::Said("a number as it stands")
}

/// What is wanted behind the words of a declaration, outside of all brackets.
fn behind_declaration(spot: Spot<'_>) -> Option<Wanted> {
    let said = match (spot.back(2), spot.back(1), spot.back(0)) {
        (_, _, "program") => "the name of the program",
        (_, _, "rule" | "finally") => "the name of the rule",
        (_, _, "let") => "the name of the constant",
        (_, "let", _) => "=",
        ("let", _, _) => "a text or a number as it stands, or the name of one,",
        _ if spot.is_in_list() =>
            "a text or a number as it stands, or the name of one, as items are,",
        _ => return None,
    };
    Some(Wanted::Said(said))
}

/// What is wanted behind the first words of an event.
fn behind_name(spot: Spot<'_>) -> Option<Wanted> {
    let said = match (spot.back(1), spot.back(0)) {
        (_, "start") => "the body of a program, { .. }, or a program by its name,",
        (_, "step" | "after") => "a runner, by its number or its name,",
        (_, "as") => "a name",
        (_, "at") => return Some(Wanted::Words("level", &LEVELS, "")),
        (_, "advance") => "to NUMBER",
        (_, "watch") => "a key, which is a text",
        ("start", _) => "the ( of its arguments, () if it has none,",
        _ => return None,
    };
    Some(Wanted::Said(said))
}

/// What is wanted in an event, outside of all brackets, behind what is neither.
fn behind_event(spot: Spot<'_>) -> Wanted {
    let wanted = wanted_of_compares(spot);
    match (spot.back(1), spot.back(0)) {
        _ if !wanted.is_empty() => Wanted::Said(wanted),
        (_, "from") if matches!(spot.back(2), "rule" | "finally") => {
            Wanted::Words("level", &LEVELS, "")
        }
        _ if is_behind_number_name(spot) => number_wanted(spot),
        (_, "*") => Wanted::Said("a number of steps, as in step ana*2,"),
        ("grant", _) => Wanted::Said("ttl SECONDS"),
        ("poll", _) => Wanted::Said("max NUMBER"),
        (_, "txn") => Wanted::Said("if COMPARE, or { .. } with its operations"),
        (_, "if" | "&&") => Wanted::Words("compare", &COMPARES, ""),
        (_, ")") if spot.event == "txn" => Wanted::Words("order", &ORDERS, ""),
        _ if spot.event == "start" => Wanted::Words(OPTION_NOUN, &OPTIONS, ""),
        _ => Wanted::Words(EVENT_NOUN, &EVENTS, ""),
    }
}

/// What is wanted in an event, outside of all brackets.
fn in_event(spot: Spot<'_>) -> Wanted {
    match behind_declaration(spot).or(behind_name(spot)) {
        Some(wanted) => wanted,
        None => behind_event(spot),
    }
}

/// Whether a value is wanted behind what stands before a place: an operator, a comma, an opened parenthesis or a sign of assignment.
pub(crate) fn is_behind_operator(spot: Spot<'_>) -> bool {
    let word = spot.back(0);
    is_comparison(word) || is_one_of(word, &OPERATORS)
}

/// Whether a condition is wanted behind what stands before a place: `if`, `!`, `&&` or `||`, with opened parentheses or without.
pub(crate) fn is_behind_condition_word(spot: Spot<'_>) -> bool {
    match spot.before.iter().rev().find(|token| spelled(token) != "(") {
        Some(token) => matches!(spelled(token), "if" | "!" | "&&" | "||"),
        None => false,
    }
}

/// Whether what stands before a place is a word behind which an opened parenthesis stands.
fn is_behind_call(spot: Spot<'_>) -> bool {
    form_of(spot.back(0)).is_some()
}

/// Whether a block begins behind a loop's count: that needs its greatest number of turns, where it is no number.
fn is_count_without_max(spot: Spot<'_>) -> bool {
    spot.ahead(0) == "{" && spot.back(1) != "max" && spot.is_in_count()
}

/// What is wanted in a program, where a new statement may begin.
fn statement_or_more(spot: Spot<'_>) -> Wanted {
    let is_before_a_block = spot.is_before_a_block();
    match spot.kind() {
        _ if is_before_a_block && is_chained(spot) => Wanted::Said("&&, as in 1 < n && n < 3,"),
        _ if is_before_a_block && is_count_without_max(spot) => {
            Wanted::OperatorOr("max NUMBER, since the count is no number as it stands,")
        }
        _ if is_before_a_block => Wanted::Said("an operator, or the { of the block,"),
        Some(TokenKind::Name(_) | TokenKind::Word(_)) => {
            Wanted::Words(STATEMENT, &STATEMENTS, ", or a variable and =")
        }
        _ => Wanted::Said(STATEMENT_OR_END),
    }
}

/// What is wanted in a program, outside of parentheses.
fn in_program(spot: Spot<'_>) -> Wanted {
    let said = match (spot.back(1), spot.back(0)) {
        (_, "let") => "a name",
        (_, "for") => "a name, as in for NAME in 0..COUNT max 100 { .. },",
        ("let", _) => "=",
        ("for", _) => "in, and 0..COUNT or ITEM, ITEM behind it,",
        (_, "in") => "0..COUNT, or texts or numbers with commas between them,",
        _ if is_behind_call(spot) => "(",
        (_, "!") => "a condition in parentheses, !( .. ),",
        _ if is_behind_condition_word(spot) => "a condition, which compares two values",
        _ if is_behind_operator(spot) => "a value",
        _ => return statement_or_more(spot),
    };
    Wanted::Said(said)
}

/// What is wanted in parentheses where a value begins, behind the `(` or a comma.
fn behind_opening(spot: Spot<'_>) -> &'static str {
    match spot.back(0) {
        _ if is_parameter(spot) => "the name of a parameter",
        "," if spot.event == "txn" && matches!(spot.kind(), Some(TokenKind::Number(_))) => {
            "a text, in quotes,"
        }
        "(" if is_asked(spot) => "a runner, by its name without quotes or its number,",
        _ if is_argument(spot) => "a text or a number as it stands, or the name of one,",
        _ => value_in(spot),
    }
}

/// What is wanted in parentheses.
fn in_parentheses(spot: Spot<'_>) -> Wanted {
    let said = match spot.back(0) {
        _ if is_behind_call(spot) => "(",
        "(" | "," => behind_opening(spot),
        _ if is_behind_operator(spot) => "a value",
        _ if is_asked(spot) => behind_asked(spot),
        _ if is_argument(spot) => {
            "a comma, or the ) behind the arguments, which are texts and numbers as they stand,"
        }
        _ if is_parameter(spot) => {
            "a comma, or the ) behind the parameters, which have names and no types,"
        }
        _ if spot.event == "txn" => behind_value(spot),
        _ => return Wanted::OperatorOr(behind_value(spot)),
    };
    Wanted::Said(said)
}

/// Whether the sign of a number stands before a place: a `-` where a value may begin.
pub(crate) fn is_behind_sign(spot: Spot<'_>) -> bool {
    let is_symbol = match spot.before.iter().rev().nth(1) {
        Some(token) => matches!(token.kind, TokenKind::Symbol(_)),
        None => false,
    };
    is_symbol && spot.back(1) != ")" && spot.back(0) == "-"
}

/// What is wanted in a place.
pub(crate) fn wanted_at(spot: Spot<'_>) -> Wanted {
    match (spot.place, spot.back(0)) {
        _ if is_behind_sign(spot) => Wanted::Said("a number as it stands, and else 0 - VALUE,"),
        (_, "else") if spot.back(1) == ")" => {
            Wanted::Said("a text: as it stands, a name, get(..), or a value in parentheses,")
        }
        (Place::Events, _) => in_event(spot),
        (Place::Statements, _) => in_program(spot),
        (Place::Operations, _) if is_behind_call(spot) => Wanted::Said("("),
        (Place::Operations, _) => Wanted::Words("operation", &OPERATIONS, ""),
        (Place::Parentheses, _) => in_parentheses(spot),
    }
}

/// Whether a statement, an event or what stands beside events may begin in a place.
pub(crate) fn begins_anew_at(spot: Spot<'_>) -> bool {
    match wanted_at(spot) {
        Wanted::Words(noun, _, _) => is_one_of(noun, &[STATEMENT, EVENT_NOUN, OPTION_NOUN]),
        Wanted::Said(said) => said == STATEMENT_OR_END,
        Wanted::OperatorOr(_) => false,
    }
}

/// Which numbers may stand in a place.
pub(crate) fn numbers_at(spot: Spot<'_>) -> &'static str {
    match (spot.back(0), spot.place) {
        ("max" | "..", Place::Statements) => "0 to 1000",
        ("max" | "..", _) => "0 to 9223372036854775807",
        ("begin", _) => "1 to 9223372036854775806",
        ("limit", _) if spot.event == "begin" => "1 to 128",
        ("limit", _) => "0 to 4294967295",
        (_, Place::Events | Place::Operations) => "0 to 9223372036854775807",
        _ => "-9223372036854775808 to 9223372036854775807, and as a lease from 0 on",
    }
}

/// The word of these that is nearest to one, by edits of characters and exchanges of two neighbours: an empty one, where each is further than half of the word.
pub(crate) fn nearest<'a>(
    alloc: Global,
    words: &[&'a str],
    word: &str,
) -> Result<&'a str, AllocError> {
    let mut found = "";
    if word.len() > MOST_NEAR {
        return Ok(found);
    }
    let mut least = word.chars().count() / 2 + 1;
    for known in words {
        let distance = osa_distance(alloc, word, known)?;
        if distance < least {
            least = distance;
            found = *known;
        }
    }
    Ok(found)
}

/// These words, with commas between them.
fn listed(alloc: Global, words: &[&str]) -> Said {
    let mut text = String::new(alloc);
    for (index, word) in words.iter().enumerate() {
        if index > 0 {
            text.push_str(", ")?;
        }
        text.push_str(word)?;
    }
    Ok(text)
}

/// The words of a table, what stands beside them, and that of them which is nearest to one that is not among them.
pub(crate) fn allowed(alloc: Global, words: &[&str], beside: &str, word: &str) -> Said {
    let list = listed(alloc, words)?;
    let near = nearest(alloc, words, word)?;
    if near.is_empty() {
        return format!(in alloc; "one of {list}{beside}");
    }
    format!(in alloc; "one of {list}{beside}; the nearest is {near}")
}
